//! What a batch of rounds has played so far.
ghost use Rattle.std.specs.Prelude.{◌≡◌, ◌+◌, ◌<◌, ℕ, [], ◌∷◌, ◌++◌, IfOk, map, vec_len};
ghost use Rattle.std.specs.Option.{option_map_or};
ghost use Rattle.sc_definitions.specs.Transcript.{round_of};
ghost use Rattle.sc_definitions.specs.Channels.{empty_wire, with_rounds};
ghost use Rattle.sc_transcript.specs.Rounds.{IsDue};

use crate::proof::GenericDegreeProof;
use crate::transcript::GenericDegreeShape;
use sc_field::{ExtensionField, Field, NoMemory, with_room};
use std::alloc::Global;

// The proof so far, and the challenges of its rounds.
#[derive(Drop)]
pub(crate) struct Played<F, EF> {
    pub(crate) proof: GenericDegreeProof<F, EF>,
    pub(crate) challenges: Vec<EF>,
}

impl<F: Field, EF: ExtensionField<F>> Played<F, EF> {
    ghost use Rattle.sc_degree.specs.Proofs.{proof_wire};
    ghost use Rattle.sc_degree.specs.Plays.{IsFilled};

    // No round of a batch, with room for all.
    pub(crate) fn new(
        alloc: Global,
        shape: GenericDegreeShape,
        claimed_sum: EF,
    ) -> Result<Self, NoMemory>
        ensures filled { IfOk result (IsFilled shape 0) }
        ensures wire { IfOk result (λ p. proof_wire F.number EF.number p.proof ≡ empty_wire) }
        ensures drawn { IfOk result (λ p. p.challenges.items ≡ []) }
        ensures claimed { IfOk result (λ p. EF.number p.proof.claimed_sum ≡ EF.number claimed_sum) }
    {
        let witnesses = if shape.pow_bits == 0 {
            0
        } else {
            shape.num_rounds
        };
        let proof = GenericDegreeProof {
            claimed_sum,
            round_polys: with_room(alloc, shape.num_rounds)?,
            pow_witnesses: with_room(alloc, witnesses)?,
        };
        let challenges = with_room(alloc, shape.num_rounds)?;
        Ok(Played { proof, challenges })
    }

    // Puts a round of a batch after the others: its values, its witness, and its challenge.
    pub(crate) fn push(
        &mut self,
        shape: GenericDegreeShape,
        values: Vec<EF>,
        witness: Option<F>,
        challenge: EF,
    )
        requires filled { IsFilled shape (vec_len self.old.challenges) self.old }
        requires left { vec_len self.old.challenges < shape.num_rounds }
        requires due { IsDue shape.pow_bits witness }
        ensures filled { IsFilled shape (vec_len self.old.challenges + 1) self.new }
        ensures wire { proof_wire F.number EF.number self.new.proof
            ≡ with_rounds shape.pow_bits (proof_wire F.number EF.number self.old.proof)
            (round_of (map EF.number values.items) (option_map_or F.number witness 0) ∷ []) }
        ensures drawn { self.new.challenges.items ≡ self.old.challenges.items ++ challenge ∷ [] }
        ensures claimed { EF.number self.new.proof.claimed_sum
            ≡ EF.number self.old.proof.claimed_sum }
    {
        self.proof.round_polys.push_reserved(values);
        if let Some(witness) = witness {
            self.proof.pow_witnesses.push_reserved(witness);
        }
        self.challenges.push_reserved(challenge);
    }
}
