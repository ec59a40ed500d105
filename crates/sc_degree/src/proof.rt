//! A proof of rounds of any degree, and the verifier's replay of it.
ghost use Rattle.sc_challenger.specs.Parties.{channel_by};
ghost use Rattle.std.specs.Prelude.{◌≡◌, ◌<◌, ◌≤◌, vec_len};

use crate::error::GenericDegreeError;
use crate::transcript::GenericDegreeShape;
use crate::util::RoundPolyInterpolator;
use sc_challenger::Challenger;
use sc_field::{ExtensionField, Field, with_room};
use sc_table::Point;
use sc_transcript::driver::{ClaimedShape, RoundShape};
use sc_transcript::replay::{CameRounds, check_counts, replay};
use sc_transcript::rounds::witness_at;
use std::alloc::Global;

/// What a prover sends: the claim, and what its rounds send.
#[derive(Drop)]
pub struct GenericDegreeProof<F, EF> {
    /// The value that the sum over all rows is claimed to have.
    pub claimed_sum: EF,
    /// The values of each round, the first round first: at node 0, and at the nodes from 2 to the
    /// degree.
    pub round_polys: Vec<Vec<EF>>,
    /// The witness of each round at a positive difficulty, and none without one.
    pub pow_witnesses: Vec<F>,
}

impl<F: Field, EF: ExtensionField<F>> GenericDegreeProof<F, EF> {
    ghost use Rattle.sc_degree.specs.Shapes.{generic_shape};
    ghost use Rattle.sc_degree.specs.Proofs.{proof_wire, generic_replay, LeavesVerify};

    /// How many rounds there are.
    pub fn num_rounds(&self) -> usize
        ensures { result ≡ vec_len self.now.round_polys }
    {
        self.round_polys.len()
    }

    /// Replays the rounds, as many as expected, of a degree and at a difficulty of at most the
    /// challenger's [`Challenger::max_bits`], and answers their challenges in drawing order and
    /// what they leave of the claim. The nodes from 0 to the degree are elements, so the degree is
    /// below the size of the field.
    ///
    /// The answer does not yet mean that the claimed sum is right: the caller has to test that what
    /// is left of the claim is the value of the summed polynomial at the challenges.
    ///
    /// `InvalidDegree` comes exactly at degree 0, else `RoundCountMismatch` exactly where the proof
    /// has another number of rounds, else `PowWitnessCountMismatch` exactly where it has not one
    /// witness a round at a positive difficulty and none without one; they come before any event,
    /// and leave the history as it was. `PolyEvalCountMismatch` names the first round that sends
    /// more or fewer values than the degree, unless the witness of a round before it fails: the
    /// history ends after the rounds before it. `InvalidPowWitness` names the first round whose
    /// witness fails: the history ends with its test. After `NoMemory` the history is as it was, or
    /// ends after the seed, the claimed sum and some of the rounds.
    pub fn verify<C: Challenger<F>>(
        &self,
        alloc: Global,
        challenger: &mut C,
        num_rounds: usize,
        degree: usize,
        pow_bits: usize,
    ) -> Result<(Point<EF>, EF), GenericDegreeError>
        requires nodes { degree < EF.ops.size }
        requires difficulty { pow_bits ≤ (C.party challenger.old).rules.max_bits }
        ensures rules { (C.party challenger.new).rules ≡ (C.party challenger.old).rules }
        ensures left { LeavesVerify EF.number
            (generic_replay EF.ops (channel_by (C.party challenger.old) EF.extension F.ops.size pow_bits)
            (generic_shape num_rounds degree pow_bits) (EF.number self.now.claimed_sum)
            (proof_wire F.number EF.number self.now) (C.party challenger.old).history)
            (C.party challenger.old).history result (C.party challenger.new).history }
    {
        if degree == 0 {
            return Err(GenericDegreeError::InvalidDegree { degree });
        }
        let shape = GenericDegreeShape::new(num_rounds, degree, pow_bits);
        let batch = shape.batch();
        check_counts(batch, self.round_polys.len(), self.pow_witnesses.len())?;
        // What takes memory of its own comes first, so that its refusal leaves all as it was.
        let challenges = with_room(alloc, num_rounds)?;
        let interpolator = RoundPolyInterpolator::new(alloc, degree)?;
        shape.begin::<F, EF, C>(alloc, challenger, self.claimed_sum)?;
        let came = CameOver {
            proof: self,
            interpolator: &interpolator,
        };
        let mut claim = self.claimed_sum;
        let drawn = replay::<F, EF, C, _>(&came, challenger, &mut claim, batch, challenges)?;
        Ok((Point::new(drawn), claim))
    }
}

// The rounds of a proof, as their replay reads them: a claim goes on through the interpolator.
#[derive(Drop)]
struct CameOver<'a, F: Field, EF: ExtensionField<F>> {
    proof: &'a GenericDegreeProof<F, EF>,
    interpolator: &'a RoundPolyInterpolator<EF>,
}

impl<'a, F: Field, EF: ExtensionField<F>> CameRounds<F, EF> for CameOver<'a, F, EF> {
    type Values = &'a [EF];

    ghost use Rattle.sc_definitions.specs.Interpolation.{next_through};
    ghost use Rattle.sc_transcript.specs.Steps.{rounds_on};
    ghost use Rattle.sc_degree.specs.Interpolators.{degree_of};
    ghost use Rattle.sc_degree.specs.Proofs.{proof_wire};

    ghost rounds = { λ s. rounds_on (proof_wire F.number EF.number s.proof.now) };

    ghost witnesses = { λ s. vec_len s.proof.now.pow_witnesses };

    ghost width = { λ s. degree_of s.interpolator.now };

    ghost next = { λ _. next_through EF.ops };

    fn round_at(&self, i: usize) -> (&'a [EF], Option<F>) {
        let proof = self.proof;
        (
            proof.round_polys[i].as_slice(),
            witness_at(&proof.pow_witnesses, i),
        )
    }

    fn next_claim(&self, values: &&'a [EF], claim: EF, challenge: EF) -> EF {
        self.interpolator.eval(values, claim, challenge)
    }
}
