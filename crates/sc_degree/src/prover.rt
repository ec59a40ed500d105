//! What plays rounds of any degree, and how it proves.
ghost use Rattle.sc_challenger.specs.Parties.{channel_by};
ghost use Rattle.std.specs.Prelude.{◌≡◌, ◌+◌, ◌<◌, ◌≤◌, [], ◌∷◌, map, vec_len, IfOk, OnOk};
ghost use Rattle.sc_definitions.specs.Interpolation.{next_through, node_values};
ghost use Rattle.sc_definitions.specs.Rounds.{claim_along};
ghost use Rattle.sc_transcript.specs.Drivers.{channel_of, Continues, HasRoundLeft, IsDone};
ghost use Rattle.sc_transcript.specs.Transcripts.{driver_in};
ghost use Rattle.sc_degree.specs.Shapes.{generic_shape};
ghost use Rattle.sc_degree.specs.Proofs.{proof_wire};
ghost use Rattle.sc_degree.specs.Provers.{Prover, IsTied, IsFolded, play_of, LeavesPlay};
ghost use Rattle.sc_degree.specs.Plays.{IsReady, HasNoRound, playing, LeavesRound, LeavesProgress};

use crate::error::GenericDegreeError;
use crate::played::Played;
use crate::proof::GenericDegreeProof;
use crate::transcript::{GenericDegreeShape, ProverTranscript};
use sc_challenger::Challenger;
use sc_field::{ExtensionField, Field, NoMemory};
use sc_table::Point;
use sc_transcript::driver::ClaimedShape;
use std::alloc::Global;

/// What plays rounds of any degree: a polynomial of several variables, each of at most that degree,
/// whose sum over all rows is claimed. Each round binds the first variable that is left.
pub trait RoundProver<EF: Field> {
    // The degree, how many variables are left, and, after each list of challenges, the polynomial
    // of the round and the true claim.
    ghost meaning: { Self → Prover };

    /// The degree of the rounds' polynomials, which is how many values a round sends.
    fn degree(&self) -> usize
        ensures { result ≡ (meaning self.now).degree };

    /// How many variables are left.
    fn num_variables(&self) -> usize
        ensures { result ≡ (meaning self.now).variables };

    /// Binds the next variable at `r`. At least one is left.
    fn fold(&mut self, r: EF)
        requires { 0 < (meaning self.old).variables }
        ensures { IsFolded (EF.number r ∷ []) (meaning self.old) (meaning self.new) };

    /// The values of the next round's polynomial at node 0 and at the nodes from 2 to the degree,
    /// as many as the degree. A variable is left, and the nodes are elements.
    fn round_poly(&self, alloc: Global) -> Result<Vec<EF>, NoMemory>
        requires left { 0 < (meaning self.now).variables }
        requires nodes { (meaning self.now).degree < EF.ops.size }
        ensures { IfOk result (λ v. map EF.number v.items
            ≡ node_values EF.ops (meaning self.now).degree ((meaning self.now).polynomial [])) };

    // The true claims are those of the polynomials.
    ghost tied: { (p : Self) → IsTied EF.ops (meaning p) };

    /// Plays so many rounds, and answers the proof and the challenges in drawing order. The claimed
    /// sum is observed as it is given, and not tested. Where it is the true claim, what the rounds
    /// leave of it is the true claim at the challenges.
    ///
    /// The degree is the prover's own, from one on, and its nodes are elements; there are at most
    /// as many rounds as variables are left, and the difficulty is at most the challenger's
    /// [`Challenger::max_bits`].
    ///
    /// `NoWitness` names the round in which the difficulty is positive and no element of the base
    /// field passes; the history then ends with that round's values, and the prover has folded in
    /// the challenges of the rounds before it. After `NoMemory` history and prover are as they
    /// were, or are those after the seed, the claimed sum and some of the rounds.
    final fn prove<F: Field, C: Challenger<F>>(
        &mut self,
        alloc: Global,
        challenger: &mut C,
        num_rounds: usize,
        degree: usize,
        pow_bits: usize,
        claimed_sum: EF,
    ) -> Result<(GenericDegreeProof<F, EF>, Point<EF>), GenericDegreeError>
    where
        EF: ExtensionField<F>,
        requires degree { degree ≡ (meaning self.old).degree }
        requires some { 1 ≤ degree }
        requires nodes { degree < EF.ops.size }
        requires variables { num_rounds ≤ (meaning self.old).variables }
        requires difficulty { pow_bits ≤ (C.party challenger.old).rules.max_bits }
        ensures rules { (C.party challenger.new).rules ≡ (C.party challenger.old).rules }
        ensures left { LeavesPlay F.number EF.number (play_of EF.ops
            (channel_by (C.party challenger.old) EF.extension F.ops.size pow_bits)
            (generic_shape num_rounds degree pow_bits) (EF.number claimed_sum)
            (C.party challenger.old).history) (meaning self.old) (meaning self.new) result
            (C.party challenger.new).history }
        ensures true_claim { IfOk result (λ x. EF.number claimed_sum ≡ (meaning self.old).claim []
            → claim_along (next_through EF.ops) (EF.number claimed_sum)
            (proof_wire F.number EF.number x.0).messages (map EF.number x.1)
            ≡ (meaning self.old).claim (map EF.number x.1)) }
    {
        let shape = GenericDegreeShape::new(num_rounds, degree, pow_bits);
        play_batch(alloc, self, challenger, shape, claimed_sum)
    }
}

// Makes room for what a batch plays, begins it, and plays its rounds.
fn play_batch<F: Field, EF: ExtensionField<F>, C: Challenger<F>, P: RoundProver<EF>>(
    alloc: Global,
    prover: &mut P,
    challenger: &mut C,
    shape: GenericDegreeShape,
    claimed_sum: EF,
) -> Result<(GenericDegreeProof<F, EF>, Point<EF>), GenericDegreeError>
    requires degree { shape.degree ≡ (P.meaning prover.old).degree }
    requires some { 1 ≤ shape.degree }
    requires nodes { shape.degree < EF.ops.size }
    requires variables { shape.num_rounds ≤ (P.meaning prover.old).variables }
    requires difficulty { shape.pow_bits ≤ (C.party challenger.old).rules.max_bits }
    ensures rules { (C.party challenger.new).rules ≡ (C.party challenger.old).rules }
    ensures left { LeavesPlay F.number EF.number (play_of EF.ops
        (channel_by (C.party challenger.old) EF.extension F.ops.size shape.pow_bits)
        shape (EF.number claimed_sum) (C.party challenger.old).history)
        (P.meaning prover.old) (P.meaning prover.new) result (C.party challenger.new).history }
    ensures true_claim { IfOk result (λ x. EF.number claimed_sum ≡ (P.meaning prover.old).claim []
        → claim_along (next_through EF.ops) (EF.number claimed_sum)
        (proof_wire F.number EF.number x.0).messages (map EF.number x.1)
        ≡ (P.meaning prover.old).claim (map EF.number x.1)) }
{
    let mut played = Played::new(alloc, shape, claimed_sum)?;
    shape.begin::<F, EF, C>(alloc, challenger, claimed_sum)?;
    let mut transcript = ProverTranscript::over(challenger, shape);
    match play(alloc, prover, &mut transcript, &mut played) {
        Ok(()) => {
            transcript.finish();
            Ok((played.proof, Point::new(played.challenges)))
        }
        Err(error) => {
            transcript.abort();
            Err(error)
        }
    }
}

// Plays all rounds of a batch that was begun.
fn play<F: Field, EF: ExtensionField<F>, C: Challenger<F>, P: RoundProver<EF>>(
    alloc: Global,
    prover: &mut P,
    transcript: &mut ProverTranscript<'_, C, F, EF>,
    played: &mut Played<F, EF>,
) -> Result<(), GenericDegreeError>
    requires ready { IsReady EF.ops.size (driver_in transcript.old) (P.meaning prover.old) played.old }
    requires fresh { HasNoRound (playing F.number EF.number (driver_in transcript.old) (P.meaning prover.old) played.old) }
    ensures continues { Continues (driver_in transcript.old) (driver_in transcript.new) }
    ensures all { OnOk result (IsDone (driver_in transcript.new)) }
    ensures rounds { LeavesProgress EF.ops (channel_of EF.extension (driver_in transcript.old))
        (driver_in transcript.old).shape.num_rounds
        (playing F.number EF.number (driver_in transcript.old) (P.meaning prover.old) played.old)
        (playing F.number EF.number (driver_in transcript.new) (P.meaning prover.new) played.new)
        result }
{
    let shape = transcript.shape();
    for _round in 0..shape.num_rounds {
        match play_round(alloc, prover, transcript, played) {
            Ok(()) => {}
            Err(error) => return Err(error),
        }
    }
    Ok(())
}

// Plays the next round: sends what the prover says, and folds in the challenge.
fn play_round<F: Field, EF: ExtensionField<F>, C: Challenger<F>, P: RoundProver<EF>>(
    alloc: Global,
    prover: &mut P,
    transcript: &mut ProverTranscript<'_, C, F, EF>,
    played: &mut Played<F, EF>,
) -> Result<(), GenericDegreeError>
    requires left { HasRoundLeft (driver_in transcript.old) }
    requires ready { IsReady EF.ops.size (driver_in transcript.old) (P.meaning prover.old) played.old }
    ensures continues { Continues (driver_in transcript.old) (driver_in transcript.new) }
    ensures round { LeavesRound EF.ops (channel_of EF.extension (driver_in transcript.old))
        (playing F.number EF.number (driver_in transcript.old) (P.meaning prover.old) played.old)
        (playing F.number EF.number (driver_in transcript.new) (P.meaning prover.new) played.new)
        result }
    ensures ready { OnOk result (IsReady EF.ops.size (driver_in transcript.new) (P.meaning prover.new) played.new) }
{
    let values = prover.round_poly(alloc)?;
    let (challenge, witness) = transcript.round(&values)?;
    prover.fold(challenge);
    played.push(transcript.shape(), values, witness, challenge);
    Ok(())
}
