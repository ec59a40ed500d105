//! Laws of rounds and of stages, as contracts: a caller calls the function and has them.
ghost use Rattle.std.specs.Prelude.{List};
ghost use Rattle.sc_definitions.specs.Ring.{Ops, IsRing, IsField};
ghost use Rattle.sc_soundness.specs.Courses.{RoundsAreSound, HonestRoundsEndTrue};
ghost use Rattle.sc_soundness.specs.Stages.{StagesAreSound, AuditsAreStages};
ghost use Rattle.sc_soundness.specs.Merged.{WeightedTable, MergedRoundsAre};

/// Laws of the rounds of a sumcheck, whatever they sum.
///
/// Over every field, a round that turns a false claim into the true one certifies its challenge:
/// what it sends less the true polynomial is not zero and vanishes there. Rounds that send what
/// leads from the true claim to the true one leave the true claim after all of them. Rounds over
/// several tables, each with its weights, are such rounds.
pub fn round_laws()
    ensures sound { (o : Ops) → IsField o → RoundsAreSound o }
    ensures honest { HonestRoundsEndTrue }
    ensures merged { (o : Ops) → IsRing o → (ps : List WeightedTable) → MergedRoundsAre o ps }
{}

/// Laws of the stages of a proof, over every field.
///
/// Where the first stage has a polynomial that is not zero, each stage that leaves a false claim
/// gives the next one such a polynomial, and the last one leaves the true claim, the first lucky
/// challenge is that of one of the stages, and it is certified. The first lucky challenge of a
/// problem with rounds is that of one stage.
pub fn stage_laws()
    ensures sound { (o : Ops) → IsField o → StagesAreSound o }
    ensures audits { (o : Ops) → AuditsAreStages o }
{}
