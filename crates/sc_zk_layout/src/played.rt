//! The rounds of all that a layout has recorded.
ghost use Rattle.std.specs.Prelude.{◌≡◌, ◌≤◌, ℕ, List, [], IfOk, length};
ghost use Rattle.sc_definitions.specs.Channels.{empty_wire};
ghost use Rattle.sc_commitments.specs.Matrices.{lists_in};
ghost use Rattle.sc_zk_definitions.specs.MaskedTranscripts.{batching_at};
ghost use Rattle.sc_zk_transcript.specs.Shapes.{fixed_by};
ghost use Rattle.sc_zk_rounds.specs.Data.{AreWords, HasRoomFor, masked_wire_in, sent_in};
ghost use Rattle.sc_zk_rounds.specs.Handoffs.{asked_masks, EndsMaskedBy};
ghost use Rattle.sc_zk_rounds.specs.Rounds.{IsShapeOf};
ghost use Rattle.sc_zk_layout.specs.Grids.{with_side_scaled};
ghost use Rattle.sc_zk_layout.specs.Played.{rounds_show, rounds_left};
ghost use Rattle.sc_zk_layout.specs.Recorded.{laid_shown, recorded_batch, played_in};

use crate::grid_rounds::GridRounds;
use sc_challenger::Challenger;
use sc_field::{ExtensionField, Field, NoMemory};
use sc_layout::Layout;
use sc_rounds::SumcheckProver;
use sc_transcript::SumcheckError;
use sc_zk_rounds::ZkSumcheckData;
use sc_zk_rounds::head::begin_recorded;
use sc_zk_rounds::player::play_begun;
use sc_zk_transcript::{ZkPrelude, ZkSumcheckShape};
use std::alloc::Global;

// The rounds of all that is recorded, batched under a challenge.
fn rounds_of<'a, F: Field, EF: ExtensionField<F>, L: Layout<F, EF>>(
    alloc: Global,
    layout: &'a L,
    alpha: EF,
) -> Result<GridRounds<'a, F, EF>, NoMemory>
    ensures shown { IfOk result (λ r. rounds_show r
        ≡ laid_shown EF.ops (L.laid layout.now) (EF.number alpha)) }
    ensures left { IfOk result (λ r. rounds_left r ≡ (L.laid layout.now).folding) }
{
    let (table, order) = (layout.table(), layout.order());
    let claims = layout.claims();
    let batch = claims.batched_accumulators(alloc, table, order, layout.folding(), alpha)?;
    GridRounds::new(alloc, order, table, batch, claims.sum(alpha))
}

// Plays the rounds of all that is recorded under these masks, from the seed on, and appends their
// challenges: answers the prover of what is left, with one side and the claim times the
// combination, and the combination.
pub(crate) fn play_recorded<F: Field, EF: ExtensionField<F>, L: Layout<F, EF>, C: Challenger<F>>(
    alloc: Global,
    layout: &L,
    zk_data: &mut ZkSumcheckData<F, EF>,
    challenger: &mut C,
    shape: ZkSumcheckShape,
    masks: &[Vec<EF>],
    words: &[u8],
    challenges: &mut Vec<EF>,
) -> Result<(SumcheckProver<F, EF>, EF), SumcheckError>
    requires shape { IsShapeOf F.ops masks.now shape }
    requires recorded { shape.prelude ≡ ZkPrelude.RecordedClaims }
    requires words { AreWords words.now }
    requires plays { length masks.now ≡ (L.laid layout.now).folding }
    requires difficulty { shape.pow_bits ≤ (C.party challenger.old).rules.max_bits }
    requires fresh { masked_wire_in F.number EF.number zk_data.old ≡ empty_wire }
    requires challenges { HasRoomFor (length masks.now) challenges.old }
    ensures rules { (C.party challenger.new).rules ≡ (C.party challenger.old).rules }
    ensures batch { EndsMaskedBy with_side_scaled (played_in challenges.new.items)
        (recorded_batch F.ops EF.ops EF.extension shape (C.party challenger.old)
        (L.laid layout.now) (asked_masks shape.ell_zk (lists_in EF.number masks.now) words.now 0))
        (C.party challenger.new).history (sent_in F.number EF.number zk_data.new) result }
{
    let alpha = begin_recorded::<F, EF, C>(alloc, challenger, shape)?;
    let mut rounds = rounds_of(alloc, layout, alpha)?;
    let eps = play_begun(
        alloc,
        &mut rounds,
        zk_data,
        challenger,
        shape,
        masks,
        words,
        EF::ZERO,
        challenges,
    )?;
    let prover = rounds.into_prover(alloc, eps)?;
    Ok((prover, eps))
}
