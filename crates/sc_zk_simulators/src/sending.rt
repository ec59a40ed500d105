//! Rounds whose wires are drawn.
ghost use Rattle.std.specs.Prelude.{◌≡◌, ◌<◌, ◌≤◌, IfOk, IfErr, OnOk, OnErr, map};
ghost use Rattle.sc_definitions.specs.Channels.{empty_wire};
ghost use Rattle.sc_challenger.specs.Parties.{channel_by};
ghost use Rattle.sc_commitments.specs.Draws.{draws_from, lists_from, SomeDrawn};
ghost use Rattle.sc_transcript.specs.Drivers.{driver_at, PutsRound, RefusesRound};
ghost use Rattle.sc_zk_transcript.specs.Causes.{masked_cause};
ghost use Rattle.sc_zk_rounds.specs.Data.{masked_wire_in, HasRoomFor};
ghost use Rattle.sc_zk_simulators.specs.Sendings.{sending, SendsAll};

use rand_core::Rng;
use sc_challenger::Challenger;
use sc_commitments::draw_list;
use sc_field::{ExtensionField, Field};
use sc_transcript::SumcheckError;
use sc_transcript::rounds::{BatchShape, Rounds};
use sc_zk_rounds::ZkSumcheckData;
use std::alloc::Global;

// Draws a wire of so many values, as many as a round sends, puts it on the wire, and answers the
// round's challenge.
fn send_drawn<F: Field, EF: ExtensionField<F>, C: Challenger<F>, G: Rng, K: Copy>(
    alloc: Global,
    zk_data: &mut ZkSumcheckData<F, EF>,
    rounds: &mut Rounds<K>,
    challenger: &mut C,
    width: usize,
    rng: &mut G,
) -> Result<EF, SumcheckError>
    requires difficulty { rounds.old.shape.pow_bits ≤ (C.party challenger.old).rules.max_bits }
    requires left { rounds.old.played < rounds.old.shape.num_rounds }
    requires width { width ≡ rounds.old.shape.width }
    ensures puts { IfOk result (λ r. PutsRound EF.extension
        (driver_at C.party F.ops.size challenger.entry rounds.old)
        (driver_at C.party F.ops.size challenger.exit rounds.new)
        (draws_from EF.ops.size width (G.stream rng.old)).0 (EF.number r)
        (masked_wire_in F.number EF.number zk_data.old)
        (masked_wire_in F.number EF.number zk_data.new)) }
    ensures refused { IfErr result (λ e. RefusesRound EF.extension
        (driver_at C.party F.ops.size challenger.entry rounds.old)
        (driver_at C.party F.ops.size challenger.exit rounds.new)
        (draws_from EF.ops.size width (G.stream rng.old)).0 (masked_cause e)) }
    ensures left { OnOk result (G.stream rng.new
        ≡ (draws_from EF.ops.size width (G.stream rng.old)).1) }
    ensures drew { OnErr result (SomeDrawn (draws_from EF.ops.size width) 1 (G.stream rng.old)
        (G.stream rng.new)) }
    ensures total { zk_data.new.mu_tilde ≡ zk_data.old.mu_tilde }
{
    let wire = draw_list(alloc, width, rng)?;
    zk_data.put_round(rounds, challenger, wire)
}

// Sends all rounds of a shape, and appends their challenges to a list that is empty and has room
// for them. Their wires are the next draws.
pub(crate) fn send_all<F: Field, EF: ExtensionField<F>, C: Challenger<F>, G: Rng>(
    alloc: Global,
    zk_data: &mut ZkSumcheckData<F, EF>,
    challenger: &mut C,
    shape: BatchShape,
    challenges: &mut Vec<EF>,
    rng: &mut G,
) -> Result<(), SumcheckError>
    requires difficulty { shape.pow_bits ≤ (C.party challenger.old).rules.max_bits }
    requires new { masked_wire_in F.number EF.number zk_data.old ≡ empty_wire }
    requires challenges { HasRoomFor shape.num_rounds challenges.old }
    ensures rules { (C.party challenger.new).rules ≡ (C.party challenger.old).rules }
    ensures total { zk_data.new.mu_tilde ≡ zk_data.old.mu_tilde }
    ensures left { OnOk result (G.stream rng.new ≡ (lists_from
        (draws_from EF.ops.size shape.width) shape.num_rounds (G.stream rng.old)).1) }
    ensures drew { OnErr result (SomeDrawn (draws_from EF.ops.size shape.width) shape.num_rounds
        (G.stream rng.old) (G.stream rng.new)) }
    ensures sends { SendsAll (sending
        (channel_by (C.party challenger.old) EF.extension F.ops.size shape.pow_bits)
        (C.party challenger.old).history (lists_from (draws_from EF.ops.size shape.width)
        shape.num_rounds (G.stream rng.old)).0) (map EF.number challenges.new.items)
        (masked_wire_in F.number EF.number zk_data.new) (C.party challenger.new).history result }
{
    let mut rounds = Rounds::new(shape, ());
    for _round in 0..shape.num_rounds {
        match send_drawn(alloc, zk_data, &mut rounds, challenger, shape.width, rng) {
            Ok(r) => challenges.push_reserved(r),
            Err(error) => return Err(error),
        }
    }
    Ok(())
}
