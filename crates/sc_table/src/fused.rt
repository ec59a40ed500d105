//! Passes that bind a variable of two tables and measure what is left.

ghost use Rattle.std.specs.Prelude.{◌≡◌, ℕ, ◌*◌, ◌/◌, ◌^◌, ◌<◌, ◌≤◌, length};
ghost use Rattle.sc_definitions.specs.Tables.{evaluation, prefix, suffix, entries, bound, bound_low};
ghost use Rattle.sc_definitions.specs.Messages.{message_first, message_leading};
ghost use Rattle.sc_table.specs.Polys.{variables_of, table_of, IsFixed};
ghost use Rattle.sc_table.specs.Strategy.{order_of};

use crate::poly::{bind_halves, bind_pairs};
use crate::strategy::BLOCK;
use crate::{Poly, RoundMessage, VariableOrder};
use sc_field::{Algebra, Field};

/// Binds the first variable of two tables of values at `r`, in their places, and gives the message of the round that binds the next one.
/// Both tables have the same two variables or more.
///
/// It goes through the tables once: a block of rows of each quarter of the halves is bound, and measured while it is at hand.
pub fn fold_and_round_coefficients_prefix<A: Algebra<Ch>, Ch: Field>(
    evals: &mut Poly<A>,
    weights: &mut Poly<A>,
    r: Ch,
) -> RoundMessage<A>
    requires same { variables_of evals.old ≡ variables_of weights.old }
    requires two { 2 ≤ variables_of evals.old }
    ensures evals { IsFixed prefix A.ops A.number (A.embedding (Ch.number r)) evals.old evals.new }
    ensures weights { IsFixed prefix A.ops A.number (A.embedding (Ch.number r)) weights.old weights.new }

    // The message is that of the bound tables.
    ensures first { A.number result.c_a
        ≡ message_first evaluation prefix A.ops (2 ^ variables_of evals.new / 2) (table_of A.number evals.new) (table_of A.number weights.new) }
    ensures leading { A.number result.c_inf
        ≡ message_leading evaluation prefix A.ops (2 ^ variables_of evals.new / 2) (table_of A.number evals.new) (table_of A.number weights.new) }
{
    let quarter = evals.num_evals() / 4;
    let message = bind_and_measure_halves(evals.as_mut_slice(), weights.as_mut_slice(), quarter, r);
    evals.keep_first_half();
    weights.keep_first_half();
    message
}

// Both tables' first halves are bound, by blocks of both of their quarters, and measured.
fn bind_and_measure_halves<A: Algebra<Ch>, Ch: Field>(
    evals: &mut [A],
    weights: &mut [A],
    quarter: usize,
    r: Ch,
) -> RoundMessage<A>
    requires evals { 4 * quarter ≤ length evals.old }
    requires weights { 4 * quarter ≤ length weights.old }
    ensures evals { (b : ℕ) → b < 2 * quarter →
        entries A.number evals.new b ≡ bound A.ops (2 * quarter) (A.embedding (Ch.number r)) (entries A.number evals.old) b }
    ensures weights { (b : ℕ) → b < 2 * quarter →
        entries A.number weights.new b ≡ bound A.ops (2 * quarter) (A.embedding (Ch.number r)) (entries A.number weights.old) b }
    ensures first { A.number result.c_a
        ≡ message_first evaluation prefix A.ops quarter (bound A.ops (2 * quarter) (A.embedding (Ch.number r)) (entries A.number evals.old))
        (bound A.ops (2 * quarter) (A.embedding (Ch.number r)) (entries A.number weights.old)) }
    ensures leading { A.number result.c_inf
        ≡ message_leading evaluation prefix A.ops quarter (bound A.ops (2 * quarter) (A.embedding (Ch.number r)) (entries A.number evals.old))
        (bound A.ops (2 * quarter) (A.embedding (Ch.number r)) (entries A.number weights.old)) }
{
    let half = 2 * quarter;
    let mut message = RoundMessage::zero();
    let mut from = 0;
    while from < quarter {
        let rows = (quarter - from).min(BLOCK);
        bind_halves(evals, half, from, rows, r);
        bind_halves(evals, half, quarter + from, rows, r);
        bind_halves(weights, half, from, rows, r);
        bind_halves(weights, half, quarter + from, rows, r);
        message = message.with_halves::<A>(evals, weights, quarter, from, rows);
        from += rows;
    }
    message
}

/// Binds the last variable of two tables of values at `r`, in their places, and gives the message of the round that binds the next one.
/// Both tables have the same two variables or more.
///
/// It goes through the tables once: a block of rows is bound, and measured while it is at hand.
pub fn fold_and_round_coefficients_suffix<A: Algebra<Ch>, Ch: Field>(
    evals: &mut Poly<A>,
    weights: &mut Poly<A>,
    r: Ch,
) -> RoundMessage<A>
    requires same { variables_of evals.old ≡ variables_of weights.old }
    requires two { 2 ≤ variables_of evals.old }
    ensures evals { IsFixed suffix A.ops A.number (A.embedding (Ch.number r)) evals.old evals.new }
    ensures weights { IsFixed suffix A.ops A.number (A.embedding (Ch.number r)) weights.old weights.new }

    // The message is that of the bound tables.
    ensures first { A.number result.c_a
        ≡ message_first evaluation suffix A.ops (2 ^ variables_of evals.new / 2) (table_of A.number evals.new) (table_of A.number weights.new) }
    ensures leading { A.number result.c_inf
        ≡ message_leading evaluation suffix A.ops (2 ^ variables_of evals.new / 2) (table_of A.number evals.new) (table_of A.number weights.new) }
{
    let quarter = evals.num_evals() / 4;
    let message = bind_and_measure_pairs(evals.as_mut_slice(), weights.as_mut_slice(), quarter, r);
    evals.keep_first_half();
    weights.keep_first_half();
    message
}

// Both tables' neighbours are bound, by blocks, and measured.
fn bind_and_measure_pairs<A: Algebra<Ch>, Ch: Field>(
    evals: &mut [A],
    weights: &mut [A],
    quarter: usize,
    r: Ch,
) -> RoundMessage<A>
    requires evals { 4 * quarter ≤ length evals.old }
    requires weights { 4 * quarter ≤ length weights.old }
    ensures evals { (b : ℕ) → b < 2 * quarter →
        entries A.number evals.new b ≡ bound_low A.ops (A.embedding (Ch.number r)) (entries A.number evals.old) b }
    ensures weights { (b : ℕ) → b < 2 * quarter →
        entries A.number weights.new b ≡ bound_low A.ops (A.embedding (Ch.number r)) (entries A.number weights.old) b }
    ensures first { A.number result.c_a
        ≡ message_first evaluation suffix A.ops quarter (bound_low A.ops (A.embedding (Ch.number r)) (entries A.number evals.old))
        (bound_low A.ops (A.embedding (Ch.number r)) (entries A.number weights.old)) }
    ensures leading { A.number result.c_inf
        ≡ message_leading evaluation suffix A.ops quarter (bound_low A.ops (A.embedding (Ch.number r)) (entries A.number evals.old))
        (bound_low A.ops (A.embedding (Ch.number r)) (entries A.number weights.old)) }
{
    let mut message = RoundMessage::zero();
    let mut from = 0;
    while from < quarter {
        let pairs = (quarter - from).min(BLOCK);
        bind_pairs(evals, 2 * from, 2 * pairs, r);
        bind_pairs(weights, 2 * from, 2 * pairs, r);
        message = message.with_pairs::<A>(evals, weights, from, pairs);
        from += pairs;
    }
    message
}

impl VariableOrder {
    /// Binds the variable of two tables of values that comes next in this order at `r`, in their
    /// places, and gives the message of the round that binds the one after it. Both tables have the
    /// same two variables or more.
    pub fn fold_and_round_coefficients<A: Algebra<Ch>, Ch: Field>(
        self,
        evals: &mut Poly<A>,
        weights: &mut Poly<A>,
        r: Ch,
    ) -> RoundMessage<A>
        requires same { variables_of evals.old ≡ variables_of weights.old }
        requires two { 2 ≤ variables_of evals.old }
        ensures evals { IsFixed (order_of self) A.ops A.number (A.embedding (Ch.number r)) evals.old evals.new }
        ensures weights { IsFixed (order_of self) A.ops A.number (A.embedding (Ch.number r)) weights.old weights.new }

        // The message is that of the bound tables.
        ensures first { A.number result.c_a
            ≡ message_first evaluation (order_of self) A.ops (2 ^ variables_of evals.new / 2)
            (table_of A.number evals.new) (table_of A.number weights.new) }
        ensures leading { A.number result.c_inf
            ≡ message_leading evaluation (order_of self) A.ops (2 ^ variables_of evals.new / 2)
            (table_of A.number evals.new) (table_of A.number weights.new) }
    {
        match self {
            VariableOrder::Prefix => fold_and_round_coefficients_prefix(evals, weights, r),
            VariableOrder::Suffix => fold_and_round_coefficients_suffix(evals, weights, r),
        }
    }
}
