//! What a round sends, from the two tables as they stand, and how it binds them: by basis and by order.

ghost use Rattle.std.specs.Prelude.{◌≡◌, ℕ, suc, ◌+◌, ◌*◌, ◌/◌, ◌%◌, ◌^◌, ◌<◌, ◌≤◌, [], ◌∷◌, ◌++◌, List, length};
ghost use Rattle.sc_definitions.specs.Ring.{◌+⟨◌⟩◌, ◌*⟨◌⟩◌};
ghost use Rattle.sc_definitions.specs.Tables.{evaluation, projective, Order, prefix, suffix, IsOffered, entries, value, placed, folded_in};
ghost use Rattle.sc_definitions.specs.Messages.{first_term, leading_term, message_first, message_leading};
ghost use Rattle.sc_definitions.specs.Rounds.{true_claim, honest_message, next_claim};
ghost use Rattle.sc_table.specs.Blocks.{sum_from};
ghost use Rattle.sc_table.specs.Strategy.{basis_of, order_of};
ghost use Rattle.sc_table.specs.Polys.{variables_of, table_of};

use crate::{Poly, extrapolate_01inf};
use sc_field::{Algebra, Field};

// How many places a kernel measures in one go: as many products as a field adds up before it reduces.
pub(crate) const BLOCK: usize = 512;

/// The two values that a round sends: its polynomial at 0, or in the projective basis at 1, and its
/// leading coefficient.
///
/// A message does not say of which basis it is: `Basis::sumcheck_coefficients` makes it, and
/// `Basis::reduce_claim` of the same basis takes it.
#[derive(Debug, Clone, Copy, PartialEq, Eq)]
pub struct RoundMessage<A> {
    /// The value at 0, or in the projective basis at 1.
    pub c_a: A,
    /// The leading coefficient, of the square of the variable.
    pub c_inf: A,
}

impl<A: Field> RoundMessage<A> {
    // The message of no rows.
    pub(crate) fn zero() -> Self
        ensures first { A.number result.c_a ≡ 0 }
        ensures leading { A.number result.c_inf ≡ 0 }
    {
        RoundMessage {
            c_a: A::ZERO,
            c_inf: A::ZERO,
        }
    }

    // The message with the shares of `rows` places more, from place `from` on, of a round that binds the first variable of two tables of
    // values, of which each half has `half` rows.
    pub(crate) fn with_halves<B: Field>(
        self,
        evals: &[B],
        weights: &[A],
        half: usize,
        from: usize,
        rows: usize,
    ) -> Self
    where
        A: Algebra<B>,
        requires within { from + rows ≤ half }
        requires evals { half + half ≤ length evals.now }
        requires weights { half + half ≤ length weights.now }
        requires few { rows ≤ 512 }
        ensures first { A.number result.c_a
            ≡ A.number self.c_a +⟨ A.ops ⟩ sum_from A.ops from rows (first_term evaluation prefix A.ops half (entries (λ x. A.embedding (B.number x)) evals.now) (entries A.number weights.now)) }
        ensures leading { A.number result.c_inf
            ≡ A.number self.c_inf +⟨ A.ops ⟩ sum_from A.ops from rows (leading_term evaluation prefix A.ops half (entries (λ x. A.embedding (B.number x)) evals.now) (entries A.number weights.now)) }
    {
        let high = half + from;
        let (e0, e1) = (&evals[from..from + rows], &evals[high..high + rows]);
        let (w0, w1) = (&weights[from..from + rows], &weights[high..high + rows]);
        RoundMessage {
            c_a: self.c_a.add(A::dot_base(e0, w0)),
            c_inf: self.c_inf.add(A::dot_base_differences(e0, e1, w0, w1)),
        }
    }

    // The message with the shares of `pairs` places more, from place `from` on, of a round that binds the last variable of two tables of
    // values.
    pub(crate) fn with_pairs<B: Field>(
        self,
        evals: &[B],
        weights: &[A],
        from: usize,
        pairs: usize,
    ) -> Self
    where
        A: Algebra<B>,
        requires evals { 2 * (from + pairs) ≤ length evals.now }
        requires weights { 2 * (from + pairs) ≤ length weights.now }
        requires few { pairs ≤ 512 }
        ensures first { (half : ℕ) → A.number result.c_a
            ≡ A.number self.c_a +⟨ A.ops ⟩ sum_from A.ops from pairs (first_term evaluation suffix A.ops half (entries (λ x. A.embedding (B.number x)) evals.now) (entries A.number weights.now)) }
        ensures leading { (half : ℕ) → A.number result.c_inf
            ≡ A.number self.c_inf +⟨ A.ops ⟩ sum_from A.ops from pairs (leading_term evaluation suffix A.ops half (entries (λ x. A.embedding (B.number x)) evals.now) (entries A.number weights.now)) }
    {
        let (at, rows) = (2 * from, 2 * pairs);
        let (even, difference) = A::dot_base_pairs(
            pairs,
            &evals[at..at + rows],
            &weights[at..at + rows],
        );
        RoundMessage {
            c_a: self.c_a.add(even),
            c_inf: self.c_inf.add(difference),
        }
    }

    // The message with the shares of `rows` places more, from place `from` on, of a round that binds
    // the first variable of two tables of coefficients, of which each half has `half` rows.
    fn with_coefficient_halves<B: Field>(
        self,
        evals: &[B],
        weights: &[A],
        half: usize,
        from: usize,
        rows: usize,
    ) -> Self
    where
        A: Algebra<B>,
        requires within { from + rows ≤ half }
        requires evals { half + half ≤ length evals.now }
        requires weights { half + half ≤ length weights.now }
        requires few { rows ≤ 512 }
        ensures first { A.number result.c_a
            ≡ A.number self.c_a +⟨ A.ops ⟩ sum_from A.ops from rows
            (first_term projective prefix A.ops half
            (entries (λ x. A.embedding (B.number x)) evals.now) (entries A.number weights.now)) }
        ensures leading { A.number result.c_inf
            ≡ A.number self.c_inf +⟨ A.ops ⟩ sum_from A.ops from rows
            (leading_term projective prefix A.ops half
            (entries (λ x. A.embedding (B.number x)) evals.now) (entries A.number weights.now)) }
    {
        let high = half + from;
        let (e0, e1) = (&evals[from..from + rows], &evals[high..high + rows]);
        let (w0, w1) = (&weights[from..from + rows], &weights[high..high + rows]);
        let leading = A::dot_base(e1, w1);
        let straight = A::dot_base(e0, w0).add(leading);
        let crossed = A::dot_base(e0, w1).add(A::dot_base(e1, w0));
        RoundMessage {
            c_a: self.c_a.add(straight.add(crossed)),
            c_inf: self.c_inf.add(leading),
        }
    }
}

/// The message of a round that binds the first variable, of two tables of values of one even length.
///
/// The variable is 0 in the first half of a table and 1 in the second, so that `c_a` is the sum of
/// eval times weight over the first halves, and `c_inf` the sum of the products of the differences
/// of the halves.
pub fn sumcheck_coefficients_prefix<B: Field, A: Algebra<B>>(
    evals: &[B],
    weights: &[A],
) -> RoundMessage<A>
    requires same { length evals.now ≡ length weights.now }
    requires even { length evals.now % 2 ≡ 0 }
    ensures first { A.number result.c_a
        ≡ message_first evaluation prefix A.ops (length evals.now / 2) (entries (λ x. A.embedding (B.number x)) evals.now) (entries A.number weights.now) }
    ensures leading { A.number result.c_inf
        ≡ message_leading evaluation prefix A.ops (length evals.now / 2) (entries (λ x. A.embedding (B.number x)) evals.now) (entries A.number weights.now) }

    // Of two tables of so many variables it is what an honest first round sends.
    ensures honest { (m : ℕ) → length evals.now ≡ 2 ^ suc m →
        A.number result.c_a ∷ A.number result.c_inf ∷ []
        ≡ honest_message evaluation prefix A.ops (entries (λ x. A.embedding (B.number x)) evals.now) (entries A.number weights.now) [] m }
{
    let half = evals.len() / 2;
    let mut message = RoundMessage::zero();
    let mut from = 0;
    while from < half {
        let rows = (half - from).min(BLOCK);
        message = message.with_halves(evals, weights, half, from, rows);
        from += rows;
    }
    message
}

/// The message of a round that binds the last variable, of two tables of values of one even length.
///
/// The variable is 0 in the even rows of a table and 1 in the odd ones, so that `c_a` is the sum of
/// eval times weight over the even rows, and `c_inf` the sum of the products of the differences of
/// neighbours, rows 2b and 2b + 1.
pub fn sumcheck_coefficients_suffix<B: Field, A: Algebra<B>>(
    evals: &[B],
    weights: &[A],
) -> RoundMessage<A>
    requires same { length evals.now ≡ length weights.now }
    requires even { length evals.now % 2 ≡ 0 }
    ensures first { A.number result.c_a
        ≡ message_first evaluation suffix A.ops (length evals.now / 2) (entries (λ x. A.embedding (B.number x)) evals.now) (entries A.number weights.now) }
    ensures leading { A.number result.c_inf
        ≡ message_leading evaluation suffix A.ops (length evals.now / 2) (entries (λ x. A.embedding (B.number x)) evals.now) (entries A.number weights.now) }

    // Of two tables of so many variables it is what an honest first round sends.
    ensures honest { (m : ℕ) → length evals.now ≡ 2 ^ suc m →
        A.number result.c_a ∷ A.number result.c_inf ∷ []
        ≡ honest_message evaluation suffix A.ops (entries (λ x. A.embedding (B.number x)) evals.now) (entries A.number weights.now) [] m }
{
    let half = evals.len() / 2;
    let mut message = RoundMessage::zero();
    let mut from = 0;
    while from < half {
        let pairs = (half - from).min(BLOCK);
        message = message.with_pairs(evals, weights, from, pairs);
        from += pairs;
    }
    message
}

/// The message of a round that binds the first variable, of two tables of coefficients of one even
/// length.
///
/// A row's monomial has the variable in the second half of a table and not in the first. So `c_a`,
/// the value at 1, is the sum of the products of the sums of the halves, and `c_inf` the sum of eval
/// times weight over the second halves. It takes no difference.
pub fn sumcheck_coefficients_prefix_projective<B: Field, A: Algebra<B>>(
    evals: &[B],
    weights: &[A],
) -> RoundMessage<A>
    requires same { length evals.now ≡ length weights.now }
    requires even { length evals.now % 2 ≡ 0 }
    ensures first { A.number result.c_a
        ≡ message_first projective prefix A.ops (length evals.now / 2) (entries (λ x. A.embedding (B.number x)) evals.now) (entries A.number weights.now) }
    ensures leading { A.number result.c_inf
        ≡ message_leading projective prefix A.ops (length evals.now / 2) (entries (λ x. A.embedding (B.number x)) evals.now) (entries A.number weights.now) }

    // Of two tables of so many variables it is what an honest first round sends.
    ensures honest { (m : ℕ) → length evals.now ≡ 2 ^ suc m →
        A.number result.c_a ∷ A.number result.c_inf ∷ []
        ≡ honest_message projective prefix A.ops (entries (λ x. A.embedding (B.number x)) evals.now) (entries A.number weights.now) [] m }
{
    let half = evals.len() / 2;
    let mut message = RoundMessage::zero();
    let mut from = 0;
    while from < half {
        let rows = (half - from).min(BLOCK);
        message = message.with_coefficient_halves(evals, weights, half, from, rows);
        from += rows;
    }
    message
}

/// What the entries of the two tables are, and so what a round sends and how its claim moves.
///
/// The projective basis (eprint 2026/762) is offered with prefix order alone.
#[derive(Debug, Clone, Copy, PartialEq, Eq, Default)]
pub enum Basis {
    /// Values at the rows. A round sends its polynomial at 0.
    #[default]
    Evaluation,
    /// Coefficients of the monomials that the rows name. A round sends its polynomial at 1.
    Projective,
}

impl Basis {
    /// The message of a round that binds the variable that comes next in this order, of two tables
    /// in this basis of one even length.
    pub fn sumcheck_coefficients<B: Field, A: Algebra<B>>(
        self,
        order: VariableOrder,
        evals: &[B],
        weights: &[A],
    ) -> RoundMessage<A>
        requires same { length evals.now ≡ length weights.now }
        requires even { length evals.now % 2 ≡ 0 }

        // The projective basis only with prefix order.
        requires offered { IsOffered (basis_of self) (order_of order) }
        ensures first { A.number result.c_a
            ≡ message_first (basis_of self) (order_of order) A.ops (length evals.now / 2) (entries (λ x. A.embedding (B.number x)) evals.now) (entries A.number weights.now) }
        ensures leading { A.number result.c_inf
            ≡ message_leading (basis_of self) (order_of order) A.ops (length evals.now / 2) (entries (λ x. A.embedding (B.number x)) evals.now) (entries A.number weights.now) }

        // Of two tables of so many variables it is what an honest first round sends.
        ensures honest { (m : ℕ) → length evals.now ≡ 2 ^ suc m →
            A.number result.c_a ∷ A.number result.c_inf ∷ []
            ≡ honest_message (basis_of self) (order_of order) A.ops (entries (λ x. A.embedding (B.number x)) evals.now) (entries A.number weights.now) [] m }
    {
        match self {
            Basis::Evaluation => order.sumcheck_coefficients(evals, weights),
            Basis::Projective => sumcheck_coefficients_prefix_projective(evals, weights),
        }
    }

    /// The claim after a round that sent `c_a` and `c_inf` under the claim `claimed_sum`: the value
    /// of the sent quadratic at the challenge `r`.
    ///
    /// In the evaluation basis `c_a` is its value at 0, and `claimed_sum` the sum of its values at 0
    /// and 1. In the projective basis `c_a` is its value at 1, and `claimed_sum` the sum of its
    /// constant and its leading coefficient.
    pub fn reduce_claim<EF: Field>(self, c_a: EF, c_inf: EF, r: EF, claimed_sum: EF) -> EF
        ensures claim { EF.number result
            ≡ next_claim (basis_of self) EF.ops (EF.number claimed_sum) (EF.number c_a ∷ EF.number c_inf ∷ []) (EF.number r) }

        // Of an honest message under the true claim it is the value of the round's polynomial, the true
        // claim at one challenge more.
        ensures honest { (order : Order) → IsOffered (basis_of self) order → (f w : ℕ → ℕ) (rs : List ℕ) (m : ℕ) →
            EF.number c_a ∷ EF.number c_inf ∷ [] ≡ honest_message (basis_of self) order EF.ops f w rs m →
            EF.number claimed_sum ≡ true_claim (basis_of self) order EF.ops f w rs (suc m) →
            EF.number result ≡ true_claim (basis_of self) order EF.ops f w (rs ++ EF.number r ∷ []) m }
    {
        match self {
            Basis::Evaluation => extrapolate_01inf(c_a, claimed_sum.sub(c_a), c_inf, r),
            Basis::Projective => extrapolate_01inf(claimed_sum.sub(c_inf), c_a, c_inf, r),
        }
    }
}

/// How rounds are built.
#[derive(Clone, Copy, Debug, PartialEq, Eq)]
pub enum Strategy {
    /// On the table of the extension's elements.
    Plain,
    /// On the table of their images in a representation.
    Represented,
    /// The first rounds on the table of base elements, for so many variables.
    SmallValue { variables: usize },
}

/// Which variable a round binds.
#[derive(Debug, Clone, Copy, PartialEq, Eq)]
pub enum VariableOrder {
    /// The first one that is left, which belongs to the highest bit of a row.
    Prefix,
    /// The last one that is left, which belongs to the lowest bit of a row.
    Suffix,
}

impl VariableOrder {
    /// The message of a round that binds the variable that comes next in this order, of two tables
    /// of values of one even length.
    pub fn sumcheck_coefficients<B: Field, A: Algebra<B>>(
        self,
        evals: &[B],
        weights: &[A],
    ) -> RoundMessage<A>
        requires same { length evals.now ≡ length weights.now }
        requires even { length evals.now % 2 ≡ 0 }
        ensures first { A.number result.c_a
            ≡ message_first evaluation (order_of self) A.ops (length evals.now / 2) (entries (λ x. A.embedding (B.number x)) evals.now) (entries A.number weights.now) }
        ensures leading { A.number result.c_inf
            ≡ message_leading evaluation (order_of self) A.ops (length evals.now / 2) (entries (λ x. A.embedding (B.number x)) evals.now) (entries A.number weights.now) }

        // Of two tables of so many variables it is what an honest first round sends.
        ensures honest { (m : ℕ) → length evals.now ≡ 2 ^ suc m →
            A.number result.c_a ∷ A.number result.c_inf ∷ []
            ≡ honest_message evaluation (order_of self) A.ops (entries (λ x. A.embedding (B.number x)) evals.now) (entries A.number weights.now) [] m }
    {
        match self {
            VariableOrder::Prefix => sumcheck_coefficients_prefix(evals, weights),
            VariableOrder::Suffix => sumcheck_coefficients_suffix(evals, weights),
        }
    }

    /// The variable of a table of values that comes next in this order is bound at `r`, and the
    /// table is halved, in its place. The table has one variable or more.
    pub fn fix_var<A: Algebra<Ch>, Ch: Field>(self, poly: &mut Poly<A>, r: Ch)
        requires { 0 < variables_of poly.old }
        ensures fewer { variables_of poly.old ≡ variables_of poly.new + 1 }
        ensures bound { (b : ℕ) → b < 2 ^ variables_of poly.new →
            table_of A.number poly.new b
            ≡ folded_in evaluation (order_of self) A.ops (variables_of poly.new) (A.embedding (Ch.number r)) (table_of A.number poly.old) b }

        // The value at the other coordinates is the old value with `r` placed.
        ensures value { (zs : List ℕ) → length zs ≡ variables_of poly.new →
            value A.ops (table_of A.number poly.new) zs
            ≡ value A.ops (table_of A.number poly.old) (placed (order_of self) (A.embedding (Ch.number r) ∷ []) zs) }
    {
        match self {
            VariableOrder::Prefix => poly.fix_prefix_var_mut(r),
            VariableOrder::Suffix => poly.fix_suffix_var_mut(r),
        }
    }
}
