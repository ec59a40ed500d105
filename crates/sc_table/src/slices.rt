//! Tables of base values with a variable bound, in memory of their own.

ghost use Rattle.std.specs.Prelude.{◌≡◌, ℕ, suc, ◌^◌, length, IfOk};
ghost use Rattle.sc_definitions.specs.Ring.{◌+⟨◌⟩◌, ◌-⟨◌⟩◌, ◌*⟨◌⟩◌};
ghost use Rattle.sc_definitions.specs.Tables.{prefix, suffix, entries};
ghost use Rattle.sc_table.specs.Polys.{IsFixedOf};
ghost use Rattle.sc_table.specs.Strategy.{order_of};

use crate::{Poly, VariableOrder};
use sc_field::{Algebra, Field, NoMemory};
use std::alloc::Global;

/// The table that is left where the first variable of a table of these values is bound at `r`: half
/// as many values, each lo + (hi - lo) r over the two halves; `NoMemory` where there is no memory
/// for them. The given table has one variable or more, and stays.
pub fn fix_prefix_var_slice<B: Field, A: Algebra<B>>(
    alloc: Global,
    evals: &[B],
    r: A,
) -> Result<Poly<A>, NoMemory>
    requires { (m : ℕ) × (length evals.now ≡ 2 ^ suc m) }
    ensures { IfOk result (λ p. IsFixedOf prefix A.ops A.number (A.number r)
        (λ b. A.embedding (entries B.number evals.now b)) (length evals.now) p) }
{
    let half = evals.len() / 2;
    let mut values = Vec::with_capacity(alloc, half)?;
    for b in 0..half {
        values.push_reserved(value_between(evals[b], evals[half + b], r));
    }
    Ok(Poly::new(values))
}

/// A table with its last variable bound, in memory of its own: each value is lo + (hi - lo) r over
/// neighbours, rows 2b and 2b + 1.
pub fn fix_suffix_var_slice<B: Field, A: Algebra<B>>(
    alloc: Global,
    evals: &[B],
    r: A,
) -> Result<Poly<A>, NoMemory>
    requires { (m : ℕ) × (length evals.now ≡ 2 ^ suc m) }
    ensures { IfOk result (λ p. IsFixedOf suffix A.ops A.number (A.number r)
        (λ b. A.embedding (entries B.number evals.now b)) (length evals.now) p) }
{
    let half = evals.len() / 2;
    let mut values = Vec::with_capacity(alloc, half)?;
    for b in 0..half {
        values.push_reserved(value_between(evals[2 * b], evals[2 * b + 1], r));
    }
    Ok(Poly::new(values))
}

impl VariableOrder {
    /// The table that is left where the variable that comes next in this order is bound at `r`, of
    /// a table of these values, half as many and in memory of its own; `NoMemory` where there is
    /// none. The given table has one variable or more, and stays.
    pub fn fix_var_slice<B: Field, A: Algebra<B>>(
        self,
        alloc: Global,
        evals: &[B],
        r: A,
    ) -> Result<Poly<A>, NoMemory>
        requires { (m : ℕ) × (length evals.now ≡ 2 ^ suc m) }
        ensures { IfOk result (λ p. IsFixedOf (order_of self) A.ops A.number (A.number r)
            (λ b. A.embedding (entries B.number evals.now b)) (length evals.now) p) }
    {
        match self {
            VariableOrder::Prefix => fix_prefix_var_slice(alloc, evals, r),
            VariableOrder::Suffix => fix_suffix_var_slice(alloc, evals, r),
        }
    }
}

// The value at `r` of the line through `lo` at 0 and `hi` at 1.
fn value_between<B: Field, A: Algebra<B>>(lo: B, hi: B, r: A) -> A
    ensures { A.number result ≡ A.embedding (B.number lo)
        +⟨ A.ops ⟩ (A.embedding (B.number hi) -⟨ A.ops ⟩ A.embedding (B.number lo))
        *⟨ A.ops ⟩ A.number r }
{
    A::embed(lo).add(r.mul_base(hi.sub(lo)))
}
