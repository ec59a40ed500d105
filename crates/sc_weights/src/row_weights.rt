//! What weights of rows are.

ghost use Rattle.std.specs.Prelude.{◌≡◌, ℕ, ◌^◌, ◌<◌, length, map};
ghost use Rattle.sc_definitions.specs.Ring.{◌+⟨◌⟩◌, ◌*⟨◌⟩◌};
ghost use Rattle.sc_definitions.specs.Tables.{entries, value_in};
ghost use Rattle.sc_definitions.specs.Statements.{Kind, arity_of, weight_of, true_value};
ghost use Rattle.sc_table.specs.Polys.{variables_of, table_of};
ghost use Rattle.sc_table.specs.Strategy.{basis_of};

use sc_field::{Algebra, Field};
use sc_table::{Basis, Point, Poly};

/// The weights that a statement has at the rows of a table.
pub trait RowWeights<EF: Field>: Drop {
    // What the statement speaks of, its elements by their numbers.
    ghost kind: { Self → Kind };

    /// Adds `scale` times the weights to the rows of a table, which has as many variables as the statement's point.
    fn add_to(&self, table: &mut Poly<EF>, scale: EF)
        requires { arity_of (variables_of table.old) (kind self.now) ≡ variables_of table.old }
        ensures variables { variables_of table.new ≡ variables_of table.old }
        ensures table { (b : ℕ) → b < 2 ^ variables_of table.old → table_of EF.number table.new b
            ≡ table_of EF.number table.old b +⟨ EF.ops ⟩ EF.number scale *⟨ EF.ops ⟩ weight_of EF.ops (kind self.now) b };

    /// The sum over all rows of the entry times the weight, where `rows` are the entries of a table
    /// of as many variables as the statement's point.
    fn true_value<A: Field>(&self, rows: &[A]) -> EF
    where
        EF: Algebra<A>,
        requires { (n : ℕ) × ((length rows.now ≡ 2 ^ n) × (arity_of n (kind self.now) ≡ n)) }
        ensures { (n : ℕ) → length rows.now ≡ 2 ^ n → EF.number result ≡ true_value EF.ops n
            (λ b. EF.embedding (entries A.number rows.now b)) (kind self.now) };

    /// The value of the weights, as a table in this basis, at a point of as many coordinates as the
    /// statement's own. It takes time linear in their number and no memory.
    fn value_at(&self, basis: Basis, row: &Point<EF>) -> EF
        requires { arity_of (length row.now) (kind self.now) ≡ length row.now }
        ensures { EF.number result
            ≡ value_in (basis_of basis) EF.ops (weight_of EF.ops (kind self.now)) (map EF.number row.now) };
}
