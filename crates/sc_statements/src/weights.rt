//! The weights of statements at a point, and rows that are cleared.

ghost use Rattle.std.specs.Prelude.{◌≡◌, ℕ, ◌^◌, ◌<◌, ◌≤◌, length, map};
ghost use Rattle.std.specs.Iterator.{YieldsFirstBy, item_count};
ghost use Rattle.sc_definitions.specs.Tables.{evaluation};
ghost use Rattle.sc_table.specs.Polys.{variables_of, table_of};

use crate::list::StatementList;
use sc_field::Field;
use sc_table::{Basis, Point, Poly};
use std::marker::PhantomData;

/// The values at a point of the statements' weights, as tables, one for each statement, in order.
#[derive(Drop)]
pub struct Weights<'a, S: StatementList<EF>, EF: Field> {
    statements: &'a S,
    row: &'a Point<EF>,
    index: usize,
    of: PhantomData<EF>,
    ghost fits: { length row.now ≡ S.arity statements.now },
    ghost within: { index ≤ length (S.statements statements.now) },
}

impl<'a, S: StatementList<EF>, EF: Field> Weights<'a, S, EF> {
    ghost use Rattle.sc_statements.specs.Weights.{weight_values, weights_from};

    // From the first statement on.
    pub(crate) fn new(statements: &'a S, row: &'a Point<EF>) -> Self
        requires { length row.now ≡ S.arity statements.now }
        ensures { weights_from evaluation EF.ops (map EF.number result.row.now) (S.statements result.statements.now) result.index ≡ weight_values evaluation EF.ops (map EF.number row.now) (S.statements statements.now) }
    {
        Weights {
            statements,
            row,
            index: 0,
            of: PhantomData,
        }
    }
}

impl<'a, S: StatementList<EF>, EF: Field> Iterator for Weights<'a, S, EF> {
    ghost use Rattle.sc_statements.specs.Weights.{weights_from};

    type Item = EF;

    ghost next_gives = { YieldsFirstBy EF.number (λ w. weights_from evaluation EF.ops (map EF.number w.row.now) (S.statements w.statements.now) w.index) };

    ghost remaining = { item_count (λ w. weights_from evaluation EF.ops (map EF.number w.row.now) (S.statements w.statements.now) w.index) };

    fn next(&mut self) -> Option<EF> {
        if self.index == self.statements.count() {
            return None;
        }
        let weight = self
            .statements
            .weight_at(self.index, Basis::Evaluation, self.row);
        self.index += 1;
        Some(weight)
    }
}

/// Every row becomes zero.
pub(crate) fn clear<EF: Field>(table: &mut Poly<EF>)
    ensures variables { variables_of table.new ≡ variables_of table.old }
    ensures table { (b : ℕ) → b < 2 ^ variables_of table.old → table_of EF.number table.new b ≡ 0 }
{
    for row in table.as_mut_slice().iter_mut() {
        *row = EF::ZERO;
    }
}
