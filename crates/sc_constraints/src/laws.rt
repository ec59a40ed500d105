//! Laws of weights, as contracts: a caller calls the function and has them.
ghost use Rattle.sc_statements.specs.Rows.{
  DigitsAreRows,
  TablesAtRows,
  WeightsAtRows,
  BatchesAtRows,
};

use sc_field::Field;

/// A point of zeros and ones is a row: its first coordinate is the highest digit of the row's number. There the value of a table is the row's
/// entry, and the value of a statement's weights, of every kind, and of batched weights is the weight of the row.
pub fn row_laws<EF: Field>()
    ensures digits { DigitsAreRows }
    ensures tables { TablesAtRows EF.ops }
    ensures weights { WeightsAtRows EF.ops }
    ensures batches { BatchesAtRows EF.ops }
{}
