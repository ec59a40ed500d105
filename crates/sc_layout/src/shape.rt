//! What fixes a layout: its tables' shapes, and in which order rounds bind the variables.
ghost use Rattle.std.specs.Prelude.{◌≡◌};
ghost use Rattle.sc_layout.specs.Shapes.{shape_variables, strategy_order};

use sc_table::VariableOrder;

/// The shape of a table: how many variables it has.
#[derive(Clone, Copy, Debug, PartialEq, Eq)]
pub struct TableShape {
    num_variables: usize,
}

impl TableShape {
    /// The shape of a table of so many variables.
    pub fn new(num_variables: usize) -> Self
        ensures { shape_variables result ≡ num_variables }
    {
        TableShape { num_variables }
    }

    /// How many variables the table has.
    pub fn num_variables(&self) -> usize
        ensures { result ≡ shape_variables self.now }
    {
        self.num_variables
    }
}

/// In which order the rounds over a layout bind its variables.
#[derive(Clone, Copy, Debug, PartialEq, Eq)]
pub struct LayoutStrategy {
    order: VariableOrder,
}

impl LayoutStrategy {
    /// The strategy of this order.
    pub fn new(order: VariableOrder) -> Self
        ensures { strategy_order result ≡ order }
    {
        LayoutStrategy { order }
    }

    /// The order.
    pub fn order(&self) -> VariableOrder
        ensures { result ≡ strategy_order self.now }
    {
        self.order
    }
}
