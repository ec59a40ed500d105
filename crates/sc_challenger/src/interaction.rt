//! The steps of a protocol.
ghost use Rattle.std.specs.Prelude.{◌≡◌};

use sc_definitions::Interaction;
use std::alloc::Global;
use std::marker::Model;

/// The steps that a protocol plays, in order. A contract sees the list of them.
#[derive(Debug, Drop)]
pub struct InteractionPattern {
    steps: Vec<Interaction>,
}

impl Model for InteractionPattern {
    ghost use Rattle.std.specs.Prelude.{List};
    ghost use Rattle.sc_definitions.specs.declared.interactions.Interaction.{Interaction};

    ghost Value = { List Interaction };

    ghost view = { λ pattern. pattern.steps.items };
}

impl InteractionPattern {
    /// The pattern of these steps.
    pub fn new(steps: Vec<Interaction>) -> Self
        ensures { result ≡ steps.items }
    {
        InteractionPattern { steps }
    }

    /// The steps, in order.
    pub fn steps(&self) -> &[Interaction]
        ensures { result.now ≡ self.now }
    {
        &self.steps
    }

    // Where its memory comes from.
    pub(crate) fn allocator(&self) -> Global {
        *self.steps.allocator()
    }
}
