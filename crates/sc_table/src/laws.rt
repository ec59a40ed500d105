//! Laws of bases, orders and messages, as contracts: a caller calls the function and has them.

ghost use Rattle.std.specs.Prelude.{◌≡◌, ◌↔◌, IsTrue};

use crate::{Basis, RoundMessage, VariableOrder};
use sc_field::Field;

/// By `==` bases and orders are equal exactly where they are one variant, and messages exactly where
/// both of their values are. `Basis::default()` is `Basis::Evaluation`.
pub fn strategy_laws<A: Field>()
    ensures bases { (x y : Basis) → IsTrue (⟦<Basis as PartialEq>⟧.eq x y) ↔ (x ≡ y) }
    ensures orders { (x y : VariableOrder) → IsTrue (⟦<VariableOrder as PartialEq>⟧.eq x y) ↔ (x ≡ y) }
    ensures messages { (x y : RoundMessage A) → IsTrue (⟦<RoundMessage<A> as PartialEq>⟧.eq x y)
        ↔ ((A.number x.c_a ≡ A.number y.c_a) × (A.number x.c_inf ≡ A.number y.c_inf)) }
    ensures default { (x : Basis) → ⟦<Basis as Default>⟧.is_default x → x ≡ Basis.Evaluation }
{}
