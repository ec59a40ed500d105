//! Laws of layered circuits, as contracts: a caller calls the function and has them.
ghost use Rattle.std.specs.Prelude.{List, ℕ, ◌^◌};
ghost use Rattle.sc_definitions.specs.Ring.{Ops, IsRing, IsField};
ghost use Rattle.sc_circuit_definitions.specs.declared.gate.Gate.{Gate};
ghost use Rattle.sc_circuit_definitions.specs.Circuits.{PlacesBelow};
ghost use Rattle.sc_circuit_definitions.specs.LayerRounds.{LayerTables, LayersSumGates};
ghost use Rattle.sc_circuit_definitions.specs.LayerRounds.{LayerRoundsAre};
ghost use Rattle.sc_circuit_definitions.specs.LayerPhases.{PhasesMakeRounds, WalksMakePhases};
ghost use Rattle.sc_circuit_definitions.specs.CircuitFindings.{CircuitsAreCertified};
ghost use Rattle.sc_circuit_definitions.specs.CircuitFindings.{BuiltCircuitsHold};

/// Laws of the rounds over one layer.
///
/// Over every ring, the sum of a layer's values, each times its weight, is the sum over all pairs
/// of places of what its gates make of the values there; over every field, the rounds on that sum
/// are those of a sumcheck, and honest ones keep the claim true. Over every ring, each half of the
/// rounds is one over three tables as long as the layer below, and one walk over the gates makes
/// each of these.
pub fn layer_laws()
    ensures sums { (o : Ops) → IsRing o → LayersSumGates o }
    ensures rounds { (o : Ops) → IsField o → (t : LayerTables) → LayerRoundsAre o t }
    ensures phases { (o : Ops) → IsRing o → (t : LayerTables) → PhasesMakeRounds o t }
    ensures walks { (o : Ops) → IsRing o → (k : ℕ) (w v : ℕ → ℕ) (gates : List Gate)
        → PlacesBelow (2 ^ k) gates → WalksMakePhases o k w v gates }
{}

/// Laws of circuits, over every field of challenges that the circuit's field is embedded into.
///
/// Where all layers agree although an output is false, a lucky challenge is named, and each one
/// that is named is certified: by a polynomial that is not zero and vanishes at it, and the number
/// of its roots. Layers that are built on true outputs show that these hold.
pub fn circuit_laws()
    ensures certified { CircuitsAreCertified }
    ensures built { BuiltCircuitsHold }
{}
