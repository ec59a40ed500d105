//! Laws of masked rounds, as contracts: a caller calls the function and has them.
ghost use Rattle.sc_definitions.specs.Ring.{Ops, IsRing, IsField};
ghost use Rattle.sc_zk_definitions.specs.Masks.{RoundsAreSums, TotalsAreOfEndpoints};
ghost use Rattle.sc_zk_definitions.specs.Views.{MasksAreTold};
ghost use Rattle.sc_zk_definitions.specs.Explained.{ViewsAreExplained};
ghost use Rattle.sc_zk_definitions.specs.MaskedRuns.{RunsGrow, RunsReplay};
ghost use Rattle.sc_zk_definitions.specs.MaskedBatches.{SimulationsReplay};

/// Laws of masks, over every ring or field.
///
/// The polynomial of a masked round, made of its own mask, of the earlier masks' values and of the
/// later masks' endpoints, is the sum over all bits of the later masks; so is the total of masks by
/// their endpoints.
///
/// Where two is not zero, a view of masks of three coefficients or more, with the endpoints of all
/// masks but the first, tells the masks; and for each view of that form, and all such endpoints,
/// there are masks that have them: those that are computed of it. So exactly one list of masks has
/// a view and these endpoints, whatever is masked.
pub fn mask_laws()
    ensures sums { (o : Ops) → IsRing o → RoundsAreSums o }
    ensures totals { (o : Ops) → IsRing o → TotalsAreOfEndpoints o }
    ensures told { (o : Ops) → IsField o → MasksAreTold o }
    ensures explained { (o : Ops) → IsField o → ViewsAreExplained o }
{}

/// Laws of the replay of masked rounds, by whatever rules and extension, at every difficulty.
///
/// One masked round after others makes one more. Masked rounds that were played, one for each
/// mask, are replayed with their challenges and their history, from the first target to the
/// residual: the combination times the plain residual with what is left of the carried claim, and
/// the masks at their challenges. What was simulated is replayed with its challenges and its
/// history, whatever the claim is.
pub fn replay_laws()
    ensures grow { RunsGrow }
    ensures runs { RunsReplay }
    ensures simulations { SimulationsReplay }
{}
