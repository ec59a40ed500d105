//! Laws of audits, as contracts: a caller calls the function and has them.
ghost use Rattle.sc_definitions.specs.Strategies.{FewAccepted, CountsLists, ListsHaveNumbers};
ghost use Rattle.sc_jobs.specs.Laws.{BuildsAgree, PassingIsAccepted, ReportsAreAccepted};

use sc_field::Field;

/// Whatever the strategies, two builds of one job from equal histories on that are both answered
/// have equal reports, but for the grids of small-value rounds, and leave equal histories. It
/// follows from the contract of [`audit`](crate::audit), by which the rounds of a build are
/// determined.
pub fn build_laws()
    ensures { BuildsAgree }
{}

/// Over a field of q elements, whatever strategy sends n rounds on two tables, in either basis:
/// from a false claim on it accepts at most 2 n q^(n-1) of the q^n lists of challenges.
///
/// A strategy is a list of pairs of values, each held for the challenges drawn so far; where it
/// holds none it sends zeros. It accepts a list where the claims that it makes along it end in the
/// product of both tables' values there. Its count goes over all elements, challenge by challenge,
/// and is the number of lists that it accepts, each list having one number below q^n. Where it
/// sends the rounds of a report of [`audit`](crate::audit) that is not refuted, it accepts the
/// report's challenges from the report's claim on.
#[tactic(auto, using(sc_definitions::proofs::StrategyBound::few_accepted, sc_definitions::proofs::StrategyBound::counts_lists, sc_definitions::proofs::StrategyBound::lists_have_numbers, sc_jobs::proofs::Passing::passing_is_accepted))]
pub fn false_claim_lists<EF: Field>()
    ensures few { FewAccepted EF.ops }
    ensures counts { CountsLists EF.ops }
    ensures numbers { ListsHaveNumbers EF.ops }
    ensures passing { PassingIsAccepted EF.ops }
    ensures reported { ReportsAreAccepted }
{}
