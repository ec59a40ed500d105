//! The round after which a false claim is the true one, by figures by hand over the integers
//! modulo 65537.
ghost use Rattle.std.specs.Prelude.{◌≡◌, ◌≤◌, IfOk};
ghost use Rattle.sc_table.specs.Polys.{variables_of};
ghost use Rattle.sc_rounds.specs.Products.{variables_in};

use super::{Form, Pair};
use sc_field::{Field, NoMemory};
use sc_rounds::{FoundTurn, ProductPolynomial, find_turn};
use sc_small_fields::F65537;
use sc_table::{Basis, Poly, RoundMessage, VariableOrder};
use sc_tests_common::{elements, have_numbers, of};
use std::alloc::Global;
use std::process::Abort;

// A round, by its number, and the coefficients of what it sent less the true polynomial.
type Turn = (usize, &'static [u64]);

// Rounds that are sent of a table under weights, with a claim and their challenges, and the round
// that is found.
struct Played {
    name: &'static str,
    form: Form,
    variables: usize,
    evals: &'static [u64],
    weights: &'static [u64],
    claim: u64,
    rounds: &'static [Pair],
    challenges: &'static [u64],
    found: Option<Turn>,
}

// The value at 0 of a table of two rows is 1, and claimed to be 5. The round sends 5 - 6 X + X^2,
// and 1 - X^2 is true: 4 - 6 X + 2 X^2 is 2 (X - 1) (X - 2).
const ONE: Played = Played {
    name: "one round",
    form: (Basis::Evaluation, VariableOrder::Prefix),
    variables: 1,
    evals: &[1, 2],
    weights: &[1, 0],
    claim: 5,
    rounds: &[(5, 1)],
    challenges: &[2],
    found: Some((0, &[4, 65531, 2])),
};

// The second row of a table of four is 2, and claimed to be 5. In prefix order the first true
// polynomial is 2 - 2 X^2, whose values at 0 and at 1 are 2 in sum, and the second one, after the
// challenge 3, is (7 + X) (-2 X). Under the claim 5 the first round sends 5 - 4 X - X^2, which is
// more by (X - 1) (X - 3).
const FIRST: Played = Played {
    name: "the first of two rounds",
    form: (Basis::Evaluation, VariableOrder::Prefix),
    variables: 2,
    evals: &[1, 2, 3, 4],
    weights: &[0, 1, 0, 0],
    claim: 5,
    rounds: &[(5, 65536), (7, 7)],
    challenges: &[3, 4],
    found: Some((0, &[3, 65533, 1])),
};

// In suffix order they are X + X^2, and (4 + 2 X) (3 - 3 X) after the challenge 3. The first round
// sends 3 - 3 X + 2 X^2.
const FIRST_SUFFIX: Played = Played {
    name: "the first of two rounds in suffix order",
    form: (Basis::Evaluation, VariableOrder::Suffix),
    rounds: &[(3, 2), (7, 7)],
    ..FIRST
};

// Of coefficients the first true polynomial is 2 + 4 X, whose constant and leading coefficient are
// 2 in sum, and the second one, after the challenge 3, is (10 + 14 X) X. The first round sends
// 8 + 11 X - 3 X^2, which is more by (3 - X) (2 + 3 X).
const FIRST_OF_COEFFICIENTS: Played = Played {
    name: "the first of two rounds of coefficients",
    form: (Basis::Projective, VariableOrder::Prefix),
    rounds: &[(16, 65534), (24, 14)],
    found: Some((0, &[6, 7, 65534])),
    ..FIRST
};

static PLAYED: [Played; 13] = [
    ONE,
    Played {
        name: "the same round at another challenge",
        challenges: &[3],
        found: None,
        ..ONE
    },
    // A claim that is true before the round, and stays so.
    Played {
        name: "a true claim and the true polynomial",
        claim: 1,
        rounds: &[(1, 65536)],
        challenges: &[7],
        found: Some((0, &[0, 0, 0])),
        ..ONE
    },
    FIRST,
    // The first round leaves -4, and -16 is true; the second sends 12 - 29 X + X^2.
    Played {
        name: "the second of two rounds",
        rounds: &[(5, 1), (12, 1)],
        found: Some((1, &[12, 65522, 3])),
        ..FIRST
    },
    Played {
        name: "neither of two rounds",
        rounds: &[(5, 1), (12, 2)],
        found: None,
        ..FIRST
    },
    FIRST_SUFFIX,
    // The first round leaves -4, and 12 is true; the second sends 8 - 17 X - 3 X^2.
    Played {
        name: "the second of two rounds in suffix order",
        rounds: &[(5, 1), (8, 65534)],
        found: Some((1, &[65533, 65526, 3])),
        ..FIRST_SUFFIX
    },
    Played {
        name: "neither of two rounds in suffix order",
        rounds: &[(5, 1), (12, 1)],
        found: None,
        ..FIRST_SUFFIX
    },
    // The constant 1 is claimed to be 5. The round sends 5, and 1 + 2 X is true.
    Played {
        name: "one round of coefficients",
        form: (Basis::Projective, VariableOrder::Prefix),
        rounds: &[(5, 0)],
        found: Some((0, &[4, 65535, 0])),
        ..ONE
    },
    FIRST_OF_COEFFICIENTS,
    // The first round leaves 8, and 14 is true; the second sends 4 + 49 X + 4 X^2.
    Played {
        name: "the second of two rounds of coefficients",
        rounds: &[(6, 0), (57, 4)],
        found: Some((1, &[4, 39, 65527])),
        ..FIRST_OF_COEFFICIENTS
    },
    Played {
        name: "neither of two rounds of coefficients",
        rounds: &[(6, 0), (57, 5)],
        found: None,
        ..FIRST_OF_COEFFICIENTS
    },
];

// The table of so many variables with these entries, and zeros after them.
fn filled(alloc: Global, variables: usize, values: &[u64]) -> Result<Poly<F65537>, NoMemory>
    requires { variables ≤ 16 }
    ensures { IfOk result (λ p. variables_of p ≡ variables) }
{
    let mut table = Poly::zero(alloc, variables)?;
    let rows = table.as_mut_slice();
    for i in 0..rows.len() {
        rows[i] = match values.get(i) {
            Some(value) => of(*value),
            None => F65537::ZERO,
        };
    }
    Ok(table)
}

// The pair of a table and weights.
fn pair_on(
    alloc: Global,
    played: &Played,
    variables: usize,
) -> Result<ProductPolynomial<F65537, F65537>, NoMemory>
    requires { variables ≤ 16 }
    ensures { IfOk result (λ p. variables_in p ≡ variables) }
{
    let evals = filled(alloc, variables, played.evals)?;
    let weights = filled(alloc, variables, played.weights)?;
    let (basis, order) = played.form;
    Ok(match basis {
        Basis::Evaluation => ProductPolynomial::new_unpacked(order, evals, weights),
        Basis::Projective => ProductPolynomial::new_projective(evals, weights),
    })
}

// The messages of these pairs.
fn messages(alloc: Global, rounds: &[Pair]) -> Result<Vec<RoundMessage<F65537>>, NoMemory> {
    let messages = rounds
        .iter()
        .map(|pair| RoundMessage {
            c_a: of(pair.0),
            c_inf: of(pair.1),
        })
        .collect(alloc)?;
    Ok(messages)
}

// The round that is found.
fn found<A: Abort>(
    rt: &A,
    alloc: Global,
    played: &Played,
) -> Result<Option<FoundTurn<F65537>>, NoMemory> {
    let variables = played.variables;
    assert!(rt; variables <= 2);
    let pair = pair_on(alloc, played, variables)?;
    let messages = messages(alloc, played.rounds)?;
    let challenges: Vec<F65537> = elements(alloc, played.challenges)?;
    assert!(rt; messages.len() == variables && challenges.len() == variables);
    find_turn(alloc, pair, of(played.claim), &messages, &challenges)
}

// Whether this is the round that was wanted.
fn is_turn(found: &Option<FoundTurn<F65537>>, wanted: &Option<Turn>) -> bool {
    match (found, wanted) {
        (Some(turn), Some(turned)) => {
            turn.round == turned.0 && have_numbers(turn.polynomial.as_slice(), turned.1)
        }
        (None, None) => true,
        _ => false,
    }
}

#[test]
fn the_first_round_that_made_a_claim_true_is_found(rt: HostRuntime) {
    for played in &PLAYED {
        let found = found(&rt, rt.alloc(), played).expect(&rt, "an answer");
        let name = played.name;
        assert!(rt; is_turn(&found, &played.found), "{name}");
    }
}
