//! The round that turned a claim about two tables, by figures by hand. Below, X and Y are the
//! variables, the first one first, and a table is the polynomial of degree one in each of them whose
//! values at 0 and 1 are its rows.

ghost use Rattle.std.specs.Prelude.{◌≡◌, ◌^◌, All, IfOk, length};
ghost use Rattle.sc_table.specs.Polys.{variables_of};
ghost use Rattle.sc_degree.specs.Products.{tables_of, product_arity};

use sc_degree::{FoundTurn, TableProduct, find_turn};
use sc_field::{Field, NoMemory};
use sc_small_fields::F65537;
use sc_table::Poly;
use sc_tests_common::{elements, have_numbers, of};
use std::alloc::Global;
use std::process::Abort;

// The table of these rows.
fn table_of_rows<F: Field>(
    alloc: Global,
    variables: usize,
    rows: &[u64],
) -> Result<Poly<F>, NoMemory>
    requires { length rows.now ≡ 2 ^ variables }
    ensures { IfOk result (λ p. variables_of p ≡ variables) }
{
    Ok(Poly::new(elements(alloc, rows)?))
}

// The product of two tables of these rows.
fn product_of<F: Field>(
    alloc: Global,
    variables: usize,
    first: &[u64],
    second: &[u64],
) -> Result<TableProduct<F>, NoMemory>
    requires first { length first.now ≡ 2 ^ variables }
    requires second { length second.now ≡ 2 ^ variables }
    ensures arity { IfOk result (λ p. product_arity p ≡ variables) }
    ensures degree { IfOk result (λ p. length (tables_of F.number p) ≡ 2) }
{
    let mut tables = Vec::new(alloc);
    tables.push(table_of_rows(alloc, variables, first)?)?;
    tables.push(table_of_rows(alloc, variables, second)?)?;
    Ok(TableProduct::new(tables))
}

// What each round sends: the values at the nodes 0 and 2.
fn messages<F: Field>(alloc: Global, rounds: &[(u64, u64)]) -> Result<Vec<Vec<F>>, NoMemory>
    ensures length { IfOk result (λ v. length v.items ≡ length rounds.now) }
    ensures widths { IfOk result (λ v. All (λ m. length m.items ≡ 2) v.items) }
{
    let mut list = Vec::new(alloc);
    for round in rounds {
        list.push(elements(alloc, &[round.0, round.1])?)?;
    }
    Ok(list)
}

// What is found of rounds under a claim, and what is then left of the tables' sum.
fn searched<F: Field>(
    alloc: Global,
    product: TableProduct<F>,
    claimed: u64,
    rounds: &[(u64, u64)],
    challenges: &[u64],
) -> Result<(Option<FoundTurn<F>>, u64), NoMemory>
    requires rounds { length rounds.now ≡ product_arity product }
    requires challenges { length challenges.now ≡ product_arity product }
    requires degree { length (tables_of F.number product) ≡ 2 }
{
    let mut product = product;
    let messages = messages(alloc, rounds)?;
    let drawn: Vec<F> = elements(alloc, challenges)?;
    let found = find_turn(alloc, &mut product, of(claimed), &messages, &drawn)?;
    Ok((found, product.sum().index()))
}

// One round on the tables 1, 2 and 3, 4: the claim, the values, the challenge, what is found, and
// what is left of the sum.
fn assert_one<A: Abort>(
    rt: &A,
    alloc: Global,
    claimed: u64,
    round: (u64, u64),
    challenge: u64,
    found: Option<[u64; 3]>,
    left: u64,
) {
    let product: TableProduct<F65537> = product_of(alloc, 1, &[1, 2], &[3, 4]).expect(
        rt,
        "an answer",
    );
    let answer = searched(alloc, product, claimed, &[round], &[challenge]).expect(rt, "an answer");
    assert!(rt; is_found(&answer.0, 0, found) && answer.1 == left);
}

// Whether this round was found, with these coefficients, or none.
fn is_found<F: Field>(
    answer: &Option<FoundTurn<F>>,
    round: usize,
    found: Option<[u64; 3]>,
) -> bool {
    match (answer, found) {
        (Some(turn), Some(coefficients)) => {
            turn.round == round && have_numbers(turn.polynomial.as_slice(), &coefficients)
        }
        (None, None) => true,
        _ => false,
    }
}

// The true polynomial is (1 + X) (3 + X) = 3 + 4 X + X^2, whose values at 0 and 1 are 11 in sum.
//
// The values 8 and 18 under the claim 20, so 12 at node 1, send 8 + 3 X + X^2, which is 5 - X more:
// it is 48 at the challenge 5, as is (1 + 5) (3 + 5).
#[test]
fn a_challenge_that_turns_a_false_claim(rt: HostRuntime) {
    assert_one(&rt, rt.alloc(), 20, (8, 18), 5, Some([5, 65536, 0]), 48);
}

// A claim that is true from the start, with the true values, is true after round 0 too: that is
// the first round after which it is, and what it sends less the true polynomial is all zeros.
#[test]
fn a_claim_that_is_true_from_the_start(rt: HostRuntime) {
    assert_one(&rt, rt.alloc(), 11, (3, 15), 5, Some([0, 0, 0]), 48);
}

// At the challenge 2, a node, what is sent is 18, as it says, and the true polynomial is
// (1 + 2) (3 + 2) = 15.
#[test]
fn a_claim_that_stays_false(rt: HostRuntime) {
    assert_one(&rt, rt.alloc(), 20, (9, 18), 2, None, 15);
}

// The tables have the rows 1, 2, 3, 4 and 2, 0, 1, 3, at (X, Y) = (0, 0), (0, 1), (1, 0), (1, 1):
// 1 + 2 X + Y and 2 - X - 2 Y + 4 X Y. The true sum is 1 * 2 + 2 * 0 + 3 * 1 + 4 * 3 = 17, and 18
// is claimed.
//
// Round 0: the sum over Y = 0 and Y = 1 is (1 + 2 X) (2 - X) + (2 + 2 X) (3 X) = 2 + 9 X + 4 X^2.
// The values 2 and 36, so 16 at node 1, send 2 + 11 X + 3 X^2, which is 2 X - X^2 more. At the
// challenge 3 they send 62, and the true polynomial is 65.
//
// Round 1: the product is (7 + Y) (10 Y - 1) = -7 + 69 Y + 10 Y^2, which is -7 at Y = 0 and 72 at
// Y = 1: 65 in sum. The values -7 and 167, so 62 + 7 = 69 at node 1, send -7 + 65 Y + 11 Y^2, which
// is Y^2 - 4 Y more. At the challenge 4 both are 429, as is (7 + 4) (40 - 1).
#[test]
fn the_second_round_turns_a_false_claim(rt: HostRuntime) {
    let product: TableProduct<F65537> = product_of(
        rt.alloc(),
        2,
        &[1, 2, 3, 4],
        &[2, 0, 1, 3],
    ).expect(&rt, "an answer");
    let answer = searched(rt.alloc(), product, 18, &[(2, 36), (65530, 167)], &[3, 4]).expect(
        &rt,
        "an answer",
    );
    assert!(rt; is_found(&answer.0, 1, Some([0, 65533, 1])) && answer.1 == 429);
}

// The same rounds, but for the first challenge, 2: there both polynomials of round 0 are 36, so it
// is round 0 that is found. The tables are bound at (2, 4): (1 + 4 + 4) (2 - 2 - 8 + 32) = 216.
#[test]
fn the_first_of_two_rounds_turns_a_false_claim(rt: HostRuntime) {
    let product: TableProduct<F65537> = product_of(
        rt.alloc(),
        2,
        &[1, 2, 3, 4],
        &[2, 0, 1, 3],
    ).expect(&rt, "an answer");
    let answer = searched(rt.alloc(), product, 18, &[(2, 36), (65530, 167)], &[2, 4]).expect(
        &rt,
        "an answer",
    );
    assert!(rt; is_found(&answer.0, 0, Some([0, 2, 65536])) && answer.1 == 216);
}
