//! The verdict on rounds that were replayed, and the first lucky challenge where they let a false
//! entry through.
ghost use Rattle.std.specs.Prelude.{◌≡◌, IfOk, length, map};
ghost use Rattle.sc_definitions.specs.Polynomials.{poly_minus};
ghost use Rattle.sc_definitions.specs.Lucky.{in_batch};
ghost use Rattle.sc_definitions.specs.Roots.{root_count};
ghost use Rattle.sc_challenger.specs.Parties.{Party};
ghost use Rattle.sc_rounds.specs.Products.{variables_in};
ghost use Rattle.sc_audit_errors.specs.Findings.{lucky, named};
ghost use Rattle.sc_merge_definitions.specs.QuadraticPlays.{finding_where};
ghost use Rattle.sc_merge_definitions.specs.Matrices.{product_values, false_entry};
ghost use Rattle.sc_matmul.specs.MatrixViews.{matrix_in, entries_in};
ghost use Rattle.sc_matmul.specs.FittingClaims.{case_by};
ghost use Rattle.sc_matmul.specs.MatmulReports.{finding_in};
ghost use Rattle.sc_matmul.specs.MatmulPlays.{IsPlayedOn, played_luck};

use crate::checking::Played;
use crate::product::first_false;
use crate::report::MatmulVerdict;
use crate::shape::FittingClaim;
use sc_field::laws::count_roots;
use sc_field::{ExtensionField, Field, NoMemory, with_room};
use sc_rounds::{ProductPolynomial, find_turn};
use sc_table::Row;
use std::alloc::Global;

// The verdict on rounds, as their residual is right or not.
pub(crate) fn verdict_on<F: Field, EF: ExtensionField<F>>(
    alloc: Global,
    fitting: &FittingClaim<'_, F, EF>,
    product: &[F],
    played: &Played<F, EF>,
    pair: ProductPolynomial<F, EF>,
    matched: bool,
) -> Result<MatmulVerdict<EF>, NoMemory>
    requires product { map F.number product.now ≡ product_values F.ops
        (matrix_in F.number fitting.now.left.now) (matrix_in F.number fitting.now.right.now) }
    requires messages { length played.now.rounds.polynomial_evaluations.items
        ≡ variables_in pair }
    requires challenges { length played.now.challenges ≡ variables_in pair }
    ensures { IfOk result (λ v. (at : Party)
        → IsPlayedOn F.number EF.number (case_by fitting.now at) played.now pair
        → finding_in EF.number v ≡ finding_where matched (false_entry (case_by fitting.now at))
        (played_luck F.number EF.number (case_by fitting.now at) played.now)) }
{
    if !matched {
        return Ok(MatmulVerdict::Refuted);
    }
    match first_false(fitting.claimed.as_slice(), product) {
        None => Ok(MatmulVerdict::Holds),
        Some(_) => luck_on(alloc, fitting, product, played, pair),
    }
}

// The first lucky challenge, in the transcript's order: the point where the claim is true, or else
// the challenge of the first round which made it true. Where none is, the rounds are refuted.
fn luck_on<F: Field, EF: ExtensionField<F>>(
    alloc: Global,
    fitting: &FittingClaim<'_, F, EF>,
    product: &[F],
    played: &Played<F, EF>,
    pair: ProductPolynomial<F, EF>,
) -> Result<MatmulVerdict<EF>, NoMemory>
    requires product { map F.number product.now ≡ product_values F.ops
        (matrix_in F.number fitting.now.left.now) (matrix_in F.number fitting.now.right.now) }
    requires messages { length played.now.rounds.polynomial_evaluations.items
        ≡ variables_in pair }
    requires challenges { length played.now.challenges ≡ variables_in pair }
    ensures { IfOk result (λ v. (at : Party)
        → IsPlayedOn F.number EF.number (case_by fitting.now at) played.now pair
        → finding_in EF.number v ≡ named
        (played_luck F.number EF.number (case_by fitting.now at) played.now)) }
{
    if played.claim.index() == pair.dot_product().index() {
        return point_verdict(alloc, fitting.claimed.as_slice(), product);
    }
    let messages = played.rounds.polynomial_evaluations();
    let challenges = played.challenges.as_slice();
    match find_turn(alloc, pair, played.claim, messages, challenges)? {
        Some(turn) => {
            let vanishing = count_roots(turn.polynomial.as_slice());
            Ok(MatmulVerdict::LuckyRound {
                round: turn.round,
                poly: turn.polynomial,
                vanishing,
            })
        }
        None => Ok(MatmulVerdict::Refuted),
    }
}

// The verdict that the point was lucky.
fn point_verdict<F: Field, EF: ExtensionField<F>>(
    alloc: Global,
    claimed: &[F],
    product: &[F],
) -> Result<MatmulVerdict<EF>, NoMemory>
    requires { length claimed.now ≡ length product.now }
    ensures { IfOk result (λ v. finding_in EF.number v ≡ lucky
        (in_batch (poly_minus EF.ops (map EF.embedding (map F.number claimed.now))
        (map EF.embedding (map F.number product.now)))
        (root_count EF.ops (poly_minus EF.ops (map EF.embedding (map F.number claimed.now))
        (map EF.embedding (map F.number product.now)))))) }
{
    let excess = excess_of(alloc, claimed, product)?;
    let poly = Row::new(excess);
    let vanishing = count_roots(poly.as_slice());
    Ok(MatmulVerdict::LuckyPoint { poly, vanishing })
}

// Claimed less true entries, as elements of the extension.
fn excess_of<F: Field, EF: ExtensionField<F>>(
    alloc: Global,
    claimed: &[F],
    product: &[F],
) -> Result<Vec<EF>, NoMemory>
    requires { length claimed.now ≡ length product.now }
    ensures { IfOk result (λ v. map EF.number v.items ≡ poly_minus EF.ops
        (map EF.embedding (map F.number claimed.now))
        (map EF.embedding (map F.number product.now))) }
{
    let mut excess = with_room(alloc, claimed.len())?;
    for i in 0..claimed.len() {
        let shown = EF::embed(claimed[i]);
        let actual = EF::embed(product[i]);
        excess.push_reserved(shown.sub(actual));
    }
    Ok(excess)
}
