//! Messages and what rounds leave, against tables that are bound round by round.

ghost use Rattle.std.specs.Prelude.{◌≡◌, ◌<◌, ◌≤◌, length};
ghost use Rattle.sc_table.specs.Polys.{variables_of};
ghost use Rattle.sc_svo.specs.Batches.{batch_in};

use super::claims::{KINDS, Kinds, claims, images, weights};
use VariableOrder::{Prefix, Suffix};
use sc_field::{ExtensionField, Field, NoMemory};
use sc_small_fields::{F257, F257x2, F65537};
use sc_svo::SvoBatch;
use sc_table::{Poly, VariableOrder};
use sc_tests_common::{elements, table};
use std::alloc::Global;

// The challenges that the rounds bind their variables at.
const CHALLENGES: [u64; 10] = [31415, 5, 27182, 60000, 1, 40404, 0, 12, 16180, 258];

// Whether each round's message that is read off a grid is that of the tables as they stand before
// it, which it binds at its challenge.
fn messages_agree<F: Field, EF: ExtensionField<F>>(
    alloc: Global,
    order: VariableOrder,
    batch: &SvoBatch<F, EF>,
    evals: &mut Poly<EF>,
    weights: &mut Poly<EF>,
    rs: &[EF],
) -> Result<bool, NoMemory>
    requires same { variables_of weights.old ≡ variables_of evals.old }
    requires variables { length rs.now ≤ variables_of evals.old }
    requires rounds { length rs.now ≤ length (batch_in batch.now).grids }
{
    let mut agree = true;
    for j in 0..rs.len() {
        let sent = batch.round_coefficients(alloc, &rs[..j])?;
        let wanted = order.sumcheck_coefficients(evals.as_slice(), weights.as_slice());
        agree = agree && sent == wanted;
        order.fix_var::<EF, EF>(evals, rs[j]);
        order.fix_var::<EF, EF>(weights, rs[j]);
    }
    Ok(agree)
}

// Whether l0 small-value rounds on a table of n variables, with two claims, send and leave what
// rounds on the tables do.
fn rounds_agree<F: Field, EF: ExtensionField<F>>(
    alloc: Global,
    order: VariableOrder,
    n: usize,
    l0: usize,
    kinds: Kinds,
) -> Result<bool, NoMemory>
    requires some { 0 < l0 }
    requires within { l0 ≤ n }
    requires few { n ≤ 10 }
{
    let table: Poly<F> = table(alloc, n, 12345)?;
    let claims = claims::<EF>(alloc, n, kinds)?;
    let batch = SvoBatch::<F, EF>::new(alloc, order, &table, &claims, l0)?;
    let rs: Vec<EF> = elements(alloc, &CHALLENGES[..l0])?;
    let mut evals = images::<F, EF>(alloc, &table, n)?;
    let mut weights = weights::<EF>(alloc, n, kinds)?;
    let agree = messages_agree(alloc, order, &batch, &mut evals, &mut weights, &rs)?;
    let (left, left_weights) = batch.residual(alloc, &table, &rs)?;
    Ok(
        agree
            && left.as_slice() == evals.as_slice()
            && left_weights.as_slice() == weights.as_slice(),
    )
}

// The same in both orders.
fn orders_agree<F: Field, EF: ExtensionField<F>>(
    alloc: Global,
    n: usize,
    l0: usize,
    kinds: Kinds,
) -> Result<bool, NoMemory>
    requires some { 0 < l0 }
    requires within { l0 ≤ n }
    requires few { n ≤ 10 }
{
    Ok(
        rounds_agree::<F, EF>(alloc, Prefix, n, l0, kinds)?
            && rounds_agree::<F, EF>(alloc, Suffix, n, l0, kinds)?,
    )
}

// The same for claims of each kind.
fn kinds_agree<F: Field, EF: ExtensionField<F>>(
    alloc: Global,
    n: usize,
    l0: usize,
) -> Result<bool, NoMemory>
    requires some { 0 < l0 }
    requires within { l0 ≤ n }
    requires few { n ≤ 10 }
{
    for kinds in &KINDS {
        if !orders_agree::<F, EF>(alloc, n, l0, *kinds)? {
            return Ok(false);
        }
    }
    Ok(true)
}

#[test]
fn small_value_rounds(rt: HostRuntime) {
    for n in 1..5 {
        for l0 in 1..n + 1 {
            assert!(rt;
                kinds_agree::<F65537, F65537>(rt.alloc(), n, l0) == Ok(true),
                "{n} {l0}"
            );
            assert!(rt;
                kinds_agree::<F257, F257x2>(rt.alloc(), n, l0) == Ok(true),
                "{n} {l0}"
            );
        }
    }
}

#[test]
fn many_small_value_rounds(rt: HostRuntime) {
    assert!(rt; kinds_agree::<F65537, F65537>(rt.alloc(), 10, 9) == Ok(true));
}
