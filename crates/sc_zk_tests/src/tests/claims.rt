//! Claims that are recorded, and masked rounds of all of them.
ghost use Rattle.std.specs.Prelude.{◌≡◌, All, IfOk, length};
ghost use Rattle.sc_layout.specs.Requests.{asked_in, counts};

mod accepted;
mod prover;
mod recorded;

use sc_challenger::ScriptedChallenger;
use sc_field::NoMemory;
use sc_small_fields::F65537;
use sc_tests_common::{elements, of};
use sc_zk::{OpeningEvals, OpeningRequest, ZkVerifier};
use std::alloc::Global;
use std::process::Abort;

// The column 0, once.
fn column(alloc: Global) -> Result<Vec<usize>, NoMemory>
    ensures zero { IfOk result (λ v. All (λ c. c ≡ 0) v.items) }
    ensures count { IfOk result (λ v. length v.items ≡ 1) }
{
    let mut columns = Vec::new(alloc);
    columns.push(0)?;
    Ok(columns)
}

// The request of the value at a point, and of the one through the successor map there.
pub(crate) fn request(alloc: Global) -> Result<OpeningRequest, NoMemory>
    ensures { IfOk result (λ r. asked_in r ≡ counts 1 1) }
{
    Ok(OpeningRequest::new(column(alloc)?, column(alloc)?))
}

// Records openings of a table as they come: the value at a point, the one through the successor map
// there, and the value at another point.
fn record<A: Abort>(
    rt: &A,
    alloc: Global,
    verifier: &mut ZkVerifier<F65537, F65537>,
    challenger: &mut ScriptedChallenger<F65537>,
    values: (u64, u64, u64),
) {
    let (at, next_at, further) = values;
    let asked = request(alloc).expect(rt, "a request");
    let current = elements(alloc, &[at]).expect(rt, "a value");
    let next = elements(alloc, &[next_at]).expect(rt, "a value");
    let came = OpeningEvals::new(current, next);
    verifier
        .add_claim(0, &asked, &came, challenger)
        .expect(rt, "a claim");
    verifier
        .add_virtual_eval(of(further), challenger)
        .expect(rt, "a claim");
}
