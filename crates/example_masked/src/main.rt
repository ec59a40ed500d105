//! Masked rounds of a table from Rust: a prover opens the table, a verifier never sees it, and a
//! simulator does without it.
#![tactic(auto)]

ghost use Rattle.std.specs.Prelude.{◌≡◌, All, IfOk, length};
ghost use Rattle.sc_table.specs.Polys.{variables_of};
ghost use Rattle.sc_layout.specs.Requests.{asked_in, counts};

use rand_chacha::ChaCha8Rng;
use rand_core::SeedableRng;
use sc_challenger::HashChallenger;
use sc_field::{Field, NoMemory};
use sc_small_fields::F65537 as F;
use sc_table::Poly;
use sc_zk::{
    NodeCode, OpeningEvals, OpeningRequest, PrefixProver, Sha2Mmcs, TableShape, ZkPrefixProver,
    ZkSumcheckData, ZkSumcheckHandoff, ZkSumcheckShape, ZkVerifier, ZkVerifierHandoff,
    mask_residual, simulate_classic_unpacked,
};
use std::alloc::Global;

type Hash = HashChallenger<F>;

type Prover = ZkPrefixProver<F, F, NodeCode<F>, Sha2Mmcs>;

type Handed = ZkSumcheckHandoff<F, F, Sha2Mmcs>;

// What is answered at a drawn point, there and through the successor map, and at another one.
#[derive(Drop)]
struct Answered {
    evals: OpeningEvals<F>,
    value: F,
}

// What goes over the wire of masked rounds.
#[derive(Drop)]
struct Wire {
    data: ZkSumcheckData<F, F>,
    commitment: [u8; 32],
}

fn main(rt: HostRuntime) -> anyhow::Result<()> {
    let alloc = rt.alloc();
    let (answered, wire, handed) = prove(alloc)?;
    let left = verify(alloc, &answered, &wire)?;
    println!(rt; "as played: {}", told(is_left(&handed, &left)))?;
    let wire = simulate(alloc, &answered)?;
    let accepted = verify(alloc, &answered, &wire).is_ok();
    println!(rt; "simulated, without the table: {}", told(accepted))?;
    Ok(())
}

// Opens the table 1, 2, 3, 4, and plays two masked rounds of all that was answered.
fn prove(alloc: Global) -> anyhow::Result<(Answered, Wire, Handed)> {
    let mut challenger = Hash::new(alloc);
    let layout = PrefixProver::new(alloc, table(alloc)?, 2);
    let mut prover = Prover::new(layout, NodeCode::new(4, 2, 12), Sha2Mmcs::new());
    let evals = prover.eval(0, &request(alloc)?, &mut challenger)?;
    let value = prover.add_virtual_eval(&mut challenger)?;
    let mut data = ZkSumcheckData::<F, F>::new(alloc);
    ZkSumcheckShape::new_batching(prover.folding(), 4, 0).validate::<F>()?;
    let mut rng = ChaCha8Rng::from_seed([7; 32]);
    let handed = prover.into_sumcheck(alloc, &mut data, 0, &mut challenger, &mut rng)?;
    let commitment = handed.mask_oracle.0;
    Ok((Answered { evals, value }, Wire { data, commitment }, handed))
}

// What a verifier of these answers leaves of these rounds.
fn verify(alloc: Global, answered: &Answered, wire: &Wire) -> anyhow::Result<ZkVerifierHandoff<F>> {
    let mut challenger = Hash::new(alloc);
    let verifier = opened(alloc, answered, &mut challenger)?;
    let (mmcs, commitment) = (Sha2Mmcs::new(), &wire.commitment);
    let left = verifier.into_sumcheck(
        alloc,
        &mmcs,
        &wire.data,
        commitment,
        4,
        2,
        0,
        &mut challenger,
    )?;
    Ok(left)
}

// The same wire without a table, by a verifier of these answers.
fn simulate(alloc: Global, answered: &Answered) -> anyhow::Result<Wire> {
    let mut challenger = Hash::new(alloc);
    let verifier = opened(alloc, answered, &mut challenger)?;
    let (code, mmcs) = (NodeCode::<F>::new(4, 2, 12), Sha2Mmcs::new());
    ZkSumcheckShape::new_batching(2, 4, 0).validate::<F>()?;
    let mut rng = ChaCha8Rng::from_seed([8; 32]);
    let (data, commitment, _challenges) = simulate_classic_unpacked(
        alloc,
        &mut challenger,
        &verifier,
        2,
        0,
        &code,
        &mmcs,
        &mut rng,
    )?;
    Ok(Wire { data, commitment })
}

// A verifier that has recorded these answers.
fn opened(
    alloc: Global,
    answered: &Answered,
    challenger: &mut Hash,
) -> anyhow::Result<ZkVerifier<F, F>> {
    let mut verifier = ZkVerifier::new_prefix(alloc, &[TableShape::new(2)][..]);
    verifier.add_claim(0, &request(alloc)?, &answered.evals, challenger)?;
    verifier.add_virtual_eval(answered.value, challenger)?;
    Ok(verifier)
}

// Whether a verifier's residual is the claim that is left to the prover, and the masks at their
// challenges. Here it is told the masks; in a protocol their commitment is opened there.
fn is_left(handed: &Handed, left: &ZkVerifierHandoff<F>) -> bool {
    let (masks, challenges) = (handed.mask_messages.as_slice(), left.randomness.as_slice());
    masks.len() == challenges.len()
        && left.claimed_residual
            == handed
                .residual_prover
                .claimed_sum()
                .add(mask_residual(masks, challenges))
}

fn table(alloc: Global) -> Result<Poly<F>, NoMemory>
    ensures { IfOk result (λ p. variables_of p ≡ 2) }
{
    let rows = vec![in alloc; F::ONE, F::TWO, F::element(3), F::element(4)]?;
    Ok(Poly::new(rows))
}

// The request of the value at a point, and of the one through the successor map there.
fn request(alloc: Global) -> Result<OpeningRequest, NoMemory>
    ensures { IfOk result (λ r. asked_in r ≡ counts 1 1) }
{
    Ok(OpeningRequest::new(vec![in alloc; 0]?, vec![in alloc; 0]?))
}

// An answer as a word.
fn told(accepted: bool) -> &'static str {
    if accepted { "accepted" } else { "refused" }
}
