//! The lines of a report, and the texts of refusals, of the numbers in them.
ghost use Rattle.std.specs.Prelude.{◌≡◌, [], ◌∷◌, OnOk, IfOk, codes, map, string_bytes};
ghost use Rattle.sumcheck_replies.specs.Lines.{Adds, claim_line, counts_lines, eval_line, false_claim_text};
ghost use Rattle.sumcheck_replies.specs.Lines.{fit_fault_text, grid_name, holds_line, missing_text};
ghost use Rattle.sumcheck_replies.specs.Lines.{lucky_batch_line, lucky_batch_name};
ghost use Rattle.sumcheck_replies.specs.Lines.{lucky_round_line, lucky_round_name};
ghost use Rattle.sumcheck_replies.specs.Lines.{pairs_line, refuted_line, residual_line, round_line};
ghost use Rattle.sumcheck_replies.specs.Lines.{rounds_text, shape_fault_text, spaced};
ghost use Rattle.sumcheck_replies.specs.Lines.{arity_text, difficulty_text, table_count_text, table_length_text};
ghost use Rattle.sumcheck_replies.specs.Lines.{projective_suffix_text};
ghost use Rattle.sumcheck_replies.specs.Lines.{weight_line, witness_text, witnesses_text};
ghost use Rattle.sumcheck_replies.specs.Lines.{challenge_part, product_line, round_name, width_text};
ghost use Rattle.sumcheck_replies.specs.Lines.{layer_name, round_lines, round_text, witness_part};
ghost use Rattle.sc_transcript.specs.Data.{pair_of};
ghost use Rattle.sumcheck_members.specs.Members.{member_name, misfit_text};

use crate::numbers::number_at;
use sc_audit_errors::{FitFault, ShapeFault};
use sc_field::{Field, NoMemory};
use sc_table::RoundMessage;
use std::alloc::{AllocError, Global};
use sumcheck_members::Member;

/// How many rows and how many statements there are, a line each.
#[tactic(auto, unfolding(crate::specs::Lines::counts_lines))]
pub fn push_counts(text: &mut String, rows: usize, statements: usize) -> Result<(), AllocError>
    ensures { OnOk result (Adds text.old text.new (counts_lines rows statements)) }
{
    write!(text, "rows {rows}\nstatements {statements}\n")
}

/// The line of the claim.
#[tactic(auto, unfolding(crate::specs::Lines::claim_line))]
pub fn push_claim(text: &mut String, claim: u64) -> Result<(), AllocError>
    ensures { OnOk result (Adds text.old text.new (claim_line claim)) }
{
    write!(text, "claim {claim}\n")
}

/// The line of a round: its number, the two values that it sent, its witness if it has one, and its
/// challenge.
#[tactic(auto, unfolding(crate::specs::Lines::round_line, crate::specs::Lines::spaced, crate::specs::Lines::witness_part))]
pub fn push_round(
    text: &mut String,
    i: usize,
    c_a: u64,
    c_inf: u64,
    witness: Option<u64>,
    challenge: u64,
) -> Result<(), AllocError>
    ensures { OnOk result (Adds text.old text.new (round_line i (c_a ∷ c_inf ∷ []) witness challenge)) }
{
    match witness {
        None => write!(text, "round {i}: {c_a} {c_inf} challenge {challenge}\n"),
        Some(witness) => write!(
            text,
            "round {i}: {c_a} {c_inf} witness {witness} challenge {challenge}\n"
        ),
    }
}

/// The beginning of a round's line, up to its values.
#[tactic(auto, unfolding(crate::specs::Lines::round_name))]
pub fn push_round_name(text: &mut String, i: usize) -> Result<(), AllocError>
    ensures { OnOk result (Adds text.old text.new (round_name i)) }
{
    write!(text, "round {i}:")
}

/// The witness after a round's values, if it has one.
#[tactic(auto, unfolding(crate::specs::Lines::witness_part))]
pub fn push_witness(text: &mut String, witness: Option<u64>) -> Result<(), AllocError>
    ensures { OnOk result (Adds text.old text.new (witness_part witness)) }
{
    match witness {
        None => Ok(()),
        Some(witness) => write!(text, " witness {witness}"),
    }
}

/// The challenge, which ends a round's line.
#[tactic(auto, unfolding(crate::specs::Lines::challenge_part))]
pub fn push_challenge(text: &mut String, challenge: u64) -> Result<(), AllocError>
    ensures { OnOk result (Adds text.old text.new (challenge_part challenge)) }
{
    write!(text, " challenge {challenge}\n")
}

/// The line of a round that sent any number of values.
pub fn push_values_round<EF: Field>(
    text: &mut String,
    i: usize,
    values: &[EF],
    witness: Option<u64>,
    challenge: u64,
) -> Result<(), NoMemory>
    ensures { OnOk result (Adds text.old text.new
        (round_line i (map EF.number values.now) witness challenge)) }
{
    push_round_name(text, i)?;
    push_values(text, values)?;
    push_witness(text, witness)?;
    push_challenge(text, challenge)?;
    Ok(())
}

/// The lines of rounds that sent any number of values, as far as there are messages and challenges,
/// with as many witnesses as there are.
pub fn push_values_rounds<F: Field, EF: Field>(
    text: &mut String,
    messages: &[Vec<EF>],
    witnesses: &[F],
    challenges: &[EF],
) -> Result<(), NoMemory>
    ensures { OnOk result (Adds text.old text.new (round_lines 0
        (map (λ values. map EF.number values.items) messages.now)
        (map F.number witnesses.now) (map EF.number challenges.now))) }
{
    for i in 0..messages.len().min(challenges.len()) {
        let witness = number_at(witnesses, i);
        push_values_round(text, i, &messages[i], witness, challenges[i].index())?;
    }
    Ok(())
}

/// The lines of rounds that sent two values, as far as there are messages and challenges, with as
/// many witnesses as there are.
pub fn push_rounds<F: Field, EF: Field>(
    text: &mut String,
    messages: &[RoundMessage<EF>],
    witnesses: &[F],
    challenges: &[EF],
) -> Result<(), NoMemory>
    ensures { OnOk result (Adds text.old text.new (round_lines 0
        (map (pair_of EF.number) messages.now)
        (map F.number witnesses.now) (map EF.number challenges.now))) }
{
    for i in 0..messages.len().min(challenges.len()) {
        let message = messages[i];
        let challenge = challenges[i].index();
        push_round(
            text,
            i,
            message.c_a.index(),
            message.c_inf.index(),
            number_at(witnesses, i),
            challenge,
        )?;
    }
    Ok(())
}

/// A round, as the place of something.
#[tactic(auto, unfolding(crate::specs::Lines::round_text))]
pub fn round_text(alloc: Global, i: usize) -> Result<String, AllocError>
    ensures { IfOk result (λ s. string_bytes s ≡ round_text i) }
{
    format!(in alloc; "round {i}")
}

/// The beginning of a line or of another text that is of a layer.
#[tactic(auto, unfolding(crate::specs::Lines::layer_name))]
pub fn push_layer(text: &mut String, i: usize) -> Result<(), AllocError>
    ensures { OnOk result (Adds text.old text.new (layer_name i)) }
{
    write!(text, "layer {i} ")
}

/// The line of the sum over all values that rounds sent.
#[tactic(auto, unfolding(crate::specs::Lines::pairs_line))]
pub fn push_pairs(text: &mut String, sum: u64) -> Result<(), AllocError>
    ensures { OnOk result (Adds text.old text.new (pairs_line sum)) }
{
    write!(text, "pairs {sum}\n")
}

/// The line of what rounds leave of the claim.
#[tactic(auto, unfolding(crate::specs::Lines::residual_line))]
pub fn push_residual(text: &mut String, x: u64) -> Result<(), AllocError>
    ensures { OnOk result (Adds text.old text.new (residual_line x)) }
{
    write!(text, "residual {x}\n")
}

/// The line of the table's value at the challenges.
#[tactic(auto, unfolding(crate::specs::Lines::eval_line))]
pub fn push_eval(text: &mut String, x: u64) -> Result<(), AllocError>
    ensures { OnOk result (Adds text.old text.new (eval_line x)) }
{
    write!(text, "eval {x}\n")
}

/// The line of the weights' value at the challenges.
#[tactic(auto, unfolding(crate::specs::Lines::weight_line))]
pub fn push_weight(text: &mut String, x: u64) -> Result<(), AllocError>
    ensures { OnOk result (Adds text.old text.new (weight_line x)) }
{
    write!(text, "weight {x}\n")
}

/// The line of the product of several tables' values at the challenges.
#[tactic(auto, unfolding(crate::specs::Lines::product_line))]
pub fn push_product(text: &mut String, x: u64) -> Result<(), AllocError>
    ensures { OnOk result (Adds text.old text.new (product_line x)) }
{
    write!(text, "product {x}\n")
}

/// The beginning of the line of a round's grid, up to its values.
#[tactic(auto, unfolding(crate::specs::Lines::grid_name))]
pub fn push_grid_name(text: &mut String, i: usize, place: &str) -> Result<(), AllocError>
    ensures { OnOk result (Adds text.old text.new (grid_name i place.now)) }
{
    write!(text, "grid {i} {place}")
}

#[tactic(auto, unfolding(crate::specs::Lines::spaced))]
fn push_spaced(text: &mut String, x: u64) -> Result<(), AllocError>
    ensures { OnOk result (Adds text.old text.new (spaced (x ∷ []))) }
{
    write!(text, " {x}")
}

/// The numbers of elements, a space before each, in time linear in their count.
pub fn push_values<EF: Field>(text: &mut String, values: &[EF]) -> Result<(), NoMemory>
    ensures { OnOk result (Adds text.old text.new (spaced (map EF.number values.now))) }
{
    for value in values {
        push_spaced(text, value.index())?;
    }
    Ok(())
}

/// The end of a line.
pub fn push_end(text: &mut String) -> Result<(), AllocError>
    ensures { OnOk result (Adds text.old text.new (codes "\n")) }
{
    text.push_str("\n")
}

/// The verdict that every statement is true.
#[tactic(auto, unfolding(crate::specs::Lines::holds_line))]
pub fn push_holds(text: &mut String) -> Result<(), AllocError>
    ensures { OnOk result (Adds text.old text.new holds_line) }
{
    text.push_str("verdict holds\n")
}

/// The verdict that what rounds leave is not the product of the values.
#[tactic(auto, unfolding(crate::specs::Lines::refuted_line))]
pub fn push_refuted(text: &mut String) -> Result<(), AllocError>
    ensures { OnOk result (Adds text.old text.new refuted_line) }
{
    text.push_str("verdict refuted\n")
}

/// The verdict that the batching challenge was lucky: at how many elements the polynomial vanishes,
/// and its coefficients, the constant first.
pub fn push_lucky_batch<EF: Field>(
    text: &mut String,
    poly: &[EF],
    vanishing: u64,
) -> Result<(), NoMemory>
    ensures { OnOk result (Adds text.old text.new (lucky_batch_line (map EF.number poly.now) vanishing)) }
{
    push_lucky_batch_name(text, vanishing)?;
    push_values(text, poly)?;
    push_end(text)?;
    Ok(())
}

// The beginning of that line, up to the coefficients.
#[tactic(auto, unfolding(crate::specs::Lines::lucky_batch_name))]
fn push_lucky_batch_name(text: &mut String, vanishing: u64) -> Result<(), AllocError>
    ensures { OnOk result (Adds text.old text.new (lucky_batch_name vanishing)) }
{
    write!(text, "verdict lucky-batch vanishing {vanishing} poly")
}

/// The verdict that the challenge of a round was lucky: the round's number, at how many elements
/// the polynomial vanishes, and its coefficients, the constant first.
pub fn push_lucky_round<EF: Field>(
    text: &mut String,
    round: usize,
    poly: &[EF],
    vanishing: u64,
) -> Result<(), NoMemory>
    ensures { OnOk result (Adds text.old text.new (lucky_round_line round (map EF.number poly.now) vanishing)) }
{
    push_lucky_round_name(text, round, vanishing)?;
    push_values(text, poly)?;
    push_end(text)?;
    Ok(())
}

// The beginning of that line, up to the coefficients.
#[tactic(auto, unfolding(crate::specs::Lines::lucky_round_name))]
fn push_lucky_round_name(text: &mut String, round: usize, vanishing: u64) -> Result<(), AllocError>
    ensures { OnOk result (Adds text.old text.new (lucky_round_name round vanishing)) }
{
    write!(
        text,
        "verdict lucky-round {round} vanishing {vanishing} poly"
    )
}

/// A member that is missing or not of its form.
#[tactic(auto, unfolding(sumcheck_members::specs::Members::misfit_text))]
pub fn misfit_text(alloc: Global, member: Member) -> Result<String, AllocError>
    ensures { IfOk result (λ s. string_bytes s ≡ misfit_text (member_name member)) }
{
    let name = member.name();
    format!(in alloc; "bad-job {name}")
}

/// A table of so many rows, which does not fit.
#[tactic(auto, unfolding(crate::specs::Lines::table_length_text))]
pub fn table_length_text(alloc: Global, len: usize) -> Result<String, AllocError>
    ensures { IfOk result (λ s. string_bytes s ≡ table_length_text len) }
{
    format!(in alloc; "job-shape table-length {len}")
}

/// How many tables there are, and how many there may be.
#[tactic(auto, unfolding(crate::specs::Lines::table_count_text))]
pub fn table_count_text(alloc: Global, tables: usize, bound: u64) -> Result<String, AllocError>
    ensures { IfOk result (λ s. string_bytes s ≡ table_count_text tables bound) }
{
    format!(in alloc; "job-shape tables {tables} bound {bound}")
}

/// A difficulty that is above the greatest one.
#[tactic(auto, unfolding(crate::specs::Lines::difficulty_text))]
pub fn difficulty_text(alloc: Global, bits: usize, bound: usize) -> Result<String, AllocError>
    ensures { IfOk result (λ s. string_bytes s ≡ difficulty_text bits bound) }
{
    format!(in alloc; "job-shape difficulty {bits} bound {bound}")
}

// On how many variables statements are, and how many the table has.
#[tactic(auto, unfolding(crate::specs::Lines::arity_text))]
fn arity_text(alloc: Global, expected: usize, actual: usize) -> Result<String, AllocError>
    ensures { IfOk result (λ s. string_bytes s ≡ arity_text expected actual) }
{
    format!(in alloc; "job-shape variables {actual} expected {expected}")
}

// Coefficients whose rounds are to bind the last variable.
#[tactic(auto, unfolding(crate::specs::Lines::projective_suffix_text))]
fn projective_suffix_text(alloc: Global) -> Result<String, AllocError>
    ensures { IfOk result (λ s. string_bytes s ≡ projective_suffix_text) }
{
    format!(in alloc; "job-shape projective-suffix")
}

/// What does not fit in the shape of a job.
pub fn shape_fault_text(alloc: Global, fault: ShapeFault) -> Result<String, AllocError>
    ensures { IfOk result (λ s. string_bytes s ≡ shape_fault_text fault) }
{
    match fault {
        ShapeFault::TableLength { len } => table_length_text(alloc, len),
        ShapeFault::Difficulty { bits, bound } => difficulty_text(alloc, bits, bound),
        ShapeFault::Arity { expected, actual } => arity_text(alloc, expected, actual),
        ShapeFault::ProjectiveSuffix => projective_suffix_text(alloc),
    }
}

/// Why rounds cannot be built in the way that is asked for.
#[tactic(auto, unfolding(crate::specs::Lines::fit_fault_text))]
pub fn fit_fault_text(alloc: Global, fault: FitFault) -> Result<String, AllocError>
    ensures { IfOk result (λ s. string_bytes s ≡ fit_fault_text fault) }
{
    match fault {
        FitFault::Projective => format!(in alloc; "strategy-unfit projective"),
        FitFault::Variables { variables, bound } => {
            format!(in alloc; "strategy-unfit variables {variables} bound {bound}")
        }
        FitFault::Select { statement } => format!(in alloc; "strategy-unfit select {statement}"),
        FitFault::Selector { statement } => {
            format!(in alloc; "strategy-unfit selector {statement}")
        }
    }
}

/// A statement, by its number, with the claimed value and the true one.
#[tactic(auto, unfolding(crate::specs::Lines::false_claim_text))]
pub fn false_claim_text(
    alloc: Global,
    statement: usize,
    claimed: u64,
    actual: u64,
) -> Result<String, AllocError>
    ensures { IfOk result (λ s. string_bytes s ≡ false_claim_text statement claimed actual) }
{
    format!(in alloc; "false-claim {statement} claimed {claimed} true {actual}")
}

/// How many rounds are missing where a proof has none.
#[tactic(auto, unfolding(crate::specs::Lines::missing_text))]
pub fn missing_text(alloc: Global, rounds: usize) -> Result<String, AllocError>
    ensures { IfOk result (λ s. string_bytes s ≡ missing_text rounds) }
{
    format!(in alloc; "missing {rounds}")
}

/// How many rounds a proof should have, and how many it has.
#[tactic(auto, unfolding(crate::specs::Lines::rounds_text))]
pub fn rounds_text(alloc: Global, expected: usize, actual: usize) -> Result<String, AllocError>
    ensures { IfOk result (λ s. string_bytes s ≡ rounds_text expected actual) }
{
    format!(in alloc; "rounds expected {expected} actual {actual}")
}

/// How many witnesses a proof should have, and how many it has.
#[tactic(auto, unfolding(crate::specs::Lines::witnesses_text))]
pub fn witnesses_text(alloc: Global, expected: usize, actual: usize) -> Result<String, AllocError>
    ensures { IfOk result (λ s. string_bytes s ≡ witnesses_text expected actual) }
{
    format!(in alloc; "witnesses expected {expected} actual {actual}")
}

/// The round whose witness fails, and the difficulty.
#[tactic(auto, unfolding(crate::specs::Lines::witness_text))]
pub fn witness_text(alloc: Global, round: usize, bits: usize) -> Result<String, AllocError>
    ensures { IfOk result (λ s. string_bytes s ≡ witness_text round bits) }
{
    format!(in alloc; "witness round {round} bits {bits}")
}

/// The round that sends more or fewer values than it should, and how many these are.
#[tactic(auto, unfolding(crate::specs::Lines::width_text))]
pub fn width_text(
    alloc: Global,
    round: usize,
    expected: usize,
    actual: usize,
) -> Result<String, AllocError>
    ensures { IfOk result (λ s. string_bytes s ≡ width_text round expected actual) }
{
    format!(in alloc; "width round {round} expected {expected} actual {actual}")
}
