//! Whole runs over memory.
mod cases;
mod challengers;
mod circuits;
mod explains;
mod failing;
mod fields;
mod jobs;
mod kinds;
mod lucky;
mod lucky_products;
mod made;
mod matmuls;
mod openings;
mod openings_changed;
mod products;
mod projective;
mod refusals;
mod small_value;
mod streams;
mod veils;

use cases::{
    ALONE, CHECKS, CUBES, LAST_OF_TWO, NO_PROOF, PART, SAME, SUFFIX_CUBES, SUFFIX_MODES, WHOLE,
};
use challengers::{BATCH, DIFFICULTIES, DRAWS_OF_A_FALSE_CLAIM, FEW_DRAWS, HASHES, NO_ROUNDS};
use jobs::{DIFFICULT, FIRST, MANY};
use refusals::CHANGES;
use std::alloc::Global;
use std::process::Abort;
use sumcheck_run::{MemSink, PlainSource, Sink, Source, run};

// A job's text, and the status and the text that `audit` answers.
type Case = (&'static str, u8, &'static str);

// A job's text, a part of it with what is put in its place, and the answer.
type Changed = (&'static str, (&'static str, &'static str), u8, &'static str);

// A part of a job, what is put in its place, and why that is refused.
type Refusal = (&'static str, &'static str, &'static str);

// The challenger of the first job, the order, the difficulty and the mode, and the answer.
type Difficulty = (
    &'static str,
    &'static str,
    &'static str,
    &'static str,
    u8,
    &'static str,
);

fn word<A: Abort>(rt: &A, alloc: Global, text: &str) -> String {
    String::from_str(alloc, text).expect(rt, "memory")
}

// The status that a run with these words ends with.
fn code_of<S: Source, K: Sink, A: Abort>(
    rt: &A,
    alloc: Global,
    all: &[&str],
    source: &mut S,
    sink: &mut K,
) -> u8 {
    let mut words = Vec::new(alloc);
    for text in all {
        words.push(word(rt, alloc, *text)).expect(rt, "memory");
    }
    run(alloc, &words, source, sink).code
}

// A sink of this room that fails at these calls.
fn sink_with<A: Abort>(rt: &A, alloc: Global, room: usize, fails: &[u64]) -> MemSink {
    let fails = fails.to_vec(alloc).expect(rt, "memory");
    MemSink::new(alloc, room, fails).expect(rt, "memory")
}

// The status that a run of `audit` on the bytes ends with.
fn audit_into<A: Abort>(rt: &A, alloc: Global, input: &[u8], sink: &mut MemSink) -> u8 {
    let mut source = PlainSource::new(input.to_vec(alloc).expect(rt, "memory"));
    code_of(rt, alloc, &["audit"], &mut source, sink)
}

fn assert_written<A: Abort>(rt: &A, name: &str, code: u8, bytes: &[u8], want: u8, text: &str) {
    assert!(rt; (code, bytes) == (want, text.as_bytes()), "{name}");
}

// What a command that reads jobs answers to this one, into a sink that has room for all.
fn assert_command<A: Abort>(
    rt: &A,
    alloc: Global,
    command: &'static str,
    job: &str,
    code: u8,
    text: &str,
) {
    let input = job.as_bytes().to_vec(alloc).expect(rt, "memory");
    let mut source = PlainSource::new(input);
    let mut sink = sink_with(rt, alloc, 2000, &[]);
    let found = code_of(rt, alloc, &[command], &mut source, &mut sink);
    assert_written(rt, job, found, sink.bytes(), code, text);
}

// What is answered to the bytes, into a sink that has room for all.
fn assert_answer_to<A: Abort>(
    rt: &A,
    alloc: Global,
    name: &str,
    input: &[u8],
    code: u8,
    text: &str,
) {
    let mut sink = sink_with(rt, alloc, 1000, &[]);
    let found = audit_into(rt, alloc, input, &mut sink);
    assert_written(rt, name, found, sink.bytes(), code, text);
}

fn assert_answer<A: Abort>(rt: &A, alloc: Global, job: &str, code: u8, text: &str) {
    assert_answer_to(rt, alloc, job, job.as_bytes(), code, text);
}

// The text with a part replaced, by which it does change.
fn change<A: Abort>(rt: &A, alloc: Global, text: &str, part: &str, other: &str) -> String {
    let changed = text.replace(alloc, part, other).expect(rt, "memory");
    assert_ne!(rt; changed.as_str(), text, "{part}");
    changed
}

fn assert_cases<A: Abort>(rt: &A, alloc: Global, cases: &[Case]) {
    for (job, code, text) in cases {
        assert_answer(rt, alloc, *job, *code, *text);
    }
}

fn assert_changed<A: Abort>(rt: &A, alloc: Global, cases: &[Changed]) {
    for (job, (part, other), code, text) in cases {
        let changed = change(rt, alloc, *job, *part, *other);
        assert_answer(rt, alloc, &changed, *code, *text);
    }
}

// That each of these changes of the job is refused.
fn assert_refused<A: Abort>(rt: &A, alloc: Global, job: &str, refusals: &[Refusal]) {
    for (part, other, why) in refusals {
        let changed = change(rt, alloc, job, *part, *other);
        let text = format!(in alloc; "refused {why}\n").expect(rt, "memory");
        assert_answer(rt, alloc, &changed, 3, &text);
    }
}

fn assert_difficulties<A: Abort>(rt: &A, alloc: Global, cases: &[Difficulty]) {
    for (challenger, order, bits, mode, code, text) in cases {
        let job = change(rt, alloc, DIFFICULT, "CHALLENGER", *challenger);
        let job = change(rt, alloc, &job, "ORDER", *order);
        let job = change(rt, alloc, &job, "BITS", *bits);
        let job = change(rt, alloc, &job, "MODE", *mode);
        assert_answer(rt, alloc, &job, *code, *text);
    }
}

#[test]
fn whole_jobs_and_texts_that_are_none(rt: HostRuntime) {
    assert_cases(&rt, rt.alloc(), &WHOLE);
}

#[test]
fn the_first_job_alone(rt: HostRuntime) {
    assert_cases(&rt, rt.alloc(), &ALONE);
}

#[test]
fn a_change_of_the_first_job_that_is_refused(rt: HostRuntime) {
    assert_refused(&rt, rt.alloc(), FIRST, &CHANGES);
}

#[test]
fn the_first_job_with_a_proof(rt: HostRuntime) {
    assert_changed(&rt, rt.alloc(), &CHECKS);
}

#[test]
fn the_first_job_in_suffix_order(rt: HostRuntime) {
    assert_changed(&rt, rt.alloc(), &SUFFIX_MODES);
}

#[test]
fn the_first_job_at_a_difficulty(rt: HostRuntime) {
    assert_difficulties(&rt, rt.alloc(), &DIFFICULTIES);
}

#[test]
fn a_difficulty_without_rounds(rt: HostRuntime) {
    assert_changed(&rt, rt.alloc(), &NO_ROUNDS);
}

#[test]
fn the_first_job_under_the_hash_challenger(rt: HostRuntime) {
    assert_difficulties(&rt, rt.alloc(), &HASHES);
}

#[test]
fn a_table_without_variables_needs_no_proof(rt: HostRuntime) {
    assert_changed(&rt, rt.alloc(), &NO_PROOF);
}

#[test]
fn a_false_claim_is_refuted_unless_the_draw_is_lucky(rt: HostRuntime) {
    assert_changed(&rt, rt.alloc(), &DRAWS_OF_A_FALSE_CLAIM);
}

#[test]
fn a_lucky_batch_is_named(rt: HostRuntime) {
    assert_cases(&rt, rt.alloc(), &BATCH);
}

#[test]
fn a_change_of_the_first_job_that_says_the_same(rt: HostRuntime) {
    assert_changed(&rt, rt.alloc(), &SAME);
}

#[test]
fn the_last_of_two_members_counts_where_it_is_refused(rt: HostRuntime) {
    assert_changed(&rt, rt.alloc(), &LAST_OF_TWO);
}

#[test]
fn draws_past_the_end_of_the_list_are_0(rt: HostRuntime) {
    assert_changed(&rt, rt.alloc(), &FEW_DRAWS);
}

#[test]
fn three_variables_and_points_outside_the_cube(rt: HostRuntime) {
    assert_changed(&rt, rt.alloc(), &CUBES);
}

#[test]
fn three_variables_in_suffix_order(rt: HostRuntime) {
    assert_changed(&rt, rt.alloc(), &SUFFIX_CUBES);
}

#[test]
fn a_part_of_a_job_and_bytes_that_are_no_text_are_no_json(rt: HostRuntime) {
    assert_cases(&rt, rt.alloc(), &PART);
    let (name, text) = ("no text", "refused bad-json\n");
    assert_answer_to(&rt, rt.alloc(), name, b"\"\xff\"", 3, text);
}

// So many claims as the items of a list, of claims with a comma after each.
fn list_of<A: Abort>(rt: &A, alloc: Global, claim: &str, count: usize) -> String {
    let mut list = claim.repeat(alloc, count).expect(rt, "memory");
    list.pop();
    list
}

const MANY_TEXT: &str = "claim 28672\nresidual 28672\neval 7\nweight 4096\nverdict holds\n";

// How many claims a job has at points, and how many after them at scalars, all of them true, and
// what is answered.
static COUNTS: [(usize, usize, u8, &str); 4] = [
    // 4,096 times 7, and 4,096 weights of 1
    (4096, 0, 0, MANY_TEXT),
    (4000, 96, 0, MANY_TEXT),
    (4097, 0, 3, "refused bad-job groups\n"),
    (4096, 1, 3, "refused bad-job groups\n"),
];

// A job of so many claims.
fn job_of<A: Abort>(rt: &A, alloc: Global, points: usize, scalars: usize) -> String {
    let points = list_of(rt, alloc, r#"{"point":[],"value":7},"#, points);
    let scalars = list_of(rt, alloc, r#"{"at":5,"value":7},"#, scalars);
    let job = change(rt, alloc, MANY, "POINTS", &points);
    change(rt, alloc, &job, "SCALARS", &scalars)
}

#[test]
fn a_job_has_at_most_4096_statements(rt: HostRuntime) {
    for (points, scalars, code, text) in COUNTS.iter() {
        let job = job_of(&rt, rt.alloc(), *points, *scalars);
        assert_answer(&rt, rt.alloc(), &job, *code, *text);
    }
}
