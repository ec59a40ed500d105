//! The texts of the errors, the forms of a build and of a basis, and jobs of `product`.
use sc_forms::read_value;
use sc_table::{Basis, Strategy};
use std::alloc::Global;
use std::process::Abort;
use sumcheck_audit::{Mode, read_job};
use sumcheck_members::{BuildOrCheck, Member, Unread};
use sumcheck_product::{ProductJob, read_product};

static MISFITS: [(&str, &str); 3] = [
    ("job", "`job` is missing, or not of its form"),
    ("bits", "`bits` is missing, or not of its form"),
    ("tables", "`tables` is missing, or not of its form"),
];

#[test]
fn a_misfit_is_named(rt: HostRuntime) {
    for (member, wanted) in &MISFITS {
        let text = Unread::Misfit(Member::named(*member))
            .to_string(rt.alloc())
            .expect(&rt, "a text");
        assert!(rt; text.as_str() == *wanted);
    }
}

#[test]
fn want_of_memory_has_a_text(rt: HostRuntime) {
    let text = Unread::NoMemory.to_string(rt.alloc()).expect(&rt, "a text");
    assert!(rt; text.as_str() == "out of memory");
}

// A job without variables; MODE is what is done.
const JOB: &str = r#"{"field":"65537","challenger":"hash","order":"prefix","bits":0,
    "table":[7],"variables":0,"groups":[],"batching":1,"mode":MODE}"#;

// How the rounds of this job are built, if they are, or why it is not read.
fn build_of<A: Abort>(rt: &A, alloc: Global, mode: &str) -> Result<Option<Strategy>, Unread> {
    let text = JOB.replace(alloc, "MODE", mode).expect(rt, "memory");
    let value = read_value(alloc, text.as_bytes()).expect(rt, "JSON");
    match read_job(alloc, value)?.mode {
        Mode::Build(strategy) => Ok(Some(strategy)),
        Mode::Check(_) => Ok(None),
    }
}

static BUILDS: [(&str, Option<Strategy>); 8] = [
    (r#"{"check":null}"#, None),
    (r#"{"build":"plain"}"#, Some(Strategy::Plain)),
    (r#"{"build":"represented"}"#, Some(Strategy::Represented)),
    (
        r#"{"build":{"small-value":0}}"#,
        Some(Strategy::SmallValue { variables: 0 }),
    ),
    (
        r#"{"build":{"small-value":2}}"#,
        Some(Strategy::SmallValue { variables: 2 }),
    ),
    (
        r#"{"build":{"small-value":64}}"#,
        Some(Strategy::SmallValue { variables: 64 }),
    ),
    // other members are ignored, and the last of two counts
    (
        r#"{"build":{"variables":-1,"small-value":2,"Small-Value":65}}"#,
        Some(Strategy::SmallValue { variables: 2 }),
    ),
    (
        r#"{"build":{"small-value":65,"small-value":3}}"#,
        Some(Strategy::SmallValue { variables: 3 }),
    ),
];

#[test]
fn a_build_is_named_or_on_small_values(rt: HostRuntime) {
    for (mode, wanted) in &BUILDS {
        assert!(rt; build_of(&rt, rt.alloc(), *mode) == Ok(*wanted), "{mode}");
    }
}

static NO_BUILDS: [&str; 16] = [
    r#"{"build":{}}"#,
    r#"{"build":{"small-value":65}}"#,
    r#"{"build":{"small-value":2.0}}"#,
    r#"{"build":{"small-value":-1}}"#,
    r#"{"build":{"small-value":-0}}"#,
    r#"{"build":{"small-value":"2"}}"#,
    r#"{"build":{"small-value":null}}"#,
    r#"{"build":{"small-value":[2]}}"#,
    r#"{"build":{"small-value":3,"small-value":65}}"#,
    r#"{"build":{"plain":2}}"#,
    r#"{"build":["small-value",2]}"#,
    r#"{"build":"small-value"}"#,
    r#"{"build":2}"#,
    r#"{"build":{"small-value":2},"check":null}"#,
    r#"{"small-value":2}"#,
    r#"{}"#,
];

#[test]
fn anything_else_is_a_bad_mode(rt: HostRuntime) {
    for mode in &NO_BUILDS {
        let found = build_of(&rt, rt.alloc(), *mode);
        assert!(rt;
            found == Err(Unread::Misfit(Member::named("mode"))),
            "{mode}"
        );
    }
}

// The basis of the job with these members after its mode, or why it is not read.
fn basis_of<A: Abort>(rt: &A, alloc: Global, members: &str) -> Result<Basis, Unread> {
    let text = JOB.replace(alloc, "MODE", members).expect(rt, "memory");
    let value = read_value(alloc, text.as_bytes()).expect(rt, "JSON");
    Ok(read_job(alloc, value)?.basis)
}

static BASES: [(&str, Basis); 7] = [
    (r#"{"build":"plain"}"#, Basis::Evaluation),
    (
        r#"{"build":"plain"},"basis":"evaluation""#,
        Basis::Evaluation,
    ),
    (
        r#"{"build":"plain"},"basis":"projective""#,
        Basis::Projective,
    ),
    (r#"{"check":null},"basis":"projective""#, Basis::Projective),
    // other members are ignored, and the last of two counts
    (r#"{"build":"plain"},"Basis":null"#, Basis::Evaluation),
    (
        r#"{"build":"plain","basis":"projective"}"#,
        Basis::Evaluation,
    ),
    (
        r#"{"build":"plain"},"basis":null,"basis":"projective""#,
        Basis::Projective,
    ),
];

#[test]
fn a_basis_is_named_or_that_of_values(rt: HostRuntime) {
    for (members, wanted) in &BASES {
        assert!(rt;
            basis_of(&rt, rt.alloc(), *members) == Ok(*wanted),
            "{members}"
        );
    }
}

// What is read of a job, and the member that is told.
static NO_BASES: [(&str, &str); 8] = [
    (r#"{"build":"plain"},"basis":null"#, "basis"),
    (r#"{"build":"plain"},"basis":"coefficients""#, "basis"),
    (r#"{"build":"plain"},"basis":"Projective""#, "basis"),
    (r#"{"build":"plain"},"basis":0"#, "basis"),
    (r#"{"build":"plain"},"basis":["projective"]"#, "basis"),
    (
        r#"{"build":"plain"},"basis":"projective","basis":1"#,
        "basis",
    ),
    // the mode is told first
    (r#"{"build":"masked"},"basis":null"#, "mode"),
    (r#"{},"basis":"projective""#, "mode"),
];

#[test]
fn anything_else_is_a_bad_basis(rt: HostRuntime) {
    for (members, told) in &NO_BASES {
        let found = basis_of(&rt, rt.alloc(), *members);
        assert!(rt;
            found == Err(Unread::Misfit(Member::named(*told))),
            "{members}"
        );
    }
}

// A job of `product` with these tables, and this mode.
const PRODUCT: &str = r#"{"field":"16","challenger":"hash","bits":3,
    "tables":TABLES,"mode":MODE}"#;

// What this job is read as.
fn product_of<A: Abort>(
    rt: &A,
    alloc: Global,
    tables: &str,
    mode: &str,
) -> Result<ProductJob, Unread> {
    let text = PRODUCT
        .replace(alloc, "TABLES", tables)
        .expect(rt, "memory");
    let text = text.replace(alloc, "MODE", mode).expect(rt, "memory");
    let value = read_value(alloc, text.as_bytes()).expect(rt, "JSON");
    read_product(alloc, value)
}

// Tables, and the length of each.
static TABLES: [(&str, &[usize]); 4] = [
    ("[[]]", &[0]),
    ("[[15],[0,1],[]]", &[1, 2, 0]),
    ("[[1],[2],[3],[4],[5],[6],[7]]", &[1, 1, 1, 1, 1, 1, 1]),
    (
        "[[1],[2],[3],[4],[5],[6],[7],[8]]",
        &[1, 1, 1, 1, 1, 1, 1, 1],
    ),
];

#[test]
fn from_one_to_eight_tables(rt: HostRuntime) {
    for (tables, lengths) in &TABLES {
        let job = product_of(&rt, rt.alloc(), *tables, r#""build""#).expect(&rt, "a job");
        assert!(rt; job.tables.len() == lengths.len(), "{tables}");
        for i in 0..lengths.len() {
            assert!(rt; job.tables.as_slice()[i].len() == lengths[i], "{tables}");
        }
        assert!(rt; matches!(job.mode, BuildOrCheck::Build), "{tables}");
    }
}

static NO_TABLES: [&str; 6] = [
    "[]",
    "[[1],[2],[3],[4],[5],[6],[7],[8],[9]]",
    "[[16]]",
    "[1]",
    "{}",
    "null",
];

#[test]
fn anything_else_is_no_tables(rt: HostRuntime) {
    for tables in &NO_TABLES {
        let found = product_of(&rt, rt.alloc(), *tables, r#""build""#);
        assert!(rt;
            matches!(found, Err(Unread::Misfit(member)) if member.name() == "tables"),
            "{tables}"
        );
    }
}

// The proof has rounds of any widths, and the other members of the mode are ignored.
const CHECK: &str = r#"{"build":"build","check":
    {"claimed":7,"rounds":[[],[1,2,3]],"witnesses":[4,5],"more":0},"other":null}"#;

#[test]
fn a_proof_of_a_product(rt: HostRuntime) {
    let job = product_of(&rt, rt.alloc(), "[[1]]", CHECK).expect(&rt, "a job");
    let ProductJob { mode, .. } = job;
    let BuildOrCheck::Check(proof) = mode else {
        panic!(rt; "no check");
    };
    assert!(rt;
        proof.claimed == 7
            && proof.rounds.len() == 2
            && proof.rounds.as_slice()[0].as_slice() == [0; 0].as_slice()
            && proof.rounds.as_slice()[1].as_slice() == [1, 2, 3].as_slice()
    );
    assert!(rt; proof.witnesses.as_slice() == [4, 5].as_slice());
}

static NO_MODES: [&str; 6] = [
    r#""check""#,
    r#"{"build":"plain"}"#,
    r#"{"check":null}"#,
    r#"{"check":{"rounds":[],"witnesses":[]}}"#,
    r#"{"check":{"claimed":16,"rounds":[],"witnesses":[]}}"#,
    r#"{"check":{"claimed":0,"rounds":[1],"witnesses":[]}}"#,
];

#[test]
fn anything_else_is_no_mode_of_a_product(rt: HostRuntime) {
    for mode in &NO_MODES {
        let found = product_of(&rt, rt.alloc(), "[[1]]", *mode);
        assert!(rt;
            matches!(found, Err(Unread::Misfit(member)) if member.name() == "mode"),
            "{mode}"
        );
    }
}
