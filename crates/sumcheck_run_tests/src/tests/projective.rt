// Jobs with a basis. The texts are those of a model in another language, which sums over all rows
// and counts roots one element after the other.
use super::jobs::{FIRST, FIRST_TEXT, NO_VARIABLE, NO_VARIABLE_TEXT, PLAIN};
use super::{Case, Changed, Refusal, assert_cases, assert_changed, assert_refused};

// The first job, whose rounds are on coefficients.
const FIRST_PROJECTIVE: &str =
    r#"{"field":"65537","challenger":{"draws":[3,4],"witnesses":[]},"order":"prefix","bits":0,
    "table":[1,2,3,4],"variables":2,"groups":[{"kind":"eq","claims":[{"point":[0,1],"value":2}]}],
    "batching":1,"mode":{"build":"plain"},"basis":"projective"}"#;

const FIRST_PROJECTIVE_TEXT: &str = "claim 2
round 0: 6 0 challenge 3
round 1: 24 14 challenge 4
residual 264
eval 66
weight 4
verdict holds
";

static WHOLE: [Case; 5] = [
    (FIRST_PROJECTIVE, 0, FIRST_PROJECTIVE_TEXT),
    // statements of two kinds claim what they claim on values
    (
        r#"{"field":"65537","challenger":{"draws":[3,4],"witnesses":[]},"order":"prefix","bits":0,
            "table":[1,2,3,4],"variables":2,
            "groups":[
                {"kind":"eq","claims":[{"point":[5,7],"value":18}]},
                {"kind":"next","claims":[{"selector":[],"point":[2,3],"order":"prefix","value":3}]}],
            "batching":10,"mode":{"build":"plain"},"basis":"projective"}"#,
        0,
        "claim 48
round 0: 138 40 challenge 3
round 1: 24 2198 challenge 4
residual 31152
eval 66
weight 472
verdict holds
",
    ),
    // the seed tells the basis
    (
        r#"{"field":"65537","challenger":"hash","order":"prefix","bits":8,
            "table":[1,2,3,4],"variables":2,
            "groups":[{"kind":"eq","claims":[{"point":[0,1],"value":2}]}],
            "batching":1,"mode":{"build":"plain"},"basis":"projective"}"#,
        0,
        "claim 2
round 0: 6 0 witness 58 challenge 54769
round 1: 55701 22467 witness 340 challenge 46761
residual 58330
eval 54511
weight 46761
verdict holds
",
    ),
    // over an extension
    (
        r#"{"field":"257x2","challenger":{"draws":[2,1],"witnesses":[]},"order":"prefix","bits":0,
            "table":[1,2],"variables":1,
            "groups":[{"kind":"eq","claims":[{"point":[257],"value":258}]}],
            "batching":1,"mode":{"build":"plain"},"basis":"projective"}"#,
        0,
        "claim 258
round 0: 3 514 challenge 259
residual 3367
eval 519
weight 261
verdict holds
",
    ),
    // the true round sends 3 and 0: 1 + 2 x, and this one 5
    (
        r#"{"field":"65537","challenger":{"draws":[2],"witnesses":[]},"order":"prefix","bits":0,
            "table":[1,2],"variables":1,
            "groups":[{"kind":"eq","claims":[{"point":[0],"value":5}]}],
            "batching":1,"mode":{"check":{"rounds":[[5,0]],"witnesses":[]}},"basis":"projective"}"#,
        1,
        "claim 5
round 0: 5 0 challenge 2
residual 5
eval 5
weight 1
verdict lucky-round 0 vanishing 1 poly 4 65535 0
",
    ),
];

#[test]
fn rounds_on_coefficients(rt: HostRuntime) {
    assert_cases(&rt, rt.alloc(), &WHOLE);
}

static CHECKS: [Changed; 5] = [
    (
        FIRST_PROJECTIVE,
        (
            PLAIN,
            r#"{"check":{"rounds":[[6,0],[24,14]],"witnesses":[]}}"#,
        ),
        0,
        FIRST_PROJECTIVE_TEXT,
    ),
    // the rounds of the other basis
    (
        FIRST_PROJECTIVE,
        (
            PLAIN,
            r#"{"check":{"rounds":[[2,65535],[0,65535]],"witnesses":[]}}"#,
        ),
        1,
        "claim 2
round 0: 2 65535 challenge 3
round 1: 0 65535 challenge 4
residual 12
eval 66
weight 4
verdict refuted
",
    ),
    (
        FIRST,
        (
            PLAIN,
            r#"{"check":{"rounds":[[6,0],[24,14]],"witnesses":[]}},"basis":"evaluation""#,
        ),
        1,
        "claim 2
round 0: 6 0 challenge 3
round 1: 24 14 challenge 4
residual 65441
eval 11
weight 65529
verdict refuted
",
    ),
    (
        FIRST_PROJECTIVE,
        (PLAIN, r#"{"check":null}"#),
        4,
        "proof refused missing 2\n",
    ),
    // a table without variables has one entry, whatever the basis
    (
        NO_VARIABLE,
        (PLAIN, r#"{"build":"plain"},"basis":"projective""#),
        0,
        NO_VARIABLE_TEXT,
    ),
];

#[test]
fn a_proof_of_rounds_on_coefficients(rt: HostRuntime) {
    assert_changed(&rt, rt.alloc(), &CHECKS);
}

// Each with the text of the first job.
static ON_VALUES: [(&str, &str); 6] = [
    (PLAIN, r#"{"build":"plain"},"basis":"evaluation""#),
    (r#"{"field""#, r#"{"basis":"evaluation","field""#),
    // the last of two counts
    (
        PLAIN,
        r#"{"build":"plain"},"basis":"projective","basis":"evaluation""#,
    ),
    (PLAIN, r#"{"build":"plain"},"basis":7,"basis":"evaluation""#),
    // these are no members of the job
    (PLAIN, r#"{"build":"plain"},"Basis":"projective""#),
    (PLAIN, r#"{"build":"plain","basis":"projective"}"#),
];

#[test]
fn a_job_without_a_basis_is_on_values(rt: HostRuntime) {
    for (part, other) in &ON_VALUES {
        let case: Changed = (FIRST, (*part, *other), 0, FIRST_TEXT);
        assert_changed(&rt, rt.alloc(), &[case]);
    }
}

static NO_BASES: [Refusal; 14] = [
    (r#""projective""#, "null", "bad-job basis"),
    (r#""projective""#, "1", "bad-job basis"),
    (r#""projective""#, "true", "bad-job basis"),
    (r#""projective""#, r#""""#, "bad-job basis"),
    (r#""projective""#, r#""Projective""#, "bad-job basis"),
    (r#""projective""#, r#""projective ""#, "bad-job basis"),
    (r#""projective""#, r#""prefix""#, "bad-job basis"),
    (r#""projective""#, r#""monomial""#, "bad-job basis"),
    (r#""projective""#, "[]", "bad-job basis"),
    (r#""projective""#, r#"["projective"]"#, "bad-job basis"),
    (r#""projective""#, r#"{"projective":1}"#, "bad-job basis"),
    // the last of two counts
    (
        r#""projective""#,
        r#""projective","basis":null"#,
        "bad-job basis",
    ),
    // it is tested last
    (
        r#"{"build":"plain"},"basis":"projective""#,
        r#"{"build":"masked"},"basis":7"#,
        "bad-job mode",
    ),
    (
        r#""batching":1,"mode":{"build":"plain"},"basis":"projective""#,
        r#""basis":null,"mode":{},"batching":65537"#,
        "bad-job batching",
    ),
];

#[test]
fn anything_else_is_a_bad_basis(rt: HostRuntime) {
    assert_refused(&rt, rt.alloc(), FIRST_PROJECTIVE, &NO_BASES);
}

// The order, the table, the difficulty or the mode is another one.
static UNFIT: [Refusal; 12] = [
    (r#""prefix""#, r#""suffix""#, "job-shape projective-suffix"),
    (
        r#""order":"prefix","bits":0"#,
        r#""order":"suffix","bits":17"#,
        "job-shape difficulty 17 bound 16",
    ),
    (
        r#""order":"prefix","bits":0,
    "table":[1,2,3,4]"#,
        r#""order":"suffix","bits":0,"table":[1,2]"#,
        "job-shape variables 2 expected 1",
    ),
    (
        r#""order":"prefix","bits":0,
    "table":[1,2,3,4]"#,
        r#""order":"suffix","bits":0,"table":[1,2,3]"#,
        "job-shape table-length 3",
    ),
    (
        r#""plain"},"basis":"projective""#,
        r#""represented"},"order":"suffix","basis":"projective""#,
        "job-shape projective-suffix",
    ),
    (
        r#"{"build":"plain"}"#,
        r#"{"check":null},"order":"suffix""#,
        "job-shape projective-suffix",
    ),
    (
        r#""plain""#,
        r#""represented""#,
        "strategy-unfit projective",
    ),
    (
        r#""plain""#,
        r#"{"small-value":1}"#,
        "strategy-unfit projective",
    ),
    (
        r#""plain""#,
        r#"{"small-value":0}"#,
        "strategy-unfit projective",
    ),
    (
        r#""value":2}]}],
    "batching":1,"mode":{"build":"plain"}"#,
        r#""value":3}]}],"batching":1,"mode":{"build":"represented"}"#,
        "strategy-unfit projective",
    ),
    (
        r#"{"kind":"eq","claims":[{"point":[0,1],"value":2}]}],
    "batching":1,"mode":{"build":"plain"}"#,
        r#"{"kind":"select","scalars":[{"at":2,"value":49}]}],
    "batching":1,"mode":{"build":{"small-value":1}}"#,
        "strategy-unfit projective",
    ),
    (
        r#""value":2"#,
        r#""value":3"#,
        "false-claim 0 claimed 3 true 2",
    ),
];

#[test]
fn what_rounds_on_coefficients_do_not_take(rt: HostRuntime) {
    assert_refused(&rt, rt.alloc(), FIRST_PROJECTIVE, &UNFIT);
}
