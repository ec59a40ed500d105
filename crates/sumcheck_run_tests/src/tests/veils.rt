// Rounds under masks: the text and the status that `veil` answers.
use super::{Case, assert_command, change};

// A table of one variable under one mask.
pub(super) const ONE: &str =
    r#"{"field":"65537","challenger":{"draws":[31,2],"witnesses":[]},"order":"prefix",
"bits":0,"table":[1,2],"variables":1,
"groups":[{"kind":"eq","claims":[{"point":[0],
"value":1}]}],"batching":1,"rounds":1,"masks":{"messages":[[2,3,5]],"randomness":[[1,1]]},
"aux":4}"#;

pub(super) const ONE_TEXT: &str = "claim 5
mu 12
eps 31
round 0: 95 65511 challenge 2
residual 65534
scaled 65444
carried 62
mask-residual 28
verdict holds
";

// A part of that job, what is put in its place, and the answer.
type Change = (&'static str, &'static str, u8, &'static str);

// The texts of these are those of a model in another language, which sums the masks over all bits.
static BUILDS: [Case; 6] = [
    // three rounds of three variables, and masks of five coefficients
    (
        r#"{"field":"65537","challenger":{"draws":[65536,10,20,30,40],"witnesses":[[9,5],[],
[6,3],[1]]},"order":"prefix","bits":0,"table":[3,1,4,1,5,9,2,6],"variables":3,
"groups":[{"kind":"eq","claims":[{"point":[2,3,5],"value":51}]},{"kind":"select",
"scalars":[{"at":9,"value":47913}]}],"batching":7,"rounds":3,"masks":{"messages":[[1,2,3,4,5],
[65536,0,1,0,2],[7,7,7,7,7]],"randomness":[[0,0],[1,2],[3,4]]},"aux":65536}"#,
        0,
        "claim 7756
mu 236
eps 65536
round 0: 25385 46208 16 20 challenge 10
round 1: 35704 63476 0 4 challenge 20
round 2: 1312 27198 7 7 challenge 30
residual 422
scaled 59929
carried 57345
mask-residual 14222
verdict holds
",
    ),
    // the least witness of each round
    (
        r#"{"field":"65537","challenger":{"draws":[65536,10,20,30,40],"witnesses":[[9,5],
[6,3]]},"order":"prefix","bits":2,"table":[3,1,4,1,5,9,2,6],"variables":3,
"groups":[{"kind":"eq","claims":[{"point":[2,3,5],"value":51}]},{"kind":"select",
"scalars":[{"at":9,"value":47913}]}],"batching":7,"rounds":2,"masks":{"messages":[[1,2,3,4,5],
[65536,0,1,0,2]],"randomness":[[0,0],[1,2]]},"aux":65536}"#,
        0,
        "claim 7756
mu 34
eps 65536
round 0: 25298 46202 8 10 witness 5 challenge 10
round 1: 46879 63475 0 2 witness 3 challenge 20
residual 41927
scaled 11276
carried 49153
mask-residual 47035
verdict holds
",
    ),
    // the second round has none
    (
        r#"{"field":"65537","challenger":{"draws":[65536,10,20,30,40],"witnesses":[[9,5],[]]},
"order":"prefix","bits":2,"table":[3,1,4,1,5,9,2,6],"variables":3,"groups":[{"kind":"eq",
"claims":[{"point":[2,3,5],"value":51}]},{"kind":"select","scalars":[{"at":9,"value":47913}]}],
"batching":7,"rounds":2,"masks":{"messages":[[1,2,3,4,5],[65536,0,1,0,2]],"randomness":[[0,0],
[1,2]]},"aux":65536}"#,
        5,
        "no witness round 1\n",
    ),
    // no statement, and draws that are zero
    (
        r#"{"field":"65537","challenger":{"draws":[0,0],"witnesses":[]},"order":"prefix",
"bits":0,"table":[1,2],"variables":1,"groups":[],"batching":1,"rounds":1,
"masks":{"messages":[[2,3,5]],"randomness":[[1,1]]},"aux":4}"#,
        0,
        "claim 4
mu 12
eps 0
round 0: 2 5 challenge 0
residual 2
scaled 0
carried 0
mask-residual 2
verdict holds
",
    ),
    // masks from a seed, under the hash challenger, in suffix order
    (
        r#"{"field":"65537","challenger":"hash","order":"suffix","bits":6,
"table":[3,1,4,1,5,9,2,6],"variables":3,"groups":[{"kind":"eq","claims":[{"point":[7,11,13],
"value":1098}]},{"kind":"next","claims":[{"selector":[5],"point":[8,2],"order":"prefix",
"value":579}]}],"batching":10,"rounds":2,"masks":{"seed":7,"length":4},"aux":0}"#,
        0,
        "claim 6888
mu 33237
eps 29634
round 0: 14391 30664 58989 witness 120 challenge 17904
round 1: 19526 13837 61880 witness 23 challenge 4181
residual 35427
scaled 2084
carried 0
mask-residual 33343
verdict holds
",
    ),
    // challenges in an extension of degree 2
    (
        r#"{"field":"257x2","challenger":{"draws":[3,100,4,200,10,20],"witnesses":[]},
"order":"prefix","bits":0,"table":[1,2,3,4],"variables":2,"groups":[{"kind":"eq",
"claims":[{"point":[300,25703],"value":26304}]},{"kind":"select","points":[{"at":[5,6],
"value":148}]}],"batching":1000,"rounds":2,"masks":{"messages":[[1,258,66048],[515,0,9]],
"randomness":[[1,2],[3,66000]]},"aux":512}"#,
        0,
        "claim 8537
mu 2082
eps 25703
round 0: 51411 2172 challenge 51404
round 1: 6200 28715 challenge 5150
residual 48586
scaled 5409
carried 4057
mask-residual 39377
verdict holds
",
    ),
];

static CHANGES: [Change; 30] = [
    (
        r#"{"messages":[[2,3,5]],"randomness":[[1,1]]}"#,
        r#"{"messages":[[2,3]],"randomness":[[1,1]]}"#,
        3,
        "refused veil mask-too-short 2\n",
    ),
    (
        r#""rounds":1,"masks":{"messages":[[2,3,5]],"randomness":[[1,1]]}"#,
        r#""rounds":0,"masks":{"seed":1,"length":3}"#,
        3,
        "refused veil no-rounds\n",
    ),
    (
        r#""rounds":1,"masks":{"messages":[[2,3,5]],"randomness":[[1,1]]}"#,
        r#""rounds":0,"masks":{"messages":[],"randomness":[]}"#,
        3,
        "refused veil mask-too-short 0\n",
    ),
    (
        r#""rounds":1,"masks":{"messages":[[2,3,5]],"randomness":[[1,1]]}"#,
        r#""rounds":2,"masks":{"seed":1,"length":3}"#,
        3,
        "refused job-shape rounds 2 bound 1\n",
    ),
    (
        r#""value":1}"#,
        r#""value":2}"#,
        3,
        "refused false-claim 0 claimed 2 true 1\n",
    ),
    (
        r#""field":"65537","challenger":{"draws":[31,2]"#,
        r#""field":"16","challenger":{"draws":[3,2]"#,
        3,
        "refused veil even-characteristic\n",
    ),
    (
        r#""bits":0"#,
        r#""bits":17"#,
        3,
        "refused job-shape difficulty 17 bound 16\n",
    ),
    (r#""bits":0"#, r#""bits":1"#, 5, "no witness round 0\n"),
    (
        r#""table":[1,2]"#,
        r#""table":[1,2,3]"#,
        3,
        "refused job-shape table-length 3\n",
    ),
    (
        r#""table":[1,2]"#,
        r#""table":[1,2,3,4]"#,
        3,
        "refused job-shape variables 1 expected 2\n",
    ),
    (
        r#""bits":0,"table":[1,2]"#,
        r#""bits":17,"table":[1,2,3]"#,
        3,
        "refused job-shape table-length 3\n",
    ),
    (
        r#"1}]}],"batching":1,"rounds":1,"masks":{"messages":[[2,3,5]],"randomness":[[1,1]]}"#,
        r#"2}]}],"batching":1,"rounds":2,"masks":{"seed":1,"length":2}"#,
        3,
        "refused job-shape rounds 2 bound 1\n",
    ),
    (
        r#"1}]}],"batching":1,"rounds":1,"masks":{"messages":[[2,3,5]],"randomness":[[1,1]]}"#,
        r#"2}]}],"batching":1,"rounds":0,"masks":{"seed":1,"length":2}"#,
        3,
        "refused veil mask-too-short 2\n",
    ),
    (
        r#"1}]}],"batching":1,"rounds":1,"masks":{"messages":[[2,3,5]],"randomness":[[1,1]]}"#,
        r#"2}]}],"batching":1,"rounds":0,"masks":{"seed":1,"length":3}"#,
        3,
        "refused veil no-rounds\n",
    ),
    (
        r#""rounds":1"#,
        r#""rounds":65"#,
        3,
        "refused bad-job rounds\n",
    ),
    (
        r#""rounds":1"#,
        r#""Rounds":1"#,
        3,
        "refused bad-job rounds\n",
    ),
    (
        r#""rounds":1"#,
        r#""rounds":2"#,
        3,
        "refused bad-job masks\n",
    ),
    (
        r#"{"messages":[[2,3,5]],"randomness":[[1,1]]}"#,
        r#"{"messages":[[2,3,65537]],"randomness":[[1,1]]}"#,
        3,
        "refused bad-job masks\n",
    ),
    (
        r#"{"messages":[[2,3,5]],"randomness":[[1,1]]}"#,
        r#"{"messages":[[]],"randomness":[[1,1]]}"#,
        3,
        "refused bad-job masks\n",
    ),
    (
        r#"{"messages":[[2,3,5]],"randomness":[[1,1]]}"#,
        r#"{"messages":[[2,3,5]],"randomness":[[1]]}"#,
        3,
        "refused bad-job masks\n",
    ),
    (
        r#"{"messages":[[2,3,5]],"randomness":[[1,1]]}"#,
        r#"{"messages":[[2,3,5]]}"#,
        3,
        "refused bad-job masks\n",
    ),
    (
        r#"{"messages":[[2,3,5]],"randomness":[[1,1]]}"#,
        r#"{"messages":[[2,3,5]],"randomness":[[1,1]],"seed":1,"length":3}"#,
        3,
        "refused bad-job masks\n",
    ),
    (
        r#"{"messages":[[2,3,5]],"randomness":[[1,1]]}"#,
        r#"{"length":3}"#,
        3,
        "refused bad-job masks\n",
    ),
    (
        r#"{"messages":[[2,3,5]],"randomness":[[1,1]]}"#,
        r#"{"seed":1,"length":0}"#,
        3,
        "refused bad-job masks\n",
    ),
    (
        r#"{"messages":[[2,3,5]],"randomness":[[1,1]]}"#,
        r#"{"seed":1,"length":65}"#,
        3,
        "refused bad-job masks\n",
    ),
    (
        r#"{"messages":[[2,3,5]],"randomness":[[1,1]]}"#,
        r#"{"seed":18446744073709551616,"length":3}"#,
        3,
        "refused bad-job masks\n",
    ),
    (
        r#""rounds":1,"masks":{"messages":[[2,3,5]],"randomness":[[1,1]]}"#,
        r#""rounds":2,"masks":{"messages":[[2,3,5],[2,3]],"randomness":[[1,1],[1,1]]}"#,
        3,
        "refused bad-job masks\n",
    ),
    (r#""aux":4"#, r#""aux":65537"#, 3, "refused bad-job aux\n"),
    (r#""aux":4"#, r#""Aux":4"#, 3, "refused bad-job aux\n"),
    (
        r#""batching":1"#,
        r#""batching":-1"#,
        3,
        "refused bad-job batching\n",
    ),
];

#[test]
fn a_round_under_a_mask(rt: HostRuntime) {
    assert_command(&rt, rt.alloc(), "veil", ONE, 0, ONE_TEXT);
}

#[test]
fn rounds_under_masks(rt: HostRuntime) {
    for (job, code, text) in &BUILDS {
        assert_command(&rt, rt.alloc(), "veil", *job, *code, *text);
    }
}

// Masks from a seed are the same in each run.
#[test]
fn a_job_with_a_seed_again(rt: HostRuntime) {
    let (job, code, text) = &BUILDS[4];
    assert_command(&rt, rt.alloc(), "veil", *job, *code, *text);
    assert_command(&rt, rt.alloc(), "veil", *job, *code, *text);
}

#[test]
fn a_change_of_the_round_under_a_mask(rt: HostRuntime) {
    for (part, other, code, text) in &CHANGES {
        let changed = change(&rt, rt.alloc(), ONE, *part, *other);
        assert_command(&rt, rt.alloc(), "veil", &changed, *code, *text);
    }
}

#[test]
fn no_job_of_masks_at_all(rt: HostRuntime) {
    assert_command(&rt, rt.alloc(), "veil", "[]", 3, "refused bad-job job\n");
    assert_command(&rt, rt.alloc(), "veil", "{", 3, "refused bad-json\n");
}
