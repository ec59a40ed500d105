// Rounds over products of tables: the text and the status that `product` answers.
use super::lucky_products::LUCKY;
use super::{Case, Changed, assert_command, change};

// Two tables of one variable.
pub(super) const TWO: &str = r#"{"field":"65537","challenger":{"draws":[5],"witnesses":[]},
        "bits":0,"tables":[[1,2],[3,4]],"mode":"build"}"#;

pub(super) const TWO_TEXT: &str =
    "claim 11\nround 0: 3 15 challenge 5\nresidual 48\nproduct 48\nverdict holds\n";

// Three tables of two variables under the hash challenger; FIELD, BITS and MODE stand for what they
// name.
const HASHED: &str = r#"{"field":"FIELD","challenger":"hash","bits":BITS,
        "tables":[[1,2,3,4],[5,6,7,8],[9,10,11,13]],"mode":MODE}"#;

// What is done in the first job.
const BUILD: &str = r#""build""#;

// The texts of these are those of a model in another language, which sums over all rows.
static BUILDS: [Case; 15] = [
    (
        r#"{"field":"65537","challenger":{"draws":[5],"witnesses":[]},"bits":0,
            "tables":[[1,2],[3,4],[5,6]],"mode":"build"}"#,
        0,
        "claim 63\nround 0: 15 105 192 challenge 5\nresidual 480\nproduct 480\nverdict holds\n",
    ),
    // three variables
    (
        r#"{"field":"65537","challenger":{"draws":[10,20,65536],"witnesses":[]},"bits":0,
            "tables":[[3,1,4,1,5,9,2,6],[2,7,1,8,2,8,1,8],[1,6,1,8,0,3,3,9]],"mode":"build"}"#,
        0,
        "claim 770
round 0: 116 866 608 challenge 10
round 1: 32075 64277 16794 challenge 20
round 2: 57452 48630 18502 challenge 65536
residual 19532
product 19532
verdict holds
",
    ),
    // one table: a round sends its value at 0
    (
        r#"{"field":"65537","challenger":{"draws":[3,4],"witnesses":[]},"bits":0,
            "tables":[[1,2,3,4]],"mode":"build"}"#,
        0,
        "claim 10
round 0: 3 challenge 3
round 1: 7 challenge 4
residual 11
product 11
verdict holds
",
    ),
    // as many tables as there may be
    (
        r#"{"field":"65537","challenger":{"draws":[5],"witnesses":[]},"bits":0,
            "tables":[[0,1],[1,2],[2,3],[3,4],[4,5],[5,6],[6,7],[7,8]],"mode":"build"}"#,
        0,
        "claim 40320
round 0: 0 35195 44901 33563 35152 52073 34121 63754 challenge 5
residual 35152
product 35152
verdict holds
",
    ),
    // no variables
    (
        r#"{"field":"65537","challenger":{"draws":[],"witnesses":[]},"bits":0,
            "tables":[[7],[6]],"mode":"build"}"#,
        0,
        "claim 42\nresidual 42\nproduct 42\nverdict holds\n",
    ),
    // no variables at a difficulty
    (
        r#"{"field":"65537","challenger":{"draws":[],"witnesses":[]},"bits":3,
            "tables":[[7],[6]],"mode":"build"}"#,
        0,
        "claim 42\nresidual 42\nproduct 42\nverdict holds\n",
    ),
    // challenges in an extension of degree 2
    (
        r#"{"field":"257x2","challenger":{"draws":[3,100,4,200],"witnesses":[]},"bits":0,
            "tables":[[1,2,3,4],[5,6,7,8],[250,9,10,256]],"mode":"build"}"#,
        0,
        "claim 251
round 0: 73 41 87 challenge 25703
round 1: 159 48392 35642 challenge 51404
residual 39919
product 39919
verdict holds
",
    ),
    // the field of 16 elements
    (
        r#"{"field":"16","challenger":{"draws":[3,14],"witnesses":[]},"bits":0,
            "tables":[[1,2,3,4],[5,6,7,8],[9,10,11,12]],"mode":"build"}"#,
        0,
        "claim 15
round 0: 2 13 8 challenge 3
round 1: 0 15 5 challenge 14
residual 9
product 9
verdict holds
",
    ),
    (
        r#"{"field":"16","challenger":{"draws":[9],"witnesses":[]},"bits":0,
            "tables":[[0,15],[1,14],[2,13],[3,12],[4,11],[5,10],[6,9],[7,8]],"mode":"build"}"#,
        0,
        "claim 1\nround 0: 0 0 1 0 1 0 1 0 challenge 9\nresidual 1\nproduct 1\nverdict holds\n",
    ),
    // the least witness of each round
    (
        r#"{"field":"65537","challenger":{"draws":[3,4],"witnesses":[[9,5],[6]]},"bits":1,
            "tables":[[1,2,3,4],[5,6,7,8]],"mode":"build"}"#,
        0,
        "claim 70
round 0: 17 105 witness 5 challenge 3
round 1: 77 117 witness 6 challenge 4
residual 165
product 165
verdict holds
",
    ),
    // no witness
    (
        r#"{"field":"65537","challenger":{"draws":[3,4],"witnesses":[]},"bits":1,
            "tables":[[1,2,3,4],[5,6,7,8]],"mode":"build"}"#,
        5,
        "no witness round 0\n",
    ),
    (
        r#"{"field":"65537","challenger":{"draws":[3,4],"witnesses":[[9,5]]},"bits":1,
            "tables":[[1,2,3,4],[5,6,7,8]],"mode":"build"}"#,
        5,
        "no witness round 1\n",
    ),
    // a witness of a proof need not be the least
    (
        r#"{"field":"65537","challenger":{"draws":[3,4],"witnesses":[[9,5],[6]]},"bits":1,
            "tables":[[1,2,3,4],[5,6,7,8]],
            "mode":{"check":{"claimed":70,"rounds":[[17,105],[77,117]],"witnesses":[9,6]}}}"#,
        0,
        "claim 70
round 0: 17 105 witness 9 challenge 3
round 1: 77 117 witness 6 challenge 4
residual 165
product 165
verdict holds
",
    ),
    (
        r#"{"field":"65537","challenger":{"draws":[3,4],"witnesses":[[9,5],[6]]},"bits":1,
            "tables":[[1,2,3,4],[5,6,7,8]],
            "mode":{"check":{"claimed":70,"rounds":[[17,105],[77,117]],"witnesses":[9,7]}}}"#,
        4,
        "proof refused witness round 1 bits 1\n",
    ),
    (
        r#"{"field":"65537","challenger":{"draws":[3,4],"witnesses":[[9,5],[6]]},"bits":1,
            "tables":[[1,2,3,4],[5,6,7,8]],
            "mode":{"check":{"claimed":70,"rounds":[[17,105],[77,117]],"witnesses":[9]}}}"#,
        4,
        "proof refused witnesses expected 2 actual 1\n",
    ),
];

static CHANGED: [Changed; 39] = [
    // a product's job has no basis
    (TWO, (BUILD, r#""build","basis":7"#), 0, TWO_TEXT),
    (
        TWO,
        (
            BUILD,
            r#"{"check":{"claimed":11,"rounds":[[3,15]],"witnesses":[]}}"#,
        ),
        0,
        TWO_TEXT,
    ),
    // another round, and another sum, of the same tables
    (
        TWO,
        (
            BUILD,
            r#"{"check":{"claimed":11,"rounds":[[3,14]],"witnesses":[]}}"#,
        ),
        1,
        "claim 11\nround 0: 3 14 challenge 5\nresidual 38\nproduct 48\nverdict refuted\n",
    ),
    (
        TWO,
        (
            BUILD,
            r#"{"check":{"claimed":12,"rounds":[[3,15]],"witnesses":[]}}"#,
        ),
        1,
        "claim 12\nround 0: 3 15 challenge 5\nresidual 33\nproduct 48\nverdict refuted\n",
    ),
    // a false sum that the draw lets pass
    (
        TWO,
        (
            BUILD,
            r#"{"check":{"claimed":20,"rounds":[[8,18]],"witnesses":[]}}"#,
        ),
        1,
        "claim 20
round 0: 8 18 challenge 5
residual 48
product 48
verdict lucky-round 0 vanishing 1 poly 5 65536 0
",
    ),
    // rounds of other widths
    (
        TWO,
        (
            BUILD,
            r#"{"check":{"claimed":11,"rounds":[[3]],"witnesses":[]}}"#,
        ),
        4,
        "proof refused width round 0 expected 2 actual 1\n",
    ),
    (
        TWO,
        (
            BUILD,
            r#"{"check":{"claimed":11,"rounds":[[3,15,0]],"witnesses":[]}}"#,
        ),
        4,
        "proof refused width round 0 expected 2 actual 3\n",
    ),
    (
        TWO,
        (
            BUILD,
            r#"{"check":{"claimed":11,"rounds":[[]],"witnesses":[]}}"#,
        ),
        4,
        "proof refused width round 0 expected 2 actual 0\n",
    ),
    // counts
    (
        TWO,
        (
            BUILD,
            r#"{"check":{"claimed":11,"rounds":[],"witnesses":[]}}"#,
        ),
        4,
        "proof refused rounds expected 1 actual 0\n",
    ),
    (
        TWO,
        (
            BUILD,
            r#"{"check":{"claimed":11,"rounds":[[3,15],[3]],"witnesses":[]}}"#,
        ),
        4,
        "proof refused rounds expected 1 actual 2\n",
    ),
    (
        TWO,
        (
            BUILD,
            r#"{"check":{"claimed":11,"rounds":[[3]],"witnesses":[0]}}"#,
        ),
        4,
        "proof refused witnesses expected 0 actual 1\n",
    ),
    // members without a name, and one of another mode
    (
        TWO,
        (
            BUILD,
            r#"{"check":{"claimed":11,"rounds":[[3,15]],"witnesses":[]},"build":"plain","order":7}"#,
        ),
        0,
        TWO_TEXT,
    ),
    (
        TWO,
        (r#""bits":0"#, r#""bits":0,"order":"suffix","table":[]"#),
        0,
        TWO_TEXT,
    ),
    // lengths
    (
        TWO,
        (r#"[3,4]]"#, r#"[3]]"#),
        3,
        "refused job-shape table-length 1\n",
    ),
    (
        TWO,
        (r#"[3,4]]"#, r#"[3,4,5]]"#),
        3,
        "refused job-shape table-length 3\n",
    ),
    (
        TWO,
        (r#"[[1,2]"#, r#"[[1,2,3]"#),
        3,
        "refused job-shape table-length 3\n",
    ),
    (
        TWO,
        (r#"[[1,2]"#, r#"[[1]"#),
        3,
        "refused job-shape table-length 2\n",
    ),
    (
        TWO,
        (r#"[[1,2]"#, r#"[[]"#),
        3,
        "refused job-shape table-length 0\n",
    ),
    (
        TWO,
        (r#"[3,4]]"#, r#"[]]"#),
        3,
        "refused job-shape table-length 0\n",
    ),
    // the lengths come before the difficulty, and that before a proof's counts
    (
        TWO,
        (r#""bits":0,"tables":[[1,2]"#, r#""bits":17,"tables":[[1]"#),
        3,
        "refused job-shape table-length 2\n",
    ),
    (
        TWO,
        (r#""bits":0"#, r#""bits":17"#),
        3,
        "refused job-shape difficulty 17 bound 16\n",
    ),
    (
        TWO,
        (r#"[[1,2],[3,4]]"#, r#"[]"#),
        3,
        "refused bad-job tables\n",
    ),
    (
        TWO,
        (
            r#"[[1,2],[3,4]]"#,
            r#"[[1],[1],[1],[1],[1],[1],[1],[1],[1]]"#,
        ),
        3,
        "refused bad-job tables\n",
    ),
    (
        TWO,
        (r#"[[1,2],[3,4]]"#, r#"[[1,65537]]"#),
        3,
        "refused bad-job tables\n",
    ),
    (
        TWO,
        (r#"[[1,2],[3,4]]"#, r#"[1,2]"#),
        3,
        "refused bad-job tables\n",
    ),
    (
        TWO,
        (r#""tables""#, r#""table""#),
        3,
        "refused bad-job tables\n",
    ),
    (
        TWO,
        (r#""bits":0"#, r#""bits":-1"#),
        3,
        "refused bad-job bits\n",
    ),
    (
        TWO,
        (r#""bits":0"#, r#""bits":65536"#),
        3,
        "refused bad-job bits\n",
    ),
    (
        TWO,
        (r#""field":"65537""#, r#""field":"7""#),
        3,
        "refused bad-job field\n",
    ),
    (
        TWO,
        (
            r#""challenger":{"draws":[5]"#,
            r#""challenger":{"draws":[65537]"#,
        ),
        3,
        "refused bad-job challenger\n",
    ),
    (TWO, (BUILD, r#""plain""#), 3, "refused bad-job mode\n"),
    (
        TWO,
        (BUILD, r#"{"build":"plain"}"#),
        3,
        "refused bad-job mode\n",
    ),
    (
        TWO,
        (BUILD, r#"{"check":null}"#),
        3,
        "refused bad-job mode\n",
    ),
    (
        TWO,
        (
            BUILD,
            r#"{"check":{"claimed":65537,"rounds":[[3,15]],"witnesses":[]}}"#,
        ),
        3,
        "refused bad-job mode\n",
    ),
    (
        TWO,
        (
            BUILD,
            r#"{"check":{"claimed":11,"rounds":[[3,65537]],"witnesses":[]}}"#,
        ),
        3,
        "refused bad-job mode\n",
    ),
    (
        TWO,
        (
            BUILD,
            r#"{"check":{"claimed":11,"rounds":[[3,15]],"witnesses":[65537]}}"#,
        ),
        3,
        "refused bad-job mode\n",
    ),
    (
        TWO,
        (BUILD, r#"{"check":{"claimed":11,"rounds":[[3,15]]}}"#),
        3,
        "refused bad-job mode\n",
    ),
    (
        TWO,
        (
            r#""tables":[[1,2],[3,4]],"mode":"build""#,
            r#""tables":[],"mode":7"#,
        ),
        3,
        "refused bad-job tables\n",
    ),
    (
        TWO,
        (r#""bits":0,"tables""#, r#""bits":"0","Tables""#),
        3,
        "refused bad-job bits\n",
    ),
];

// A field, a difficulty, the proof that the rounds of the report are, and the report.
type Hashed = (&'static str, &'static str, &'static str, &'static str);

static HASHES: [Hashed; 4] = [
    (
        "65537",
        "8",
        r#"{"check":{"claimed":812,"rounds":[[165,1545,2979],[48599,51641,54293]],"witnesses":[127,2]}}"#,
        "claim 812
round 0: 165 1545 2979 witness 127 challenge 382
round 1: 48599 51641 54293 witness 2 challenge 24206
residual 63856
product 63856
verdict holds
",
    ),
    (
        "65537",
        "0",
        r#"{"check":{"claimed":812,"rounds":[[165,1545,2979],[55509,39352,56217]],"witnesses":[]}}"#,
        "claim 812
round 0: 165 1545 2979 challenge 35053
round 1: 55509 39352 56217 challenge 11461
residual 41055
product 41055
verdict holds
",
    ),
    (
        "257x2",
        "4",
        r#"{"check":{"claimed":41,"rounds":[[165,3,152],[23155,63419,39940]],"witnesses":[3,3]}}"#,
        "claim 41
round 0: 165 3 152 witness 3 challenge 64722
round 1: 23155 63419 39940 witness 3 challenge 37811
residual 51654
product 51654
verdict holds
",
    ),
    (
        "16",
        "1",
        r#"{"check":{"claimed":4,"rounds":[[2,3,15],[15,7,3]],"witnesses":[0,2]}}"#,
        "claim 4
round 0: 2 3 15 witness 0 challenge 9
round 1: 15 7 3 witness 2 challenge 10
residual 0
product 0
verdict holds
",
    ),
];

#[test]
fn the_first_product(rt: HostRuntime) {
    assert_command(&rt, rt.alloc(), "product", TWO, 0, TWO_TEXT);
}

#[test]
fn products_of_several_tables(rt: HostRuntime) {
    for (job, code, text) in &BUILDS {
        assert_command(&rt, rt.alloc(), "product", *job, *code, *text);
    }
}

#[test]
fn products_that_a_challenge_lets_through(rt: HostRuntime) {
    for (job, code, text) in &LUCKY {
        assert_command(&rt, rt.alloc(), "product", *job, *code, *text);
    }
}

#[test]
fn a_change_of_the_first_product(rt: HostRuntime) {
    for (job, (part, other), code, text) in &CHANGED {
        let changed = change(&rt, rt.alloc(), *job, *part, *other);
        assert_command(&rt, rt.alloc(), "product", &changed, *code, *text);
    }
}

#[test]
fn rounds_under_the_hash_challenger_handed_in_again(rt: HostRuntime) {
    for (field, bits, proof, text) in &HASHES {
        let job = change(&rt, rt.alloc(), HASHED, "FIELD", *field);
        let job = change(&rt, rt.alloc(), &job, "BITS", *bits);
        let built = change(&rt, rt.alloc(), &job, "MODE", BUILD);
        assert_command(&rt, rt.alloc(), "product", &built, 0, *text);
        let checked = change(&rt, rt.alloc(), &job, "MODE", *proof);
        assert_command(&rt, rt.alloc(), "product", &checked, 0, *text);
    }
}

#[test]
fn no_product_at_all(rt: HostRuntime) {
    assert_command(&rt, rt.alloc(), "product", "[]", 3, "refused bad-job job\n");
    assert_command(&rt, rt.alloc(), "product", "{", 3, "refused bad-json\n");
}
