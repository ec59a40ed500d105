// Claimed products of two matrices: the text and the status that `matmul` answers. The texts are
// those of a model in another language, which sums over all rows.
use super::{Case, Changed, assert_command, change};

// Two matrices of two rows and columns, and their product.
pub(super) const TWO: &str =
    r#"{"field":"65537","challenger":{"draws":[2,3],"witnesses":[]},"bits":0,
        "left":[[1,2],[3,4]],"right":[[5,6],[7,8]],"claimed":[[19,22],[43,50]],"mode":"build"}"#;

pub(super) const TWO_TEXT: &str = "point 2
claim 635
round 0: 221 30 challenge 3
residual 980
left 28
right 35
verdict holds
";

// What is done with it.
const BUILD: &str = r#""build""#;

static WHOLE: [Case; 7] = [
    (TWO, 0, TWO_TEXT),
    // a side of four, and two witnesses
    (
        r#"{"field":"65537","challenger":{"draws":[7,11,13],"witnesses":[[5,9],[6]]},"bits":3,
            "left":[[1,2,3,4],[5,6,7,8]],"right":[[1,2],[3,4],[5,6],[7,8]],
            "claimed":[[50,60],[114,140]],
            "mode":"build"}"#,
        0,
        "point 7
claim 54076
round 0: 12866 6400 witness 5 challenge 11
round 1: 35223 800 witness 6 challenge 13
residual 33571
left 1996
right 575
verdict holds
",
    ),
    // no witness in the second round
    (
        r#"{"field":"65537","challenger":{"draws":[7,11,13],"witnesses":[[5,9]]},"bits":3,
            "left":[[1,2,3,4],[5,6,7,8]],"right":[[1,2],[3,4],[5,6],[7,8]],
            "claimed":[[50,60],[114,140]],
            "mode":"build"}"#,
        5,
        "no witness round 1\n",
    ),
    // one row and one column, without a round
    (
        r#"{"field":"65537","challenger":{"draws":[5],"witnesses":[]},"bits":3,
            "left":[[1],[2]],"right":[[3,4]],
            "claimed":[[3,4],[6,8]],
            "mode":"build"}"#,
        0,
        "point 5\nclaim 1173\nresidual 1173\nleft 51\nright 23\nverdict holds\n",
    ),
    // challenges in an extension of degree 2
    (
        r#"{"field":"257x2","challenger":{"draws":[2,1,3,1,4,9],"witnesses":[]},"bits":0,
            "left":[[1,2],[3,4]],"right":[[5,6],[7,8]],
            "claimed":[[19,22],[43,50]],
            "mode":"build"}"#,
        0,
        "point 259
claim 44583
round 0: 20379 10352 challenge 260
residual 11302
left 8282
right 4667
verdict holds
",
    ),
    // the field of 16 elements
    (
        r#"{"field":"16","challenger":{"draws":[9,14],"witnesses":[]},"bits":0,
            "left":[[1,2],[3,4]],"right":[[5,6],[7,8]],
            "claimed":[[12,10],[5,6]],
            "mode":"build"}"#,
        0,
        "point 9
claim 10
round 0: 15 5 challenge 14
residual 10
left 11
right 6
verdict holds
",
    ),
    // under the hash challenger
    (
        r#"{"field":"65537","challenger":"hash","bits":8,
            "left":[[1,2,3,4],[5,6,7,8]],"right":[[1,2],[3,4],[5,6],[7,8]],
            "claimed":[[50,60],[114,140]],
            "mode":"build"}"#,
        0,
        "point 12185
claim 58973
round 0: 7525 45579 witness 46 challenge 64175
round 1: 36364 46658 witness 340 challenge 39222
residual 40534
left 28827
right 19926
verdict holds
",
    ),
];

static CHANGED: [Changed; 18] = [
    // the same rounds, handed in
    (
        TWO,
        (BUILD, r#"{"check":{"rounds":[[221,30]],"witnesses":[]}}"#),
        0,
        "point 2
claim 635
round 0: 221 30 challenge 3
residual 980
left 28
right 35
verdict holds
",
    ),
    // another round
    (
        TWO,
        (BUILD, r#"{"check":{"rounds":[[221,31]],"witnesses":[]}}"#),
        1,
        "point 2
claim 635
round 0: 221 31 challenge 3
residual 986
left 28
right 35
verdict refuted
",
    ),
    // an entry is false
    (
        TWO,
        (r#"[[19,22]"#, r#"[[21,21]"#),
        3,
        "refused false-entry 0 0 claimed 21 true 19\n",
    ),
    // no rounds, and too many
    (
        TWO,
        (BUILD, r#"{"check":{"rounds":[],"witnesses":[]}}"#),
        4,
        "proof refused rounds expected 1 actual 0\n",
    ),
    (
        TWO,
        (
            BUILD,
            r#"{"check":{"rounds":[[221,30],[1,2]],"witnesses":[]}}"#,
        ),
        4,
        "proof refused rounds expected 1 actual 2\n",
    ),
    (
        TWO,
        (BUILD, r#"{"check":{"rounds":[[221,30]],"witnesses":[0]}}"#),
        4,
        "proof refused witnesses expected 0 actual 1\n",
    ),
    // sides
    (
        TWO,
        (r#""left":[[1,2],[3,4]]"#, r#""left":[[1,2,3],[4,5,6]]"#),
        3,
        "refused matmul side left 2 3\n",
    ),
    (
        TWO,
        (r#""right":[[5,6],[7,8]]"#, r#""right":[[5,6,7],[7,8,9]]"#),
        3,
        "refused matmul side right 2 3\n",
    ),
    (
        TWO,
        (
            r#""claimed":[[19,22],[43,50]]"#,
            r#""claimed":[[19],[22],[43]]"#,
        ),
        3,
        "refused matmul side claimed 3 1\n",
    ),
    (
        TWO,
        (r#""left":[[1,2],[3,4]]"#, r#""left":[[1,2,3,4],[5,6,7,8]]"#),
        3,
        "refused matmul inner 4 2\n",
    ),
    (
        TWO,
        (r#""claimed":[[19,22],[43,50]]"#, r#""claimed":[[19],[43]]"#),
        3,
        "refused matmul outer 2 1\n",
    ),
    // the sides come before the difficulty, and that before a false entry
    (
        TWO,
        (r#""bits":0"#, r#""bits":17"#),
        3,
        "refused job-shape difficulty 17 bound 16\n",
    ),
    // rows
    (
        TWO,
        (r#"[[5,6],[7,8]]"#, r#"[[5,6],[7]]"#),
        3,
        "refused bad-job right\n",
    ),
    (
        TWO,
        (r#"[[5,6],[7,8]]"#, r#"[[],[]]"#),
        3,
        "refused bad-job right\n",
    ),
    (
        TWO,
        (r#"[[5,6],[7,8]]"#, r#"[]"#),
        3,
        "refused bad-job right\n",
    ),
    (
        TWO,
        (r#"[[5,6],[7,8]]"#, r#"[[5,6],[7,65537]]"#),
        3,
        "refused bad-job right\n",
    ),
    (
        TWO,
        (r#""claimed""#, r#""claim""#),
        3,
        "refused bad-job claimed\n",
    ),
    (TWO, (BUILD, r#""plain""#), 3, "refused bad-job mode\n"),
];

// Proofs of false entries that a challenge lets through: the entries, and the rounds.
type Lucky = ((&'static str, &'static str), &'static str, &'static str);

static LUCKY: [Lucky; 2] = [
    // the point is a root of claimed less true entries
    (
        (r#"[[19,22]"#, r#"[[21,21]"#),
        r#"{"check":{"rounds":[[221,30]],"witnesses":[]}}"#,
        "point 2
claim 635
round 0: 221 30 challenge 3
residual 980
left 28
right 35
verdict lucky-point vanishing 1 poly 2 65536 0 0
",
    ),
    // the round makes a false claim true
    (
        (r#"[[19,22]"#, r#"[[24,22]"#),
        r#"{"check":{"rounds":[[224,30]],"witnesses":[]}}"#,
        "point 2
claim 640
round 0: 224 30 challenge 3
residual 980
left 28
right 35
verdict lucky-round 0 vanishing 1 poly 3 65536 0
",
    ),
];

#[test]
fn claimed_products(rt: HostRuntime) {
    for (job, code, text) in &WHOLE {
        assert_command(&rt, rt.alloc(), "matmul", *job, *code, *text);
    }
}

#[test]
fn a_change_of_the_first_claimed_product(rt: HostRuntime) {
    for (job, (part, other), code, text) in &CHANGED {
        let changed = change(&rt, rt.alloc(), *job, *part, *other);
        assert_command(&rt, rt.alloc(), "matmul", &changed, *code, *text);
    }
}

#[test]
fn false_entries_that_a_challenge_lets_through(rt: HostRuntime) {
    for ((part, other), mode, text) in &LUCKY {
        let false_entry = change(&rt, rt.alloc(), TWO, *part, *other);
        let job = change(&rt, rt.alloc(), &false_entry, BUILD, *mode);
        assert_command(&rt, rt.alloc(), "matmul", &job, 1, *text);
    }
}
