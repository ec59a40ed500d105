// What an observer sees of rounds under masks: the masks that `explain` tells of it.
use super::{Case, assert_command, change};

// A part of a job, what is put in its place, and the answer.
type Change = (&'static str, &'static str, u8, &'static str);

// One round under the mask 2 + 3 X + 5 X^2: its wire is 2 + 31 7 and 5 + 31 13, and the mask's sum
// over one bit is 12.
pub(super) const ONE: &str = r#"{"field":"65537","eps":31,"plain":[[7,13]],"challenges":[2],"mu":12,
"wires":[[219,408]],"endpoints":[]}"#;

pub(super) const ONE_TEXT: &str = "mask 0: 2 3 5\n";

// The masks are those of which a model in another language made the views, by sums over all bits.
static VIEWS: [Case; 4] = [
    (ONE, 0, ONE_TEXT),
    // two masks without a plain part
    (
        r#"{"field":"65537","eps":1,"plain":[[0,0],[0,0]],"challenges":[2,3],"mu":52,
"wires":[[21,6],[21,6]],"endpoints":[19]}"#,
        0,
        "mask 0: 1 2 3\nmask 1: 4 5 6\n",
    ),
    // three masks of five coefficients
    (
        r#"{"field":"65537","eps":65536,"plain":[[1,2],[3,4],[5,6]],"challenges":[10,20,30],
"mu":236,"wires":[[89,10,16,20],[43142,65535,0,4],[47037,1,7,7]],"endpoints":[1,42]}"#,
        0,
        "mask 0: 1 2 3 4 5\nmask 1: 65536 0 1 0 2\nmask 2: 7 7 7 7 7\n",
    ),
    // an extension of degree 2
    (
        r#"{"field":"257x2","eps":25703,"plain":[[300,1],[2,65000]],"challenges":[51404,5150],
"mu":1731,"wires":[[49994,25187,4],[33266,51131,66000]],"endpoints":[990]}"#,
        0,
        "mask 0: 1 258 66048 2\nmask 1: 515 0 9 66000\n",
    ),
];

static CHANGES: [Change; 22] = [
    // another plain part of the same wire: 219 - 31 8, 12 - 2 (219 - 31 8) - 5, and 5
    (r#"[[7,13]]"#, r#"[[8,13]]"#, 0, "mask 0: 65508 65 5\n"),
    // another total of the same wire
    (r#""mu":12"#, r#""mu":13"#, 0, "mask 0: 2 4 5\n"),
    // the challenge of the last round, after which nothing is seen
    (r#"[2]"#, r#"[65536]"#, 0, "mask 0: 2 3 5\n"),
    (
        r#""field":"65537","eps":31,"plain":[[7,13]],"challenges":[2],"mu":12,
"wires":[[219,408]]"#,
        r#""field":"16","eps":15,"plain":[[7,13]],"challenges":[2],"mu":12,"wires":[[9,8]]"#,
        3,
        "refused explain even-characteristic\n",
    ),
    (
        r#""field":"65537""#,
        r#""field":"16""#,
        3,
        "refused bad-job eps\n",
    ),
    (
        r#""field":"65537""#,
        r#""field":"17""#,
        3,
        "refused bad-job field\n",
    ),
    (r#""eps":31"#, r#""eps":65537"#, 3, "refused bad-job eps\n"),
    (r#""eps":31"#, r#""Eps":31"#, 3, "refused bad-job eps\n"),
    (r#"[[7,13]]"#, r#"[]"#, 3, "refused bad-job plain\n"),
    (r#"[[7,13]]"#, r#"[[7]]"#, 3, "refused bad-job plain\n"),
    (
        r#"[[7,13]]"#,
        r#"[[7,65537]]"#,
        3,
        "refused bad-job plain\n",
    ),
    (
        r#"[[7,13]]"#,
        r#"[[7,13],[7,13]]"#,
        3,
        "refused bad-job challenges\n",
    ),
    (r#"[2]"#, r#"[]"#, 3, "refused bad-job challenges\n"),
    (r#"[2]"#, r#"[2,3]"#, 3, "refused bad-job challenges\n"),
    (r#""mu":12"#, r#""mu":-1"#, 3, "refused bad-job mu\n"),
    (r#"[[219,408]]"#, r#"[[219]]"#, 3, "refused bad-job wires\n"),
    (r#"[[219,408]]"#, r#"[]"#, 3, "refused bad-job wires\n"),
    (
        r#"[[219,408]]"#,
        r#"[[219,65537]]"#,
        3,
        "refused bad-job wires\n",
    ),
    (
        r#"[[219,408]]"#,
        r#"[[219,408],[1,2]]"#,
        3,
        "refused bad-job wires\n",
    ),
    (
        r#""endpoints":[]"#,
        r#""endpoints":[1]"#,
        3,
        "refused bad-job endpoints\n",
    ),
    (
        r#"{"field":"65537","eps":31,"plain":[[7,13]],"challenges":[2],"mu":12,
"wires":[[219,408]],"endpoints":[]}"#,
        r#"{"field":"65537","eps":31,"plain":[[7,13],[7,13]],"challenges":[2,3],"mu":12,
"wires":[[219,408],[1,2,3]],"endpoints":[1]}"#,
        3,
        "refused bad-job wires\n",
    ),
    (
        r#""endpoints":[]"#,
        r#""endpoint":[]"#,
        3,
        "refused bad-job endpoints\n",
    ),
];

#[test]
fn the_masks_of_a_view(rt: HostRuntime) {
    for (job, code, text) in &VIEWS {
        assert_command(&rt, rt.alloc(), "explain", *job, *code, *text);
    }
}

#[test]
fn a_change_of_a_view(rt: HostRuntime) {
    for (part, other, code, text) in &CHANGES {
        let changed = change(&rt, rt.alloc(), ONE, *part, *other);
        assert_command(&rt, rt.alloc(), "explain", &changed, *code, *text);
    }
}

#[test]
fn no_view_at_all(rt: HostRuntime) {
    assert_command(&rt, rt.alloc(), "explain", "[]", 3, "refused bad-job job\n");
    assert_command(&rt, rt.alloc(), "explain", "{", 3, "refused bad-json\n");
}
