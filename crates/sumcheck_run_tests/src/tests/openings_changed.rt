// Changes of the claims on two tables: the text and the status that `openings` answers.
use super::openings::TWO;
use super::{Changed, Refusal, assert_command, change};

// What is done with it.
const BUILD: &str = r#""mode":"build""#;

static CHANGED: [Changed; 17] = [
    // the same rounds and openings, handed in
    (
        TWO,
        (
            BUILD,
            r#""mode":{"check":{"rounds":[[1,1]],"witnesses":[],"openings":[4,6]}}"#,
        ),
        0,
        "claim 9
round 0: 1 1 challenge 3
residual 28
open 0: 4
open 1: 6
weight 0: 65535
weight 1: 6
verdict holds
",
    ),
    // another opening
    (
        TWO,
        (
            BUILD,
            r#""mode":{"check":{"rounds":[[1,1]],"witnesses":[],"openings":[4,7]}}"#,
        ),
        1,
        "claim 9
round 0: 1 1 challenge 3
residual 28
open 0: 4
open 1: 7
weight 0: 65535
weight 1: 6
verdict refuted
",
    ),
    // openings that make the right sum, and are not the tables' values
    (
        TWO,
        (
            BUILD,
            r#""mode":{"check":{"rounds":[[1,1]],"witnesses":[],"openings":[7,7]}}"#,
        ),
        1,
        "claim 9
round 0: 1 1 challenge 3
residual 28
open 0: 7
open 1: 7
weight 0: 65535
weight 1: 6
verdict refuted
",
    ),
    // another round
    (
        TWO,
        (
            BUILD,
            r#""mode":{"check":{"rounds":[[2,1]],"witnesses":[],"openings":[4,6]}}"#,
        ),
        1,
        "claim 9
round 0: 2 1 challenge 3
residual 23
open 0: 4
open 1: 6
weight 0: 65535
weight 1: 6
verdict refuted
",
    ),
    // a claim is false
    (
        TWO,
        (r#""value":1"#, r#""value":3"#),
        3,
        "refused false-claim 0 claimed 3 true 1\n",
    ),
    // the table of next rows has another value
    (
        TWO,
        (
            r#""point":[0],"successor":false"#,
            r#""point":[0],"successor":true"#,
        ),
        3,
        "refused false-claim 0 claimed 1 true 2\n",
    ),
    // a table of another length, and one that is empty
    (
        TWO,
        (r#"[3,4]]"#, r#"[3]]"#),
        3,
        "refused openings table 1 length 1\n",
    ),
    (
        TWO,
        (r#"[[1,2],[3,4]]"#, r#"[[],[3,4]]"#),
        3,
        "refused openings table 0 length 0\n",
    ),
    // more than 16 variables are told of table 0
    (
        TWO,
        (r#""variables":1"#, r#""variables":17"#),
        3,
        "refused openings table 0 length 2\n",
    ),
    // claims that name no table, points of another length, and the difficulty
    (
        TWO,
        (r#""tables":[[1,2],[3,4]]"#, r#""tables":[[1,2]]"#),
        3,
        "refused openings claim 1 table 1\n",
    ),
    (
        TWO,
        (r#""table":1"#, r#""table":2"#),
        3,
        "refused openings claim 1 table 2\n",
    ),
    (
        TWO,
        (r#""point":[1]"#, r#""point":[1,0]"#),
        3,
        "refused openings claim 1 variables 2\n",
    ),
    (
        TWO,
        (r#""point":[0]"#, r#""point":[]"#),
        3,
        "refused openings claim 0 variables 0\n",
    ),
    (
        TWO,
        (r#""bits":0"#, r#""bits":17"#),
        3,
        "refused job-shape difficulty 17 bound 16\n",
    ),
    // counts of a proof, the openings first
    (
        TWO,
        (
            BUILD,
            r#""mode":{"check":{"rounds":[],"witnesses":[0],"openings":[4]}}"#,
        ),
        4,
        "proof refused openings expected 2 actual 1\n",
    ),
    (
        TWO,
        (
            BUILD,
            r#""mode":{"check":{"rounds":[],"witnesses":[0],"openings":[4,6]}}"#,
        ),
        4,
        "proof refused rounds expected 1 actual 0\n",
    ),
    (
        TWO,
        (
            BUILD,
            r#""mode":{"check":{"rounds":[[1,1]],"witnesses":[0],"openings":[4,6]}}"#,
        ),
        4,
        "proof refused witnesses expected 0 actual 1\n",
    ),
];

// A part of these claims, what is put in its place, and the text of the refusal.
static MISFITS: [Refusal; 17] = [
    // no table, and more than 64
    (r#"[[1,2],[3,4]]"#, r#"[]"#, "refused bad-job tables\n"),
    (
        r#"[[1,2],[3,4]]"#,
        r#"[[],[],[],[],[],[],[],[],[],[],[],[],[],
            [],[],[],[],[],[],[],[],[],[],[],[],[],
            [],[],[],[],[],[],[],[],[],[],[],[],[],
            [],[],[],[],[],[],[],[],[],[],[],[],[],
            [],[],[],[],[],[],[],[],[],[],[],[],[]]"#,
        "refused bad-job tables\n",
    ),
    (r#"[1,2]"#, r#"[1,65537]"#, "refused bad-job tables\n"),
    (r#"[1,2]"#, r#"1"#, "refused bad-job tables\n"),
    // the tables are told before what stands after them
    (
        r#""tables":[[1,2],[3,4]],"variables":1"#,
        r#""tables":[],"variables":65"#,
        "refused bad-job tables\n",
    ),
    (
        r#""variables":1"#,
        r#""variables":65"#,
        "refused bad-job variables\n",
    ),
    (r#""claims":["#, r#""claim":["#, "refused bad-job claims\n"),
    (
        r#""table":1"#,
        r#""table":65536"#,
        "refused bad-job claims\n",
    ),
    (
        r#""point":[0]"#,
        r#""point":[65537]"#,
        "refused bad-job claims\n",
    ),
    (r#""point":[0]"#, r#""point":0"#, "refused bad-job claims\n"),
    (
        r#""successor":false,"value":1"#,
        r#""successor":0,"value":1"#,
        "refused bad-job claims\n",
    ),
    (
        r#""successor":false,"value":1"#,
        r#""value":1"#,
        "refused bad-job claims\n",
    ),
    (
        r#""value":1"#,
        r#""value":65537"#,
        "refused bad-job claims\n",
    ),
    (BUILD, r#""mode":"plain""#, "refused bad-job mode\n"),
    (
        BUILD,
        r#""mode":{"check":{"rounds":[[1,1]],"witnesses":[]}}"#,
        "refused bad-job mode\n",
    ),
    (
        BUILD,
        r#""mode":{"check":{"rounds":[[1,1]],"witnesses":[],"openings":[65537,6]}}"#,
        "refused bad-job mode\n",
    ),
    (
        BUILD,
        r#""mode":{"check":{"rounds":[[1]],"witnesses":[],"openings":[4,6]}}"#,
        "refused bad-job mode\n",
    ),
];

#[test]
fn a_change_of_the_claims_on_two_tables(rt: HostRuntime) {
    for (job, (part, other), code, text) in &CHANGED {
        let changed = change(&rt, rt.alloc(), *job, *part, *other);
        assert_command(&rt, rt.alloc(), "openings", &changed, *code, *text);
    }
}

#[test]
fn members_that_are_not_of_their_form(rt: HostRuntime) {
    for (part, other, text) in &MISFITS {
        let changed = change(&rt, rt.alloc(), TWO, *part, *other);
        assert_command(&rt, rt.alloc(), "openings", &changed, 3, *text);
    }
}
