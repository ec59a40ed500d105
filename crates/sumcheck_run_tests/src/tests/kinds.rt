// Whole runs on jobs with groups of every kind. The texts are those of a program apart, which sums over all rows.
use super::{Changed, Refusal, assert_answer, assert_changed, assert_refused, change};

// Jobs on a table, of which MEMBERS stands for those of its statements.
const NO_VARIABLE: &str =
    r#"{"field":"65537","challenger":{"draws":[],"witnesses":[]},"table":[7],"variables":0,MEMBERS,"mode":{"build":"plain"}}"#;

const ONE_VARIABLE: &str =
    r#"{"field":"65537","challenger":{"draws":[5],"witnesses":[]},"table":[599,44999],"variables":1,MEMBERS,"mode":{"build":"plain"}}"#;

const TWO_VARIABLES: &str =
    r#"{"field":"65537","challenger":{"draws":[3,4],"witnesses":[]},"table":[1,2,3,4],"variables":2,MEMBERS,"mode":{"build":"plain"}}"#;

const THREE_VARIABLES: &str =
    r#"{"field":"65537","challenger":{"draws":[10,20,65536],"witnesses":[]},"table":[3,1,4,1,5,9,2,6],"variables":3,MEMBERS,"mode":{"build":"plain"}}"#;

// Groups on two variables at most.
static KINDS: [Changed; 8] = [
    // a successor and a scalar after it
    (
        TWO_VARIABLES,
        (
            "MEMBERS",
            r#""order":"prefix","bits":0,"groups":[{"kind":"next","claims":[{"selector":[],"point":[2,3],"order":"prefix","value":3}]},{"kind":"select","scalars":[{"at":2,"value":49}]}],"batching":10"#,
        ),
        0,
        "claim 493\nround 0: 54 174 challenge 3\nround 1: 637 111 challenge 4\nresidual 5885\neval 11\nweight 535\nverdict holds\n",
    ),
    // a successor and a scalar after it
    (
        TWO_VARIABLES,
        (
            "MEMBERS",
            r#""order":"suffix","bits":0,"groups":[{"kind":"next","claims":[{"selector":[],"point":[2,3],"order":"prefix","value":3}]},{"kind":"select","scalars":[{"at":2,"value":49}]}],"batching":10"#,
        ),
        0,
        "claim 493\nround 0: 121 57 challenge 3\nround 1: 184 252 challenge 4\nresidual 6600\neval 12\nweight 550\nverdict holds\n",
    ),
    // no variable: each table of weights is [1]
    (
        NO_VARIABLE,
        (
            "MEMBERS",
            r#""order":"prefix","bits":0,"groups":[{"kind":"next","claims":[{"selector":[],"point":[],"order":"prefix","value":7}]},{"kind":"next","claims":[{"selector":[],"point":[],"order":"suffix","value":7}]},{"kind":"select","scalars":[{"at":0,"value":7},{"at":5,"value":7}]},{"kind":"select","points":[{"at":[],"value":7}]}],"batching":3"#,
        ),
        0,
        "claim 847\nresidual 847\neval 7\nweight 121\nverdict holds\n",
    ),
    // one variable: the last row is its own next
    (
        ONE_VARIABLE,
        (
            "MEMBERS",
            r#""order":"prefix","bits":0,"groups":[{"kind":"next","claims":[{"selector":[],"point":[9],"order":"prefix","value":44999}]}],"batching":1"#,
        ),
        0,
        "claim 44999\nround 0: 0 44400 challenge 5\nresidual 64403\neval 25988\nweight 5\nverdict holds\n",
    ),
    // one variable: a selector alone
    (
        ONE_VARIABLE,
        (
            "MEMBERS",
            r#""order":"suffix","bits":0,"groups":[{"kind":"next","claims":[{"selector":[4],"point":[],"order":"suffix","value":47125}]},{"kind":"select","points":[{"at":[6],"value":8445}]}],"batching":2"#,
        ),
        0,
        "claim 64015\nround 0: 64938 33893 challenge 5\nresidual 20271\neval 25988\nweight 84\nverdict holds\n",
    ),
    // a selector of one coordinate
    (
        TWO_VARIABLES,
        (
            "MEMBERS",
            r#""order":"prefix","bits":0,"groups":[{"kind":"next","claims":[{"selector":[5],"point":[7],"order":"prefix","value":12}]}],"batching":1"#,
        ),
        0,
        "claim 12\nround 0: 65529 18 challenge 3\nround 1: 0 23 challenge 4\nresidual 1012\neval 11\nweight 92\nverdict holds\n",
    ),
    // a selector of one coordinate
    (
        TWO_VARIABLES,
        (
            "MEMBERS",
            r#""order":"prefix","bits":0,"groups":[{"kind":"next","claims":[{"selector":[5],"point":[7],"order":"suffix","value":8}]}],"batching":1"#,
        ),
        0,
        "claim 8\nround 0: 0 2 challenge 3\nround 1: 65453 27 challenge 4\nresidual 1056\neval 11\nweight 96\nverdict holds\n",
    ),
    // direct points
    (
        TWO_VARIABLES,
        (
            "MEMBERS",
            r#""order":"prefix","bits":0,"groups":[{"kind":"select","points":[{"at":[0,3],"value":7}]}],"batching":1"#,
        ),
        0,
        "claim 7\nround 0: 7 65529 challenge 3\nround 1: 65523 65533 challenge 4\nresidual 65339\neval 11\nweight 65519\nverdict holds\n",
    ),
];

// Groups on three variables.
static KINDS_OF_THREE: [Changed; 8] = [
    // selectors of every length
    (
        THREE_VARIABLES,
        (
            "MEMBERS",
            r#""order":"prefix","bits":0,"groups":[{"kind":"next","claims":[{"selector":[],"point":[2,3,4],"order":"prefix","value":87},{"selector":[5],"point":[6,7],"order":"prefix","value":1596},{"selector":[8,9],"point":[10],"order":"prefix","value":65386},{"selector":[11,12,13],"point":[],"order":"prefix","value":1901}]}],"batching":3"#,
        ),
        0,
        "claim 54843\nround 0: 46310 47827 challenge 10\nround 1: 50694 10976 challenge 20\nround 2: 2312 35962 challenge 65536\nresidual 19211\neval 64542\nweight 57482\nverdict holds\n",
    ),
    // the same in suffix order
    (
        THREE_VARIABLES,
        (
            "MEMBERS",
            r#""order":"suffix","bits":0,"groups":[{"kind":"next","claims":[{"selector":[],"point":[2,3,4],"order":"prefix","value":87},{"selector":[5],"point":[6,7],"order":"prefix","value":1596},{"selector":[8,9],"point":[10],"order":"prefix","value":65386},{"selector":[11,12,13],"point":[],"order":"prefix","value":1901}]}],"batching":3"#,
        ),
        0,
        "claim 54843\nround 0: 28580 756 challenge 10\nround 1: 45013 33978 challenge 20\nround 2: 40534 50358 challenge 65536\nresidual 49215\neval 65158\nweight 11110\nverdict holds\n",
    ),
    // selectors of every length
    (
        THREE_VARIABLES,
        (
            "MEMBERS",
            r#""order":"prefix","bits":0,"groups":[{"kind":"next","claims":[{"selector":[],"point":[2,3,4],"order":"suffix","value":87},{"selector":[5],"point":[6,7],"order":"suffix","value":64464},{"selector":[8,9],"point":[10],"order":"suffix","value":17},{"selector":[11,12,13],"point":[],"order":"suffix","value":1901}]}],"batching":3"#,
        ),
        0,
        "claim 48348\nround 0: 44135 36340 challenge 10\nround 1: 44489 57562 challenge 20\nround 2: 20102 54056 challenge 65536\nresidual 36344\neval 64542\nweight 40603\nverdict holds\n",
    ),
    // the same in suffix order
    (
        THREE_VARIABLES,
        (
            "MEMBERS",
            r#""order":"suffix","bits":0,"groups":[{"kind":"next","claims":[{"selector":[],"point":[2,3,4],"order":"suffix","value":87},{"selector":[5],"point":[6,7],"order":"suffix","value":64464},{"selector":[8,9],"point":[10],"order":"suffix","value":17},{"selector":[11,12,13],"point":[],"order":"suffix","value":1901}]}],"batching":3"#,
        ),
        0,
        "claim 48348\nround 0: 29834 53906 challenge 10\nround 1: 47017 64727 challenge 20\nround 2: 42597 1146 challenge 65536\nresidual 36143\neval 65158\nweight 25324\nverdict holds\n",
    ),
    // scalar 0, whose power 0 is one, and others
    (
        THREE_VARIABLES,
        (
            "MEMBERS",
            r#""order":"prefix","bits":0,"groups":[{"kind":"select","scalars":[{"at":0,"value":3},{"at":1,"value":31},{"at":2,"value":1293},{"at":65536,"value":65534}]}],"batching":5"#,
        ),
        0,
        "claim 32108\nround 0: 1398 18748 challenge 10\nround 1: 36068 58140 challenge 20\nround 2: 44536 47394 challenge 65536\nresidual 2517\neval 64542\nweight 722\nverdict holds\n",
    ),
    // direct points, the first coordinate at the highest digit
    (
        THREE_VARIABLES,
        (
            "MEMBERS",
            r#""order":"suffix","bits":0,"groups":[{"kind":"select","points":[{"at":[2,3,5],"value":327},{"at":[0,1,4],"value":15}]}],"batching":7"#,
        ),
        0,
        "claim 432\nround 0: 86 65516 challenge 10\nround 1: 64841 64307 challenge 20\nround 2: 19316 4300 challenge 65536\nresidual 32125\neval 65158\nweight 434\nverdict holds\n",
    ),
    // a group of each kind, and an empty one
    (
        THREE_VARIABLES,
        (
            "MEMBERS",
            r#""order":"prefix","bits":0,"groups":[{"kind":"eq","claims":[{"point":[0,1,1],"value":1},{"point":[2,0,65536],"value":65534}]},{"kind":"next","claims":[{"selector":[3],"point":[1,2],"order":"suffix","value":14}]},{"kind":"next","claims":[]},{"kind":"select","scalars":[{"at":3,"value":17241}]},{"kind":"select","points":[{"at":[1,2,3],"value":92}]}],"batching":11"#,
        ),
        0,
        "claim 47715\nround 0: 56920 24218 challenge 10\nround 1: 28905 910 challenge 20\nround 2: 63864 14315 challenge 65536\nresidual 36159\neval 64542\nweight 11622\nverdict holds\n",
    ),
    // in suffix order
    (
        THREE_VARIABLES,
        (
            "MEMBERS",
            r#""order":"suffix","bits":0,"groups":[{"kind":"eq","claims":[{"point":[0,1,1],"value":1},{"point":[2,0,65536],"value":65534}]},{"kind":"next","claims":[{"selector":[3],"point":[1,2],"order":"suffix","value":14}]},{"kind":"next","claims":[]},{"kind":"select","scalars":[{"at":3,"value":17241}]},{"kind":"select","points":[{"at":[1,2,3],"value":92}]}],"batching":11"#,
        ),
        0,
        "claim 47715\nround 0: 5961 16013 challenge 10\nround 1: 11094 42091 challenge 20\nround 2: 37923 3040 challenge 65536\nresidual 34334\neval 65158\nweight 55417\nverdict holds\n",
    ),
];

// The first of these jobs; MODE is what is done.
const TWO_GROUPS: &str =
    r#"{"field":"65537","challenger":{"draws":[3,4],"witnesses":[]},"table":[1,2,3,4],"variables":2,"order":"prefix","bits":0,"groups":[{"kind":"next","claims":[{"selector":[],"point":[2,3],"order":"prefix","value":3}]},{"kind":"select","scalars":[{"at":2,"value":49}]}],"batching":10,"mode":MODE}"#;

// Its rounds, and another value in a round.
static ROUNDS: [Changed; 2] = [
    (
        TWO_GROUPS,
        (
            "MODE",
            r#"{"check":{"rounds":[[54,174],[637,111]],"witnesses":[]}}"#,
        ),
        0,
        "claim 493\nround 0: 54 174 challenge 3\nround 1: 637 111 challenge 4\nresidual 5885\neval 11\nweight 535\nverdict holds\n",
    ),
    (
        TWO_GROUPS,
        (
            "MODE",
            r#"{"check":{"rounds":[[54,174],[637,112]],"witnesses":[]}}"#,
        ),
        1,
        "claim 493\nround 0: 54 174 challenge 3\nround 1: 637 112 challenge 4\nresidual 5897\neval 11\nweight 535\nverdict refuted\n",
    ),
];

// A job whose batching element is no element, after its groups, and whose mode is none.
const NO_BATCHING: &str =
    r#"{"field":"65537","challenger":{"draws":[3,4],"witnesses":[]},"table":[1,2,3,4],"variables":2,"order":"prefix","bits":0,"groups":GROUPS,"batching":65537,"mode":null}"#;

// What stands for the groups of that job and is refused for them.
static REFUSED: [&str; 34] = [
    // no kind, or another
    r#"[{"claims":[{"point":[0,1],"value":2}]}]"#,
    r#"[{"kind":1,"claims":[{"point":[0,1],"value":2}]}]"#,
    r#"[{"kind":"Next","claims":[]}]"#,
    r#"[{"kind":"select ","scalars":[]}]"#,
    // members of successor claims that are missing or of another form
    r#"[{"kind":"next"}]"#,
    r#"[{"kind":"next","claims":7}]"#,
    r#"[{"kind":"next","claims":[{"point":[2,3],"order":"prefix","value":3}]}]"#,
    r#"[{"kind":"next","claims":[{"selector":[],"order":"prefix","value":3}]}]"#,
    r#"[{"kind":"next","claims":[{"selector":[],"point":[2,3],"value":3}]}]"#,
    r#"[{"kind":"next","claims":[{"selector":[],"point":[2,3],"order":"prefix"}]}]"#,
    r#"[{"kind":"next","claims":[{"selector":[],"point":[2,3],"order":"infix","value":3}]}]"#,
    r#"[{"kind":"next","claims":[{"selector":null,"point":[2,3],"order":"prefix","value":3}]}]"#,
    r#"[{"kind":"next","claims":[{"selector":[],"point":[2,65537],"order":"prefix","value":3}]}]"#,
    r#"[{"kind":"next","claims":[{"selector":[65537],"point":[2],"order":"prefix","value":3}]}]"#,
    r#"[{"kind":"next","claims":[{"selector":[],"point":[2,3],"order":"prefix","value":65537}]}]"#,
    // a selector and a point of together more or fewer coordinates
    r#"[{"kind":"next","claims":[{"selector":[],"point":[2],"order":"prefix","value":3}]}]"#,
    r#"[{"kind":"next","claims":[{"selector":[],"point":[2,3,4],"order":"prefix","value":3}]}]"#,
    r#"[{"kind":"next","claims":[{"selector":[1],"point":[2,3],"order":"prefix","value":3}]}]"#,
    r#"[{"kind":"next","claims":[{"selector":[1,2,3],"point":[],"order":"prefix","value":3}]}]"#,
    r#"[{"kind":"next","claims":[{"selector":[1,2,3],"point":[1],"order":"prefix","value":3}]}]"#,
    // neither scalars nor direct points, or both
    r#"[{"kind":"select"}]"#,
    r#"[{"kind":"select","claims":[{"at":2,"value":49}]}]"#,
    r#"[{"kind":"select","scalars":[],"points":[]}]"#,
    r#"[{"kind":"select","scalars":[{"at":2,"value":49}],"points":null}]"#,
    // members of selecting claims that are missing or of another form
    r#"[{"kind":"select","scalars":null}]"#,
    r#"[{"kind":"select","scalars":[{"value":49}]}]"#,
    r#"[{"kind":"select","scalars":[{"at":2}]}]"#,
    r#"[{"kind":"select","scalars":[{"at":[0,3],"value":7}]}]"#,
    r#"[{"kind":"select","scalars":[{"at":65537,"value":10}]}]"#,
    r#"[{"kind":"select","points":[{"at":2,"value":49}]}]"#,
    r#"[{"kind":"select","points":[{"at":[3],"value":7}]}]"#,
    r#"[{"kind":"select","points":[{"at":[0,3,0],"value":7}]}]"#,
    r#"[{"kind":"select","points":[{"at":[0,65537],"value":7}]}]"#,
    r#"[{"kind":"select","points":[{"point":[0,3],"value":7}]}]"#,
];

// A job in prefix order.
const FALSE: &str =
    r#"{"field":"65537","challenger":{"draws":[3,4],"witnesses":[]},"table":[1,2,3,4],"variables":2,"order":"prefix","bits":0,"groups":GROUPS,"batching":10,"mode":{"build":"plain"}}"#;

// What stands for the groups of that job, and how its first false claim is told.
static FALSE_CLAIMS: [Refusal; 5] = [
    (
        "GROUPS",
        r#"[{"kind":"next","claims":[{"selector":[],"point":[2,3],"order":"prefix","value":4}]}]"#,
        "false-claim 0 claimed 4 true 3",
    ),
    (
        "GROUPS",
        r#"[{"kind":"next","claims":[{"selector":[5],"point":[7],"order":"suffix","value":12}]}]"#,
        "false-claim 0 claimed 12 true 8",
    ),
    (
        "GROUPS",
        r#"[{"kind":"next","claims":[{"selector":[],"point":[2,3],"order":"prefix","value":3}]},{"kind":"select","scalars":[{"at":2,"value":49},{"at":0,"value":0}]}]"#,
        "false-claim 2 claimed 0 true 1",
    ),
    (
        "GROUPS",
        r#"[{"kind":"select","points":[]},{"kind":"select","points":[{"at":[0,3],"value":7},{"at":[3,0],"value":7}]}]"#,
        "false-claim 1 claimed 7 true 10",
    ),
    (
        "GROUPS",
        r#"[{"kind":"select","scalars":[{"at":2,"value":50}]},{"kind":"eq","claims":[{"point":[0,1],"value":3}]}]"#,
        "false-claim 0 claimed 50 true 49",
    ),
];

#[test]
fn groups_of_every_kind(rt: HostRuntime) {
    assert_changed(&rt, rt.alloc(), &KINDS);
}

#[test]
fn groups_of_every_kind_on_three_variables(rt: HostRuntime) {
    assert_changed(&rt, rt.alloc(), &KINDS_OF_THREE);
}

#[test]
fn the_rounds_of_two_groups_are_checked(rt: HostRuntime) {
    assert_changed(&rt, rt.alloc(), &ROUNDS);
}

#[test]
fn groups_that_are_refused(rt: HostRuntime) {
    let text = "refused bad-job groups\n";
    for groups in REFUSED.iter() {
        let job = change(&rt, rt.alloc(), NO_BATCHING, "GROUPS", *groups);
        assert_answer(&rt, rt.alloc(), &job, 3, text);
    }
}

#[test]
fn false_claims_of_every_kind(rt: HostRuntime) {
    assert_refused(&rt, rt.alloc(), FALSE, &FALSE_CLAIMS);
}
