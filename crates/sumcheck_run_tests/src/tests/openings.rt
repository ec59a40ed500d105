// Claims on several tables: the text and the status that `openings` answers. The texts are those of
// a model in another language, which sums over all rows.
use super::{Case, assert_command};

// One claim on each of two tables.
pub(super) const TWO: &str =
    r#"{"field":"65537","challenger":{"draws":[2,3],"witnesses":[]},"bits":0,
            "tables":[[1,2],[3,4]],"variables":1,
            "claims":[{"table":0,"point":[0],"successor":false,"value":1},
            {"table":1,"point":[1],"successor":false,"value":4}],"mode":"build"}"#;

pub(super) const TWO_TEXT: &str = "claim 9
round 0: 1 1 challenge 3
residual 28
open 0: 4
open 1: 6
weight 0: 65535
weight 1: 6
verdict holds
";

static WHOLE: [Case; 16] = [
    // two claims, one on each table
    (TWO, 0, TWO_TEXT),
    // five claims on three tables, two of them on next rows
    (
        r#"{"field":"65537","challenger":{"draws":[10,20,30],"witnesses":[]},"bits":0,
            "tables":[[5,7,11,13],[2,3,65536,4],[9,0,1,8]],"variables":2,
            "claims":[{"table":0,"point":[2,3],"successor":false,"value":23},
            {"table":0,"point":[4,5],"successor":true,"value":65508},
            {"table":1,"point":[6,7],"successor":false,"value":159},
            {"table":2,"point":[0,1],"successor":true,"value":1},
            {"table":1,"point":[65536,9],"successor":false,"value":65515}],
            "mode":"build"}"#,
        0,
        "claim 58781
round 0: 19718 11193 challenge 20
round 1: 49415 12762 challenge 30
residual 3649
open 0: 185
open 1: 2372
open 2: 9179
weight 0: 51332
weight 1: 19229
weight 2: 9833
verdict holds
",
    ),
    // a table without a claim, and two claims at one point
    (
        r#"{"field":"65537","challenger":{"draws":[7,9],"witnesses":[]},"bits":0,
            "tables":[[1,2],[3,4]],"variables":1,
            "claims":[{"table":1,"point":[5],"successor":false,"value":8},
            {"table":1,"point":[5],"successor":true,"value":4}],
            "mode":"build"}"#,
        0,
        "claim 36
round 0: 65525 16 challenge 9
residual 1680
open 0: 10
open 1: 12
weight 0: 0
weight 1: 140
verdict holds
",
    ),
    // no claim
    (
        r#"{"field":"65537","challenger":{"draws":[7,9],"witnesses":[]},"bits":0,
            "tables":[[1,2],[3,4]],"variables":1,
            "claims":[],
            "mode":"build"}"#,
        0,
        "claim 0
round 0: 0 0 challenge 9
residual 0
open 0: 10
open 1: 12
weight 0: 0
weight 1: 0
verdict holds
",
    ),
    // no variable
    (
        r#"{"field":"65537","challenger":{"draws":[7],"witnesses":[]},"bits":3,
            "tables":[[6],[8]],"variables":0,
            "claims":[{"table":0,"point":[],"successor":false,"value":6},
            {"table":1,"point":[],"successor":true,"value":8}],
            "mode":"build"}"#,
        0,
        "claim 62
residual 62
open 0: 6
open 1: 8
weight 0: 1
weight 1: 7
verdict holds
",
    ),
    // two witnesses
    (
        r#"{"field":"65537","challenger":{"draws":[7,11,13],"witnesses":[[5,9],[6]]},"bits":3,
            "tables":[[3,5,7,9]],"variables":2,
            "claims":[{"table":0,"point":[2,3],"successor":false,"value":17}],
            "mode":"build"}"#,
        0,
        "claim 17
round 0: 65528 12 witness 5 challenge 11
round 1: 62529 320 witness 6 challenge 13
residual 16094
open 0: 73
weight 0: 2016
verdict holds
",
    ),
    // the second round has no witness
    (
        r#"{"field":"65537","challenger":{"draws":[7,11,13],"witnesses":[[5,9]]},"bits":3,
            "tables":[[3,5,7,9]],"variables":2,
            "claims":[{"table":0,"point":[2,3],"successor":false,"value":17}],
            "mode":"build"}"#,
        5,
        "no witness round 1\n",
    ),
    // challenges in an extension of degree 2
    (
        r#"{"field":"257x2","challenger":{"draws":[2,1,3,1],"witnesses":[]},"bits":0,
            "tables":[[3,5],[256,1]],"variables":1,
            "claims":[{"table":0,"point":[260],"successor":false,"value":523},
            {"table":1,"point":[66048],"successor":true,"value":1}],
            "mode":"build"}"#,
        0,
        "claim 782
round 0: 65529 1556 challenge 260
residual 43996
open 0: 523
open 1: 519
weight 0: 2589
weight 1: 1294
verdict holds
",
    ),
    // the field of 16 elements
    (
        r#"{"field":"16","challenger":{"draws":[9,14,3],"witnesses":[]},"bits":0,
            "tables":[[3,5,7,9],[1,2,4,8]],"variables":2,
            "claims":[{"table":0,"point":[6,11],"successor":false,"value":6},
            {"table":1,"point":[2,13],"successor":true,"value":7},
            {"table":1,"point":[1,0],"successor":false,"value":4}],
            "mode":"build"}"#,
        0,
        "claim 3
round 0: 2 2 challenge 14
round 1: 11 1 challenge 3
residual 10
open 0: 14
open 1: 5
weight 0: 12
weight 1: 1
verdict holds
",
    ),
    // under the hash challenger
    (
        r#"{"field":"65537","challenger":"hash","bits":8,
            "tables":[[5,7,11,13],[2,3,65536,4],[9,0,1,8]],"variables":2,
            "claims":[{"table":0,"point":[2,3],"successor":false,"value":23},
            {"table":0,"point":[4,5],"successor":true,"value":65508},
            {"table":1,"point":[6,7],"successor":false,"value":159},
            {"table":2,"point":[0,1],"successor":true,"value":1},
            {"table":1,"point":[65536,9],"successor":false,"value":65515}],
            "mode":"build"}"#,
        0,
        "claim 23110
round 0: 16716 4895 witness 145 challenge 50073
round 1: 6526 33593 witness 12 challenge 47614
residual 54577
open 0: 2449
open 1: 49667
open 2: 42127
weight 0: 28119
weight 1: 12830
weight 2: 6386
verdict holds
",
    ),
    // the first of several faults; where there are more than 16 variables, table 0 is told
    (
        r#"{"field":"65537","challenger":{"draws":[2,3],"witnesses":[]},"bits":17,
            "tables":[[1,2],[3],[4,5]],"variables":17,
            "claims":[{"table":9,"point":[],"successor":false,"value":1}],
            "mode":"build"}"#,
        3,
        "refused openings table 0 length 2\n",
    ),
    (
        r#"{"field":"65537","challenger":{"draws":[2,3],"witnesses":[]},"bits":17,
            "tables":[[1,2],[3],[4]],"variables":1,
            "claims":[{"table":0,"point":[],"successor":false,"value":1},
            {"table":9,"point":[0],"successor":false,"value":1}],
            "mode":"build"}"#,
        3,
        "refused openings table 1 length 1\n",
    ),
    (
        r#"{"field":"65537","challenger":{"draws":[2,3],"witnesses":[]},"bits":17,
            "tables":[[1,2],[3,4]],"variables":1,
            "claims":[{"table":0,"point":[],"successor":false,"value":1},
            {"table":9,"point":[0],"successor":false,"value":1}],
            "mode":"build"}"#,
        3,
        "refused openings claim 1 table 9\n",
    ),
    (
        r#"{"field":"65537","challenger":{"draws":[2,3],"witnesses":[]},"bits":17,
            "tables":[[1,2],[3,4]],"variables":1,
            "claims":[{"table":0,"point":[1],"successor":false,"value":3},
            {"table":1,"point":[0,0],"successor":false,"value":1}],
            "mode":"build"}"#,
        3,
        "refused openings claim 1 variables 2\n",
    ),
    (
        r#"{"field":"65537","challenger":{"draws":[2,3],"witnesses":[]},"bits":17,
            "tables":[[1,2],[3,4]],"variables":1,
            "claims":[{"table":0,"point":[1],"successor":false,"value":3},
            {"table":1,"point":[0],"successor":false,"value":1}],
            "mode":"build"}"#,
        3,
        "refused job-shape difficulty 17 bound 16\n",
    ),
    (
        r#"{"field":"65537","challenger":{"draws":[2,3],"witnesses":[]},"bits":0,
            "tables":[[1,2],[3,4]],"variables":1,
            "claims":[{"table":0,"point":[1],"successor":false,"value":2},
            {"table":1,"point":[0],"successor":false,"value":1},
            {"table":1,"point":[0],"successor":false,"value":7}],
            "mode":"build"}"#,
        3,
        "refused false-claim 1 claimed 1 true 3\n",
    ),
];

// Proofs of false claims.
static FALSE: [Case; 6] = [
    // two false claims are in sum the true ones under the first challenge
    (
        r#"{"field":"65537","challenger":{"draws":[2,3],"witnesses":[]},"bits":0,
            "tables":[[1,2],[3,4]],"variables":1,
            "claims":[{"table":0,"point":[0],"successor":false,"value":3},
            {"table":1,"point":[1],"successor":false,"value":3}],
            "mode":{"check":{"rounds":[[1,1]],"witnesses":[],"openings":[4,6]}}}"#,
        1,
        "claim 9
round 0: 1 1 challenge 3
residual 28
open 0: 4
open 1: 6
weight 0: 65535
weight 1: 6
verdict lucky-batch vanishing 1 poly 2 65536
",
    ),
    // the same openings in sum alone
    (
        r#"{"field":"65537","challenger":{"draws":[2,3],"witnesses":[]},"bits":0,
            "tables":[[1,2],[3,4]],"variables":1,
            "claims":[{"table":0,"point":[0],"successor":false,"value":3},
            {"table":1,"point":[1],"successor":false,"value":3}],
            "mode":{"check":{"rounds":[[1,1]],"witnesses":[],"openings":[7,7]}}}"#,
        1,
        "claim 9
round 0: 1 1 challenge 3
residual 28
open 0: 7
open 1: 7
weight 0: 65535
weight 1: 6
verdict refuted
",
    ),
    // under another challenge they are refuted
    (
        r#"{"field":"65537","challenger":{"draws":[5,3],"witnesses":[]},"bits":0,
            "tables":[[1,2],[3,4]],"variables":1,
            "claims":[{"table":0,"point":[0],"successor":false,"value":3},
            {"table":1,"point":[1],"successor":false,"value":3}],
            "mode":{"check":{"rounds":[[1,1]],"witnesses":[],"openings":[4,6]}}}"#,
        1,
        "claim 18
round 0: 1 1 challenge 3
residual 55
open 0: 4
open 1: 6
weight 0: 65535
weight 1: 15
verdict refuted
",
    ),
    // a round makes a false claim true
    (
        r#"{"field":"65537","challenger":{"draws":[2,3],"witnesses":[]},"bits":0,
            "tables":[[1,2],[3,4]],"variables":1,
            "claims":[{"table":0,"point":[0],"successor":false,"value":6},
            {"table":1,"point":[1],"successor":false,"value":4}],
            "mode":{"check":{"rounds":[[4,1]],"witnesses":[],"openings":[4,6]}}}"#,
        1,
        "claim 14
round 0: 4 1 challenge 3
residual 28
open 0: 4
open 1: 6
weight 0: 65535
weight 1: 6
verdict lucky-round 0 vanishing 1 poly 3 65536 0
",
    ),
    // the same of two rounds over an extension, where the second one does
    (
        r#"{"field":"257x2","challenger":{"draws":[2,1,3,1,4,5],"witnesses":[]},"bits":0,
            "tables":[[3,5,256,1]],"variables":2,
            "claims":[{"table":0,"point":[260,2],"successor":false,"value":65274}],
            "mode":{"check":{"rounds":[[64493,64230],[47901,15534]],
            "witnesses":[],"openings":[1798]}}}"#,
        1,
        "claim 65274
round 0: 64493 64230 challenge 260
round 1: 47901 15534 challenge 1289
residual 56052
open 0: 1798
weight 0: 35611
verdict lucky-round 1 vanishing 1 poly 5205 56156 0
",
    ),
    // the witness of the second round does not pass
    (
        r#"{"field":"65537","challenger":{"draws":[7,11,13],"witnesses":[[5,9],[6]]},"bits":3,
            "tables":[[3,5,7,9]],"variables":2,
            "claims":[{"table":0,"point":[2,3],"successor":false,"value":0}],
            "mode":{"check":{"rounds":[[1,1],[1,1]],"witnesses":[9,5],"openings":[0]}}}"#,
        4,
        "proof refused witness round 1 bits 3\n",
    ),
];

#[test]
fn claims_on_several_tables(rt: HostRuntime) {
    for (job, code, text) in &WHOLE {
        assert_command(&rt, rt.alloc(), "openings", *job, *code, *text);
    }
}

#[test]
fn false_claims_on_tables(rt: HostRuntime) {
    for (job, code, text) in &FALSE {
        assert_command(&rt, rt.alloc(), "openings", *job, *code, *text);
    }
}
