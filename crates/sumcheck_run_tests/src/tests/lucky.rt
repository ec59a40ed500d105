// Whole runs on proofs that a challenge lets through. The texts are those of a model in another
// language, which sums over all rows and counts roots one element after the other.
use super::{Case, assert_cases};

// Jobs over the integers modulo 65537 whose rounds stray from the honest ones.
static ROUNDS: [Case; 6] = [
    // the second round is the first one after which the claim is true
    (
        r#"{"field":"65537","challenger":{"draws":[3,4],"witnesses":[]},"order":"prefix","bits":0,
            "table":[1,2,3,4],"variables":2,
            "groups":[{"kind":"eq","claims":[{"point":[0,1],"value":5}]}],
            "batching":1,"mode":{"check":{"rounds":[[2,65535],[12,2]],"witnesses":[]}}}"#,
        1,
        "claim 5
round 0: 2 65535 challenge 3
round 1: 12 2 challenge 4
residual 65449
eval 11
weight 65529
verdict lucky-round 1 vanishing 2 poly 12 65518 4
",
    ),
    // the polynomial has one root
    (
        r#"{"field":"65537","challenger":{"draws":[5,4],"witnesses":[]},"order":"prefix","bits":0,
            "table":[1,2,3,4],"variables":2,
            "groups":[{"kind":"eq","claims":[{"point":[0,1],"value":7}]}],
            "batching":1,"mode":{"check":{"rounds":[[2,65535],[16,65534]],"witnesses":[]}}}"#,
        1,
        "claim 7
round 0: 2 65535 challenge 5
round 1: 16 65534 challenge 4
residual 65297
eval 15
weight 65521
verdict lucky-round 1 vanishing 1 poly 16 65529 1
",
    ),
    // rounds from the last variable on, with witnesses
    (
        r#"{"field":"65537","challenger":{"draws":[3,4],"witnesses":[[5],[7]]},
            "order":"suffix","bits":1,
            "table":[1,2,3,4],"variables":2,
            "groups":[{"kind":"eq","claims":[{"point":[0,1],"value":5}]}],
            "batching":1,"mode":{"check":{"rounds":[[0,1],[24,65535]],"witnesses":[5,7]}}}"#,
        1,
        "claim 5
round 0: 0 1 witness 5 challenge 3
round 1: 24 65535 witness 7 challenge 4
residual 65429
eval 12
weight 65528
verdict lucky-round 1 vanishing 2 poly 12 65518 4
",
    ),
    // the first round makes it true, and the second strays, and is let through too
    (
        r#"{"field":"65537","challenger":{"draws":[3,4],"witnesses":[]},"order":"prefix","bits":0,
            "table":[1,2,3,4],"variables":2,
            "groups":[{"kind":"eq","claims":[{"point":[0,1],"value":5}]}],
            "batching":1,"mode":{"check":{"rounds":[[5,65536],[12,5]],"witnesses":[]}}}"#,
        1,
        "claim 5
round 0: 5 65536 challenge 3
round 1: 12 5 challenge 4
residual 65449
eval 11
weight 65529
verdict lucky-round 0 vanishing 2 poly 3 65533 1
",
    ),
    // the same with a second round that is not let through
    (
        r#"{"field":"65537","challenger":{"draws":[3,4],"witnesses":[]},"order":"prefix","bits":0,
            "table":[1,2,3,4],"variables":2,
            "groups":[{"kind":"eq","claims":[{"point":[0,1],"value":5}]}],
            "batching":1,"mode":{"check":{"rounds":[[5,65536],[12,4]],"witnesses":[]}}}"#,
        1,
        "claim 5
round 0: 5 65536 challenge 3
round 1: 12 4 challenge 4
residual 65437
eval 11
weight 65529
verdict refuted
",
    ),
    // where every statement is true no challenge is named, whatever the rounds send
    (
        r#"{"field":"65537","challenger":{"draws":[3,4],"witnesses":[]},"order":"prefix","bits":0,
            "table":[1,2,3,4],"variables":2,
            "groups":[{"kind":"eq","claims":[{"point":[0,1],"value":2}]}],
            "batching":1,"mode":{"check":{"rounds":[[2,65535],[12,5]],"witnesses":[]}}}"#,
        0,
        "claim 2
round 0: 2 65535 challenge 3
round 1: 12 5 challenge 4
residual 65449
eval 11
weight 65529
verdict holds
",
    ),
];

// Jobs over the same whose batched claim is true although a statement is false.
static BATCHES: [Case; 5] = [
    // three statements, and as many coefficients
    (
        r#"{"field":"65537","challenger":{"draws":[3,4],"witnesses":[]},"order":"prefix","bits":0,
            "table":[1,2,3,4],"variables":2,
            "groups":[
                {"kind":"eq","claims":[{"point":[0,1],"value":4}]},
                {"kind":"next","claims":[{"selector":[],"point":[2,3],"order":"prefix","value":0}]},
                {"kind":"select","scalars":[{"at":2,"value":50}]}],
            "batching":2,"mode":{"check":{"rounds":[[30,58],[154,60]],"witnesses":[]}}}"#,
        1,
        "claim 204
round 0: 30 58 challenge 3
round 1: 154 60 challenge 4
residual 2882
eval 11
weight 262
verdict lucky-batch vanishing 2 poly 2 65534 1
",
    ),
    // the batch comes before a round that is let through
    (
        r#"{"field":"65537","challenger":{"draws":[3,4],"witnesses":[]},"order":"prefix","bits":0,
            "table":[1,2,3,4],"variables":2,
            "groups":[
                {"kind":"eq","claims":[{"point":[0,1],"value":4}]},
                {"kind":"next","claims":[{"selector":[],"point":[2,3],"order":"prefix","value":0}]},
                {"kind":"select","scalars":[{"at":2,"value":50}]}],
            "batching":2,"mode":{"check":{"rounds":[[30,58],[166,67]],"witnesses":[]}}}"#,
        1,
        "claim 204
round 0: 30 58 challenge 3
round 1: 166 67 challenge 4
residual 2882
eval 11
weight 262
verdict lucky-batch vanishing 2 poly 2 65534 1
",
    ),
    // one root of the three that there may be
    (
        r#"{"field":"65537","challenger":{"draws":[3,4],"witnesses":[]},"order":"suffix","bits":0,
            "table":[1,2,3,4],"variables":2,
            "groups":[
                {"kind":"eq","claims":[{"point":[0,1],"value":11}]},
                {"kind":"next","claims":[{"selector":[],"point":[2,3],"order":"prefix","value":0}]},
                {"kind":"select","scalars":[{"at":2,"value":46}]},
                {"kind":"select","points":[{"at":[5,7],"value":171}]}],
            "batching":3,"mode":{"check":{"rounds":[[522,1039],[2280,4350]],"witnesses":[]}}}"#,
        1,
        "claim 5042
round 0: 522 1039 challenge 3
round 1: 2280 4350 challenge 4
residual 45703
eval 12
weight 9270
verdict lucky-batch vanishing 1 poly 9 65534 65534 1
",
    ),
    // the powers of 0
    (
        r#"{"field":"65537","challenger":{"draws":[3,4],"witnesses":[]},"order":"prefix","bits":0,
            "table":[1,2,3,4],"variables":2,
            "groups":[
                {"kind":"eq","claims":[{"point":[0,1],"value":2},{"point":[1,0],"value":9}]}],
            "batching":0,"mode":{"check":{"rounds":[[2,65535],[0,65535]],"witnesses":[]}}}"#,
        1,
        "claim 2
round 0: 2 65535 challenge 3
round 1: 0 65535 challenge 4
residual 65449
eval 11
weight 65529
verdict lucky-batch vanishing 1 poly 0 6
",
    ),
    // no rounds
    (
        r#"{"field":"65537","challenger":{"draws":[],"witnesses":[]},"order":"prefix","bits":0,
            "table":[7],"variables":0,
            "groups":[
                {"kind":"eq","claims":[{"point":[],"value":5},{"point":[],"value":8}]}],
            "batching":2,"mode":{"check":{"rounds":[],"witnesses":[]}}}"#,
        1,
        "claim 21
residual 21
eval 7
weight 3
verdict lucky-batch vanishing 1 poly 65535 1
",
    ),
];

// Jobs over the field of 16 elements.
static SIXTEEN: [Case; 6] = [
    // one round
    (
        r#"{"field":"16","challenger":{"draws":[2],"witnesses":[]},"order":"prefix","bits":0,
            "table":[1,2],"variables":1,
            "groups":[{"kind":"eq","claims":[{"point":[0],"value":5}]}],
            "batching":1,"mode":{"check":{"rounds":[[9,3]],"witnesses":[]}}}"#,
        1,
        "claim 5
round 0: 9 3 challenge 2
residual 0
eval 0
weight 3
verdict lucky-round 0 vanishing 1 poly 8 4 0
",
    ),
    // another value, which is not let through
    (
        r#"{"field":"16","challenger":{"draws":[2],"witnesses":[]},"order":"prefix","bits":0,
            "table":[1,2],"variables":1,
            "groups":[{"kind":"eq","claims":[{"point":[0],"value":5}]}],
            "batching":1,"mode":{"check":{"rounds":[[5,3]],"witnesses":[]}}}"#,
        1,
        "claim 5
round 0: 5 3 challenge 2
residual 12
eval 0
weight 3
verdict refuted
",
    ),
    // the second of two rounds
    (
        r#"{"field":"16","challenger":{"draws":[2,4],"witnesses":[]},"order":"prefix","bits":0,
            "table":[1,2,3,4],"variables":2,
            "groups":[{"kind":"eq","claims":[{"point":[0,1],"value":7}]}],
            "batching":1,"mode":{"check":{"rounds":[[2,6],[3,6]],"witnesses":[]}}}"#,
        1,
        "claim 7
round 0: 2 6 challenge 2
round 1: 3 6 challenge 4
residual 1
eval 5
weight 12
verdict lucky-round 1 vanishing 1 poly 3 10 0
",
    ),
    // and with two roots, from the last variable on
    (
        r#"{"field":"16","challenger":{"draws":[2,4],"witnesses":[]},"order":"suffix","bits":0,
            "table":[1,2,3,4],"variables":2,
            "groups":[{"kind":"eq","claims":[{"point":[0,1],"value":7}]}],
            "batching":1,"mode":{"check":{"rounds":[[0,3],[2,12]],"witnesses":[]}}}"#,
        1,
        "claim 7
round 0: 0 3 challenge 2
round 1: 2 12 challenge 4
residual 5
eval 3
weight 10
verdict lucky-round 1 vanishing 2 poly 2 9 3
",
    ),
    // statements of every kind, and the second of three rounds
    (
        r#"{"field":"16","challenger":{"draws":[2,13,6],"witnesses":[]},"order":"suffix","bits":0,
            "table":[10,4,12,1,2,3,11,1],"variables":3,
            "groups":[
                {"kind":"eq","claims":[{"point":[6,1,2],"value":8}]},
                {"kind":"next","claims":[{"selector":[13],
                        "point":[13,2],"order":"suffix","value":13}]},
                {"kind":"select","scalars":[{"at":7,"value":9}]},
                {"kind":"select","points":[{"at":[2,13,1],"value":10}]}],
            "batching":3,"mode":{"check":{"rounds":[[2,1],[9,6],[6,0]],"witnesses":[]}}}"#,
        1,
        "claim 7
round 0: 2 1 challenge 2
round 1: 9 6 challenge 13
round 2: 6 0 challenge 6
residual 13
eval 10
weight 14
verdict lucky-round 1 vanishing 2 poly 8 15 11
",
    ),
    // the batch of such statements
    (
        r#"{"field":"16","challenger":{"draws":[2,13,6],"witnesses":[]},"order":"suffix","bits":0,
            "table":[10,4,12,1,2,3,11,1],"variables":3,
            "groups":[
                {"kind":"eq","claims":[{"point":[6,1,2],"value":7}]},
                {"kind":"next","claims":[{"selector":[13],
                        "point":[13,2],"order":"suffix","value":14}]},
                {"kind":"select","scalars":[{"at":7,"value":9}]},
                {"kind":"select","points":[{"at":[2,13,1],"value":11}]}],
            "batching":3,"mode":{"check":{"rounds":[[2,1],[1,13],[6,0]],"witnesses":[]}}}"#,
        1,
        "claim 11
round 0: 2 1 challenge 2
round 1: 1 13 challenge 13
round 2: 6 0 challenge 6
residual 13
eval 10
weight 14
verdict lucky-batch vanishing 3 poly 15 3 8 1
",
    ),
];

// Jobs over the extension of degree 2 of the integers modulo 257: two draws make a challenge.
static EXTENDED: [Case; 3] = [
    // the second of two rounds
    (
        r#"{"field":"257x2","challenger":{"draws":[3,1,4,2],"witnesses":[]},
            "order":"prefix","bits":0,
            "table":[1,2,3,4],"variables":2,
            "groups":[{"kind":"eq","claims":[{"point":[257,1],"value":300}]}],
            "batching":1,"mode":{"check":{"rounds":[[65537,1283],[43685,1032]],"witnesses":[]}}}"#,
        1,
        "claim 300
round 0: 65537 1283 challenge 260
round 1: 43685 1032 challenge 518
residual 43133
eval 1039
weight 6208
verdict lucky-round 1 vanishing 1 poly 43685 55128 0
",
    ),
    // with two roots
    (
        r#"{"field":"257x2","challenger":{"draws":[3,1,4,2],"witnesses":[]},
            "order":"prefix","bits":0,
            "table":[1,2,3,4],"variables":2,
            "groups":[{"kind":"eq","claims":[{"point":[257,1],"value":300}]}],
            "batching":1,"mode":{"check":{"rounds":[[65537,1283],[46016,1808]],"witnesses":[]}}}"#,
        1,
        "claim 300
round 0: 65537 1283 challenge 260
round 1: 46016 1808 challenge 518
residual 43133
eval 1039
weight 6208
verdict lucky-round 1 vanishing 2 poly 46016 49176 776
",
    ),
    // the batch
    (
        r#"{"field":"257x2","challenger":{"draws":[3,1,4,2],"witnesses":[]},
            "order":"suffix","bits":0,
            "table":[1,2,3,4],"variables":2,
            "groups":[
                {"kind":"eq","claims":[{"point":[257,1],"value":34060}]},
                {"kind":"next","claims":[{"selector":[40433],
                        "point":[23688],"order":"suffix","value":32181}]},
                {"kind":"select","points":[{"at":[190,49],"value":131}]}],
            "batching":7812,
                "mode":{"check":{"rounds":[[23533,53257],[53893,35526]],"witnesses":[]}}}"#,
        1,
        "claim 12850
round 0: 23533 53257 challenge 260
round 1: 53893 35526 challenge 518
residual 22808
eval 1297
weight 43559
verdict lucky-batch vanishing 2 poly 33544 58051 1
",
    ),
];

#[test]
fn the_first_round_that_makes_a_false_claim_true_is_named(rt: HostRuntime) {
    assert_cases(&rt, rt.alloc(), &ROUNDS);
}

#[test]
fn a_lucky_batch_is_named_before_any_round(rt: HostRuntime) {
    assert_cases(&rt, rt.alloc(), &BATCHES);
}

#[test]
fn lucky_challenges_in_the_field_of_16_elements(rt: HostRuntime) {
    assert_cases(&rt, rt.alloc(), &SIXTEEN);
}

#[test]
fn lucky_challenges_in_an_extension(rt: HostRuntime) {
    assert_cases(&rt, rt.alloc(), &EXTENDED);
}
