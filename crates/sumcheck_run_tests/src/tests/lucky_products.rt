// Proofs of products that a challenge lets through, for the tests of products. The texts are those of
// a model in another language, which sums over all rows.
use super::Case;

// Proofs that a challenge lets through.
pub(super) static LUCKY: [Case; 10] = [
    // the second round makes a false sum true
    (
        r#"{"field":"65537","challenger":{"draws":[3,4],"witnesses":[[9,5],[6]]},"bits":1,
            "tables":[[1,2,3,4],[5,6,7,8]],
            "mode":{"check":{"claimed":73,"rounds":[[17,105],[28166,46914]],"witnesses":[5,6]}}}"#,
        1,
        "claim 73
round 0: 17 105 witness 5 challenge 3
round 1: 28166 46914 witness 6 challenge 4
residual 165
product 165
verdict lucky-round 1 vanishing 2 poly 28089 9346 4
",
    ),
    // a cubic with as many roots as it may have
    (
        r#"{"field":"65537","challenger":{"draws":[5],"witnesses":[]},"bits":0,
            "tables":[[1,2],[3,4],[5,6]],
            "mode":{"check":{"claimed":74,"rounds":[[21909,8,21919]],"witnesses":[]}}}"#,
        1,
        "claim 74
round 0: 21909 8 21919 challenge 5
residual 480
product 480
verdict lucky-round 0 vanishing 3 poly 21894 21751 7 2
",
    ),
    // the first round makes it true, and the second strays, and is let through too
    (
        r#"{"field":"65537","challenger":{"draws":[3,4],"witnesses":[]},"bits":0,
            "tables":[[1,2,3,4],[5,6,7,8]],
            "mode":{"check":{"claimed":73,"rounds":[[20,104],[89,95]],"witnesses":[]}}}"#,
        1,
        "claim 73
round 0: 20 104 challenge 3
round 1: 89 95 challenge 4
residual 165
product 165
verdict lucky-round 0 vanishing 2 poly 3 65533 1
",
    ),
    // the same with a second round that is not let through
    (
        r#"{"field":"65537","challenger":{"draws":[3,4],"witnesses":[]},"bits":0,
            "tables":[[1,2,3,4],[5,6,7,8]],
            "mode":{"check":{"claimed":73,"rounds":[[20,104],[89,93]],"witnesses":[]}}}"#,
        1,
        "claim 73
round 0: 20 104 challenge 3
round 1: 89 93 challenge 4
residual 153
product 165
verdict refuted
",
    ),
    // the true sum, with such a round
    (
        r#"{"field":"65537","challenger":{"draws":[3,4],"witnesses":[]},"bits":0,
            "tables":[[1,2,3,4],[5,6,7,8]],
            "mode":{"check":{"claimed":70,"rounds":[[17,105],[89,95]],"witnesses":[]}}}"#,
        0,
        "claim 70
round 0: 17 105 challenge 3
round 1: 89 95 challenge 4
residual 165
product 165
verdict holds
",
    ),
    // one table: a line
    (
        r#"{"field":"65537","challenger":{"draws":[3,4],"witnesses":[]},"bits":0,
            "tables":[[1,2,3,4]],
            "mode":{"check":{"claimed":15,"rounds":[[3],[9378]],"witnesses":[]}}}"#,
        1,
        "claim 15
round 0: 3 challenge 3
round 1: 9378 challenge 4
residual 11
product 11
verdict lucky-round 1 vanishing 1 poly 9371 46810
",
    ),
    // as many tables as there may be
    (
        r#"{"field":"65537","challenger":{"draws":[5],"witnesses":[]},"bits":0,
            "tables":[[0,1],[1,2],[2,3],[3,4],[4,5],[5,6],[6,7],[7,8]],
            "mode":{"check":{"claimed":40321,
                "rounds":[[45793,31912,10901,33300,35152,15382,45295,43383]],"witnesses":[]}}}"#,
        1,
        "claim 40321
round 0: 45793 31912 10901 33300 35152 15382 45295 43383 challenge 5
residual 35152
product 35152
verdict lucky-round 0 vanishing 3 poly 45793 39461 1 2 3 4 5 6 7
",
    ),
    // challenges in an extension of degree 2
    (
        r#"{"field":"257x2","challenger":{"draws":[3,100,4,200],"witnesses":[]},"bits":0,
            "tables":[[1,2,3,4],[5,6,7,8],[250,9,10,256]],
            "mode":{"check":{"claimed":394,
                "rounds":[[73,41,87],[46249,20720,15459]],"witnesses":[]}}}"#,
        1,
        "claim 394
round 0: 73 41 87 challenge 25703
round 1: 46249 20720 15459 challenge 51404
residual 39919
product 39919
verdict lucky-round 1 vanishing 1 poly 46090 54640 3951 9
",
    ),
    // the field of 16 elements, where the challenge is a node of the round
    (
        r#"{"field":"16","challenger":{"draws":[3,14],"witnesses":[]},"bits":0,
            "tables":[[1,2,3,4],[5,6,7,8],[9,10,11,12]],
            "mode":{"check":{"claimed":6,"rounds":[[2,13,8],[0,15,5]],"witnesses":[]}}}"#,
        1,
        "claim 6
round 0: 2 13 8 challenge 3
round 1: 0 15 5 challenge 14
residual 9
product 9
verdict lucky-round 0 vanishing 3 poly 0 9 9 9
",
    ),
    // and the second of two rounds there
    (
        r#"{"field":"16","challenger":{"draws":[7,14],"witnesses":[]},"bits":0,
            "tables":[[1,2,3,4],[5,6,7,8],[9,10,11,12]],
            "mode":{"check":{"claimed":6,"rounds":[[2,13,8],[5,15,0]],"witnesses":[]}}}"#,
        1,
        "claim 6
round 0: 2 13 8 challenge 7
round 1: 5 15 0 challenge 14
residual 1
product 1
verdict lucky-round 1 vanishing 1 poly 5 9 4 1
",
    ),
];
