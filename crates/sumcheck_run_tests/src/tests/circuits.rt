// Claimed outputs of circuits: the text and the status that `circuit` answers. The texts are those
// of a model in another language, which sums over all bits.
use super::{Case, Changed, assert_command, change};

// The product of two inputs.
pub(super) const ONE: &str =
    r#"{"field":"65537","challenger":{"draws":[1,2,3,4],"witnesses":[]},"bits":0,
        "inputs":[3,5],"layers":[[[1,0,1]]],"outputs":[15],"mode":"build"}"#;

pub(super) const ONE_TEXT: &str = "claim 15
layer 0 round 0: 15 65502 challenge 2
layer 0 round 1: 0 65439 challenge 3
layer 0 left 7 right 9 merge 4
input 43
verdict holds
";

// What is done with it, and the layer that is built.
const BUILD: &str = r#""build""#;

const HONEST: &str =
    r#"{"check":{"layers":[{"rounds":[[15,65502],[0,65439]],"witnesses":[],"left":7,"right":9}]}}"#;

static WHOLE: [Case; 8] = [
    (ONE, 0, ONE_TEXT),
    // two layers, the second one of two gates
    (
        r#"{"field":"65537","challenger":{"draws":[1,2,3,4,5,6,7,8,9],"witnesses":[]},"bits":0,
            "inputs":[1,2,3,4],"layers":[[[0,0,1]],[[1,0,2],[1,1,3]]],
            "outputs":[11],"mode":"build"}"#,
        0,
        "claim 11
layer 0 round 0: 11 65516 challenge 2
layer 0 round 1: 0 65485 challenge 3
layer 0 left 13 right 18 merge 4
layer 1 round 0: 85 65336 challenge 5
layer 1 round 1: 1188 58309 challenge 6
layer 1 round 2: 0 31930 challenge 7
layer 1 round 3: 6385 53276 challenge 8
layer 1 left 17 right 23 merge 9
input 224
verdict holds
",
    ),
    // the square of one input, without a round
    (
        r#"{"field":"65537","challenger":{"draws":[3,4],"witnesses":[]},"bits":3,
            "inputs":[3],"layers":[[[1,0,0]]],"outputs":[9],"mode":"build"}"#,
        0,
        "claim 9
layer 0 left 3 right 3 merge 4
input 15
verdict holds
",
    ),
    // two gates of one layer, and two witnesses
    (
        r#"{"field":"65537","challenger":{"draws":[7,11,13,17],"witnesses":[[5,9],[6]]},"bits":3,
            "inputs":[3,5],"layers":[[[1,0,1],[0,1,1]]],"outputs":[15,10],"mode":"build"}"#,
        0,
        "claim 85
layer 0 round 0: 15 133 witness 5 challenge 11
layer 0 round 1: 0 1428 witness 6 challenge 13
layer 0 left 25 right 29 merge 17
input 518
verdict holds
",
    ),
    // no witness in the second round of the second layer
    (
        r#"{"field":"65537","challenger":{"draws":[7,11,13,17],"witnesses":[[5,9]]},"bits":3,
            "inputs":[3,5],"layers":[[[1,0,0]],[[0,0,1]]],"outputs":[64],"mode":"build"}"#,
        5,
        "no witness layer 1 round 1\n",
    ),
    // challenges in an extension of degree 2
    (
        r#"{"field":"257x2","challenger":{"draws":[2,1,3,1,0,1,5,2],"witnesses":[]},"bits":0,
            "inputs":[3,5],"layers":[[[1,0,1]]],"outputs":[15],"mode":"build"}"#,
        0,
        "claim 15
layer 0 round 0: 15 222 challenge 260
layer 0 round 1: 0 19453 challenge 257
layer 0 left 523 right 517 merge 519
input 4662
verdict holds
",
    ),
    // the field of 16 elements
    (
        r#"{"field":"16","challenger":{"draws":[9,14,3,7],"witnesses":[]},"bits":0,
            "inputs":[3,5],"layers":[[[1,0,1],[0,0,1]]],"outputs":[15,6],"mode":"build"}"#,
        0,
        "claim 14
layer 0 round 0: 14 0 challenge 14
layer 0 round 1: 0 2 challenge 3
layer 0 left 1 right 14 merge 7
input 13
verdict holds
",
    ),
    // under the hash challenger
    (
        r#"{"field":"65537","challenger":"hash","bits":8,
            "inputs":[1,2,3,4],"layers":[[[0,0,1]],[[1,0,2],[1,1,3]]],
            "outputs":[11],"mode":"build"}"#,
        0,
        "claim 11
layer 0 round 0: 11 65516 witness 314 challenge 12166
layer 0 round 1: 0 32113 witness 254 challenge 54661
layer 0 left 60833 right 11160 merge 53675
layer 1 round 0: 116 21905 witness 120 challenge 39796
layer 1 round 1: 45825 42756 witness 550 challenge 17663
layer 1 round 2: 0 15331 witness 565 challenge 6921
layer 1 round 3: 53870 14603 witness 281 challenge 52229
layer 1 left 31719 right 535 merge 28049
input 29961
verdict holds
",
    ),
];

static CHANGED: [Changed; 26] = [
    // the same layer, handed in
    (
        ONE,
        (BUILD, HONEST),
        0,
        "claim 15
layer 0 round 0: 15 65502 challenge 2
layer 0 round 1: 0 65439 challenge 3
layer 0 left 7 right 9 merge 4
input 43
verdict holds
",
    ),
    // another value below
    (
        ONE,
        (
            BUILD,
            r#"{"check":{"layers":[{"rounds":[[15,65502],[0,65439]],
            "witnesses":[],"left":7,"right":10}]}}"#,
        ),
        1,
        "claim 15
layer 0 round 0: 15 65502 challenge 2
layer 0 round 1: 0 65439 challenge 3
layer 0 left 7 right 10 merge 4
input 47
verdict refuted layer 0
",
    ),
    // another round
    (
        ONE,
        (
            BUILD,
            r#"{"check":{"layers":[{"rounds":[[15,65502],[1,65439]],
            "witnesses":[],"left":7,"right":9}]}}"#,
        ),
        1,
        "claim 15
layer 0 round 0: 15 65502 challenge 2
layer 0 round 1: 1 65439 challenge 3
layer 0 left 7 right 9 merge 4
input 43
verdict refuted layer 0
",
    ),
    // an output is false
    (
        ONE,
        (r#""outputs":[15]"#, r#""outputs":[16]"#),
        3,
        "refused false-output 0 claimed 16 true 15\n",
    ),
    // layers that make no circuit
    (
        ONE,
        (r#""layers":[[[1,0,1]]]"#, r#""layers":[]"#),
        3,
        "refused circuit depth 0\n",
    ),
    (
        ONE,
        (
            r#""layers":[[[1,0,1]]]"#,
            r#""layers":[[[1,0,1],[1,0,1],[1,0,1]]]"#,
        ),
        3,
        "refused circuit width layer 0 len 3\n",
    ),
    (
        ONE,
        (r#""layers":[[[1,0,1]]]"#, r#""layers":[[[1,0,1]],[]]"#),
        3,
        "refused circuit width layer 1 len 0\n",
    ),
    (
        ONE,
        (r#""inputs":[3,5]"#, r#""inputs":[3,5,6]"#),
        3,
        "refused circuit width layer 1 len 3\n",
    ),
    (
        ONE,
        (
            r#""layers":[[[1,0,1]]]"#,
            r#""layers":[[[1,0,1]],[[1,0,1],[0,2,1]]]"#,
        ),
        3,
        "refused circuit wire layer 1 gate 1\n",
    ),
    (
        ONE,
        (
            r#""layers":[[[1,0,1]]]"#,
            r#""layers":[[[1,0,1]],[[1,0,1]]]"#,
        ),
        3,
        "refused circuit wire layer 0 gate 0\n",
    ),
    // the layers come before the outputs, and those before the difficulty
    (
        ONE,
        (r#""outputs":[15]"#, r#""outputs":[]"#),
        3,
        "refused circuit outputs expected 1 actual 0\n",
    ),
    (
        ONE,
        (r#""bits":0,"#, r#""bits":17,"#),
        3,
        "refused job-shape difficulty 17 bound 16\n",
    ),
    // a proof of no layer, and of two
    (
        ONE,
        (BUILD, r#"{"check":{"layers":[]}}"#),
        4,
        "proof refused layers expected 1 actual 0\n",
    ),
    (
        ONE,
        (
            BUILD,
            r#"{"check":{"layers":[{"rounds":[[15,65502],[0,65439]],
            "witnesses":[],"left":7,"right":9},
            {"rounds":[[15,65502],[0,65439]],
            "witnesses":[],"left":7,"right":9}]}}"#,
        ),
        4,
        "proof refused layers expected 1 actual 2\n",
    ),
    // a layer of one round, with a witness, and with a round of one value
    (
        ONE,
        (
            BUILD,
            r#"{"check":{"layers":[{"rounds":[[15,65502]],
            "witnesses":[],"left":7,"right":9}]}}"#,
        ),
        4,
        "proof refused layer 0 rounds expected 2 actual 1\n",
    ),
    (
        ONE,
        (
            BUILD,
            r#"{"check":{"layers":[{"rounds":[[15,65502],[0,65439]],
            "witnesses":[0],"left":7,"right":9}]}}"#,
        ),
        4,
        "proof refused layer 0 witnesses expected 0 actual 1\n",
    ),
    (
        ONE,
        (
            BUILD,
            r#"{"check":{"layers":[{"rounds":[[15,65502],[0]],
            "witnesses":[],"left":7,"right":9}]}}"#,
        ),
        4,
        "proof refused layer 0 width round 1 expected 2 actual 1\n",
    ),
    // gates and values that are none
    (
        ONE,
        (r#""layers":[[[1,0,1]]]"#, r#""layers":[[[2,0,1]]]"#),
        3,
        "refused bad-job layers\n",
    ),
    (
        ONE,
        (r#""layers":[[[1,0,1]]]"#, r#""layers":[[[1,0]]]"#),
        3,
        "refused bad-job layers\n",
    ),
    (
        ONE,
        (r#""layers":[[[1,0,1]]]"#, r#""layers":[[[1,0,1,1]]]"#),
        3,
        "refused bad-job layers\n",
    ),
    (
        ONE,
        (r#""layers":[[[1,0,1]]]"#, r#""layers":[[1,0,1]]"#),
        3,
        "refused bad-job layers\n",
    ),
    (
        ONE,
        (r#""inputs":[3,5]"#, r#""inputs":[3,65537]"#),
        3,
        "refused bad-job inputs\n",
    ),
    (
        ONE,
        (r#""outputs":[15]"#, r#""outputs":[65537]"#),
        3,
        "refused bad-job outputs\n",
    ),
    (
        ONE,
        (r#""outputs""#, r#""output""#),
        3,
        "refused bad-job outputs\n",
    ),
    (ONE, (BUILD, r#""plain""#), 3, "refused bad-job mode\n"),
    (
        ONE,
        (
            BUILD,
            r#"{"check":{"layers":[{"rounds":[[15,65502],[0,65439]],
            "witnesses":[],"left":65537,"right":9}]}}"#,
        ),
        3,
        "refused bad-job mode\n",
    ),
];

// Proofs of false outputs.
static FALSE: [Case; 5] = [
    // the powers of the first challenge sum two false outputs as the true ones
    (
        r#"{"field":"65537","challenger":{"draws":[2,3,4,5],"witnesses":[]},"bits":0,
            "inputs":[3,5],"layers":[[[1,0,1],[0,0,1]]],"outputs":[17,7],
            "mode":{"check":{"layers":[{"rounds":[[31,65478],[0,65157]],
            "witnesses":[],"left":9,"right":11}]}}}"#,
        1,
        "claim 31
layer 0 round 0: 31 65478 challenge 3
layer 0 round 1: 0 65157 challenge 4
layer 0 left 9 right 11 merge 5
input 64
verdict lucky-merge layer 0 vanishing 1 poly 2 65536
",
    ),
    // the challenge that merges the two values below makes them a true claim on the inputs
    (
        r#"{"field":"65537","challenger":{"draws":[1,3,3,3],"witnesses":[]},"bits":0,
            "inputs":[1,2],"layers":[[[1,0,1]]],"outputs":[4],
            "mode":{"check":{"layers":[{"rounds":[[2,65531],[0,65489]],
            "witnesses":[],"left":13,"right":1}]}}}"#,
        1,
        "claim 4
layer 0 round 0: 2 65531 challenge 3
layer 0 round 1: 0 65489 challenge 3
layer 0 left 13 right 1 merge 3
input 16
verdict lucky-merge layer 1 vanishing 1 poly 9 65534
",
    ),
    // a round makes a false claim true
    (
        r#"{"field":"65537","challenger":{"draws":[1,2,3,4],"witnesses":[]},"bits":0,
            "inputs":[3,5],"layers":[[[1,0,1]]],"outputs":[16],
            "mode":{"check":{"layers":[{"rounds":[[15,65502],[0,65439]],
            "witnesses":[],"left":7,"right":9}]}}}"#,
        1,
        "claim 16
layer 0 round 0: 15 65502 challenge 2
layer 0 round 1: 0 65439 challenge 3
layer 0 left 7 right 9 merge 4
input 43
verdict lucky-round layer 0 round 0 vanishing 2 poly 0 2 65536
",
    ),
    // a witness does not pass
    (
        r#"{"field":"65537","challenger":{"draws":[1,2,3,4],"witnesses":[[5,9],[6]]},"bits":3,
            "inputs":[3,5],"layers":[[[1,0,1]]],"outputs":[16],
            "mode":{"check":{"layers":[{"rounds":[[15,65502],[0,65439]],
            "witnesses":[9,5],"left":7,"right":9}]}}}"#,
        4,
        "proof refused layer 0 witness round 1 bits 3\n",
    ),
    // it does not under another challenge: the last value does not agree
    (
        r#"{"field":"65537","challenger":{"draws":[1,5,3,4],"witnesses":[]},"bits":0,
            "inputs":[3,5],"layers":[[[1,0,1]]],"outputs":[16],
            "mode":{"check":{"layers":[{"rounds":[[15,65502],[0,65439]],
            "witnesses":[],"left":7,"right":9}]}}}"#,
        1,
        "claim 16
layer 0 round 0: 15 65502 challenge 5
layer 0 round 1: 0 65439 challenge 3
layer 0 left 7 right 9 merge 4
input 43
verdict refuted layer 0
",
    ),
];

#[test]
fn claimed_outputs(rt: HostRuntime) {
    for (job, code, text) in &WHOLE {
        assert_command(&rt, rt.alloc(), "circuit", *job, *code, *text);
    }
}

#[test]
fn a_change_of_the_product_of_two_inputs(rt: HostRuntime) {
    for (job, (part, other), code, text) in &CHANGED {
        let changed = change(&rt, rt.alloc(), *job, *part, *other);
        assert_command(&rt, rt.alloc(), "circuit", &changed, *code, *text);
    }
}

#[test]
fn false_outputs(rt: HostRuntime) {
    for (job, code, text) in &FALSE {
        assert_command(&rt, rt.alloc(), "circuit", *job, *code, *text);
    }
}
