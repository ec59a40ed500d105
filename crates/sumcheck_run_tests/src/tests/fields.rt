// Whole runs over the other fields. The texts are those of a program apart, which sums over all rows and has the fields by their definitions.
use super::{Case, Refusal, assert_cases, assert_refused};

// Jobs over the field of 16 elements.
static SIXTEEN: [Case; 8] = [
    // 16 elements
    (
        r#"{"field":"16","challenger":{"draws":[2,4],"witnesses":[]},"order":"prefix","bits":0,"table":[1,2,3,4],"variables":2,"groups":[{"kind":"eq","claims":[{"point":[0,1],"value":2}]}],"batching":1,"mode":{"build":"plain"}}"#,
        0,
        "claim 2\nround 0: 2 6 challenge 2\nround 1: 0 6 challenge 4\nresidual 1\neval 5\nweight 12\nverdict holds\n",
    ),
    // the same in the other form of the field
    (
        r#"{"field":"16","challenger":{"draws":[2,4],"witnesses":[]},"order":"prefix","bits":0,"table":[1,2,3,4],"variables":2,"groups":[{"kind":"eq","claims":[{"point":[0,1],"value":2}]}],"batching":1,"mode":{"build":"represented"}}"#,
        0,
        "claim 2\nround 0: 2 6 challenge 2\nround 1: 0 6 challenge 4\nresidual 1\neval 5\nweight 12\nverdict holds\n",
    ),
    // rounds from the last variable on
    (
        r#"{"field":"16","challenger":{"draws":[2,4],"witnesses":[]},"order":"suffix","bits":0,"table":[1,2,3,4],"variables":2,"groups":[{"kind":"eq","claims":[{"point":[0,1],"value":2}]}],"batching":1,"mode":{"build":"represented"}}"#,
        0,
        "claim 2\nround 0: 0 3 challenge 2\nround 1: 0 15 challenge 4\nresidual 5\neval 3\nweight 10\nverdict holds\n",
    ),
    // statements of every kind, represented, under the hash challenger with a test of two bits
    (
        r#"{"field":"16","challenger":"hash","order":"suffix","bits":2,"table":[10,4,12,1,2,3,11,1],"variables":3,"groups":[{"kind":"eq","claims":[{"point":[6,1,2],"value":8}]},{"kind":"next","claims":[{"selector":[13],"point":[13,2],"order":"suffix","value":13}]},{"kind":"select","scalars":[{"at":7,"value":1}]},{"kind":"select","points":[{"at":[2,13,1],"value":10}]}],"batching":3,"mode":{"build":"represented"}}"#,
        0,
        "claim 11\nround 0: 2 1 witness 0 challenge 2\nround 1: 1 13 witness 0 challenge 13\nround 2: 6 0 witness 0 challenge 13\nresidual 0\neval 0\nweight 14\nverdict holds\n",
    ),
    // and checked
    (
        r#"{"field":"16","challenger":"hash","order":"suffix","bits":2,"table":[10,4,12,1,2,3,11,1],"variables":3,"groups":[{"kind":"eq","claims":[{"point":[6,1,2],"value":8}]},{"kind":"next","claims":[{"selector":[13],"point":[13,2],"order":"suffix","value":13}]},{"kind":"select","scalars":[{"at":7,"value":1}]},{"kind":"select","points":[{"at":[2,13,1],"value":10}]}],"batching":3,"mode":{"check":{"rounds":[[2,1],[1,13],[6,0]],"witnesses":[0,0,0]}}}"#,
        0,
        "claim 11\nround 0: 2 1 witness 0 challenge 2\nround 1: 1 13 witness 0 challenge 13\nround 2: 6 0 witness 0 challenge 13\nresidual 0\neval 0\nweight 14\nverdict holds\n",
    ),
    // with another value in a round
    (
        r#"{"field":"16","challenger":"hash","order":"suffix","bits":0,"table":[10,4,12,1,2,3,11,1],"variables":3,"groups":[{"kind":"eq","claims":[{"point":[6,1,2],"value":8}]},{"kind":"next","claims":[{"selector":[13],"point":[13,2],"order":"suffix","value":13}]},{"kind":"select","scalars":[{"at":7,"value":1}]},{"kind":"select","points":[{"at":[2,13,1],"value":10}]}],"batching":3,"mode":{"check":{"rounds":[[3,1],[1,13],[6,0]],"witnesses":[]}}}"#,
        1,
        "claim 11\nround 0: 3 1 challenge 13\nround 1: 1 13 challenge 6\nround 2: 6 0 challenge 13\nresidual 1\neval 2\nweight 9\nverdict refuted\n",
    ),
    // in a represented build too
    (
        r#"{"field":"16","challenger":{"draws":[2,4],"witnesses":[]},"order":"prefix","bits":0,"table":[1,2,3,4],"variables":2,"groups":[{"kind":"eq","claims":[{"point":[0,1],"value":3}]}],"batching":1,"mode":{"build":"represented"}}"#,
        3,
        "refused false-claim 0 claimed 3 true 2\n",
    ),
    // 16 witnesses, none of 16 bits
    (
        r#"{"field":"16","challenger":"hash","order":"prefix","bits":16,"table":[1,2,3,4],"variables":2,"groups":[{"kind":"eq","claims":[{"point":[0,1],"value":2}]}],"batching":1,"mode":{"build":"plain"}}"#,
        5,
        "no witness round 0\n",
    ),
];

// Jobs over the extension of degree 2 of the integers modulo 257.
static EXTENDED: [Case; 8] = [
    // statements of every kind, represented, under the hash challenger with a test of two bits
    (
        r#"{"field":"257x2","challenger":"hash","order":"suffix","bits":2,"table":[114,31,203,25,113,23,68,148],"variables":3,"groups":[{"kind":"eq","claims":[{"point":[54937,18907,15439],"value":60155}]},{"kind":"next","claims":[{"selector":[40433],"point":[23688,13507],"order":"suffix","value":13250}]},{"kind":"select","scalars":[{"at":96,"value":124}]},{"kind":"select","points":[{"at":[190,49,32],"value":96}]}],"batching":7812,"mode":{"build":"represented"}}"#,
        0,
        "claim 13938\nround 0: 13662 10132 witness 4 challenge 49584\nround 1: 28439 44899 witness 4 challenge 37899\nround 2: 60982 1601 witness 0 challenge 9053\nresidual 60941\neval 7447\nweight 44479\nverdict holds\n",
    ),
    // and checked
    (
        r#"{"field":"257x2","challenger":"hash","order":"suffix","bits":2,"table":[114,31,203,25,113,23,68,148],"variables":3,"groups":[{"kind":"eq","claims":[{"point":[54937,18907,15439],"value":60155}]},{"kind":"next","claims":[{"selector":[40433],"point":[23688,13507],"order":"suffix","value":13250}]},{"kind":"select","scalars":[{"at":96,"value":124}]},{"kind":"select","points":[{"at":[190,49,32],"value":96}]}],"batching":7812,"mode":{"check":{"rounds":[[13662,10132],[28439,44899],[60982,1601]],"witnesses":[4,4,0]}}}"#,
        0,
        "claim 13938\nround 0: 13662 10132 witness 4 challenge 49584\nround 1: 28439 44899 witness 4 challenge 37899\nround 2: 60982 1601 witness 0 challenge 9053\nresidual 60941\neval 7447\nweight 44479\nverdict holds\n",
    ),
    // with another value in a round
    (
        r#"{"field":"257x2","challenger":"hash","order":"suffix","bits":0,"table":[114,31,203,25,113,23,68,148],"variables":3,"groups":[{"kind":"eq","claims":[{"point":[54937,18907,15439],"value":60155}]},{"kind":"next","claims":[{"selector":[40433],"point":[23688,13507],"order":"suffix","value":13250}]},{"kind":"select","scalars":[{"at":96,"value":124}]},{"kind":"select","points":[{"at":[190,49,32],"value":96}]}],"batching":7812,"mode":{"check":{"rounds":[[13663,10132],[28439,44899],[60982,1601]],"witnesses":[]}}}"#,
        1,
        "claim 13938\nround 0: 13663 10132 challenge 39809\nround 1: 28439 44899 challenge 62069\nround 2: 60982 1601 challenge 14215\nresidual 40976\neval 49791\nweight 38974\nverdict refuted\n",
    ),
    // an extension: both parts of each value are observed, and two draws make a challenge
    (
        r#"{"field":"257x2","challenger":{"draws":[2,1],"witnesses":[]},"order":"prefix","bits":0,"table":[1,2],"variables":1,"groups":[{"kind":"eq","claims":[{"point":[257],"value":258}]}],"batching":1,"mode":{"build":"plain"}}"#,
        0,
        "claim 258\nround 0: 65793 770 challenge 259\nresidual 2848\neval 260\nweight 519\nverdict holds\n",
    ),
    // represented by itself
    (
        r#"{"field":"257x2","challenger":{"draws":[2,1],"witnesses":[]},"order":"prefix","bits":0,"table":[1,2],"variables":1,"groups":[{"kind":"eq","claims":[{"point":[257],"value":258}]}],"batching":1,"mode":{"build":"represented"}}"#,
        0,
        "claim 258\nround 0: 65793 770 challenge 259\nresidual 2848\neval 260\nweight 519\nverdict holds\n",
    ),
    // the greatest numbers
    (
        r#"{"field":"257x2","challenger":{"draws":[256,256],"witnesses":[]},"order":"prefix","bits":0,"table":[256,255],"variables":1,"groups":[{"kind":"eq","claims":[{"point":[66048],"value":257}]}],"batching":66048,"mode":{"build":"plain"}}"#,
        0,
        "claim 257\nround 0: 66047 517 challenge 66048\nresidual 2845\neval 257\nweight 1553\nverdict holds\n",
    ),
    // a false claim, as numbers of the extension
    (
        r#"{"field":"257x2","challenger":{"draws":[2,1],"witnesses":[]},"order":"prefix","bits":0,"table":[1,2],"variables":1,"groups":[{"kind":"eq","claims":[{"point":[257],"value":1}]}],"batching":1,"mode":{"build":"plain"}}"#,
        3,
        "refused false-claim 0 claimed 1 true 258\n",
    ),
    // no variables
    (
        r#"{"field":"257x2","challenger":"hash","order":"prefix","bits":0,"table":[7],"variables":0,"groups":[{"kind":"eq","claims":[{"point":[],"value":7}]}],"batching":66000,"mode":{"build":"represented"}}"#,
        0,
        "claim 7\nresidual 7\neval 7\nweight 1\nverdict holds\n",
    ),
];

// A job over the extension of degree 2.
const EXTENSION: &str =
    r#"{"field":"257x2","challenger":{"draws":[2,1],"witnesses":[]},"order":"prefix","bits":0,"table":[1,2],"variables":1,"groups":[{"kind":"eq","claims":[{"point":[257],"value":258}]}],"batching":1,"mode":{"build":"plain"}}"#;

// A part of that job, what stands in its place, and what is refused: numbers that are no elements of their field.
static TOO_LARGE: [Refusal; 10] = [
    // a base number
    ("[1,2]", "[1,257]", "bad-job table"),
    // draws are base numbers
    (
        r#""draws":[2,1]"#,
        r#""draws":[2,257]"#,
        "bad-job challenger",
    ),
    // witnesses too
    (
        r#""witnesses":[]"#,
        r#""witnesses":[[257]]"#,
        "bad-job challenger",
    ),
    // extension numbers
    (r#""point":[257]"#, r#""point":[66049]"#, "bad-job groups"),
    (r#""value":258"#, r#""value":66049"#, "bad-job groups"),
    (r#""batching":1"#, r#""batching":66049"#, "bad-job batching"),
    // a scalar is a base number
    (
        r#"{"kind":"eq","claims":[{"point":[257],"value":258}]}"#,
        r#"{"kind":"select","scalars":[{"at":257,"value":0}]}"#,
        "bad-job groups",
    ),
    // and so is a direct point's coordinate
    (
        r#"{"kind":"eq","claims":[{"point":[257],"value":258}]}"#,
        r#"{"kind":"select","points":[{"at":[257],"value":0}]}"#,
        "bad-job groups",
    ),
    // a round sends extension numbers
    (
        r#"{"build":"plain"}"#,
        r#"{"check":{"rounds":[[66049,0]],"witnesses":[]}}"#,
        "bad-job mode",
    ),
    // and its witness is a base number
    (
        r#"{"build":"plain"}"#,
        r#"{"check":{"rounds":[[66048,0]],"witnesses":[257]}}"#,
        "bad-job mode",
    ),
];

#[test]
fn jobs_over_the_field_of_16_elements(rt: HostRuntime) {
    assert_cases(&rt, rt.alloc(), &SIXTEEN);
}

#[test]
fn jobs_over_an_extension(rt: HostRuntime) {
    assert_cases(&rt, rt.alloc(), &EXTENDED);
}

#[test]
fn numbers_that_are_no_elements(rt: HostRuntime) {
    assert_refused(&rt, rt.alloc(), EXTENSION, &TOO_LARGE);
}
