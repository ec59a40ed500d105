//! Jobs under other draws, at a difficulty, and under the hash challenger.
use super::jobs::{FIRST, LUCKY, LUCKY_BATCH, NO_ROUND, NO_VARIABLE_TEXT, PLAIN};
use super::{Case, Changed, Difficulty};

pub(super) static DIFFICULTIES: [Difficulty; 15] = [
    (
        r#"{"draws":[3,4],"witnesses":[]}"#,
        "prefix",
        "1",
        PLAIN,
        5,
        "no witness round 0\n",
    ),
    (
        r#"{"draws":[3,4],"witnesses":[[],[6]]}"#,
        "prefix",
        "1",
        PLAIN,
        5,
        "no witness round 0\n",
    ),
    (
        r#"{"draws":[3,4],"witnesses":[[5,9]]}"#,
        "prefix",
        "1",
        PLAIN,
        5,
        "no witness round 1\n",
    ),
    (
        r#"{"draws":[3,4],"witnesses":[[5,9],[6]]}"#,
        "prefix",
        "1",
        PLAIN,
        0,
        "claim 2\nround 0: 2 65535 witness 5 challenge 3\nround 1: 0 65535 witness 6 challenge 4\nresidual 65449\neval 11\nweight 65529\nverdict holds\n",
    ),
    // the least witness, and not the first of the list
    (
        r#"{"draws":[3,4],"witnesses":[[9,5,7],[6,65536],[1]]}"#,
        "prefix",
        "16",
        PLAIN,
        0,
        "claim 2\nround 0: 2 65535 witness 5 challenge 3\nround 1: 0 65535 witness 6 challenge 4\nresidual 65449\neval 11\nweight 65529\nverdict holds\n",
    ),
    // the first element and the last
    (
        r#"{"draws":[3,4],"witnesses":[[0],[65536]]}"#,
        "prefix",
        "1",
        PLAIN,
        0,
        "claim 2\nround 0: 2 65535 witness 0 challenge 3\nround 1: 0 65535 witness 65536 challenge 4\nresidual 65449\neval 11\nweight 65529\nverdict holds\n",
    ),
    (
        r#"{"draws":[3,4],"witnesses":[[5],[7]]}"#,
        "prefix",
        "1",
        r#"{"check":{"rounds":[[2,65535],[0,65535]],"witnesses":[5,7]}}"#,
        0,
        "claim 2\nround 0: 2 65535 witness 5 challenge 3\nround 1: 0 65535 witness 7 challenge 4\nresidual 65449\neval 11\nweight 65529\nverdict holds\n",
    ),
    // a witness of a proof need not be the least
    (
        r#"{"draws":[3,4],"witnesses":[[4,5],[7,6]]}"#,
        "prefix",
        "1",
        r#"{"check":{"rounds":[[2,65535],[0,65535]],"witnesses":[5,7]}}"#,
        0,
        "claim 2\nround 0: 2 65535 witness 5 challenge 3\nround 1: 0 65535 witness 7 challenge 4\nresidual 65449\neval 11\nweight 65529\nverdict holds\n",
    ),
    (
        r#"{"draws":[3,4],"witnesses":[[5],[7]]}"#,
        "prefix",
        "1",
        r#"{"check":{"rounds":[[2,65535],[0,65535]],"witnesses":[5,6]}}"#,
        4,
        "proof refused witness round 1 bits 1\n",
    ),
    (
        r#"{"draws":[3,4],"witnesses":[[5],[7]]}"#,
        "prefix",
        "16",
        r#"{"check":{"rounds":[[2,65535],[0,65535]],"witnesses":[6,7]}}"#,
        4,
        "proof refused witness round 0 bits 16\n",
    ),
    (
        r#"{"draws":[3,4],"witnesses":[[5],[7]]}"#,
        "prefix",
        "1",
        r#"{"check":{"rounds":[[2,65535],[0,65535]],"witnesses":[]}}"#,
        4,
        "proof refused witnesses expected 2 actual 0\n",
    ),
    (
        r#"{"draws":[3,4],"witnesses":[[5],[7]]}"#,
        "prefix",
        "1",
        r#"{"check":{"rounds":[[2,65535],[0,65535]],"witnesses":[5]}}"#,
        4,
        "proof refused witnesses expected 2 actual 1\n",
    ),
    (
        r#"{"draws":[3,4],"witnesses":[[5],[7]]}"#,
        "prefix",
        "1",
        r#"{"check":{"rounds":[[2,65535],[0,65535]],"witnesses":[5,7,7]}}"#,
        4,
        "proof refused witnesses expected 2 actual 3\n",
    ),
    (
        r#"{"draws":[3,4],"witnesses":[[5],[7]]}"#,
        "prefix",
        "1",
        r#"{"check":null}"#,
        4,
        "proof refused missing 2\n",
    ),
    // the rounds of suffix order
    (
        r#"{"draws":[3,4],"witnesses":[[5],[7]]}"#,
        "prefix",
        "1",
        r#"{"check":{"rounds":[[0,1],[12,65531]],"witnesses":[5,7]}}"#,
        1,
        "claim 2\nround 0: 0 1 witness 5 challenge 3\nround 1: 12 65531 witness 7 challenge 4\nresidual 65429\neval 11\nweight 65529\nverdict refuted\n",
    ),
];

// A difficulty without rounds.
pub(super) static NO_ROUNDS: [Changed; 4] = [
    (NO_ROUND, ("MODE", PLAIN), 0, NO_VARIABLE_TEXT),
    (NO_ROUND, ("MODE", r#"{"check":null}"#), 0, NO_VARIABLE_TEXT),
    (
        NO_ROUND,
        ("MODE", r#"{"check":{"rounds":[],"witnesses":[]}}"#),
        0,
        NO_VARIABLE_TEXT,
    ),
    (
        NO_ROUND,
        ("MODE", r#"{"check":{"rounds":[],"witnesses":[5]}}"#),
        4,
        "proof refused witnesses expected 0 actual 1\n",
    ),
];

// The reports on the first job under the hash challenger.
const PREFIX_HASH_TEXT: &str =
    "claim 2\nround 0: 2 65535 challenge 50194\nround 1: 0 15344 challenge 49095\nresidual 8943\neval 18410\nweight 31402\nverdict holds\n";

const PREFIX_WITNESS_TEXT: &str =
    "claim 2\nround 0: 2 65535 witness 23 challenge 1344\nround 1: 0 64194 witness 10 challenge 46150\nresidual 12103\neval 48839\nweight 18552\nverdict holds\n";

const SUFFIX_HASH_TEXT: &str =
    "claim 2\nround 0: 0 1 challenge 32017\nround 1: 56089 1503 challenge 20558\nresidual 63656\neval 7597\nweight 14622\nverdict holds\n";

const SUFFIX_WITNESS_TEXT: &str =
    "claim 2\nround 0: 0 1 witness 5 challenge 6021\nround 1: 16501 53495 witness 28 challenge 14323\nresidual 48624\neval 34668\nweight 13930\nverdict holds\n";

// That job, built, and with a proof of the rounds that are printed.
pub(super) static HASHES: [Difficulty; 8] = [
    (r#""hash""#, "prefix", "0", PLAIN, 0, PREFIX_HASH_TEXT),
    (
        r#""hash""#,
        "prefix",
        "0",
        r#"{"check":{"rounds":[[2,65535],[0,15344]],"witnesses":[]}}"#,
        0,
        PREFIX_HASH_TEXT,
    ),
    (r#""hash""#, "prefix", "4", PLAIN, 0, PREFIX_WITNESS_TEXT),
    (
        r#""hash""#,
        "prefix",
        "4",
        r#"{"check":{"rounds":[[2,65535],[0,64194]],"witnesses":[23,10]}}"#,
        0,
        PREFIX_WITNESS_TEXT,
    ),
    (r#""hash""#, "suffix", "0", PLAIN, 0, SUFFIX_HASH_TEXT),
    (
        r#""hash""#,
        "suffix",
        "0",
        r#"{"check":{"rounds":[[0,1],[56089,1503]],"witnesses":[]}}"#,
        0,
        SUFFIX_HASH_TEXT,
    ),
    (r#""hash""#, "suffix", "4", PLAIN, 0, SUFFIX_WITNESS_TEXT),
    (
        r#""hash""#,
        "suffix",
        "4",
        r#"{"check":{"rounds":[[0,1],[16501,53495]],"witnesses":[5,28]}}"#,
        0,
        SUFFIX_WITNESS_TEXT,
    ),
];

// A false claim under a draw, and under a lucky one.
pub(super) static DRAWS_OF_A_FALSE_CLAIM: [Changed; 2] = [
    (
        LUCKY,
        ("DRAW", "3"),
        1,
        "claim 5\nround 0: 5 1 challenge 3\nresidual 65533\neval 4\nweight 65535\nverdict refuted\n",
    ),
    (
        LUCKY,
        ("DRAW", "2"),
        1,
        "claim 5
round 0: 5 1 challenge 2
residual 65534
eval 3
weight 65536
verdict lucky-round 0 vanishing 2 poly 4 65531 2
",
    ),
];

pub(super) static BATCH: [Case; 1] = [(
    LUCKY_BATCH,
    1,
    "claim 7
round 0: 1 2 challenge 5
residual 66
eval 6
weight 11
verdict lucky-batch vanishing 1 poly 3 65536
",
)];

// Lists of fewer draws than rounds.
pub(super) static FEW_DRAWS: [Changed; 2] = [
    (
        FIRST,
        ("[3,4]", "[3]"),
        0,
        "claim 2\nround 0: 2 65535 challenge 3\nround 1: 0 65535 challenge 0\nresidual 0\neval 7\nweight 0\nverdict holds\n",
    ),
    (
        FIRST,
        ("[3,4]", "[]"),
        0,
        "claim 2\nround 0: 2 65535 challenge 0\nround 1: 0 1 challenge 0\nresidual 0\neval 1\nweight 0\nverdict holds\n",
    ),
];
