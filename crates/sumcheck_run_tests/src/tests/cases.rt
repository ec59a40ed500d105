//! Jobs, their changes, and their answers.
use super::jobs::{
    CUBE, FALSE, FIRST, FIRST_TEXT, GROUPS, NO_VARIABLE, NO_VARIABLE_TEXT, PLAIN, SECOND_FALSE,
    SUFFIX, SUFFIX_CUBE, SUFFIX_TEXT, THREE,
};
use super::{Case, Changed};

pub(super) static ALONE: [Case; 1] = [(FIRST, 0, FIRST_TEXT)];

// Other jobs as they are, and texts that are none.
pub(super) static WHOLE: [Case; 11] = [
    (NO_VARIABLE, 0, NO_VARIABLE_TEXT),
    (
        GROUPS,
        0,
        "claim 7\nround 0: 1 2 challenge 5\nresidual 66\neval 6\nweight 11\nverdict holds\n",
    ),
    (
        THREE,
        0,
        "claim 34\nround 0: 65529 29 challenge 5\nresidual 822\neval 6\nweight 137\nverdict holds\n",
    ),
    (FALSE, 3, "refused false-claim 0 claimed 5 true 1\n"),
    (SECOND_FALSE, 3, "refused false-claim 1 claimed 5 true 1\n"),
    ("", 3, "refused bad-json\n"),
    ("{", 3, "refused bad-json\n"),
    ("[] []", 3, "refused bad-json\n"),
    ("[]", 3, "refused bad-job job\n"),
    ("7", 3, "refused bad-job job\n"),
    ("{}", 3, "refused bad-job field\n"),
];

// Proofs in the place of the build.
pub(super) static CHECKS: [Changed; 8] = [
    (
        FIRST,
        (
            PLAIN,
            r#"{"check":{"rounds":[[2,65535],[0,65535]],"witnesses":[]}}"#,
        ),
        0,
        FIRST_TEXT,
    ),
    (
        FIRST,
        (
            PLAIN,
            r#"{"check":{"rounds":[[2,65535],[0,65535]],"witnesses":[],"more":1}}"#,
        ),
        0,
        FIRST_TEXT,
    ),
    (
        FIRST,
        (PLAIN, r#"{"check":null}"#),
        4,
        "proof refused missing 2\n",
    ),
    (
        FIRST,
        (PLAIN, r#"{"check":{"rounds":[],"witnesses":[]}}"#),
        4,
        "proof refused rounds expected 2 actual 0\n",
    ),
    (
        FIRST,
        (PLAIN, r#"{"check":{"rounds":[[2,65535]],"witnesses":[]}}"#),
        4,
        "proof refused rounds expected 2 actual 1\n",
    ),
    (
        FIRST,
        (PLAIN, r#"{"check":{"rounds":[[2,65535]],"witnesses":[9]}}"#),
        4,
        "proof refused rounds expected 2 actual 1\n",
    ),
    (
        FIRST,
        (
            PLAIN,
            r#"{"check":{"rounds":[[2,65535],[0,65535]],"witnesses":[9]}}"#,
        ),
        4,
        "proof refused witnesses expected 0 actual 1\n",
    ),
    // the rounds of suffix order
    (
        FIRST,
        (
            PLAIN,
            r#"{"check":{"rounds":[[0,1],[12,65531]],"witnesses":[]}}"#,
        ),
        1,
        "claim 2\nround 0: 0 1 challenge 3\nround 1: 12 65531 challenge 4\nresidual 65429\neval 11\nweight 65529\nverdict refuted\n",
    ),
];

pub(super) static SUFFIX_MODES: [Changed; 9] = [
    (SUFFIX, ("MODE", PLAIN), 0, SUFFIX_TEXT),
    (
        SUFFIX,
        (
            "MODE",
            r#"{"check":{"rounds":[[0,1],[12,65531]],"witnesses":[]}}"#,
        ),
        0,
        SUFFIX_TEXT,
    ),
    // one value changed by one
    (
        SUFFIX,
        (
            "MODE",
            r#"{"check":{"rounds":[[0,2],[12,65531]],"witnesses":[]}}"#,
        ),
        1,
        "claim 2\nround 0: 0 2 challenge 3\nround 1: 12 65531 challenge 4\nresidual 65453\neval 12\nweight 65528\nverdict refuted\n",
    ),
    (
        SUFFIX,
        (
            "MODE",
            r#"{"check":{"rounds":[[1,1],[12,65531]],"witnesses":[]}}"#,
        ),
        1,
        "claim 2\nround 0: 1 1 challenge 3\nround 1: 12 65531 challenge 4\nresidual 65409\neval 12\nweight 65528\nverdict refuted\n",
    ),
    (
        SUFFIX,
        (
            "MODE",
            r#"{"check":{"rounds":[[0,1],[12,65530]],"witnesses":[]}}"#,
        ),
        1,
        "claim 2\nround 0: 0 1 challenge 3\nround 1: 12 65530 challenge 4\nresidual 65417\neval 12\nweight 65528\nverdict refuted\n",
    ),
    // the rounds of prefix order
    (
        SUFFIX,
        (
            "MODE",
            r#"{"check":{"rounds":[[2,65535],[0,65535]],"witnesses":[]}}"#,
        ),
        1,
        "claim 2\nround 0: 2 65535 challenge 3\nround 1: 0 65535 challenge 4\nresidual 65449\neval 12\nweight 65528\nverdict refuted\n",
    ),
    (
        SUFFIX,
        ("MODE", r#"{"check":null}"#),
        4,
        "proof refused missing 2\n",
    ),
    (
        SUFFIX,
        ("MODE", r#"{"check":{"rounds":[[0,1]],"witnesses":[]}}"#),
        4,
        "proof refused rounds expected 2 actual 1\n",
    ),
    (
        SUFFIX,
        (
            "MODE",
            r#"{"check":{"rounds":[[0,1],[12,65531]],"witnesses":[9]}}"#,
        ),
        4,
        "proof refused witnesses expected 0 actual 1\n",
    ),
];

// Changes that say the same.
pub(super) static SAME: [Changed; 10] = [
    // the last of two members counts
    (
        FIRST,
        (
            r#""order":"prefix""#,
            r#""order":"suffix","order":"prefix""#,
        ),
        0,
        FIRST_TEXT,
    ),
    (
        FIRST,
        (r#""table""#, r#""table":[9],"table""#),
        0,
        FIRST_TEXT,
    ),
    (
        FIRST,
        (r#""value":2"#, r#""value":5,"value":2"#),
        0,
        FIRST_TEXT,
    ),
    // other members are not looked at
    (
        FIRST,
        (r#""bits""#, r#""bases":"monomial","bits""#),
        0,
        FIRST_TEXT,
    ),
    (
        FIRST,
        (r#""bits""#, r#""bases":[],"other":{"field":"16"},"bits""#),
        0,
        FIRST_TEXT,
    ),
    (
        FIRST,
        (r#""kind""#, r#""number":1.5,"kind""#),
        0,
        FIRST_TEXT,
    ),
    (
        FIRST,
        (r#""build""#, r#""checks":null,"build""#),
        0,
        FIRST_TEXT,
    ),
    // no test is made of a witness
    (
        FIRST,
        (r#""witnesses":[]"#, r#""witnesses":[[1],[]]"#),
        0,
        FIRST_TEXT,
    ),
    // integers modulo 65537 represent themselves
    (FIRST, (r#""plain""#, r#""represented""#), 0, FIRST_TEXT),
    (FIRST, (r#"{"field""#, "\r\n\t { \"field\""), 0, FIRST_TEXT),
];

// Without variables no proof is needed.
pub(super) static NO_PROOF: [Changed; 3] = [
    (
        NO_VARIABLE,
        (PLAIN, r#"{"check":null}"#),
        0,
        NO_VARIABLE_TEXT,
    ),
    (
        NO_VARIABLE,
        (PLAIN, r#"{"check":{"rounds":[],"witnesses":[]}}"#),
        0,
        NO_VARIABLE_TEXT,
    ),
    (
        NO_VARIABLE,
        (PLAIN, r#"{"check":{"rounds":[[1,2]],"witnesses":[]}}"#),
        4,
        "proof refused rounds expected 0 actual 1\n",
    ),
];

// The first 50 bytes of the first job.
pub(super) static PART: [Case; 1] = [(
    r#"{"field":"65537","challenger":{"draws":[3,4],"witn"#,
    3,
    "refused bad-json\n",
)];

// Two members of one name.
pub(super) static LAST_OF_TWO: [Changed; 2] = [
    (
        FIRST,
        (r#""prefix""#, r#""prefix","order":"suffix""#),
        0,
        SUFFIX_TEXT,
    ),
    (
        FIRST,
        (r#""prefix""#, r#""prefix","order":"infix""#),
        3,
        "refused bad-job order\n",
    ),
];

// The value of the last claim on three variables, and a false one.
pub(super) static CUBES: [Changed; 2] = [
    (
        CUBE,
        ("VALUE", "51"),
        0,
        "claim 2563\nround 0: 932 5196 challenge 10\nround 1: 33642 45000 challenge 20\nround 2: 8166 54 challenge 65536\nresidual 22686\neval 64542\nweight 26192\nverdict holds\n",
    ),
    (
        CUBE,
        ("VALUE", "0"),
        3,
        "refused false-claim 2 claimed 0 true 51\n",
    ),
];

// The same in suffix order.
pub(super) static SUFFIX_CUBES: [Changed; 2] = [
    (
        SUFFIX_CUBE,
        ("VALUE", "51"),
        0,
        "claim 2563\nround 0: 2744 5758 challenge 10\nround 1: 18872 63330 challenge 20\nround 2: 50204 19120 challenge 65536\nresidual 55828\neval 65158\nweight 53804\nverdict holds\n",
    ),
    (
        SUFFIX_CUBE,
        ("VALUE", "0"),
        3,
        "refused false-claim 2 claimed 0 true 51\n",
    ),
];
