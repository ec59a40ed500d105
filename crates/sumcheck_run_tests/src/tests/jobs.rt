//! Jobs with their answers, for whole runs.

pub(super) const FIRST: &str =
    r#"{"field":"65537","challenger":{"draws":[3,4],"witnesses":[]},"order":"prefix","bits":0,"table":[1,2,3,4],"variables":2,"groups":[{"kind":"eq","claims":[{"point":[0,1],"value":2}]}],"batching":1,"mode":{"build":"plain"}}"#;

// The challenger of the first job.
pub(super) const SCRIPT: &str = r#"{"draws":[3,4],"witnesses":[]}"#;

pub(super) const FIRST_TEXT: &str =
    "claim 2\nround 0: 2 65535 challenge 3\nround 1: 0 65535 challenge 4\nresidual 65449\neval 11\nweight 65529\nverdict holds\n";

// The report on the first job in suffix order.
pub(super) const SUFFIX_TEXT: &str =
    "claim 2\nround 0: 0 1 challenge 3\nround 1: 12 65531 challenge 4\nresidual 65429\neval 12\nweight 65528\nverdict holds\n";

// A table of one variable, with an equality at (0) that is claimed 5 and is 1.
pub(super) const FALSE: &str =
    r#"{"field":"65537","challenger":{"draws":[2],"witnesses":[]},"order":"prefix","bits":0,"table":[1,2],"variables":1,"groups":[{"kind":"eq","claims":[{"point":[0],"value":5}]}],"batching":1,"mode":{"build":"plain"}}"#;

// The same after a claim that is true.
pub(super) const SECOND_FALSE: &str =
    r#"{"field":"65537","challenger":{"draws":[2],"witnesses":[]},"order":"prefix","bits":0,"table":[1,2],"variables":1,"groups":[{"kind":"eq","claims":[{"point":[1],"value":2},{"point":[0],"value":5}]}],"batching":1,"mode":{"build":"plain"}}"#;

pub(super) const NO_VARIABLE: &str =
    r#"{"field":"65537","challenger":{"draws":[],"witnesses":[]},"order":"prefix","bits":0,"table":[7],"variables":0,"groups":[{"kind":"eq","claims":[{"point":[],"value":7}]}],"batching":1,"mode":{"build":"plain"}}"#;

// Two claims, with a group of no claims between theirs.
pub(super) const GROUPS: &str =
    r#"{"field":"65537","challenger":{"draws":[5],"witnesses":[]},"order":"prefix","bits":0,"table":[1,2],"variables":1,"groups":[{"kind":"eq","claims":[{"point":[0],"value":1}]},{"kind":"eq","claims":[]},{"kind":"eq","claims":[{"point":[1],"value":2}]}],"batching":3,"mode":{"build":"plain"}}"#;

// Three claims, of the coefficients 1, 3 and 9.
pub(super) const THREE: &str =
    r#"{"field":"65537","challenger":{"draws":[5],"witnesses":[]},"order":"prefix","bits":0,"table":[1,2],"variables":1,"groups":[{"kind":"eq","claims":[{"point":[0],"value":1},{"point":[1],"value":2},{"point":[2],"value":3}]}],"batching":3,"mode":{"build":"plain"}}"#;

// Three variables, and points outside the cube.
pub(super) const CUBE: &str =
    r#"{"field":"65537","challenger":{"draws":[10,20,65536],"witnesses":[]},"order":"prefix","bits":0,"table":[3,1,4,1,5,9,2,6],"variables":3,"groups":[{"kind":"eq","claims":[{"point":[0,1,1],"value":1},{"point":[1,0,1],"value":9},{"point":[2,3,5],"value":VALUE}]}],"batching":7,"mode":{"build":"plain"}}"#;

// The false claim, with a proof of one round; DRAW is its challenge.
pub(super) const LUCKY: &str =
    r#"{"field":"65537","challenger":{"draws":[DRAW],"witnesses":[]},"order":"prefix","bits":0,"table":[1,2],"variables":1,"groups":[{"kind":"eq","claims":[{"point":[0],"value":5}]}],"batching":1,"mode":{"check":{"rounds":[[5,1]],"witnesses":[]}}}"#;

// Two false claims whose batch is true, with the rounds of an honest prover.
pub(super) const LUCKY_BATCH: &str =
    r#"{"field":"65537","challenger":{"draws":[5],"witnesses":[]},"order":"prefix","bits":0,"table":[1,2],"variables":1,"groups":[{"kind":"eq","claims":[{"point":[0],"value":4},{"point":[1],"value":1}]}],"batching":3,"mode":{"check":{"rounds":[[1,2]],"witnesses":[]}}}"#;

// What is done in each of these jobs that is not a check.
pub(super) const PLAIN: &str = r#"{"build":"plain"}"#;

// The report on the job without variables.
pub(super) const NO_VARIABLE_TEXT: &str = "claim 7\nresidual 7\neval 7\nweight 1\nverdict holds\n";

// The first job in suffix order; MODE is what is done.
pub(super) const SUFFIX: &str =
    r#"{"field":"65537","challenger":{"draws":[3,4],"witnesses":[]},"order":"suffix","bits":0,"table":[1,2,3,4],"variables":2,"groups":[{"kind":"eq","claims":[{"point":[0,1],"value":2}]}],"batching":1,"mode":MODE}"#;

// The first job under a challenger, in an order, at a difficulty.
pub(super) const DIFFICULT: &str =
    r#"{"field":"65537","challenger":CHALLENGER,"order":"ORDER","bits":BITS,"table":[1,2,3,4],"variables":2,"groups":[{"kind":"eq","claims":[{"point":[0,1],"value":2}]}],"batching":1,"mode":MODE}"#;

// The job without variables at a difficulty.
pub(super) const NO_ROUND: &str =
    r#"{"field":"65537","challenger":{"draws":[],"witnesses":[]},"order":"prefix","bits":3,"table":[7],"variables":0,"groups":[{"kind":"eq","claims":[{"point":[],"value":7}]}],"batching":1,"mode":MODE}"#;

// The job of three variables in suffix order.
pub(super) const SUFFIX_CUBE: &str =
    r#"{"field":"65537","challenger":{"draws":[10,20,65536],"witnesses":[]},"order":"suffix","bits":0,"table":[3,1,4,1,5,9,2,6],"variables":3,"groups":[{"kind":"eq","claims":[{"point":[0,1,1],"value":1},{"point":[1,0,1],"value":9},{"point":[2,3,5],"value":VALUE}]}],"batching":7,"mode":{"build":"plain"}}"#;

// A job without variables, with so many claims at points, and after them at scalars.
pub(super) const MANY: &str =
    r#"{"field":"65537","challenger":{"draws":[],"witnesses":[]},"order":"prefix","bits":0,"table":[7],"variables":0,"groups":[{"kind":"eq","claims":[POINTS]},{"kind":"select","scalars":[SCALARS]}],"batching":1,"mode":{"build":"plain"}}"#;
