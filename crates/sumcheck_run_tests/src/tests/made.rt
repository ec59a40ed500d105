// Jobs that are made, and words that make none.
use super::jobs::FIRST;
use super::streams::assert_reads;
use std::alloc::Global;
use std::process::Abort;

// Words, and the report in short.
type Made = (&'static [&'static str], &'static str);

// The report in short on the least table, made of 7.
pub(super) const ONE_TEXT: &str =
    "rows 2\nstatements 2\nclaim 4264\npairs 22026\nresidual 60300\nverdict holds\n";

// The figures are those of a program in another language that goes by the definitions alone: each
// value that a round sends is a sum over all rows of the variables that are left.
static MADE: [Made; 18] = [
    // The values are 599, 44999, 32612, 21105, 10061 and 33742; the claims 64458 and 44999, the
    // weights [32926, 42673], the round's values 61574 and 25989; at the challenge the table is
    // 35116, and the weights are 51534.
    (&["make", "1", "7", "plain"], ONE_TEXT),
    (&["make", "1", "7", "represented"], ONE_TEXT),
    (
        &["make", "1", "0", "plain"],
        "rows 2\nstatements 2\nclaim 15878\npairs 18408\nresidual 10620\nverdict holds\n",
    ),
    // Each value that 65536 begins, which is -1, is -1.
    (
        &["make", "1", "65536", "plain"],
        "rows 2\nstatements 2\nclaim 0\npairs 65535\nresidual 65531\nverdict holds\n",
    ),
    (
        &["make", "2", "7", "plain"],
        "rows 4\nstatements 2\nclaim 1503\npairs 9097\nresidual 53246\nverdict holds\n",
    ),
    (
        &["make", "3", "0", "represented"],
        "rows 8\nstatements 2\nclaim 45390\npairs 27277\nresidual 34\nverdict holds\n",
    ),
    (
        &["make", "4", "12345", "plain"],
        "rows 16\nstatements 2\nclaim 25932\npairs 7167\nresidual 19659\nverdict holds\n",
    ),
    (
        &["make", "5", "7", "plain"],
        "rows 32\nstatements 2\nclaim 34728\npairs 15312\nresidual 32717\nverdict holds\n",
    ),
    (
        &["make", "6", "40000", "plain"],
        "rows 64\nstatements 2\nclaim 60319\npairs 42903\nresidual 2401\nverdict holds\n",
    ),
    (
        &["make", "6", "40000", "represented"],
        "rows 64\nstatements 2\nclaim 60319\npairs 42903\nresidual 2401\nverdict holds\n",
    ),
    (
        &["make", "8", "40000", "plain"],
        "rows 256\nstatements 2\nclaim 53097\npairs 56296\nresidual 43528\nverdict holds\n",
    ),
    (
        &["make", "12", "65535", "represented"],
        "rows 4096\nstatements 2\nclaim 6526\npairs 58366\nresidual 27027\nverdict holds\n",
    ),
    // Small-value rounds, of as many variables as there are and of the first 8: the same reports.
    (&["make", "1", "7", "small-value"], ONE_TEXT),
    (
        &["make", "2", "7", "small-value"],
        "rows 4\nstatements 2\nclaim 1503\npairs 9097\nresidual 53246\nverdict holds\n",
    ),
    (
        &["make", "6", "40000", "small-value"],
        "rows 64\nstatements 2\nclaim 60319\npairs 42903\nresidual 2401\nverdict holds\n",
    ),
    (
        &["make", "8", "40000", "small-value"],
        "rows 256\nstatements 2\nclaim 53097\npairs 56296\nresidual 43528\nverdict holds\n",
    ),
    (
        &["make", "9", "7", "small-value"],
        "rows 512\nstatements 2\nclaim 60893\npairs 47889\nresidual 4998\nverdict holds\n",
    ),
    (
        &["make", "12", "65535", "small-value"],
        "rows 4096\nstatements 2\nclaim 6526\npairs 58366\nresidual 27027\nverdict holds\n",
    ),
];

// A larger job, whose report is one and the same however its rounds are built.
static LARGER: [Made; 3] = [
    (
        &["make", "18", "7", "plain"],
        "rows 262144\nstatements 2\nclaim 20537\npairs 32826\nresidual 2951\nverdict holds\n",
    ),
    (
        &["make", "18", "7", "represented"],
        "rows 262144\nstatements 2\nclaim 20537\npairs 32826\nresidual 2951\nverdict holds\n",
    ),
    (
        &["make", "18", "7", "small-value"],
        "rows 262144\nstatements 2\nclaim 20537\npairs 32826\nresidual 2951\nverdict holds\n",
    ),
];

// Words that look like those of a job that is made.
static UNMADE: [&[&str]; 29] = [
    &["make"],
    &["make", "1"],
    &["make", "1", "7"],
    &["make", "1", "7", "plain", "x"],
    &["make", "1", "7", "plain", ""],
    &["Make", "1", "7", "plain"],
    &["audit", "1", "7", "plain"],
    &["1", "7", "plain", "make"],
    &["make", "0", "7", "plain"],
    &["make", "25", "7", "plain"],
    &["make", "01", "7", "plain"],
    &["make", "+1", "7", "plain"],
    &["make", "-1", "7", "plain"],
    &["make", "", "7", "plain"],
    &["make", "1 ", "7", "plain"],
    &["make", "one", "7", "plain"],
    &["make", "18446744073709551617", "7", "plain"],
    &["make", "1", "65537", "plain"],
    &["make", "1", "07", "plain"],
    &["make", "1", "00", "plain"],
    &["make", "1", "+7", "plain"],
    &["make", "1", "-0", "plain"],
    &["make", "1", "7.0", "plain"],
    &["make", "1", "7", "Plain"],
    &["make", "1", "7", "plain "],
    &["make", "1", "7", "small"],
    &["make", "1", "7", "Small-value"],
    &["make", "1", "7", "small-value "],
    &["make", "0", "7", "small-value"],
];

// That words are answered by the usage alone, and that nothing is read.
fn assert_usage<A: Abort>(rt: &A, alloc: Global, words: &'static [&'static str]) {
    assert_reads(rt, alloc, &[(words, FIRST, &[0], (2, 0, 1, "usage\n"))]);
}

// That words are answered by this text and status 0, and that nothing is read.
fn assert_made<A: Abort>(rt: &A, alloc: Global, made: &'static Made) {
    let (words, text) = made;
    assert_reads(rt, alloc, &[(*words, FIRST, &[0], (0, 0, 1, *text))]);
}

#[test]
fn a_job_that_is_made_and_its_report_in_short(rt: HostRuntime) {
    for made in MADE.iter() {
        assert_made(&rt, rt.alloc(), made);
    }
}

#[test]
fn a_larger_job_has_one_report_in_short(rt: HostRuntime) {
    for made in LARGER.iter() {
        assert_made(&rt, rt.alloc(), made);
    }
}

#[test]
fn words_that_make_no_job(rt: HostRuntime) {
    for words in UNMADE.iter() {
        assert_usage(&rt, rt.alloc(), *words);
    }
}
