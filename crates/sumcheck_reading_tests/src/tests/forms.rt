// What RFC 8259 and the reader say of texts, and that reads succeed.
ghost use Rattle.std.specs.Prelude.{codes, option_and_then, option_map};
ghost use Rattle.sc_forms.specs.Forms.{below_form, list_form, member_form};

use sc_forms::{
    AtMost, Below, Form, ListOf, ListOfLength, Misread, NoValue, PairOf, is_object, member,
    read_value, take_member,
};
use sc_memory::Row;
use serde_json::Value;
use std::alloc::Global;
use std::process::Abort;

const REFUSED: Result<u64, Misread> = Err(Misread::NotOfForm);

// Every unsigned number of 64 bits.
const UNBOUNDED: AtMost = AtMost { most: u64::MAX };

// What the text is read as in the form. A text that is no JSON is an error of its own.
fn read_text<F: Form>(
    alloc: Global,
    form: &F,
    text: &str,
) -> Result<Result<F::Out, Misread>, NoValue> {
    let value = read_value(alloc, text.as_bytes())?;
    Ok(form.read(alloc, &value))
}

// The same of the value given up.
fn take_text<F: Form>(
    alloc: Global,
    form: &F,
    text: &str,
) -> Result<Result<F::Out, Misread>, NoValue> {
    let value = read_value(alloc, text.as_bytes())?;
    Ok(form.take(alloc, value))
}

// That each text is read as this number in the form, or refused.
fn assert_numbers<F: Form<Out = u64>, A: Abort>(
    rt: &A,
    alloc: Global,
    form: &F,
    rows: &[(&str, Result<u64, Misread>)],
) {
    for (text, want) in rows {
        let read = read_text(alloc, form, *text).expect(rt, "JSON");
        assert!(rt; read == *want, "{text}");
        let taken = take_text(alloc, form, *text).expect(rt, "JSON");
        assert!(rt; taken == *want, "{text}, given up");
    }
}

// That each text is read as this list in the form.
fn assert_lists<F: Form<Out = Row<u64>>, A: Abort>(
    rt: &A,
    alloc: Global,
    form: &F,
    rows: &[(&str, &[u64])],
) {
    for (text, want) in rows {
        let read = read_text(alloc, form, *text).expect(rt, "JSON");
        assert!(rt;
            read.ok().expect(rt, "a list").as_slice() == *want,
            "{text}"
        );
        let taken = take_text(alloc, form, *text).expect(rt, "JSON");
        assert!(rt;
            taken.ok().expect(rt, "a list").as_slice() == *want,
            "{text}, given up"
        );
    }
}

// That each text is read in the form, or that each is refused for this.
fn assert_faults<F: Form, A: Abort>(
    rt: &A,
    alloc: Global,
    form: &F,
    texts: &[&str],
    fault: Option<Misread>,
) {
    for text in texts {
        let read = read_text(alloc, form, *text).expect(rt, "JSON");
        assert!(rt; read.err() == fault, "{text}");
        let taken = take_text(alloc, form, *text).expect(rt, "JSON");
        assert!(rt; taken.err() == fault, "{text}, given up");
    }
}

// That none of these texts is of the form.
fn assert_refused<F: Form, A: Abort>(rt: &A, alloc: Global, form: &F, texts: &[&str]) {
    assert_faults(rt, alloc, form, texts, Some(Misread::NotOfForm));
}

// A form for an object: a point and a value, of numbers below a bound.
#[derive(Clone, Copy)]
struct Opening {
    bound: u64,
}

impl Form for Opening {
    type Out = (Row<u64>, u64);

    ghost reads = { λ form d.
        option_and_then (λ point. option_map (λ value. (point, value))
        (member_form (below_form form.bound) (codes "value") d))
        (member_form (list_form (below_form form.bound)) (codes "point") d) };

    fn read(&self, alloc: Global, value: &Value) -> Result<(Row<u64>, u64), Misread> {
        let number = Below { bound: self.bound };
        let point = member(alloc, &ListOf { item: number }, value, "point")?;
        let value = member(alloc, &number, value, "value")?;
        Ok((point, value))
    }
}

static UNSIGNED: [(&str, Result<u64, Misread>); 11] = [
    ("0", Ok(0)),
    ("18446744073709551615", Ok(18446744073709551615)),
    ("18446744073709551616", REFUSED),
    ("1.0", REFUSED),
    ("1e2", REFUSED),
    ("-0", REFUSED),
    ("-1", REFUSED),
    ("true", REFUSED),
    ("\"7\"", REFUSED),
    ("[7]", REFUSED),
    ("null", REFUSED),
];

#[test]
fn an_unsigned_number_is_digits_alone(rt: HostRuntime) {
    assert_numbers(&rt, rt.alloc(), &UNBOUNDED, &UNSIGNED);
}

static BELOW: [(&str, Result<u64, Misread>); 4] = [
    ("0", Ok(0)),
    ("65535", Ok(65_535)),
    ("65536", Ok(65_536)),
    ("65537", REFUSED),
];

static AT_MOST: [(&str, Result<u64, Misread>); 4] = [
    ("0", Ok(0)),
    ("65535", Ok(65_535)),
    ("65536", REFUSED),
    ("65537", REFUSED),
];

#[test]
fn a_bound_is_no_number_below_it(rt: HostRuntime) {
    assert_numbers(&rt, rt.alloc(), &Below { bound: 65_537 }, &BELOW);
    assert_numbers(&rt, rt.alloc(), &AtMost { most: 65_535 }, &AT_MOST);
}

static LISTS: [(&str, &[u64]); 3] = [("[]", &[]), ("[7]", &[7]), ("[3,1,2,1]", &[3, 1, 2, 1])];

static NO_LISTS: [&str; 5] = ["[1,10]", "[1,true]", "[[1]]", "1", "{}"];

#[test]
fn lists_are_read_in_order(rt: HostRuntime) {
    let form = ListOf {
        item: Below { bound: 10 },
    };
    assert_lists(&rt, rt.alloc(), &form, &LISTS);
    assert_refused(&rt, rt.alloc(), &form, &NO_LISTS);
}

// Whether these are the rows.
fn are_rows(rows: &[Row<u64>], all: &[&[u64]]) -> bool {
    for (row, wanted) in rows.iter().zip(all) {
        if row.as_slice() != *wanted {
            return false;
        }
    }
    rows.len() == all.len()
}

static ROWS: [&[u64]; 3] = [&[1], &[], &[2, 3]];

#[test]
fn a_list_of_lists(rt: HostRuntime) {
    let form = ListOf {
        item: ListOf { item: UNBOUNDED },
    };
    let read = read_text(rt.alloc(), &form, "[[1],[],[2,3]]").expect(&rt, "JSON");
    let rows = read.ok().expect(&rt, "lists");
    assert!(rt; are_rows(rows.as_slice(), &ROWS));
    let taken = take_text(rt.alloc(), &form, "[[1],[],[2,3]]").expect(&rt, "JSON");
    let rows = taken.ok().expect(&rt, "lists");
    assert!(rt; are_rows(rows.as_slice(), &ROWS));
}

static PAIRS: [(u64, u64); 2] = [(1, 2), (3, 4)];

static NO_PAIRS: [&str; 4] = ["[[1,2],[3]]", "[[1,2,3]]", "[1,2]", "[[1,true]]"];

#[test]
fn a_list_of_pairs(rt: HostRuntime) {
    let form = ListOf {
        item: PairOf { item: UNBOUNDED },
    };
    let read = read_text(rt.alloc(), &form, "[[1,2],[3,4]]").expect(&rt, "JSON");
    assert!(rt; read.ok().expect(&rt, "pairs").as_slice() == PAIRS.as_slice());
    assert_refused(&rt, rt.alloc(), &form, &NO_PAIRS);
}

static TWO: [(&str, &[u64]); 1] = [("[5,6]", &[5, 6])];

static NOT_TWO: [&str; 5] = ["[]", "[5]", "[5,6,7]", "[5,-6]", "5"];

#[test]
fn a_list_of_two_has_no_third_item(rt: HostRuntime) {
    let form = ListOfLength {
        item: UNBOUNDED,
        length: 2,
    };
    assert_lists(&rt, rt.alloc(), &form, &TWO);
    assert_refused(&rt, rt.alloc(), &form, &NOT_TWO);
}

// Whether a text is read as an object, and the number that is its member of a name.
fn number_in(
    alloc: Global,
    text: &str,
    name: &str,
) -> Result<(bool, Result<u64, Misread>), NoValue> {
    let value = read_value(alloc, text.as_bytes())?;
    Ok((is_object(&value), member(alloc, &UNBOUNDED, &value, name)))
}

// The number that is the member of a name of an object that is given up.
fn number_of(alloc: Global, text: &str, name: &str) -> Result<Result<u64, Misread>, NoValue> {
    let value = read_value(alloc, text.as_bytes())?;
    Ok(take_member(alloc, &UNBOUNDED, value, name))
}

static MEMBERS: [(&str, &str, (bool, Result<u64, Misread>)); 4] = [
    ("{\"a\":1,\"b\":[],\"a\":2}", "a", (true, Ok(2))),
    ("{\"a\":1,\"b\":[],\"a\":2}", "b", (true, REFUSED)),
    ("{\"a\":1,\"b\":[],\"a\":2}", "c", (true, REFUSED)),
    ("[1]", "0", (false, REFUSED)),
];

#[test]
fn of_a_member_that_stands_twice_the_last_counts(rt: HostRuntime) {
    for (text, name, want) in MEMBERS.iter() {
        let found = number_in(rt.alloc(), *text, *name).expect(&rt, "JSON");
        assert!(rt; found == *want, "{name} of {text}");
        let taken = number_of(rt.alloc(), *text, *name).expect(&rt, "JSON");
        assert!(rt; taken == (*want).1, "{name} of {text}, given up");
    }
}

// Whether these are the openings.
fn are_openings(openings: &[(Row<u64>, u64)], all: &[(&[u64], u64)]) -> bool {
    for (opening, wanted) in openings.iter().zip(all) {
        if opening.0.as_slice() != wanted.0 || opening.1 != wanted.1 {
            return false;
        }
    }
    openings.len() == all.len()
}

static OPENINGS: [(&[u64], u64); 2] = [(&[1, 2], 3), (&[], 4)];

#[test]
fn an_object_is_read_member_by_member(rt: HostRuntime) {
    let form = ListOf {
        item: Opening { bound: 10 },
    };
    let text = "[{\"point\":[1,2],\"value\":3},{\"value\":4,\"other\":null,\"point\":[]}]";
    let read = read_text(rt.alloc(), &form, text).expect(&rt, "JSON");
    let openings = read.ok().expect(&rt, "openings");
    assert!(rt; are_openings(openings.as_slice(), &OPENINGS));
}

static NO_OPENINGS: [&str; 3] = [
    "[{\"point\":[1]}]",
    "[{\"point\":[10],\"value\":3}]",
    "[[]]",
];

#[test]
fn an_object_without_a_member_is_refused(rt: HostRuntime) {
    let form = ListOf {
        item: Opening { bound: 10 },
    };
    assert_refused(&rt, rt.alloc(), &form, &NO_OPENINGS);
}

// Bytes, and why they are no value where they are none.
static BYTES: [(&[u8], Option<NoValue>); 14] = [
    (b"", Some(NoValue::Bad)),
    (b"1 2", Some(NoValue::Bad)),
    (b"[1,]", Some(NoValue::Bad)),
    (b"01", Some(NoValue::Bad)),
    (b"\xef\xbb\xbf1", Some(NoValue::Bad)),
    (b"\"\xff\"", Some(NoValue::Bad)),
    (b"{\"ignored\":\"\xc3\"}", Some(NoValue::Bad)),
    (b"\"\\ud800\"", Some(NoValue::Bad)),
    (b"\"\\ud800\\u0041\"", Some(NoValue::Bad)),
    (b"{\"ignored\":1e400}", Some(NoValue::Bad)),
    (b" 1\r\n", None),
    (b"\"\\ud83d\\ude00\"", None),
    (b"\"\xc3\xa9\"", None),
    (b"1e-400", None),
];

#[test]
fn texts_that_are_no_json(rt: HostRuntime) {
    for (text, fault) in BYTES.iter() {
        assert!(rt; read_value(rt.alloc(), *text).err() == *fault, "{text:?}");
    }
}

// So many arrays, each but the last with the next one in it.
fn nested<A: Abort>(rt: &A, alloc: Global, depth: usize) -> String {
    let opening = "[".repeat(alloc, depth).expect(rt, "memory");
    let closing = "]".repeat(alloc, depth).expect(rt, "memory");
    format!(in alloc; "{opening}{closing}").expect(rt, "memory")
}

#[test]
fn arrays_nest_127_deep(rt: HostRuntime) {
    for (depth, is_read) in [(1, true), (127, true), (128, false)] {
        let text = nested(&rt, rt.alloc(), depth);
        let value = read_value(rt.alloc(), text.as_bytes());
        assert!(rt; value.is_ok() == is_read, "{depth}");
    }
}

// A table of 65536, of so many pairs of 0 and 12345, and of 0.
fn long_table<A: Abort>(rt: &A, alloc: Global, pairs: usize) -> String {
    let pairs = ",0,12345".repeat(alloc, pairs).expect(rt, "memory");
    format!(in alloc; "[65536{pairs},0]").expect(rt, "memory")
}

#[test]
fn a_table_of_a_million_numbers_is_read(rt: HostRuntime) {
    let text = long_table(&rt, rt.alloc(), (1 << 19) - 1);
    let value = read_value(rt.alloc(), text.as_bytes()).expect(&rt, "JSON");
    let form = ListOf {
        item: Below { bound: 65_537 },
    };
    let read = form.read(rt.alloc(), &value).ok().expect(&rt, "a table");
    let taken = form.take(rt.alloc(), value).ok().expect(&rt, "a table");
    for row in [read, taken] {
        let numbers = row.as_slice();
        assert!(rt;
            (numbers.len(), numbers.first(), numbers.last()) == (1 << 20, Some(&65_536), Some(&0))
        );
    }
}

#[test]
fn errors_have_texts(rt: HostRuntime) {
    for (error, want) in [
        (Misread::NotOfForm, "the value is not of the form"),
        (Misread::NoMemory, "out of memory"),
    ] {
        let text = error.to_string(rt.alloc()).expect(&rt, "a text");
        assert!(rt; text.as_str() == want);
    }
    for (error, want) in [
        (NoValue::Bad, "the bytes are not one JSON value"),
        (NoValue::NoMemory, "out of memory"),
    ] {
        let text = error.to_string(rt.alloc()).expect(&rt, "a text");
        assert!(rt; text.as_str() == want);
    }
}
