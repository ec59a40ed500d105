//! That calls succeed, and the text of the error.
use sc_memory::{NoMemory, Row, with_room};

#[test]
fn there_is_room_in_an_empty_list(rt: HostRuntime) {
    let list: Vec<u64> = with_room(rt.alloc(), 3).expect(&rt, "room");
    assert!(rt; (list.len(), list.capacity() >= 3) == (0, true));
}

#[test]
fn a_row_keeps_its_items(rt: HostRuntime) {
    let items = vec![in rt.alloc(); 7, 8, 9].expect(&rt, "items");
    let row = Row::new(items);
    assert!(rt; row.len() == 3 && row.as_slice() == [7, 8, 9].as_slice());
}

#[test]
fn want_of_memory_has_a_text(rt: HostRuntime) {
    let text = NoMemory.to_string(rt.alloc()).expect(&rt, "a text");
    assert!(rt; text.as_str() == "out of memory");
}
