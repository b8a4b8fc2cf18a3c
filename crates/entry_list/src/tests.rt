// One list through every call.

ghost use Rattle.std.specs.Prelude.{◌≡◌, true};
ghost use Rattle.entry_list.specs.Listed.{has_key};

use crate::EntryList;
use std::alloc::Global;
use std::process::Abort;

// The nodes are linked both ways and hold these values, and the slab has no others.
fn assert_values(rt: &impl Abort, list: &EntryList<u32>, values: &[u32]) {
    let nodes = list.nodes();
    let mut before = None;
    let mut at = list.first();
    for value in values {
        let node = at.and_then(|key| nodes.get(key)).expect(rt, "a node");
        assert_eq!(rt; node.value, *value);
        assert_eq!(rt; node.prev, before);
        before = at;
        at = node.next;
    }
    assert_eq!(rt; at, None);
    assert_eq!(rt; nodes.len(), values.len());
}

// The key of a value by its place, from 0.
#[tactic(auto, using(crate::proofs::EditLaws::next_is, crate::proofs::EditLaws::first_in))]
fn key_at(rt: &impl Abort, list: &EntryList<u32>, place: usize) -> usize
    ensures { has_key result list.now.pairs ≡ true }
{
    let mut key = list.first().expect(rt, "a first");
    for _ in 0..place {
        key = list.next(key).expect(rt, "one more");
    }
    key
}

// The list of 1, 2 and 3.
fn pushed(rt: &impl Abort, alloc: Global) -> EntryList<u32> {
    let mut list = EntryList::new(alloc);
    assert_values(rt, &list, &[]);
    assert!(rt; list.reserve(3).is_ok());
    assert_values(rt, &list, &[]);
    for value in 1..4u32 {
        let key = list.push_back(value).ok().expect(rt, "room");
        assert_eq!(rt; list.get(key).copied(), Some(value));
    }
    assert_values(rt, &list, &[1, 2, 3]);
    list
}

fn insert_two(rt: &impl Abort, list: &mut EntryList<u32>) {
    let second = key_at(rt, list, 1);
    let nine = list.insert_before(second, 9).ok().expect(rt, "memory");
    assert_eq!(rt; list.get(nine).copied(), Some(9));
    assert_values(rt, list, &[1, 9, 2, 3]);
    assert!(rt; list.reserve(1).is_ok());
    let first = key_at(rt, list, 0);
    let eight = list.insert_before_reserved(first, 8);
    assert_eq!(rt; list.first(), Some(eight));
    assert_values(rt, list, &[8, 1, 9, 2, 3]);
}

#[test]
fn each_call_in_turn(rt: HostRuntime) {
    let mut list = pushed(&rt, rt.alloc());
    insert_two(&rt, &mut list);
    let second = key_at(&rt, &list, 1);
    assert_eq!(rt; list.replace(second, 7), 1);
    assert_values(&rt, &list, &[8, 7, 9, 2, 3]);
    let third = key_at(&rt, &list, 2);
    assert_eq!(rt; list.unlink(third), 9);
    assert_eq!(rt; list.get(third), None);
    assert_values(&rt, &list, &[8, 7, 2, 3]);
    let last = key_at(&rt, &list, 3);
    assert_eq!(rt; list.next(last), None);
    let before = list.prev(last).expect(&rt, "a third");
    assert_eq!(rt; list.get(before).copied(), Some(2));
}
