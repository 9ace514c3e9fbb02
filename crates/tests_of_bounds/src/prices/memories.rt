//! Memories, closed nodes and keys.

use super::*;
use crate::texts::check_all;
use pg_position::Rights;

// The key with this number: all differ, and none is 0.
fn key(number: u32) -> u64 {
    (u64::from(number) + 1).wrapping_mul(0x9e37_79b9_7f4a_7c15)
}

fn needs(number: u32) -> Needs {
    Needs {
        need: 1,
        shift: 2,
        travel: UNKNOWN,
        pawns: UNKNOWN,
        lists: number,
    }
}

fn put(rt: &impl Abort, memory: &mut Memory, number: u32, needs: Needs) {
    memory.set(key(number), needs).expect(rt, "memory");
}

fn is_known(memory: &Memory, number: u32) -> bool {
    memory.get(key(number)).is_some()
}

fn check_known(rt: &impl Abort, memory: &Memory, number: u32, needs: Needs) {
    assert!(rt; memory.get(key(number)) == Some(needs), "{number}");
}

#[test]
fn a_memory_gives_what_was_set_last(rt: HostRuntime) {
    let mut memory = Memory::new(rt.alloc(), 1_000_000);
    assert!(rt; memory.is_empty() && !is_known(&memory, 0));
    for number in 0..50_000u32 {
        put(&rt, &mut memory, number, needs(number));
    }
    for number in 0..50_000u32 {
        check_known(&rt, &memory, number, needs(number));
    }
    assert!(rt; !is_known(&memory, 50_000));
    let mut more = needs(3);
    more.travel = 9;
    put(&rt, &mut memory, 3, more);
    check_known(&rt, &memory, 3, more);
    assert!(rt; memory.len() == 50_000);
}

// With 4,096 slots the 2,049th entry needs more room, and above 2,000 entries all are forgotten.
#[test]
fn a_full_memory_forgets_all(rt: HostRuntime) {
    let mut memory = Memory::new(rt.alloc(), 2000);
    for number in 0..2049u32 {
        put(&rt, &mut memory, number, needs(number));
    }
    assert!(rt; memory.len() == 1 && !is_known(&memory, 0));
    check_known(&rt, &memory, 2048, needs(2048));
}

#[test]
fn closed_nodes_are_found(rt: HostRuntime) {
    let mut closed = Closed::new(rt.alloc());
    assert!(rt; closed.is_empty() && closed.find(key(0)).is_none());
    for number in 0..60_000u32 {
        closed.insert(key(number), number).expect(&rt, "memory");
    }
    for number in 0..60_000u32 {
        assert!(rt; closed.find(key(number)) == Some(number), "{number}");
    }
    assert!(rt; closed.find(key(60_000)).is_none() && closed.len() == 60_000);
}

// The key of a colour's men in the array, with these rights.
fn array_key(color: Color, rights: Rights) -> u64 {
    color_key(&Position::array().board(), rights, color)
}

// Colours, rights, sides, passed squares and plies give keys of their own.
#[test]
fn keys_differ(rt: HostRuntime) {
    let rights = Position::array().rights();
    let white = array_key(Color::White, rights);
    let black = array_key(Color::Black, rights);
    let mut fewer = rights;
    fewer.white_queen = false;
    let node = node_key(white, black, Color::White, None, 3);
    check_all(
        &rt,
        &[
            white != black,
            array_key(Color::White, fewer) != white,
            array_key(Color::Black, fewer) == black,
            node != node_key(black, white, Color::White, None, 3),
            node != node_key(white, black, Color::Black, None, 3),
            node != node_key(white, black, Color::White, None, 4),
            node != node_key(white, black, Color::White, Some(Square::at(40)), 3),
        ],
    );
}

// Keeps these bytes with a key.
fn keep(rt: &impl Abort, memory: &mut Memory, number: u32, bytes: &[u8]) {
    memory
        .keep(key(number), needs(0), bytes)
        .expect(rt, "memory");
}

// Whether the lists that are kept with a key begin so.
fn keeps(memory: &Memory, number: u32, bytes: &[u8]) -> bool {
    match memory.get(key(number)) {
        Some(known) => begin(memory.lists(&known), bytes),
        None => false,
    }
}

fn begin(lists: Option<&[u8]>, bytes: &[u8]) -> bool {
    match lists {
        Some(lists) => lists.starts_with(bytes),
        None => false,
    }
}

// Lists stay with the needs that they were kept with, until all are forgotten.
#[test]
fn lists_are_kept(rt: HostRuntime) {
    let mut memory = Memory::new(rt.alloc(), 2000);
    put(&rt, &mut memory, 0, needs(0));
    assert!(rt; memory.lists(&needs(0)).is_none());
    for number in 1..100u8 {
        keep(&rt, &mut memory, u32::from(number), &[1, number, 7]);
    }
    for number in 1..100u8 {
        assert!(rt;
            keeps(&memory, u32::from(number), &[1, number, 7]),
            "{number}"
        );
    }
}

// With room for 100 entries all are forgotten at the first list behind 3,200 bytes.
#[test]
fn a_memory_full_of_lists_forgets_all(rt: HostRuntime) {
    let mut memory = Memory::new(rt.alloc(), 100);
    let bytes = [7; 99];
    for number in 0..33u32 {
        keep(&rt, &mut memory, number, &bytes);
    }
    assert!(rt; memory.len() == 33);
    keep(&rt, &mut memory, 33, &bytes);
    assert!(rt; memory.len() == 1);
    match memory.get(key(33)) {
        Some(known) => assert!(rt; known.lists == 1),
        None => panic!(rt; "the last lists are known"),
    }
}
