//! Queues: order, freed slots, refused pushes.
use crate::owners::cleared;
use ring::{Full, Ring};

#[test]
fn without_slots_it_is_full(rt: HostRuntime) {
    let mut slots: [u8; 0] = [];
    let mut ring = Ring::new(&mut slots);
    assert!(rt; ring.is_full());
    assert_eq!(rt; ring.push(1), Err(Full));
    assert_eq!(rt; ring.pop(), None);
}

#[test]
fn a_freed_slot_is_used_again(rt: HostRuntime) {
    let mut slots = [0u8; 1];
    let mut ring = Ring::new(&mut slots);
    assert!(rt; ring.push(1).is_ok());
    assert_eq!(rt; ring.pop(), Some(1));
    assert!(rt; ring.push(2).is_ok());
    assert_eq!(rt; ring.pop(), Some(2));
}

#[test]
fn order_is_kept_past_the_last_slot(rt: HostRuntime) {
    let mut slots = [0u8; 2];
    let mut ring = Ring::new(&mut slots);
    assert!(rt; ring.push(1).is_ok() && ring.push(2).is_ok());
    assert_eq!(rt; ring.pop(), Some(1));
    assert!(rt; ring.push(3).is_ok());
    assert_eq!(rt; ring.pop(), Some(2));
    assert_eq!(rt; ring.pop(), Some(3));
}

#[test]
fn a_refused_push_changes_nothing(rt: HostRuntime) {
    let mut slots = [0u8; 1];
    let mut ring = Ring::new(&mut slots);
    assert!(rt; ring.push(1).is_ok());
    assert_eq!(rt; ring.push(2), Err(Full));
    assert_eq!(rt; ring.front(), Some(1));
    assert_eq!(rt; ring.len(), 1);
}

#[test]
fn clear_frees_every_slot(rt: HostRuntime) {
    let mut slots = [0u8; 2];
    let mut ring = Ring::new(&mut slots);
    assert!(rt; ring.push(1).is_ok() && ring.push(2).is_ok());
    ring.clear();
    assert_eq!(rt; ring.len(), 0);
    assert!(rt; ring.push(3).is_ok());
    assert_eq!(rt; ring.front(), Some(3));
}

#[test]
fn slices_hold_the_entries_in_order(rt: HostRuntime) {
    let mut slots = [0u8; 3];
    let mut ring = Ring::new(&mut slots);
    assert!(rt; ring.is_empty());
    assert!(rt; ring.push(1).is_ok() && ring.push(2).is_ok());
    assert_eq!(rt; ring.pop(), Some(1));
    assert!(rt; ring.push(3).is_ok() && ring.push(4).is_ok());
    let (upper, lower) = ring.as_slices();
    assert_eq!(rt; (upper, lower), (&[2, 3][..], &[4][..]));
    assert!(rt; !ring.is_empty());
}

#[test]
fn a_cleared_queue_leaves_its_slots(rt: HostRuntime) {
    let mut slots = [1u8, 2];
    cleared(&mut slots);
    assert_eq!(rt; slots, [1, 2]);
}
