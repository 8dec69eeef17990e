//! Lists of events whose order an independent implementation gave.

use bc_words::NoMemory;
use node_drill::deliver;
use record_file::{Event, Payload};
use std::alloc::{AllocError, Global};
use std::test::Fail;

/// A number, a node, the kinds of some events, and their places in the order in which the node is delivered them.
const ORDERS: &[(u64, u64, &[u8], &[u32])] = &[
    (0, 0, &[], &[]),
    (9, 0, &[2], &[0, 0]),
    (225, 0, &[2, 1], &[1, 0]),
    (74, 0, &[2, 1], &[0, 0, 1]),
    (1, 0, &[1, 2], &[0, 1]),
    (4, 0, &[2, 1, 1], &[1, 0, 2]),
    (23, 0, &[3, 2, 1], &[2, 0, 1]),
    (23, 0, &[2, 3], &[0, 1]),
    (24, 0, &[2, 2, 2, 1], &[1, 2, 3, 0]),
    (11, 0, &[2, 3], &[1, 1, 0]),
    (8, 15, &[2, 1], &[1, 0]),
    (6526, 0, &[1, 1, 1, 1], &[0, 1, 2, 3]),
];

/// Events of these kinds, without a payload: only the kinds count.
fn events_of(alloc: Global, kinds: &[u8]) -> Result<Vec<Event>, AllocError> {
    let mut events = Vec::new(alloc);
    for kind in kinds {
        events.push(Event {
            kind: *kind,
            payload: Payload::new(Vec::new(alloc)),
        })?;
    }
    Ok(events)
}

/// Whether a node is delivered events of these kinds in this order.
fn is_delivered(alloc: Global, number: u64, node: u64, kinds: &[u8], order: &[u32]) -> bool {
    let Ok(events) = events_of(alloc, kinds) else {
        return false;
    };
    if node >= 16 || events.len() >= 1 << 32 {
        return false;
    }
    match deliver(alloc, number, node, &events) {
        Ok(places) => places.as_slice() == order,
        Err(NoMemory) => false,
    }
}

#[test]
fn events_come_in_order(rt: HostRuntime) -> Result<(), Fail> {
    for (number, node, kinds, order) in ORDERS {
        assert!(rt; is_delivered(rt.alloc(), *number, *node, kinds, order));
    }
    Ok(())
}
