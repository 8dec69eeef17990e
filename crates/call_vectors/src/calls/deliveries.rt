//! What nodes are delivered: the places of a list's events in the order in which one of them is delivered the events.

use crate::calls::given::Given;
use anyhow::{Context, Result, bail};
use node_drill::deliver;
use record_file::{Event, Payload};
use std::alloc::Global;

/// The event of the first frame, and what stands behind it.
fn first_event<'a>(alloc: Global, frames: &'a [u8]) -> Result<(Event, &'a [u8])> {
    if frames.len() < 5 {
        bail!("the record ends inside a frame");
    }
    let (head, behind) = frames.split_at(5);
    let size = u32::from_le_bytes([head[1], head[2], head[3], head[4]]) as usize;
    if behind.len() < size {
        bail!("the record ends inside a payload");
    }
    let (payload, rest) = behind.split_at(size);
    let payload = Payload::new(Vec::from_slice(alloc, payload)?);
    let kind = head[0];
    Ok((Event { kind, payload }, rest))
}

/// The events of a record, whose kinds alone count.
fn events_of(alloc: Global, record: &[u8]) -> Result<Vec<Event>> {
    if record.len() < 4 {
        bail!("no record");
    }
    let (_magic, mut rest) = record.split_at(4);
    let mut events = Vec::new(alloc);
    for _ in 0..record.len() {
        if rest.is_empty() {
            return Ok(events);
        }
        let (event, behind) = first_event(alloc, rest)?;
        events.push(event)?;
        rest = behind;
    }
    bail!("the record has no end")
}

/// The places of the events in the order in which a node is delivered them.
fn places_of(alloc: Global, number: u64, node: u64, events: &[Event]) -> Result<Vec<u32>> {
    if node >= 16 || events.len() >= 1 << 32 {
        bail!("no such node");
    }
    match deliver(alloc, number, node, events) {
        Ok(places) => Ok(places),
        Err(_) => bail!("out of memory"),
    }
}

/// Adds the line of places.
fn push_places(alloc: Global, places: &[u32], text: &mut String) -> Result<()> {
    let mut before = "\n";
    for place in places {
        text.push_str(before)?;
        text.push_str(format!(in alloc; "{place}")?.as_str())?;
        before = " ";
    }
    Ok(())
}

/// The answer that these places are.
fn places_answer(alloc: Global, places: &[u32]) -> Result<String> {
    let mut text = String::from_str(alloc, "ok")?;
    match push_places(alloc, places, &mut text) {
        Ok(()) => Ok(text),
        Err(error) => Err(error),
    }
}

/// The answer of delivering the record's events to a node.
pub fn answer(alloc: Global, given: &Given) -> Result<String> {
    let (number, node) = given.word.as_str().split_once(' ').context("no node")?;
    let (number, node) = (number.parse::<u64>()?, node.parse::<u64>()?);
    let events = events_of(alloc, given.record()?)?;
    match places_of(alloc, number, node, &events) {
        Ok(places) => places_answer(alloc, &places),
        Err(error) => Err(error),
    }
}
