//! The order in which a node is delivered the events of a list.

ghost use Rattle.std.specs.Prelude.{◌≡◌, ◌+◌, ◌*◌, ◌^◌, ◌<◌, ◌≤◌, ◌∷◌, ◌++◌, List, length, IfOk};
ghost use Rattle.node_drill.specs.declared.delivery.Delivery.{Delivery};
ghost use Rattle.node_drill.specs.Deliveries.{delivery_byte, delivery_of, delivered_places, IsEachOnceOrTwice, AreTicksInOrder};
ghost use Rattle.node_drill.specs.inside.Arrivals.{arrivals};

use crate::delivery::Delivery;
use bc_words::NoMemory;
use record_file::Event;
use sha2::{Digest, Sha256};
use std::alloc::Global;

/// The byte of a node that decides how the event with this number comes to it.
#[tactic(auto, unfolding(crate::specs::Deliveries::delivery_byte, hash_tree::specs::Merkle::hash, hash_tree::specs::Merkle::uint_to_bytes))]
fn delivery_byte(number: u64, node: u64, i: u64) -> u8
    requires { node < 16 }
    ensures { result ≡ delivery_byte number node i }
{
    let mut hasher = Sha256::new();
    hasher.update(&number.to_le_bytes());
    hasher.update(&i.to_le_bytes());
    let digest = hasher.finalize();
    digest[node as usize]
}

/// How the event with this number comes to a node.
#[tactic(auto, unfolding(crate::specs::Deliveries::delivery_of))]
fn delivery_of(number: u64, node: u64, i: u64, event: &Event) -> Delivery
    requires { node < 16 }
    ensures { result ≡ delivery_of number node i event.now }
{
    if event.kind == 1 {
        return Delivery::Tick;
    }
    match delivery_byte(number, node, i) {
        0..=63 => Delivery::Late,
        64..=239 => Delivery::Once,
        _ => Delivery::Twice,
    }
}

/// Takes the event at a place, which comes so: the places that were delivered and those that wait become what they are behind it.
fn arrive(
    places: &mut Vec<u32>,
    waiting: &mut Vec<u32>,
    place: u32,
    delivery: Delivery,
) -> Result<(), NoMemory>
    ensures { IfOk result (λ done. (later : List Delivery) → places.new.items ++ arrivals waiting.new.items (place + 1) later ≡ places.old.items ++ arrivals waiting.old.items place (delivery ∷ later)) }
{
    match delivery {
        Delivery::Tick => {
            places.push(place)?;
            places.extend_from_slice(waiting)?;
            waiting.clear();
            Ok(())
        }
        Delivery::Once => {
            places.push(place)?;
            Ok(())
        }
        Delivery::Twice => {
            places.push(place)?;
            places.push(place)?;
            Ok(())
        }
        Delivery::Late => {
            waiting.push(place)?;
            Ok(())
        }
    }
}

/// The places of events, counted from 0, in the order in which a node is delivered them.
///
/// A tick comes in its place. Of another event the byte of the node in the digest of the number and the event's own number decides: it
/// comes in its place, or there and at once again, or behind the next tick, and at the end where no tick follows. So each event comes
/// once or twice, and the ticks once each and in their order.
pub fn deliver(
    alloc: Global,
    number: u64,
    node: u64,
    events: &[Event],
) -> Result<Vec<u32>, NoMemory>
    requires node { node < 16 }
    requires few { length events.now < 2 ^ 32 }
    ensures exact { IfOk result (λ places. places.items ≡ delivered_places number node events.now) }
    ensures each { IfOk result (λ places. IsEachOnceOrTwice (length events.now) places.items) }
    ensures ticks { IfOk result (λ places. AreTicksInOrder events.now places.items) }
    ensures twice { IfOk result (λ places. length places.items ≤ 2 * length events.now) }
{
    let mut places = Vec::new(alloc);
    let mut waiting = Vec::new(alloc);
    for (index, event) in events.iter().enumerate() {
        let place = index as u32;
        let delivery = delivery_of(number, node, u64::from(place) + 1, event);
        arrive(&mut places, &mut waiting, place, delivery)?;
    }
    places.extend_from_slice(&waiting)?;
    Ok(places)
}
