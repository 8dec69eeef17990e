//! Room for nodes, for votes and for silenced validators, in all lists that grow with them.

ghost use Rattle.std.specs.Prelude.{◌≡◌, ◌+◌, ◌<◌, ◌≤◌, ◌^◌, length, vec_capacity, OnOk, IsOk};

use crate::best_descendant::BestDescendant;
use crate::inputs::Inputs;
use crate::list::make_room;
use crate::tally::Tally;
use bc_words::NoMemory;

/// The greatest number of validators, that of a registry. No memory holds the votes of more, or silences more.
const VALIDATOR_LIMIT: u64 = 1 << 40;

/// Makes room for one node more.
pub(crate) fn grow_nodes(
    inputs: &mut Inputs,
    tally: &mut Tally,
    bests: &mut Vec<BestDescendant>,
) -> Result<(), NoMemory>
    ensures inputs { inputs.new ≡ record inputs.old { node_room = inputs.new.node_room } }
    ensures tally { tally.new ≡ record tally.old { node_room = tally.new.node_room } }
    ensures bests { bests.new.items ≡ bests.old.items }
    ensures inputs_more { inputs.old.node_room ≤ inputs.new.node_room }
    ensures tally_more { tally.old.node_room ≤ tally.new.node_room }
    ensures bests_more { vec_capacity bests.old ≤ vec_capacity bests.new }
    ensures inputs_room { OnOk result (length inputs.old.array.nodes + 1 ≤ inputs.new.node_room) }
    ensures tally_room { OnOk result (length inputs.old.array.nodes + 1 ≤ tally.new.node_room) }
    ensures bests_room { OnOk result (length inputs.old.array.nodes + 1 ≤ vec_capacity bests.new) }
{
    let places = inputs.nodes().len() + 1;
    match inputs.reserve_nodes(places) {
        Ok(()) => match tally.reserve_nodes(places) {
            Ok(()) => make_room(bests, places),
            Err(refused) => Err(refused),
        },
        Err(refused) => Err(refused),
    }
}

/// Makes room for one node more, where none is spare.
pub(crate) fn room_for_node(
    inputs: &mut Inputs,
    tally: &mut Tally,
    bests: &mut Vec<BestDescendant>,
) -> Result<(), NoMemory>
    requires tally_nodes { length inputs.old.array.nodes + inputs.old.array.spare_nodes ≤ tally.old.node_room }
    requires bests_nodes { length inputs.old.array.nodes + inputs.old.array.spare_nodes ≤ vec_capacity bests.old }
    ensures inputs { inputs.new ≡ record inputs.old { node_room = inputs.new.node_room } }
    ensures tally { tally.new ≡ record tally.old { node_room = tally.new.node_room } }
    ensures bests { bests.new.items ≡ bests.old.items }
    ensures tally_more { tally.old.node_room ≤ tally.new.node_room }
    ensures bests_more { vec_capacity bests.old ≤ vec_capacity bests.new }
    ensures inputs_room { OnOk result (length inputs.old.array.nodes + 1 ≤ inputs.new.node_room) }
    ensures tally_room { OnOk result (length inputs.old.array.nodes + 1 ≤ tally.new.node_room) }
    ensures bests_room { OnOk result (length inputs.old.array.nodes + 1 ≤ vec_capacity bests.new) }
    ensures spare { 0 < inputs.old.array.spare_nodes → IsOk result }
{
    if inputs.spare_nodes() == 0 {
        grow_nodes(inputs, tally, bests)
    } else {
        Ok(())
    }
}

/// Makes room for so many validators in all, and then at once for each that has a balance: a list that grows once more takes twice
/// its places. For no validator none is made.
pub(crate) fn grow_validators(
    inputs: &mut Inputs,
    tally: &mut Tally,
    places: u64,
) -> Result<(), NoMemory>
    ensures inputs { inputs.new ≡ record inputs.old { message_room = inputs.new.message_room; changed_room = inputs.new.changed_room; silenced_room = inputs.new.silenced_room } }
    ensures tally { tally.new ≡ record tally.old { validator_room = tally.new.validator_room } }
    ensures tally_more { tally.old.validator_room ≤ tally.new.validator_room }
    ensures messages_more { inputs.old.message_room ≤ inputs.new.message_room }
    ensures changed_more { inputs.old.changed_room ≤ inputs.new.changed_room }
    ensures silenced_more { inputs.old.silenced_room ≤ inputs.new.silenced_room }
    ensures message_room { OnOk result (places ≤ inputs.new.message_room) }
    ensures changed_room { OnOk result (places ≤ inputs.new.changed_room) }
    ensures silenced_room { OnOk result (places ≤ inputs.new.silenced_room) }
    ensures tally_room { OnOk result (places ≤ tally.new.validator_room) }
    ensures few { OnOk result (places ≤ 2 ^ 40) }
{
    if places == 0 {
        return Ok(());
    }
    if places > VALIDATOR_LIMIT {
        return Err(NoMemory);
    }
    let all = inputs.balances().max(places as usize);
    match inputs.reserve_validators(all) {
        Ok(()) => tally.reserve_validators(all),
        Err(refused) => Err(refused),
    }
}

/// Makes room for the vote of a validator, or to silence it, where its isn't spare.
pub(crate) fn room_for_validator(
    inputs: &mut Inputs,
    tally: &mut Tally,
    validator: u64,
) -> Result<(), NoMemory>
    requires tally { inputs.old.array.spare_validators ≤ tally.old.validator_room }
    ensures inputs { inputs.new ≡ record inputs.old { message_room = inputs.new.message_room; changed_room = inputs.new.changed_room; silenced_room = inputs.new.silenced_room } }
    ensures tally { tally.new ≡ record tally.old { validator_room = tally.new.validator_room } }
    ensures tally_more { tally.old.validator_room ≤ tally.new.validator_room }
    ensures message_room { OnOk result (validator < inputs.new.message_room) }
    ensures changed_more { inputs.old.changed_room ≤ inputs.new.changed_room }
    ensures changed_room { OnOk result (validator < inputs.new.changed_room) }
    ensures silenced_room { OnOk result (validator < inputs.new.silenced_room) }
    ensures tally_room { OnOk result (validator < tally.new.validator_room) }
    ensures few { OnOk result (validator < 2 ^ 40) }
    ensures spare { validator < inputs.old.array.spare_validators → IsOk result }
{
    if validator < inputs.spare_validators() {
        return Ok(());
    }
    if validator >= VALIDATOR_LIMIT {
        return Err(NoMemory);
    }
    grow_validators(inputs, tally, validator + 1)
}
