//! A vote that is news: the message is put in its validator's place, and its validator is noted as changed, once. So is a validator
//! that is silenced.

ghost use Rattle.std.specs.Prelude.{◌≡◌, ℕ, ◌+◌, ◌<◌, ◌≤◌, ◌^◌, max, length};
ghost use Rattle.block_array.specs.PlainArray.{is_listed};
ghost use Rattle.block_array.specs.Silence.{silenced};
ghost use Rattle.block_array.specs.UpdateLatestMessages.{with_changed, voted};
ghost use Rattle.block_array.specs.inside.Counts.{counted_of};
ghost use Rattle.block_array.specs.inside.Noted.{count_changed, marked, IsNoted};

use crate::inputs::Inputs;
use crate::node::Message;
use crate::tally::Tally;

/// Makes places for validators of whom nothing is counted, up to so many. There is room for them.
#[tactic(auto, using(crate::proofs::Noting::padding))]
fn pad(tally: &mut Tally, places: usize)
    requires room { places ≤ tally.old.validator_room }
    requires few { places ≤ 2 ^ 40 }
    ensures same { tally.new ≡ record tally.old { validators = tally.new.validators; validator_room = tally.new.validator_room } }
    ensures length_is { length tally.new.validators ≡ max (length tally.old.validators) places }
    ensures counted { (v : ℕ) → counted_of tally.new.validators v ≡ counted_of tally.old.validators v }
    ensures many { count_changed tally.new.validators ≡ count_changed tally.old.validators }
    ensures room { tally.old.validator_room ≤ tally.new.validator_room }
{
    for place in tally.validators()..places {
        tally.push_validator();
    }
}

/// Notes that a validator changed, where it isn't noted yet. There is room for it.
#[tactic(auto, unfolding(crate::specs::UpdateLatestMessages::with_changed, crate::specs::inside::Noted::marked), using(crate::proofs::Noting::marking))]
fn mark_changed(inputs: &mut Inputs, tally: &mut Tally, validator: u64)
    requires inside { validator < length tally.old.validators }
    requires listed { (counted_of tally.old.validators validator).changed ≡ is_listed inputs.old.array.changed_validators validator }
    requires many { count_changed tally.old.validators ≡ length inputs.old.array.changed_validators }
    requires room { length tally.old.validators ≤ inputs.old.changed_room }
    ensures inputs { inputs.new ≡ record inputs.old { array = record inputs.old.array { changed_validators = with_changed inputs.old.array.changed_validators validator }; changed_room = inputs.new.changed_room } }
    ensures more { inputs.old.changed_room ≤ inputs.new.changed_room }
    ensures tally { tally.new ≡ record tally.old { validators = marked tally.old.validators validator } }
{
    if !tally.is_changed(validator as usize) {
        tally.mark(validator as usize);
        inputs.push_changed(validator);
    }
}

/// Takes a validator's message, and notes that it changed. There is room for it.
#[tactic(auto, using(crate::proofs::Noting::voting))]
pub(crate) fn note(inputs: &mut Inputs, tally: &mut Tally, validator: u64, message: Message)
    requires message_room { validator < inputs.old.message_room }
    requires changed_room { validator < inputs.old.changed_room }
    requires tally_room { validator < tally.old.validator_room }
    requires few { validator < 2 ^ 40 }
    requires node { message.node < length inputs.old.array.nodes }
    requires marks { length tally.old.validators ≤ inputs.old.changed_room }
    requires noted { IsNoted inputs.old.array tally.old }
    ensures array { inputs.new.array ≡ voted inputs.old.array validator message }
    ensures noted { IsNoted inputs.new.array tally.new }
    ensures node_room { tally.new.node_room ≡ tally.old.node_room }
    ensures validator_room { tally.old.validator_room ≤ tally.new.validator_room }
    ensures changed_more { inputs.old.changed_room ≤ inputs.new.changed_room }
    ensures marks { length tally.new.validators ≤ inputs.new.changed_room }
{
    pad(tally, validator as usize + 1);
    inputs.put_message(validator, message);
    mark_changed(inputs, tally, validator);
}

/// Silences a validator, and notes that it changed. There is room for it.
#[tactic(auto, using(crate::proofs::Silencing::silencing))]
pub(crate) fn note_silence(inputs: &mut Inputs, tally: &mut Tally, validator: u64)
    requires silenced_room { validator < inputs.old.silenced_room }
    requires changed_room { validator < inputs.old.changed_room }
    requires tally_room { validator < tally.old.validator_room }
    requires few { validator < 2 ^ 40 }
    requires marks { length tally.old.validators ≤ inputs.old.changed_room }
    requires noted { IsNoted inputs.old.array tally.old }
    ensures array { inputs.new.array ≡ silenced inputs.old.array validator }
    ensures noted { IsNoted inputs.new.array tally.new }
    ensures node_room { tally.new.node_room ≡ tally.old.node_room }
    ensures validator_room { tally.old.validator_room ≤ tally.new.validator_room }
    ensures changed_more { inputs.old.changed_room ≤ inputs.new.changed_room }
    ensures marks { length tally.new.validators ≤ inputs.new.changed_room }
{
    pad(tally, validator as usize + 1);
    inputs.put_silenced(validator);
    mark_changed(inputs, tally, validator);
}
