//! What a maker gives: an event, and for a block the step that was made for it, which whoever keeps the state before it may take.

ghost use Rattle.std.specs.Prelude.{◌≡◌, None};

use beacon_types::SignedBeaconBlock;
use record_file::Event;
use transition::Step;

/// A block, and the step by it from the state behind the block before it.
#[derive(Drop)]
pub struct SteppedBlock {
    /// The block.
    pub block: SignedBeaconBlock,
    /// The step.
    pub step: Step,
}

/// An event, and its block with its step where it is one.
#[derive(Drop)]
pub struct Given {
    /// The event.
    pub event: Event,
    /// The block.
    pub stepped: Option<SteppedBlock>,
}

/// An event that is no block.
pub(crate) fn no_block(event: Event) -> Given
    ensures event { result.event ≡ event }
    ensures none { result.stepped ≡ None }
{
    Given {
        event,
        stepped: None,
    }
}
