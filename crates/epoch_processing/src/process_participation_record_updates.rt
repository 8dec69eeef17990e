//! The rotation of the pending attestations (beacon-chain.md, "process_participation_record_updates").

ghost use Rattle.std.specs.Prelude.{◌≡◌};
ghost use Rattle.bc_words.specs.Outcome.{Changes, done};
ghost use Rattle.spec_epochs.specs.ProcessParticipationRecordUpdates.{process_participation_record_updates};

use bc_words::Stop;
use beacon_state::State;

/// The attestations of the current epoch become those of the previous one, and the current epoch has none
/// (beacon-chain.md, `process_participation_record_updates`). It refuses nothing.
#[tactic(auto, unfolding(spec_epochs::specs::ProcessParticipationRecordUpdates::process_participation_record_updates))]
pub fn process_rotation(state: &mut State) -> Result<(), Stop>
    ensures { Changes result state.old state.new (done (process_participation_record_updates state.old)) }
{
    state.rotate_attestations()?;
    Ok(())
}
