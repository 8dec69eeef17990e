//! The law of the committees of an epoch.

ghost use Rattle.duties.specs.Duties.{StandOnceInDuties};

/// Each validator that is active at an epoch stands in exactly one of its committees, at one place of it, and nobody else
/// stands in any. It does nothing when it runs.
pub fn validators_stand_once()
    ensures { StandOnceInDuties }
{}
