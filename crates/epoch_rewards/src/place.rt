//! What a table keeps of a validator.

ghost use Rattle.std.specs.Prelude.{◌≡◌, false};
ghost use Rattle.epoch_rewards.specs.declared.table.Shown.{Shown};
ghost use Rattle.epoch_rewards.specs.inside.Statuses.{absent, noted, target_noted};

use crate::inclusions::better;
use crate::table::{Shown, Status};

/// What a table keeps of a validator.
pub(crate) trait Place: Copy {
    /// Of one that attests in no attestation.
    ghost blank: { Self };

    /// What is kept, with what an attestation shows.
    ghost noting: { Self → Shown → Self };

    /// What is kept, with what an attestation shows.
    fn noted(self, shown: Shown) -> Self
        ensures { result ≡ noting self shown };
}

/// All that is shown.
impl Place for Status {
    ghost blank = { absent };

    ghost noting = { noted };

    #[tactic(auto, unfolding(crate::specs::inside::Statuses::noted))]
    fn noted(self, shown: Shown) -> Self {
        Status {
            source: true,
            target: self.target || shown.target,
            head: self.head || shown.head,
            inclusion: better(self.inclusion, shown.inclusion),
        }
    }
}

/// A flag: whether the target is right.
impl Place for bool {
    ghost blank = { false };

    ghost noting = { target_noted };

    #[tactic(auto, unfolding(crate::specs::inside::Statuses::target_noted))]
    fn noted(self, shown: Shown) -> Self {
        self || shown.target
    }
}
