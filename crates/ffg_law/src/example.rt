//! The laws at one example, so that no condition of theirs is empty.

ghost use Rattle.std.specs.Prelude.{◌<◌, ◌∷◌, []};
ghost use Rattle.ffg_law.specs.Links.{AThirdIsConvicted};
ghost use Rattle.ffg_law.specs.Histories.{IsHistory, IsLarge, finalized_of, made_by};
ghost use Rattle.ffg_law.specs.inside.TwoHistories.{first_history, second_history, four_weights};

use crate::laws::a_third_is_convicted;

/// Two histories of five epochs over four validators of equal weight, which finalise checkpoints, convict a third: `a_third_is_convicted`
/// at values. The first finalises epoch 2 by a link to epoch 3; the second finalises epoch 5, whose link from genesis surrounds that
/// one. Validators 1 and 2 voted for both. It does nothing when it runs.
pub fn two_histories()
    ensures large { IsLarge 1 four_weights }
    ensures first { IsHistory 1 four_weights first_history }
    ensures second { IsHistory 1 four_weights second_history }
    ensures first_final { 0 < (finalized_of first_history).epoch }
    ensures second_final { 0 < (finalized_of second_history).epoch }
    ensures convicted { AThirdIsConvicted four_weights (made_by 1 four_weights first_history) (made_by 1 four_weights second_history) }
{
    a_third_is_convicted();
}
