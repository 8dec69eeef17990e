//! What two epochs' attesters justify and make final (beacon-chain.md, "weigh_justification_and_finalization").

ghost use Rattle.std.specs.Prelude.{◌≡◌, ◌≤◌, ◌<◌, ◌^◌, length};
ghost use Rattle.bc_words.specs.Outcome.{GivesOrRefuses};
ghost use Rattle.spec_epochs.specs.Weigh.{reaches_two_thirds, shifted, justified_where, finalized_by, finalizing, previous_of, weigh};

use bc_words::Refusal;
use beacon_types::Checkpoint;
use hash_tree::Root;
use spec_epochs::Justification;

/// Whether a part of the total is at least two thirds of it. Refused exactly where a product does not fit.
#[tactic(auto, unfolding(spec_epochs::specs::Weigh::reaches_two_thirds, bc_words::specs::Outcome::checked_mul))]
fn reaches_two_thirds(part: u64, total: u64) -> Result<bool, Refusal>
    ensures { GivesOrRefuses result (reaches_two_thirds part total) }
{
    let thrice = part.checked_mul(3).ok_or(Refusal::Overflow)?;
    let twice = total.checked_mul(2).ok_or(Refusal::Overflow)?;
    Ok(twice <= thrice)
}

/// The record an epoch later: each bit moves up a place, and what was justified last was justified before.
#[tactic(auto, unfolding(spec_epochs::specs::Weigh::shifted))]
fn shifted(j: &Justification) -> Justification
    ensures { result ≡ shifted j.now }
{
    let [first, second, third, _] = j.bits;
    Justification {
        bits: [false, first, second, third],
        previous: j.current,
        current: j.current,
        finalized: j.finalized,
    }
}

/// The record in which the epoch that is so many before the current one is justified, where its attesters are enough.
#[tactic(auto, unfolding(spec_epochs::specs::Weigh::justified_where))]
fn justified_where(
    enough: bool,
    j: Justification,
    back: usize,
    checkpoint: Checkpoint,
) -> Justification
    requires { back < 4 }
    ensures { result ≡ justified_where enough j back checkpoint }
{
    let mut next = j;
    if enough {
        next.bits[back] = true;
        next.current = checkpoint;
    }
    next
}

/// The checkpoint that is final by the bits, the later cases before the earlier ones.
#[tactic(auto, unfolding(spec_epochs::specs::Weigh::finalized_by))]
fn finalized_by(
    bits: &[bool; 4],
    epoch: u64,
    old_previous: &Checkpoint,
    old_current: &Checkpoint,
    finalized: Checkpoint,
) -> Checkpoint
    requires previous { old_previous.now.epoch ≤ 2 ^ 61 }
    requires current { old_current.now.epoch ≤ 2 ^ 61 }
    ensures { result ≡ finalized_by bits.now epoch old_previous.now old_current.now finalized }
{
    let [first, second, third, fourth] = *bits;
    if first && second && old_current.epoch + 1 == epoch {
        return *old_current;
    }
    if first && second && third && old_current.epoch + 2 == epoch {
        return *old_current;
    }
    if second && third && old_previous.epoch + 2 == epoch {
        return *old_previous;
    }
    if second && third && fourth && old_previous.epoch + 3 == epoch {
        return *old_previous;
    }
    finalized
}

/// The record behind justification alone: the previous epoch, and then the current one, is justified where the balance of
/// its attesters is at least two thirds of the total.
#[tactic(auto, unfolding(spec_epochs::specs::Weigh::weigh))]
fn justify(
    j: &Justification,
    epoch: u64,
    previous_root: Root,
    current_root: Root,
    previous_enough: bool,
    current_enough: bool,
) -> Justification
    ensures { let before = justified_where previous_enough (shifted j.now) 1 (record { epoch = previous_of epoch; root = previous_root }) in
        result ≡ justified_where current_enough before 0 (record { epoch = epoch; root = current_root }) }
{
    let before = Checkpoint {
        epoch: epoch.saturating_sub(1),
        root: previous_root,
    };
    let after_previous = justified_where(previous_enough, shifted(j), 1, before);
    let now = Checkpoint {
        epoch,
        root: current_root,
    };
    justified_where(current_enough, after_previous, 0, now)
}

/// What an epoch's end does to the bits and checkpoints (beacon-chain.md, `weigh_justification_and_finalization`):
/// `previous_root` and `current_root` are those of the blocks at the beginning of the two epochs, `total` is the total
/// active balance, and `previous` and `current` are the balances of the attesters of those blocks, in Gwei.
///
/// Refused as an overflow exactly where three times a balance of attesters, or twice the total, does not fit.
#[tactic(auto, unfolding(spec_epochs::specs::Weigh::weigh, spec_epochs::specs::Weigh::finalizing))]
pub fn weigh(
    j: Justification,
    epoch: u64,
    previous_root: Root,
    current_root: Root,
    total: u64,
    previous: u64,
    current: u64,
) -> Result<Justification, Refusal>
    requires epoch { epoch ≤ 2 ^ 61 }
    requires previous { j.previous.epoch ≤ epoch }
    requires current { j.current.epoch ≤ epoch }
    ensures { GivesOrRefuses result (weigh j epoch previous_root current_root total previous current) }
{
    let previous_enough = reaches_two_thirds(previous, total)?;
    let current_enough = reaches_two_thirds(current, total)?;
    let mut next = justify(
        &j,
        epoch,
        previous_root,
        current_root,
        previous_enough,
        current_enough,
    );
    next.finalized = finalized_by(&next.bits, epoch, &j.previous, &j.current, next.finalized);
    Ok(next)
}
