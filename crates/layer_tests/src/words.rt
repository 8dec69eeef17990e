//! The words that the layers share, at rows of their tables.

use bc_words::{
    ClashKind, Limit, PushStop, Refusal, Stop, StoreStop, checked_add, checked_mul, checked_sub,
    checked_sum, isqrt,
};

#[test]
fn refusals_are_those_of_the_table(rt: HostRuntime) {
    let rows = [
        (Refusal::TickBack, (1, "TickBack")),
        (Refusal::NoActive, (8, "NoActive")),
        (Refusal::AtEmpty, (28, "AtEmpty")),
        (Refusal::Overflow, (35, "Overflow")),
        (Refusal::FcEmpty, (45, "FcEmpty")),
    ];
    for (refusal, row) in rows {
        assert!(rt; (refusal.number(), refusal.name()) == row);
    }
}

#[test]
fn square_roots_are_rounded_down(rt: HostRuntime) {
    for (n, root) in [
        (0, 0),
        (2_048_000_000_000, 1_431_083),
        (u64::MAX, 4_294_967_295),
    ] {
        assert!(rt; isqrt(n) == root);
    }
}

#[test]
fn numbers_that_do_not_fit_are_refused(rt: HostRuntime) {
    let overflow = Err(Stop::Refused(Refusal::Overflow));
    let rows = [
        (checked_add(u64::MAX, 1), overflow),
        (checked_sub(63, 64), overflow),
        (checked_mul(255, 32_000_000_000), Ok(8_160_000_000_000)),
        (checked_sum(&[4, 7, 7]), Ok(18)),
        (checked_sum(&[u64::MAX, 1]), overflow),
    ];
    for (found, expected) in rows {
        assert!(rt; found == expected);
    }
}

#[test]
fn stops_of_a_step_are_those_of_the_store(rt: HostRuntime) {
    let slots = Limit::Slots(65_537);
    let kept = ClashKind::Kept(3);
    let overflow = Refusal::Overflow;
    let rows = [
        (
            StoreStop::from(Stop::Refused(overflow)),
            StoreStop::Refused(overflow),
        ),
        (StoreStop::from(Stop::Limit(slots)), StoreStop::Limit(slots)),
        (StoreStop::from(Stop::NoMemory), StoreStop::NoMemory),
        (StoreStop::from(kept), StoreStop::Clash(kept)),
    ];
    for (found, expected) in rows {
        assert!(rt; found == expected);
    }
    let full = Stop::from(PushStop::Full);
    assert!(rt; full == Stop::Refused(Refusal::ListFull));
}
