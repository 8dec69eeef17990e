//! Votes of one validator, and the offence that they make.

ghost use Rattle.std.specs.Prelude.{◌≡◌, ◌<◌, ◌^◌, length};

use bc_words::{NoMemory, Steps};
use beacon_types::{AttestationData, Checkpoint};
use forensics::AllSpans;
use std::alloc::Global;
use std::marker::Brand;
use std::process::Abort;
use std::sync::ledger::{Blank, Ledger};
use std::test::Fail;

/// A vote by its two epochs and what it votes for.
fn vote(source: u64, target: u64, head: u8) -> AttestationData {
    AttestationData {
        slot: 0,
        index: 0,
        beacon_block_root: [head; 32],
        source: Checkpoint {
            epoch: source,
            root: [0; 32],
        },
        target: Checkpoint {
            epoch: target,
            root: [0; 32],
        },
    }
}

/// The two votes of validator 1 that are named, if there are such.
fn offence_of<L: Ledger>(
    alloc: Global,
    votes: &[(u64, u64, u8)],
    steps: &mut Steps<L>,
) -> Result<Option<(u32, u32)>, NoMemory>
    requires { length votes.now < 64 }
{
    let mut all = AllSpans::new(alloc, 2)?;
    for (source, target, head) in votes {
        all.add(vote(*source, *target, *head), &[1], steps)?;
    }
    Ok(all.slashable(1))
}

/// Each row names the expected two votes.
fn rows_hold<L: Ledger>(rt: &(impl AllocGlobal + Abort), blank: Blank) -> Result<(), Fail>
    requires name { blank.name ≡ L.name }
    requires parts { blank.parts ≡ L.parts }
    requires some { 0 < blank.parts }
{
    let mut steps = Steps::<L>::new(blank);
    let alloc = rt.alloc();
    assert!(rt; offence_of(alloc, &[(1, 4, 0), (2, 3, 0)], &mut steps)? == Some((0, 1)));
    assert!(rt; offence_of(alloc, &[(1, 3, 0), (2, 3, 0), (0, 5, 0)], &mut steps)? == Some((0, 1)));
    assert!(rt; offence_of(alloc, &[(2, 3, 0), (3, 4, 0), (1, 5, 0)], &mut steps)? == Some((0, 2)));
    assert!(rt; offence_of(alloc, &[(1, 2, 0), (1, 2, 0)], &mut steps)? == None);
    assert!(rt; offence_of(alloc, &[(1, 2, 0), (1, 2, 1)], &mut steps)? == Some((0, 1)));
    assert!(rt; offence_of(alloc, &[(2, 5, 0), (2, 4, 0), (1, 6, 0)], &mut steps)? == Some((0, 2)));
    assert!(rt;
        offence_of(
            alloc,
            &[(9, 9, 0), (0, 1, 0), (3, 7, 0), (0, 1, 0), (2, 3, 0)],
            &mut steps
        )? == None
    );
    assert!(rt;
        offence_of(
            alloc,
            &[(9, 9, 0), (3, 7, 0), (0, 1, 0), (4, 6, 0), (2, 8, 0)],
            &mut steps
        )? == Some((1, 3))
    );
    assert!(rt; offence_of(alloc, &[(5, 3, 0), (4, 4, 0)], &mut steps)? == Some((0, 1)));
    assert!(rt;
        offence_of(
            alloc,
            &[
                (18446744073709551615, 18446744073709551615, 0),
                (0, 18446744073709551615, 0)
            ],
            &mut steps
        )? == Some((0, 1))
    );
    Ok(())
}

#[test]
fn pairs_of_rows(rt: HostRuntime) -> Result<(), Fail> {
    rows_hold::<Brand>(&rt, Blank::new(1))
}
