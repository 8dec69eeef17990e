//! The laws of links at one example, so that no condition of theirs is empty: two chains over four validators of equal
//! weight. The first finalises epoch 2 by a link to epoch 3; the second finalises epoch 5, whose link from genesis
//! surrounds that one. Validators 1 and 2 voted for both.

use beacon_types::{AttestationData, Checkpoint};
use ffg_law::{
    Link, VotedLink, finals_conflict, finals_convict, third_shared, thirds_overlap,
    votes_are_slashable,
};

const WEIGHTS: [u64; 4] = [10, 10, 10, 10];

const GENESIS: Checkpoint = Checkpoint {
    epoch: 0,
    root: [0; 32],
};

#[test]
fn what_two_sets_share(rt: HostRuntime) {
    let shared = (third_shared(&[0, 1], &[1, 2], &[5, 7, 9]) == 7)
        & (third_shared(&[0, 1, 2], &[1, 2, 3], &WEIGHTS) == 20)
        & (third_shared(&[], &[1, 2, 3], &WEIGHTS) == 0)
        & (third_shared(&[0, 9], &[9], &WEIGHTS) == 0);
    assert!(rt; shared);
    thirds_overlap(&[0, 1, 2], &[1, 2, 3], &WEIGHTS);
}

#[test]
fn two_chains_convict_a_third(_rt: HostRuntime) {
    let a2 = Checkpoint {
        epoch: 2,
        root: [1; 32],
    };
    let a3 = Checkpoint {
        epoch: 3,
        root: [1; 32],
    };
    let b5 = Checkpoint {
        epoch: 5,
        root: [2; 32],
    };
    let b6 = Checkpoint {
        epoch: 6,
        root: [2; 32],
    };
    let first = [
        Link {
            source: a2,
            target: a3,
        },
        Link {
            source: GENESIS,
            target: a2,
        },
    ];
    let second = [
        Link {
            source: b5,
            target: b6,
        },
        Link {
            source: GENESIS,
            target: b5,
        },
    ];
    let inner = AttestationData {
        slot: 24,
        index: 0,
        beacon_block_root: [1; 32],
        source: a2,
        target: a3,
    };
    let outer = AttestationData {
        slot: 40,
        index: 0,
        beacon_block_root: [2; 32],
        source: GENESIS,
        target: b5,
    };
    votes_are_slashable(&inner, &outer);
    finals_conflict(GENESIS, &first, &second, a2, b5);
    let first_voters = [0, 1, 2];
    let second_voters = [1, 2, 3];
    let first_votes = [
        VotedLink {
            link: first[0],
            validators: &first_voters,
        },
        VotedLink {
            link: first[1],
            validators: &first_voters,
        },
    ];
    let second_votes = [
        VotedLink {
            link: second[0],
            validators: &second_voters,
        },
        VotedLink {
            link: second[1],
            validators: &second_voters,
        },
    ];
    finals_convict(GENESIS, &first_votes, &second_votes, a2, b5, &WEIGHTS);
}
