//! What the statuses say.

use bc_preset::{ConfigFault, Key};
use bc_words::{ClashKind, Limit, Refusal};
use command_arguments::Command;
use command_words::read_command;
use duties::DutiesFault;
use one_chain::Status;
use record_file::RecordFault;
use spec_fork_choice::AnchorFault;
use spec_genesis::DepositsFault;
use spec_state::GenesisFault;
use status_words::{Cause, Explanation};
use std::alloc::{AllocError, Global};
use std::io::{Error, ErrorKind};
use std::test::Fail;

/// A status, its cause, which may have the name of a file, the event at which the record was, and what it says.
type Row = (
    Status,
    Option<Option<&'static str>>,
    Option<u64>,
    &'static str,
);

/// The rows of `replay c g r`.
const REPLAY: &[Row] = &[
    (
        Status::Config(ConfigFault::TooLong),
        None,
        None,
        "Config: \"c\": the file is longer than 65536 bytes",
    ),
    (
        Status::Genesis(GenesisFault::NotAWriting),
        None,
        None,
        "Genesis: \"g\": the bytes are no state of the preset: the file has 7056 bytes, and a state has at least 7057 under the preset minimal and 2687377 under mainnet",
    ),
    (
        Status::Genesis(GenesisFault::Slot),
        None,
        None,
        "Genesis: \"g\": the slot is not 0",
    ),
    (
        Status::Record {
            which: 0,
            event: 2,
            fault: RecordFault::Torn,
        },
        None,
        None,
        "Record: \"r\": event 2: the record ends inside the event",
    ),
    (
        Status::Record {
            which: 0,
            event: 0,
            fault: RecordFault::BadMagic,
        },
        None,
        None,
        "Record: \"r\": at its head: a record begins with BCR1 or BCR2",
    ),
    (
        Status::ReadFault,
        Some(Some("g")),
        None,
        "ReadFault: \"g\": entity not found",
    ),
    (
        Status::WriteFault,
        Some(None),
        None,
        "WriteFault: the lines could not be written: entity not found",
    ),
    (
        Status::Words,
        None,
        None,
        "Words: no command is named; the commands are `replay CONFIG GENESIS RECORD` `drill NUMBER CONFIG` `genesis CONFIG DEPOSITS` `duties CONFIG STATE EPOCH` `anchor CONFIG STATE BLOCK RECORD` `forensic CONFIG GENESIS A B` `nodes NUMBER COUNT CONFIG` `slasher CONFIG GENESIS A B`",
    ),
    (
        Status::NoMemory,
        None,
        None,
        "NoMemory: \"g\": memory ran out",
    ),
    (
        Status::NoMemory,
        None,
        Some(3),
        "NoMemory: \"r\": event 3: memory ran out",
    ),
    (
        Status::ReadFault,
        Some(Some("r")),
        Some(3),
        "ReadFault: event 3: \"r\": entity not found",
    ),
    (
        Status::WriteFault,
        None,
        Some(u64::MAX),
        "WriteFault: event 18446744073709551615: the lines could not be written",
    ),
    (
        Status::Limit {
            which: 0,
            event: 6,
            limit: Limit::Slots(65_537),
        },
        None,
        None,
        "Limit: \"r\": event 6: it needs 65537 slots, and at most 65536 are gone through at once",
    ),
    (
        Status::Limit {
            which: 0,
            event: 2,
            limit: Limit::Proposer,
        },
        None,
        None,
        "Limit: \"r\": event 2: none of the first 65536 candidates for the slot's proposer passes",
    ),
    (
        Status::Clash {
            which: 0,
            event: 0,
            kind: ClashKind::ZeroBlock,
            kept_which: 0,
        },
        None,
        None,
        "Clash: \"g\": the genesis block: the block's root is zero",
    ),
    (
        Status::Clash {
            which: 0,
            event: 4,
            kind: ClashKind::ZeroState,
            kept_which: 0,
        },
        None,
        None,
        "Clash: \"r\": event 4: the block's state root is zero",
    ),
    (
        Status::Clash {
            which: 0,
            event: 4,
            kind: ClashKind::Kept(2),
            kept_which: 0,
        },
        None,
        None,
        "Clash: \"r\": event 4: the block has the root of the accepted block 2, and is another one",
    ),
];

/// The rows of `drill 0 c`.
const DRILL: &[Row] = &[
    (
        Status::Config(ConfigFault::OutOfRange(Key::EjectionBalance)),
        None,
        None,
        "Config: \"c\": EJECTION_BALANCE is out of range: expected less than 32000000000, the balance of the made validators",
    ),
    (
        Status::Limit {
            which: 0,
            event: 6,
            limit: Limit::Proposer,
        },
        None,
        None,
        "Limit: the made chain: event 6: none of the first 65536 candidates for the slot's proposer passes",
    ),
    (
        Status::Clash {
            which: 0,
            event: 0,
            kind: ClashKind::ZeroState,
            kept_which: 0,
        },
        None,
        None,
        "Clash: the made genesis: the genesis block: the block's state root is zero",
    ),
];

/// The statuses of `genesis c d` where the file of deposits has so many bytes, and what each says.
const DEPOSITS: &[(Status, usize, &str)] = &[
    (
        Status::Deposits(DepositsFault::TooLong),
        1_073_741_825,
        "Deposits: \"d\": the file has more than 1073741824 bytes",
    ),
    (
        Status::Deposits(DepositsFault::BadMagic),
        2,
        "Deposits: \"d\": the file does not begin with BCD1",
    ),
    (
        Status::Deposits(DepositsFault::Torn),
        16,
        "Deposits: \"d\": the file ends within its head or within a deposit: it has 16 bytes, and its head has 48",
    ),
    (
        Status::Deposits(DepositsFault::Torn),
        415,
        "Deposits: \"d\": the file ends within its head or within a deposit: it has 415 bytes, the last 183 of which are of deposit 1, and a deposit has 184",
    ),
    (
        Status::Deposits(DepositsFault::Overflow(1)),
        416,
        "Deposits: \"d\": the amount of deposit 1 does not fit into the balance of its key: the deposit stands behind the file's first 232 bytes",
    ),
];

/// The rows of `duties c s 7`.
const DUTIES: &[Row] = &[
    (
        Status::Duties(DutiesFault::NotAWriting),
        None,
        None,
        "Duties: \"s\": the bytes are no state: the file has 7056 bytes, and a state has at least 7057 under the preset minimal and 2687377 under mainnet",
    ),
    (
        Status::Duties(DutiesFault::Unsound),
        None,
        None,
        "Duties: \"s\": the state is not sound",
    ),
    (
        Status::Duties(DutiesFault::Epoch),
        None,
        None,
        "Duties: \"s\": epoch 7: the epoch is neither the state's current one nor the next",
    ),
    (
        Status::Duties(DutiesFault::Refused(Refusal::NoActive)),
        None,
        None,
        "Duties: \"s\": epoch 7: refused 8 NoActive: nobody is active, so that no one can propose",
    ),
    (
        Status::Limit {
            which: 0,
            event: 0,
            limit: Limit::Proposer,
        },
        None,
        None,
        "Limit: \"s\": epoch 7: none of the first 65536 candidates for the slot's proposer passes",
    ),
];

/// The rows of `anchor c s b r`.
const ANCHOR: &[Row] = &[
    (
        Status::Anchor(AnchorFault::StateNotAWriting),
        None,
        None,
        "Anchor: \"s\": the bytes are no state of the preset: the file has 7056 bytes, and a state has at least 7057 under the preset minimal and 2687377 under mainnet",
    ),
    (
        Status::Anchor(AnchorFault::BlockNotAWriting),
        None,
        None,
        "Anchor: \"b\": the bytes are no block without its signature",
    ),
    (
        Status::Anchor(AnchorFault::EpochStart(15)),
        None,
        None,
        "Anchor: \"s\": the state's slot 15 is not the first of its epoch",
    ),
    (
        Status::Anchor(AnchorFault::BlockSlot(16, 17)),
        None,
        None,
        "Anchor: \"s\" and \"b\": the state is of slot 16, and the block of slot 17",
    ),
    (
        Status::Anchor(AnchorFault::Unsound),
        None,
        None,
        "Anchor: \"s\": the state is not sound",
    ),
    (
        Status::Anchor(AnchorFault::StateRoot([171; 32], [7; 32])),
        None,
        None,
        "Anchor: \"s\" and \"b\": the block's state root is not the state's root: by the state 0xabababababababababababababababababababababababababababababababab, by the block 0x0707070707070707070707070707070707070707070707070707070707070707",
    ),
    (
        Status::Anchor(AnchorFault::Header([1; 32], [0; 32])),
        None,
        None,
        "Anchor: \"s\" and \"b\": the state's latest block is another one: by the state 0x0101010101010101010101010101010101010101010101010101010101010101, by the block 0x0000000000000000000000000000000000000000000000000000000000000000",
    ),
    (
        Status::Anchor(AnchorFault::Time(18_446_744_073_709_551_615, 8)),
        None,
        None,
        "Anchor: \"s\": the genesis time 18446744073709551615 and the seconds up to slot 8 do not fit in 64 bits",
    ),
    (
        Status::Clash {
            which: 0,
            event: 0,
            kind: ClashKind::ZeroState,
            kept_which: 0,
        },
        None,
        None,
        "Clash: \"s\": the anchor's block: the block's state root is zero",
    ),
    (
        Status::Record {
            which: 0,
            event: 2,
            fault: RecordFault::Torn,
        },
        None,
        None,
        "Record: \"r\": event 2: the record ends inside the event",
    ),
];

/// The rows of `forensic c g a b`.
const FORENSIC: &[Row] = &[
    (
        Status::Record {
            which: 0,
            event: 0,
            fault: RecordFault::BadMagic,
        },
        None,
        None,
        "Record: \"a\": at its head: a record begins with BCR1 or BCR2",
    ),
    (
        Status::Record {
            which: 1,
            event: 2,
            fault: RecordFault::Torn,
        },
        None,
        None,
        "Record: \"b\": event 2: the record ends inside the event",
    ),
    (
        Status::Limit {
            which: 1,
            event: 6,
            limit: Limit::Slots(65_537),
        },
        None,
        None,
        "Limit: \"b\": event 6: it needs 65537 slots, and at most 65536 are gone through at once",
    ),
    (
        Status::Clash {
            which: 1,
            event: 4,
            kind: ClashKind::Kept(2),
            kept_which: 0,
        },
        None,
        None,
        "Clash: \"b\": event 4: the block has the root of the accepted block 2 of \"a\", and is another one",
    ),
    (
        Status::Clash {
            which: 1,
            event: 4,
            kind: ClashKind::Kept(2),
            kept_which: 1,
        },
        None,
        None,
        "Clash: \"b\": event 4: the block has the root of the accepted block 2, and is another one",
    ),
];

/// Command words.
fn words_of(alloc: Global, line: &str) -> Result<Vec<String>, AllocError> {
    let mut words = Vec::new(alloc);
    for word in line.split(' ') {
        words.push(String::from_str(alloc, word)?)?;
    }
    Ok(words)
}

/// Whether an explanation says this.
fn says(alloc: Global, explanation: &Explanation<'_, '_>, text: &str) -> bool {
    match format!(in alloc; "{explanation}") {
        Ok(said) => said.as_str() == text,
        Err(_refused) => false,
    }
}

/// The cause of this name, if there is one.
fn cause_of<'a>(cause: Option<Option<&'a str>>, error: &'a Error) -> Option<Cause<'a>> {
    match cause {
        Some(name) => Some(Cause { name, error }),
        None => None,
    }
}

/// Whether these rows say what they have to, for this command, whose second file has 7056 bytes, where what failed was not found.
fn rows_hold<'a, 'b>(
    alloc: Global,
    rows: &'a [(Status, Option<Option<&'b str>>, Option<u64>, &'a str)],
    command: Command<'a>,
    error: &'b Error,
) -> bool {
    let mut all = true;
    for (status, cause, event, text) in rows.iter() {
        let explanation = Explanation {
            status,
            command: Some(command),
            wrong: None,
            cause: cause_of(*cause, error),
            event: *event,
            genesis_len: Some(7056),
        };
        all &= says(alloc, &explanation, text);
    }
    all
}

/// Whether the rows of deposits say what they have to, for this command.
fn deposits_hold(alloc: Global, command: Command<'_>) -> bool {
    let mut all = true;
    for (status, len, text) in DEPOSITS.iter() {
        let explanation = Explanation {
            status,
            command: Some(command),
            wrong: None,
            cause: None,
            event: None,
            genesis_len: Some(*len),
        };
        all &= says(alloc, &explanation, text);
    }
    all
}

#[test]
fn replay_statuses(rt: HostRuntime) -> Result<(), Fail> {
    let words = words_of(rt.alloc(), "replay c g r")?;
    let error = Error::from(ErrorKind::NotFound);
    let command = read_command(rt.alloc(), &words)
        .ok()
        .expect(&rt, "a command");
    let holds = rows_hold(rt.alloc(), REPLAY, command, &error);
    assert!(rt; holds);
    Ok(())
}

#[test]
fn drill_statuses(rt: HostRuntime) -> Result<(), Fail> {
    let words = words_of(rt.alloc(), "drill 0 c")?;
    let error = Error::from(ErrorKind::NotFound);
    let command = read_command(rt.alloc(), &words)
        .ok()
        .expect(&rt, "a command");
    let holds = rows_hold(rt.alloc(), DRILL, command, &error);
    assert!(rt; holds);
    Ok(())
}

#[test]
fn duties_statuses(rt: HostRuntime) -> Result<(), Fail> {
    let words = words_of(rt.alloc(), "duties c s 7")?;
    let error = Error::from(ErrorKind::NotFound);
    let command = read_command(rt.alloc(), &words)
        .ok()
        .expect(&rt, "a command");
    let holds = rows_hold(rt.alloc(), DUTIES, command, &error);
    assert!(rt; holds);
    Ok(())
}

#[test]
fn anchor_statuses(rt: HostRuntime) -> Result<(), Fail> {
    let words = words_of(rt.alloc(), "anchor c s b r")?;
    let error = Error::from(ErrorKind::NotFound);
    let command = read_command(rt.alloc(), &words)
        .ok()
        .expect(&rt, "a command");
    let holds = rows_hold(rt.alloc(), ANCHOR, command, &error);
    assert!(rt; holds);
    Ok(())
}

#[test]
fn forensic_statuses(rt: HostRuntime) -> Result<(), Fail> {
    let words = words_of(rt.alloc(), "forensic c g a b")?;
    let error = Error::from(ErrorKind::NotFound);
    let command = read_command(rt.alloc(), &words)
        .ok()
        .expect(&rt, "a command");
    let holds = rows_hold(rt.alloc(), FORENSIC, command, &error);
    assert!(rt; holds);
    Ok(())
}

#[test]
fn deposits_statuses(rt: HostRuntime) -> Result<(), Fail> {
    let words = words_of(rt.alloc(), "genesis c d")?;
    let command = read_command(rt.alloc(), &words)
        .ok()
        .expect(&rt, "a command");
    let holds = deposits_hold(rt.alloc(), command);
    assert!(rt; holds);
    Ok(())
}
