//! What a status says to a person: its name, the file, the place in it, and the cause.

use crate::origin::{Origin, block_of, config_of, first_block, genesis_of, record_of};
use bc_preset::constants::{MAX_PROPOSER_CANDIDATES, MAX_SLOTS};
use bc_preset::{ConfigFault, Key, Preset};
use bc_words::{ClashKind, Limit, Refusal};
use beacon_state::shortest_state;
use command_arguments::Command;
use command_words::COMMANDS;
use duties::DutiesFault;
use genesis_maker::{DEPOSIT_LEN, DEPOSITS_HEAD_LEN};
use one_chain::Status;
use record_file::RecordFault;
use spec_fork_choice::AnchorFault;
use spec_genesis::DepositsFault;
use spec_state::GenesisFault;
use std::fmt;
use std::io::Error;

/// Why the outside failed: the name of the file that was asked for, where it was one, and the operating system's cause.
#[derive(Clone, Copy)]
pub struct Cause<'a> {
    /// The file's name.
    pub name: Option<&'a str>,
    /// What the operating system said.
    pub error: &'a Error,
}

/// A status beside the command that it answers. It prints one line.
#[derive(Drop)]
pub struct Explanation<'a, 'b> {
    /// The status.
    pub status: &'a Status,
    /// The command that the words are, where they are one.
    pub command: Option<Command<'a>>,
    /// What is wrong with the words, where they are none and more is known of it.
    pub wrong: Option<&'a str>,
    /// Why the outside failed, where it is known.
    pub cause: Option<Cause<'b>>,
    /// The event that was read or whose line was written, where a record was opened that gives a line an event.
    pub event: Option<u64>,
    /// How many bytes were taken of the second file, which holds a state or deposits, where it was opened.
    pub genesis_len: Option<usize>,
}

/// What is wrong with the words, and the commands with their arguments.
fn write_words<W: fmt::Write>(f: &mut fmt::Formatter<W>, wrong: Option<&str>) -> fmt::Result {
    f.write_str(wrong.unwrap_or("no command is named"))?;
    f.write_str("; the commands are")?;
    for form in COMMANDS.iter() {
        write!(f, " `{form}`")?;
    }
    Ok(())
}

/// A fault of the outside, with what is known of its cause.
fn write_cause<W: fmt::Write>(
    f: &mut fmt::Formatter<W>,
    what: &str,
    event: Option<u64>,
    cause: Option<Cause<'_>>,
) -> fmt::Result {
    if let Some(event) = event {
        write!(f, "event {event}: ")?;
    }
    match cause {
        Some(
            Cause {
                name: Some(name),
                error,
            },
        ) => write!(f, "{name:?}: {error}"),
        Some(Cause { name: None, error }) => write!(f, "{what}: {error}"),
        None => f.write_str(what),
    }
}

/// An event of a record.
fn write_event<W: fmt::Write>(
    f: &mut fmt::Formatter<W>,
    record: Origin<'_>,
    event: u64,
) -> fmt::Result {
    write!(f, "{record}: event {event}: ")
}

/// Where memory ran out, as far as it is known: the event of the record, or the state or deposits that were read.
fn write_no_memory<W: fmt::Write>(
    f: &mut fmt::Formatter<W>,
    command: &Option<Command<'_>>,
    event: Option<u64>,
    len: Option<usize>,
) -> fmt::Result {
    match (event, len) {
        (Some(event), _) => write_event(f, record_of(command, 0), event)?,
        (None, Some(_)) => write!(f, "{}: ", genesis_of(command))?,
        (None, None) => {}
    }
    f.write_str("memory ran out")
}

/// A fault of the configuration. A chain is made only where its validators aren't ejected, whatever else the key allows.
fn write_config<W: fmt::Write>(
    f: &mut fmt::Formatter<W>,
    command: &Option<Command<'_>>,
    fault: ConfigFault,
) -> fmt::Result {
    write!(f, "{:?}: ", config_of(command))?;
    match (command, fault) {
        (
            Some(Command::Drill(_) | Command::Nodes(_)),
            ConfigFault::OutOfRange(Key::EjectionBalance),
        ) => f.write_str(
            "EJECTION_BALANCE is out of range: expected less than 32000000000, the balance of the made validators",
        ),
        _ => write!(f, "{fault}"),
    }
}

/// The size of a file that holds no state, where it is known, beside those that a state has at least.
fn write_sizes<W: fmt::Write>(f: &mut fmt::Formatter<W>, len: Option<usize>) -> fmt::Result {
    match len {
        Some(len) => {
            let minimal = shortest_state(&Preset::minimal());
            let mainnet = shortest_state(&Preset::mainnet());
            write!(
                f,
                ": the file has {len} bytes, and a state has at least {minimal} under the preset minimal and {mainnet} under mainnet"
            )
        }
        None => Ok(()),
    }
}

/// A fault of the genesis state; where the file holds no state, its size beside those that a state has at least.
fn write_genesis<W: fmt::Write>(
    f: &mut fmt::Formatter<W>,
    name: Origin<'_>,
    part: GenesisFault,
    len: Option<usize>,
) -> fmt::Result {
    write!(f, "{name}: {part}")?;
    match part {
        GenesisFault::NotAWriting => write_sizes(f, len),
        _ => Ok(()),
    }
}

/// A fault of a record, at its head or in an event.
fn write_record<W: fmt::Write>(
    f: &mut fmt::Formatter<W>,
    record: Origin<'_>,
    event: u32,
    fault: RecordFault,
) -> fmt::Result {
    if event == 0 {
        write!(f, "{record}: at its head: {fault}")
    } else {
        write_event(f, record, u64::from(event))?;
        write!(f, "{fault}")
    }
}

/// Where a file of deposits that has so many bytes ends too early.
fn write_torn<W: fmt::Write>(f: &mut fmt::Formatter<W>, len: usize) -> fmt::Result {
    match len.checked_sub(DEPOSITS_HEAD_LEN) {
        Some(rest) => {
            let (deposit, part) = (rest / DEPOSIT_LEN, rest % DEPOSIT_LEN);
            write!(
                f,
                ": it has {len} bytes, the last {part} of which are of deposit {deposit}, and a deposit has {DEPOSIT_LEN}"
            )
        }
        None => write!(
            f,
            ": it has {len} bytes, and its head has {DEPOSITS_HEAD_LEN}"
        ),
    }
}

/// A fault of a file of deposits, with its length or the place of the deposit. Deposits count from 0.
fn write_deposits<W: fmt::Write>(
    f: &mut fmt::Formatter<W>,
    deposits: Origin<'_>,
    fault: DepositsFault,
    len: Option<usize>,
) -> fmt::Result {
    write!(f, "{deposits}: {fault}")?;
    match (fault, len) {
        (DepositsFault::Torn, Some(len)) => write_torn(f, len),
        (DepositsFault::Overflow(deposit), _) => {
            let before = deposit.saturating_mul(DEPOSIT_LEN as u64);
            let begin = before.saturating_add(DEPOSITS_HEAD_LEN as u64);
            write!(
                f,
                ": the deposit stands behind the file's first {begin} bytes"
            )
        }
        _ => Ok(()),
    }
}

/// Where a bound of this program was met: the event of the record, or the epoch of the state.
fn write_place<W: fmt::Write>(
    f: &mut fmt::Formatter<W>,
    command: &Option<Command<'_>>,
    which: u8,
    event: u32,
) -> fmt::Result {
    match command {
        Some(Command::Duties(words)) => write!(f, "{:?}: epoch {}: ", words.state, words.epoch),
        _ => write_event(f, record_of(command, which), u64::from(event)),
    }
}

/// A bound of this program.
fn write_limit<W: fmt::Write>(f: &mut fmt::Formatter<W>, limit: Limit) -> fmt::Result {
    match limit {
        Limit::Slots(slots) => write!(
            f,
            "it needs {slots} slots, and at most {MAX_SLOTS} are gone through at once"
        ),
        Limit::Proposer => write!(
            f,
            "none of the first {MAX_PROPOSER_CANDIDATES} candidates for the slot's proposer passes"
        ),
    }
}

/// What a refusal of duties means.
fn write_refusal<W: fmt::Write>(f: &mut fmt::Formatter<W>, refusal: Refusal) -> fmt::Result {
    match refusal {
        Refusal::NoActive => f.write_str(": nobody is active, so that no one can propose"),
        Refusal::Overflow => f.write_str(
            ": the epoch's end, or the weight of a candidate's balance, doesn't fit in 64 bits",
        ),
        _ => Ok(()),
    }
}

/// The epoch of a fault of duties that is the epoch's.
fn write_epoch<W: fmt::Write>(
    f: &mut fmt::Formatter<W>,
    command: &Option<Command<'_>>,
    fault: DutiesFault,
) -> fmt::Result {
    match (fault, command) {
        (DutiesFault::Epoch | DutiesFault::Refused(_), Some(Command::Duties(words))) => {
            write!(f, "epoch {}: ", words.epoch)
        }
        _ => Ok(()),
    }
}

/// Why the duties of an epoch can't be told: of the state, with the file's size where it holds none, or of the epoch.
fn write_duties<W: fmt::Write>(
    f: &mut fmt::Formatter<W>,
    command: &Option<Command<'_>>,
    fault: DutiesFault,
    len: Option<usize>,
) -> fmt::Result {
    write!(f, "{}: ", genesis_of(command))?;
    write_epoch(f, command, fault)?;
    write!(f, "{fault}")?;
    match fault {
        DutiesFault::NotAWriting => write_sizes(f, len),
        DutiesFault::Refused(refusal) => write_refusal(f, refusal),
        _ => Ok(()),
    }
}

/// A root in hexadecimal.
fn write_root<W: fmt::Write>(f: &mut fmt::Formatter<W>, root: &[u8; 32]) -> fmt::Result {
    f.write_str("0x")?;
    for byte in root {
        write!(f, "{byte:02x}")?;
    }
    Ok(())
}

/// Two roots that aren't the same: that of the state's file, and that of the block's.
fn write_roots<W: fmt::Write>(
    f: &mut fmt::Formatter<W>,
    of_state: &[u8; 32],
    of_block: &[u8; 32],
) -> fmt::Result {
    f.write_str(": by the state ")?;
    write_root(f, of_state)?;
    f.write_str(", by the block ")?;
    write_root(f, of_block)
}

/// Which file of an anchor is wrong, or both where values of the two differ.
fn write_files<W: fmt::Write>(
    f: &mut fmt::Formatter<W>,
    command: &Option<Command<'_>>,
    fault: AnchorFault,
) -> fmt::Result {
    let (state, block) = (genesis_of(command), block_of(command));
    match fault {
        AnchorFault::BlockTooLong | AnchorFault::BlockNotAWriting => write!(f, "{block}"),
        AnchorFault::BlockSlot(_, _) | AnchorFault::StateRoot(_, _) | AnchorFault::Header(_, _) =>
            write!(f, "{state} and {block}"),
        _ => write!(f, "{state}"),
    }
}

/// Why a state and a block are no anchor: which file it is that is wrong, or which values of the two differ.
fn write_anchor<W: fmt::Write>(
    f: &mut fmt::Formatter<W>,
    command: &Option<Command<'_>>,
    fault: AnchorFault,
    len: Option<usize>,
) -> fmt::Result {
    write_files(f, command, fault)?;
    write!(f, ": {fault}")?;
    match fault {
        AnchorFault::StateRoot(of_state, of_block) | AnchorFault::Header(of_state, of_block) => {
            write_roots(f, &of_state, &of_block)
        }
        AnchorFault::StateNotAWriting => write_sizes(f, len),
        _ => Ok(()),
    }
}

/// The kept block whose root another block has: the first one, or one of its own record or of the first record.
fn write_kept<W: fmt::Write>(
    f: &mut fmt::Formatter<W>,
    first: &str,
    number: u32,
    kept: Option<Origin<'_>>,
) -> fmt::Result {
    f.write_str("the block has the root of ")?;
    match (number, kept) {
        (0, _) => f.write_str(first)?,
        (_, Some(record)) => write!(f, "the accepted block {number} of {record}")?,
        (_, None) => write!(f, "the accepted block {number}")?,
    }
    f.write_str(", and is another one")
}

/// The block whose root is no name for it alone: the first kept one, or that of an event.
fn write_block<W: fmt::Write>(
    f: &mut fmt::Formatter<W>,
    command: &Option<Command<'_>>,
    which: u8,
    event: u32,
) -> fmt::Result {
    if event == 0 {
        write!(f, "{}: {}: ", genesis_of(command), first_block(command))
    } else {
        write_event(f, record_of(command, which), u64::from(event))
    }
}

/// How the root of a block that would be accepted is no name for it alone. Event 0 is the first kept block. The kept block may be of
/// another record.
fn write_clash<W: fmt::Write>(
    f: &mut fmt::Formatter<W>,
    command: &Option<Command<'_>>,
    kind: ClashKind,
    kept: Option<Origin<'_>>,
) -> fmt::Result {
    match kind {
        ClashKind::ZeroBlock => f.write_str("the block's root is zero"),
        ClashKind::ZeroState => f.write_str("the block's state root is zero"),
        ClashKind::Kept(number) => write_kept(f, first_block(command), number, kept),
    }
}

impl fmt::Display for Explanation<'_, '_> {
    fn fmt<W: fmt::Write>(&self, f: &mut fmt::Formatter<W>) -> fmt::Result {
        let (command, len) = (&self.command, self.genesis_len);
        write!(f, "{}: ", self.status.name())?;
        match self.status {
            Status::Done => write!(f, "{}: to the end", record_of(command, 0)),
            Status::Words => write_words(f, self.wrong),
            Status::Config(fault) => write_config(f, command, *fault),
            Status::Genesis(part) => write_genesis(f, genesis_of(command), *part, len),
            Status::Record {
                which,
                event,
                fault,
            } => write_record(f, record_of(command, *which), *event, *fault),
            Status::Limit {
                which,
                event,
                limit,
            } => {
                write_place(f, command, *which, *event)?;
                write_limit(f, *limit)
            }
            Status::Clash {
                which,
                event,
                kind,
                kept_which,
            } => {
                let kept = if which == kept_which {
                    None
                } else {
                    Some(record_of(command, *kept_which))
                };
                write_block(f, command, *which, *event)?;
                write_clash(f, command, *kind, kept)
            }
            Status::Deposits(fault) => write_deposits(f, genesis_of(command), *fault, len),
            Status::Duties(fault) => write_duties(f, command, *fault, len),
            Status::Anchor(fault) => write_anchor(f, command, *fault, len),
            Status::ReadFault => {
                let what = "a file could not be opened or read";
                write_cause(f, what, self.event, self.cause)
            }
            Status::WriteFault => {
                let what = "the lines could not be written";
                write_cause(f, what, self.event, self.cause)
            }
            Status::NoMemory => write_no_memory(f, command, self.event, len),
        }
    }
}
