//! A status in the words of the cases: its number, its name, and its detail.

use bc_preset::ConfigFault;
use bc_words::{ClashKind, Limit};
use beacon_node::Status;
use duties::DutiesFault;
use record_file::RecordFault;
use spec_fork_choice::AnchorFault;
use spec_genesis::DepositsFault;
use spec_state::GenesisFault;
use std::alloc::{AllocError, Global};
use std::fmt;

/// A fault as the cases name it, with what it is about.
#[derive(Clone, Copy)]
enum Detail {
    /// Nothing more.
    Plain(&'static str),
    /// A number.
    Number(&'static str, u64),
    /// A key.
    Key(&'static str, &'static str),
}

impl fmt::Display for Detail {
    fn fmt<W: fmt::Write>(&self, f: &mut fmt::Formatter<W>) -> fmt::Result {
        match *self {
            Detail::Plain(name) => write!(f, "{name}"),
            Detail::Number(name, number) => write!(f, "{name}({number})"),
            Detail::Key(name, key) => write!(f, "{name}({key})"),
        }
    }
}

/// A configuration's fault.
fn config_detail(fault: ConfigFault) -> Detail {
    match fault {
        ConfigFault::TooLong => Detail::Plain("TooLong"),
        ConfigFault::BadLine(line) => Detail::Number("BadLine", line),
        ConfigFault::Twice(line) => Detail::Number("Twice", line),
        ConfigFault::BadNumber(line) => Detail::Number("BadNumber", line),
        ConfigFault::BadPreset(line) => Detail::Number("BadPreset", line),
        ConfigFault::Missing(key) => Detail::Key("Missing", key.name()),
        ConfigFault::OutOfRange(key) => Detail::Key("OutOfRange", key.name()),
    }
}

/// A part of a genesis state.
fn genesis_detail(part: GenesisFault) -> Detail {
    match part {
        GenesisFault::TooLong => Detail::Plain("TooLong"),
        GenesisFault::NotAWriting => Detail::Plain("NotAWriting"),
        GenesisFault::Slot => Detail::Plain("Slot"),
        GenesisFault::Header => Detail::Plain("Header"),
        GenesisFault::Checkpoints => Detail::Plain("Checkpoints"),
        GenesisFault::Bits => Detail::Plain("Bits"),
        GenesisFault::Slashings => Detail::Plain("Slashings"),
        GenesisFault::Lists => Detail::Plain("Lists"),
        GenesisFault::Balances => Detail::Plain("Balances"),
        GenesisFault::Validator(index, _) => Detail::Number("Validator", index),
    }
}

/// A record's fault.
fn record_detail(fault: RecordFault) -> Detail {
    match fault {
        RecordFault::BadMagic => Detail::Plain("BadMagic"),
        RecordFault::TooMany => Detail::Plain("TooMany"),
        RecordFault::BadKind(kind) => Detail::Number("BadKind", u64::from(kind)),
        RecordFault::Torn => Detail::Plain("Torn"),
        RecordFault::TooLong(len) => Detail::Number("TooLong", u64::from(len)),
    }
}

/// A fault of a file of deposits.
fn deposits_detail(fault: DepositsFault) -> Detail {
    match fault {
        DepositsFault::TooLong => Detail::Plain("TooLong"),
        DepositsFault::BadMagic => Detail::Plain("BadMagic"),
        DepositsFault::Torn => Detail::Plain("Torn"),
        DepositsFault::Overflow(index) => Detail::Number("Overflow", index),
    }
}

/// A bound.
fn limit_detail(limit: Limit) -> Detail {
    match limit {
        Limit::Slots(count) => Detail::Number("Slots", count),
        Limit::Proposer => Detail::Plain("Proposer"),
    }
}

/// How a block clashes.
fn clash_detail(kind: ClashKind) -> Detail {
    match kind {
        ClashKind::ZeroBlock => Detail::Plain("ZeroBlock"),
        ClashKind::ZeroState => Detail::Plain("ZeroState"),
        ClashKind::Kept(number) => Detail::Number("Kept", u64::from(number)),
    }
}

/// Why duties can't be told.
fn duties_detail(fault: DutiesFault) -> Detail {
    match fault {
        DutiesFault::TooLong => Detail::Plain("TooLong"),
        DutiesFault::NotAWriting => Detail::Plain("NotAWriting"),
        DutiesFault::Unsound => Detail::Plain("Unsound"),
        DutiesFault::Epoch => Detail::Plain("Epoch"),
        DutiesFault::Refused(why) => Detail::Number("Refused", u64::from(why.number())),
    }
}

/// Why a state and a block are no anchor.
fn anchor_detail(fault: AnchorFault) -> Detail {
    match fault {
        AnchorFault::StateTooLong => Detail::Plain("StateTooLong"),
        AnchorFault::StateNotAWriting => Detail::Plain("StateNotAWriting"),
        AnchorFault::BlockTooLong => Detail::Plain("BlockTooLong"),
        AnchorFault::BlockNotAWriting => Detail::Plain("BlockNotAWriting"),
        AnchorFault::EpochStart(_) => Detail::Plain("EpochStart"),
        AnchorFault::BlockSlot(_, _) => Detail::Plain("BlockSlot"),
        AnchorFault::Unsound => Detail::Plain("Unsound"),
        AnchorFault::StateRoot(_, _) => Detail::Plain("StateRoot"),
        AnchorFault::Header(_, _) => Detail::Plain("Header"),
        AnchorFault::Time(_, _) => Detail::Plain("Time"),
    }
}

/// The status as the cases write it.
pub fn status_text(alloc: Global, status: &Status) -> Result<String, AllocError> {
    let number = status.number();
    let name = status.name();
    match status {
        Status::Config(fault) => {
            let fault = config_detail(*fault);
            format!(in alloc; "{number} {name} fault={fault}")
        }
        Status::Genesis(part) => {
            let part = genesis_detail(*part);
            format!(in alloc; "{number} {name} part={part}")
        }
        Status::Record {
            which,
            event,
            fault,
        } => {
            let fault = record_detail(*fault);
            format!(in alloc; "{number} {name} which={which} event={event} fault={fault}")
        }
        Status::Limit {
            which,
            event,
            limit,
        } => {
            let limit = limit_detail(*limit);
            format!(in alloc; "{number} {name} which={which} event={event} limit={limit}")
        }
        Status::Clash {
            which,
            event,
            kind,
            kept_which,
        } => {
            let kind = clash_detail(*kind);
            format!(in alloc;
                "{number} {name} which={which} event={event} kind={kind} kept_which={kept_which}"
            )
        }
        Status::Deposits(fault) => {
            let fault = deposits_detail(*fault);
            format!(in alloc; "{number} {name} fault={fault}")
        }
        Status::Duties(fault) => {
            let fault = duties_detail(*fault);
            format!(in alloc; "{number} {name} fault={fault}")
        }
        Status::Anchor(fault) => {
            let fault = anchor_detail(*fault);
            format!(in alloc; "{number} {name} fault={fault}")
        }
        _ => format!(in alloc; "{number} {name}"),
    }
}
