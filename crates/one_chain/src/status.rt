//! How a run ended, as the program answers it.

ghost use Rattle.std.specs.Prelude.{◌≡◌};
ghost use Rattle.one_chain.specs.Statuses.{status_number, name_of};

use bc_preset::ConfigFault;
use bc_words::{ClashKind, Limit};
use duties::DutiesFault;
use record_file::RecordFault;
use spec_fork_choice::AnchorFault;
use spec_genesis::DepositsFault;
use spec_state::GenesisFault;

/// How a run ended.
#[derive(Drop)]
pub enum Status {
    /// All was done: the record was read to its end, or all lines were written.
    Done,
    /// The words are no command.
    Words,
    /// The configuration has a fault, and this is the first.
    Config(ConfigFault),
    /// The genesis state has a fault, and this is the first.
    Genesis(GenesisFault),
    /// The record has a fault, and this is the first.
    Record {
        /// Which record: 0 is the only or the first one, 1 the second.
        which: u8,
        /// The event that could not be read. Events count from 1, and 0 stands for the first four bytes.
        event: u32,
        /// What is wrong with it.
        fault: RecordFault,
    },
    /// An event that passed all checks before meets a bound of this program.
    Limit {
        /// Which record: 0 is the only or the first one, 1 the second.
        which: u8,
        /// The event.
        event: u32,
        /// The bound.
        limit: Limit,
    },
    /// A file could not be opened or read.
    ReadFault,
    /// The lines could not be written.
    WriteFault,
    /// Memory ran out.
    NoMemory,
    /// A block that would be accepted has a root that is no name for it alone.
    Clash {
        /// Which record: 0 is the only or the first one, 1 the second.
        which: u8,
        /// The event, and 0 for the first kept block.
        event: u32,
        /// How it clashes.
        kind: ClashKind,
        /// Which record the kept block is of.
        kept_which: u8,
    },
    /// The file of deposits has a fault, and this is the first.
    Deposits(DepositsFault),
    /// The state has no duties to tell of the epoch, and this is the first reason.
    Duties(DutiesFault),
    /// The state and its block are no anchor, and this is the first reason.
    Anchor(AnchorFault),
}

impl Status {
    /// The number that the program ends with.
    #[tactic(auto, unfolding(crate::specs::Statuses::status_number))]
    pub fn number(&self) -> u8
        ensures { result ≡ status_number self.now }
    {
        match self {
            Status::Done => 0,
            Status::Words => 1,
            Status::Config(_) => 2,
            Status::Genesis(_) => 3,
            Status::Record { .. } => 4,
            Status::Limit { .. } => 5,
            Status::ReadFault => 6,
            Status::WriteFault => 7,
            Status::NoMemory => 8,
            Status::Clash { .. } => 9,
            Status::Deposits(_) => 11,
            Status::Duties(_) => 12,
            Status::Anchor(_) => 10,
        }
    }

    /// The status's name.
    #[tactic(auto, unfolding(crate::specs::Statuses::name_of))]
    pub fn name(&self) -> &'static str
        ensures { result.now ≡ name_of self.now }
    {
        match self {
            Status::Done => "Done",
            Status::Words => "Words",
            Status::Config(_) => "Config",
            Status::Genesis(_) => "Genesis",
            Status::Record { .. } => "Record",
            Status::Limit { .. } => "Limit",
            Status::ReadFault => "ReadFault",
            Status::WriteFault => "WriteFault",
            Status::NoMemory => "NoMemory",
            Status::Clash { .. } => "Clash",
            Status::Deposits(_) => "Deposits",
            Status::Duties(_) => "Duties",
            Status::Anchor(_) => "Anchor",
        }
    }
}
