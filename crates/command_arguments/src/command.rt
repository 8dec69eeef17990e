//! What each command is given.

ghost use Rattle.command_arguments.specs.Arguments.{IsNodeCount};

/// The files of the command `replay CONFIG GENESIS RECORD`.
#[derive(Clone, Copy)]
pub struct ReplayFiles<'a> {
    /// The configuration's name.
    pub config: &'a str,
    /// The genesis state's name.
    pub genesis: &'a str,
    /// The record's name.
    pub events: &'a str,
}

/// The words of the command `drill NUMBER CONFIG`.
#[derive(Clone, Copy)]
pub struct DrillWords<'a> {
    /// The number that the chain is made from.
    pub number: u64,
    /// The configuration's name.
    pub config: &'a str,
}

/// The files of the command `genesis CONFIG DEPOSITS`.
#[derive(Clone, Copy)]
pub struct GenesisFiles<'a> {
    /// The configuration's name.
    pub config: &'a str,
    /// The name of the list of deposits.
    pub deposits: &'a str,
}

/// The words of the command `duties CONFIG STATE EPOCH`.
#[derive(Clone, Copy)]
pub struct DutiesWords<'a> {
    /// The configuration's name.
    pub config: &'a str,
    /// The state's name.
    pub state: &'a str,
    /// The epoch whose duties are asked for.
    pub epoch: u64,
}

/// The files of the command `anchor CONFIG STATE BLOCK RECORD`.
#[derive(Clone, Copy)]
pub struct AnchorFiles<'a> {
    /// The configuration's name.
    pub config: &'a str,
    /// The state's name.
    pub state: &'a str,
    /// The name of its block.
    pub block: &'a str,
    /// The record's name.
    pub events: &'a str,
}

/// The files of the commands `forensic CONFIG GENESIS A B` and `slasher CONFIG GENESIS A B`.
#[derive(Clone, Copy)]
pub struct ForensicFiles<'a> {
    /// The configuration's name.
    pub config: &'a str,
    /// The genesis state's name.
    pub genesis: &'a str,
    /// The first record's name.
    pub first: &'a str,
    /// The second record's name.
    pub second: &'a str,
}

/// The words of the command `nodes NUMBER COUNT CONFIG`.
#[derive(Clone, Copy)]
pub struct NodesWords<'a> {
    /// The number that the chains are made from.
    pub number: u64,
    /// How many nodes there are.
    pub count: u64,
    /// The configuration's name.
    pub config: &'a str,
    ghost few: { IsNodeCount count },
}

/// A command with its arguments.
#[derive(Clone, Copy)]
pub enum Command<'a> {
    /// A record of events on a genesis state.
    Replay(ReplayFiles<'a>),
    /// A chain that is made from a number.
    Drill(DrillWords<'a>),
    /// A genesis state from deposits.
    Genesis(GenesisFiles<'a>),
    /// Who attests and proposes in an epoch.
    Duties(DutiesWords<'a>),
    /// A record of events on a state and its block.
    Anchor(AnchorFiles<'a>),
    /// Two records on a genesis state, and what is found of them.
    Forensic(ForensicFiles<'a>),
    /// Nodes that are delivered two made chains.
    Nodes(NodesWords<'a>),
    /// Two records on a genesis state, and the attester slashings that they give.
    Slasher(ForensicFiles<'a>),
}
