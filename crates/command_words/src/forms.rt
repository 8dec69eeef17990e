//! The commands with their arguments: the one table from which the words are read and the usage is shown.

ghost use Rattle.std.specs.Prelude.{◌≡◌, map};
ghost use Rattle.command_words.specs.Commands.{forms};
ghost use Rattle.command_words.specs.inside.Forms.{form_of};

use std::fmt;

/// What a command asks for at a place, with the label under which the usage shows it.
#[derive(Clone, Copy)]
pub enum Argument {
    /// The name of a file.
    File(&'static str),
    /// A number that `u64` can hold, in decimal.
    Number(&'static str),
    /// A number from this one to that one, in decimal.
    Within(&'static str, u64, u64),
}

/// A command: its name, and what it asks for in order.
#[derive(Clone, Copy)]
pub struct Form {
    /// The command's name.
    pub name: &'static str,
    /// Its arguments.
    pub arguments: &'static [Argument],
}

impl fmt::Display for Argument {
    fn fmt<W: fmt::Write>(&self, f: &mut fmt::Formatter<W>) -> fmt::Result {
        match self {
            Argument::File(label) | Argument::Number(label) | Argument::Within(label, _, _) => {
                f.write_str(label)
            }
        }
    }
}

impl fmt::Display for Form {
    fn fmt<W: fmt::Write>(&self, f: &mut fmt::Formatter<W>) -> fmt::Result {
        f.write_str(self.name)?;
        for argument in self.arguments {
            write!(f, " {argument}")?;
        }
        Ok(())
    }
}

/// How many nodes there can be, at least.
pub const LEAST_NODES: u64 = 2;

/// And at most.
pub const MOST_NODES: u64 = 16;

/// The commands.
pub static COMMANDS: [Form; 8] = [
    Form {
        name: "replay",
        arguments: &[
            Argument::File("CONFIG"),
            Argument::File("GENESIS"),
            Argument::File("RECORD"),
        ],
    },
    Form {
        name: "drill",
        arguments: &[Argument::Number("NUMBER"), Argument::File("CONFIG")],
    },
    Form {
        name: "genesis",
        arguments: &[Argument::File("CONFIG"), Argument::File("DEPOSITS")],
    },
    Form {
        name: "duties",
        arguments: &[
            Argument::File("CONFIG"),
            Argument::File("STATE"),
            Argument::Number("EPOCH"),
        ],
    },
    Form {
        name: "anchor",
        arguments: &[
            Argument::File("CONFIG"),
            Argument::File("STATE"),
            Argument::File("BLOCK"),
            Argument::File("RECORD"),
        ],
    },
    Form {
        name: "forensic",
        arguments: &[
            Argument::File("CONFIG"),
            Argument::File("GENESIS"),
            Argument::File("A"),
            Argument::File("B"),
        ],
    },
    Form {
        name: "nodes",
        arguments: &[
            Argument::Number("NUMBER"),
            Argument::Within("COUNT", LEAST_NODES, MOST_NODES),
            Argument::File("CONFIG"),
        ],
    },
    Form {
        name: "slasher",
        arguments: &[
            Argument::File("CONFIG"),
            Argument::File("GENESIS"),
            Argument::File("A"),
            Argument::File("B"),
        ],
    },
];

/// The commands, as the definitions list them.
pub fn commands() -> &'static [Form]
    ensures { map form_of result.now ≡ forms }
{
    COMMANDS.as_slice()
}
