//! The command line as clap knows it: one level of commands with their arguments, all required, and nothing beside them.

ghost use Rattle.std.specs.Prelude.{◌≡◌, IfOk, false};
ghost use Rattle.clap.specs.Words.{app_of, rule_of, shape_of};
ghost use Rattle.clap.specs.declared.builder.command.Command.TheViews.{out-Command};
ghost use Rattle.command_words.specs.Commands.{command_line, rule_of_argument, shape_of_form};
ghost use Rattle.command_words.specs.inside.Forms.{argument_of, form_of};

use crate::forms::{Argument, Form, commands};
use clap::builder::ValueParser;
use clap::{Arg, Command};
use std::alloc::{AllocError, Global};

/// The argument for clap.
fn argument<'a>(alloc: Global, argument: &Argument) -> Arg<'a>
    ensures rule { rule_of result ≡ rule_of_argument (argument_of argument.now) }
    ensures local { result.global ≡ false }
{
    match argument {
        Argument::File(label) => Arg::new(alloc, label).required(true),
        Argument::Number(label) => Arg::new(alloc, label)
            .required(true)
            .value_parser(ValueParser::unsigned(0, u64::MAX)),
        Argument::Within(label, least, most) => Arg::new(alloc, label)
            .required(true)
            .value_parser(ValueParser::unsigned(*least, *most)),
    }
}

/// The command for clap, with its arguments.
fn subcommand<'a>(alloc: Global, form: &Form) -> Result<Command<'a>, AllocError>
    ensures shape { IfOk result (λ command. shape_of command ≡ shape_of_form (form_of form.now)) }
    ensures local { IfOk result (λ command. (out-Command command).has_globals ≡ false) }
{
    let mut command = Command::new(alloc, form.name);
    for of_form in form.arguments {
        command = command.arg(argument(alloc, of_form))?;
    }
    Ok(command)
}

/// The whole command line for clap.
pub fn line<'a>(alloc: Global) -> Result<Command<'a>, AllocError>
    ensures { IfOk result (λ command. app_of command ≡ command_line) }
{
    let mut command = Command::new(alloc, "beacon")
        .no_binary_name(true)
        .disable_help_flag(true)
        .disable_help_subcommand(true);
    for form in commands() {
        command = command.subcommand(subcommand(alloc, form)?)?;
    }
    Ok(command)
}
