// The options and words of a command, and the command that `clap` reads.
ghost use Rattle.std.specs.Prelude.{◌≡◌, IfOk, map, false, true};
ghost use Rattle.clap.specs.Words.{app_of, rule_of};
ghost use Rattle.kmod_words.specs.Arguments.{command as command_spec, with_value};
ghost use Rattle.kmod_words.specs.Rules.{rule_for};

use clap::builder::ValueParser;
use clap::{Arg, ArgAction, Command};
use std::alloc::{AllocError, Global};

/// An option or a word of a command.
#[derive(Clone, Copy)]
pub(crate) enum Argument {
    /// A flag, with its letter.
    Flag(char, &'static str),
    /// A flag, without a letter.
    FlagByName(&'static str),
    /// An option with a value, with its letter.
    Valued(char, &'static str),
    /// An option with a value, without a letter.
    ValuedByName(&'static str),
    /// An option with a value, named only by its letter.
    ValuedByLetter(char, &'static str),
    /// A required option with a value, named only by its letter.
    RequiredByLetter(char, &'static str),
    /// An option with a value, which is required.
    Required(char, &'static str),
    /// A word.
    Word(&'static str),
    /// One word or more.
    Words(&'static str),
}

impl Argument {
    /// Returns the argument as `clap` has it.
    fn arg<'a>(&self, alloc: Global) -> Arg<'a>
        ensures { (result.global ≡ false) × (rule_of result ≡ rule_for self.now) }
    {
        match *self {
            Argument::Flag(letter, name) => Arg::new(alloc, name)
                .short(letter)
                .long(name)
                .action(ArgAction::SetTrue),
            Argument::FlagByName(name) => Arg::new(alloc, name)
                .long(name)
                .action(ArgAction::SetTrue),
            Argument::Valued(letter, name) => valued(alloc, name).short(letter).long(name),
            Argument::ValuedByName(name) => valued(alloc, name).long(name),
            Argument::ValuedByLetter(letter, name) => valued(alloc, name).short(letter),
            Argument::RequiredByLetter(letter, name) => {
                valued(alloc, name).short(letter).required(true)
            }
            Argument::Required(letter, name) => valued(alloc, name)
                .short(letter)
                .long(name)
                .required(true),
            Argument::Word(name) => valued(alloc, name).required(true),
            Argument::Words(name) => valued(alloc, name).action(ArgAction::Append).required(true),
        }
    }
}

/// Returns the command of this name with only these arguments.
pub(crate) fn command<'a>(
    alloc: Global,
    name: &'a str,
    arguments: &[Argument],
) -> Result<Command<'a>, AllocError>
    ensures { IfOk result
        (λ command. app_of command ≡ command_spec name.entry.now (map rule_for arguments.now)) }
{
    let mut command = Command::new(alloc, name)
        .no_binary_name(true)
        .disable_help_flag(true);
    for argument in arguments {
        command = command.arg(argument.arg(alloc))?;
    }
    Ok(command)
}

/// Returns an argument with a value that isn't empty.
fn valued<'a>(alloc: Global, name: &'a str) -> Arg<'a>
    ensures { (result.global ≡ false) × (rule_of result ≡ with_value name.entry.now) }
{
    Arg::new(alloc, name)
        .action(ArgAction::Set)
        .value_parser(ValueParser::NonEmptyString)
}
