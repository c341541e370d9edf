//! What is wrong with arguments.

ghost use Rattle.std.specs.Prelude.{◌≡◌};
ghost use Rattle.jolmurig_command.specs.Faults.{stray, unexpected, unknown_command};
ghost use Rattle.jolmurig_command.specs.Words.{is_option};

use std::marker::Model;

/// An argument.
#[derive(Drop)]
pub struct Word<'a> {
    /// The argument.
    pub text: &'a str,
}

impl<'a> Model for Word<'a> {
    ghost use Rattle.std.specs.Prelude.{ℕ, List};

    ghost Value = { List ℕ };

    ghost view = { λ w. w.text.now };
}

/// What is wrong with arguments, and with which of them.
#[derive(Drop)]
pub enum Fault<'a> {
    /// There is no argument.
    NoCommand,
    /// The first argument is the name of no command.
    UnknownCommand(Word<'a>),
    /// An argument begins with `-`, is not that alone, and is no option that may stand there.
    UnknownOption(Word<'a>),
    /// An argument is empty where a command or a file has its name.
    Empty,
    /// The command takes no further argument.
    Unexpected(Word<'a>),
    /// An option that has a value is the last argument.
    NoValue(Word<'a>),
    /// An option that may be given once is given again.
    Twice(Word<'a>),
    /// `--as` and `--tree` are both given.
    TypeAndTree,
    /// `--json` and `--type` are both given.
    JsonAndType,
    /// `check` does not begin with `--as TYPE`.
    NoType,
    /// `convert` does not begin with a format.
    NoFormat,
    /// `proxy` does not begin with a direction.
    NoDirection,
    /// `accept` has no `--keytab`.
    NoKeytab,
    /// The value of `--pac` is neither `required` nor `ignored`.
    OtherPac,
}

/// Whether an argument begins with `-` and is not that alone.
pub(crate) fn is_option(argument: &str) -> bool
    ensures { result ≡ is_option argument.now }
{
    match argument.as_bytes().split_first() {
        Some((first, rest)) => *first == b'-' && !rest.is_empty(),
        None => false,
    }
}

/// What is wrong with an argument that stands where no argument, or that of a file, may stand.
pub(crate) fn stray(argument: &str) -> Fault<'_>
    ensures { result ≡ stray argument.now }
{
    if argument.is_empty() {
        Fault::Empty
    } else if is_option(argument) {
        Fault::UnknownOption(Word { text: argument })
    } else {
        Fault::Unexpected(Word { text: argument })
    }
}

/// What is wrong with a first argument that is the name of no command.
pub(crate) fn unknown_command(argument: &str) -> Fault<'_>
    ensures { result ≡ unknown_command argument.now }
{
    if argument.is_empty() {
        Fault::Empty
    } else if is_option(argument) {
        Fault::UnknownOption(Word { text: argument })
    } else {
        Fault::UnknownCommand(Word { text: argument })
    }
}

/// What is wrong with an argument behind the end of the options, where no argument, or that of a file, may stand.
pub(crate) fn unexpected(argument: &str) -> Fault<'_>
    ensures { result ≡ unexpected argument.now }
{
    if argument.is_empty() {
        Fault::Empty
    } else {
        Fault::Unexpected(Word { text: argument })
    }
}
