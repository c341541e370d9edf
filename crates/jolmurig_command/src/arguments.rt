//! The command that arguments are.

ghost use Rattle.std.specs.Prelude.{◌≡◌, ◌≤◌, ◌∷◌, false, length, map, Ok, Err, IfOk, MatchResult};
ghost use Rattle.std.specs.String.{string_bytes};
ghost use Rattle.jolmurig_command.specs.Arguments.{asked_by, begins_with_help, behind_end, check_by, check_of, command_of, conversion_of, direction_of};
ghost use Rattle.jolmurig_command.specs.Arguments.{format_of, is_valued, last_operand, of_operand, operand_of, options_of, proxy_of, source_kind};
ghost use Rattle.jolmurig_command.specs.Arguments.{output_fault, with_file, with_flag, with_input, with_one, with_output, with_password_file, with_source};
ghost use Rattle.jolmurig_command.specs.Arguments.{with_tree, with_type, with_value};
ghost use Rattle.jolmurig_command.specs.Shows.{nothing_asked};
ghost use Rattle.jolmurig_command.specs.Words.{ends_options, input, is_help, is_word, name_of, named, named_behind, value_of};
ghost use Rattle.jolmurig_command.specs.declared.command.Command.TheVariants as command;
ghost use Rattle.jolmurig_command.specs.declared.command.Topic.TheVariants as topic;
ghost use Rattle.jolmurig_command.specs.declared.fault.Fault.TheVariants as fault;

use crate::command::{
    Command, Direction, FileName, Format, Operand, Output, Show, Source, SourceKind, Topic,
    TypeName,
};
use crate::fault::{Fault, Word, is_option, stray, unexpected, unknown_command};
use crate::parse_accept::accept_of;
use std::alloc::{AllocError, Global};

/// Whether an argument is this word.
pub(crate) fn is_word(argument: &str, word: &str) -> bool
    ensures { result ≡ is_word argument.now word.now }
{
    argument.as_bytes() == word.as_bytes()
}

/// Whether an argument asks for help.
pub(crate) fn is_help(argument: &str) -> bool
    ensures { result ≡ is_help argument.now }
{
    is_word(argument, "--help") || is_word(argument, "-h")
}

/// As a tree, where neither this nor a type was asked for.
fn with_tree<'a>(show: Show<'a>) -> Result<Show<'a>, Fault<'a>>
    ensures { result ≡ with_tree show.entry }
{
    if show.type_name.is_some() {
        return Err(Fault::TypeAndTree);
    }
    if show.is_tree {
        return Err(Fault::Twice(Word { text: "--tree" }));
    }
    Ok(Show {
        is_tree: true,
        ..show
    })
}

/// What is wrong where an output is asked for, and this one was before.
fn output_fault(form: Output, other: Output) -> Fault<'static>
    ensures { result ≡ output_fault form other }
{
    match (form, other) {
        (Output::Json, Output::Json) => Fault::Twice(Word { text: "--json" }),
        (Output::Type, Output::Type) => Fault::Twice(Word { text: "--type" }),
        _ => Fault::JsonAndType,
    }
}

/// With an output, where none was asked for.
fn with_output<'a>(form: Output, show: Show<'a>) -> Result<Show<'a>, Fault<'a>>
    ensures { result ≡ with_output form show.entry }
{
    match show.output {
        Some(other) => Err(output_fault(form, other)),
        None => Ok(Show {
            output: Some(form),
            ..show
        }),
    }
}

/// Whether options end at an argument.
pub(crate) fn ends_options(argument: &str) -> bool
    ensures { result ≡ ends_options argument.now }
{
    is_word(argument, "--")
}

/// What stands before the first `=` of an argument, and behind it.
pub(crate) struct Joined<'a> {
    /// The name of an option, if the argument is one with its value.
    pub name: &'a str,
    /// Its value; empty where there is no `=`.
    pub value: &'a str,
}

/// The two parts of an argument.
pub(crate) fn split(argument: &str) -> Joined<'_>
    ensures name { result.name.now ≡ name_of argument.now }
    ensures value { result.value.now ≡ value_of argument.now }
{
    match argument.split_once('=') {
        Some((name, value)) => Joined { name, value },
        None => Joined {
            name: argument,
            value: "",
        },
    }
}

/// What is read by an argument.
fn input(argument: &str) -> Operand<'_>
    ensures { result ≡ input argument.now }
{
    if is_word(argument, "-") {
        Operand { file: None }
    } else {
        Operand {
            file: Some(argument),
        }
    }
}

/// What is read by an argument that is no option.
pub(crate) fn named(argument: &str) -> Option<Operand<'_>>
    ensures { result ≡ named argument.now }
{
    if argument.is_empty() || is_option(argument) {
        return None;
    }
    Some(input(argument))
}

/// What is read by an argument behind the end of the options.
pub(crate) fn named_behind(argument: &str) -> Option<Operand<'_>>
    ensures { result ≡ named_behind argument.now }
{
    if argument.is_empty() {
        return None;
    }
    Some(input(argument))
}

/// Of what an argument names, where none did before; or else what is wrong with it.
fn with_input<'a>(
    named: Option<Operand<'a>>,
    wrong: Fault<'a>,
    show: Show<'a>,
) -> Result<Show<'a>, Fault<'a>>
    ensures { result ≡ with_input named.entry wrong.entry show.entry }
{
    let Some(operand) = named else {
        return Err(wrong);
    };
    if show.is_named {
        return Err(wrong);
    }
    Ok(Show {
        file: operand.file,
        is_named: true,
        ..show
    })
}

/// Of this file, where none was asked for.
fn with_file<'a>(argument: &'a str, show: Show<'a>) -> Result<Show<'a>, Fault<'a>>
    ensures { result ≡ with_file argument.now show.entry }
{
    with_input(named(argument), stray(argument), show)
}

/// With an option that has no value, or a file.
fn with_flag<'a>(word: &'a str, show: Show<'a>) -> Result<Show<'a>, Fault<'a>>
    ensures { result ≡ with_flag word.now show.entry }
{
    if is_word(word, "--tree") {
        with_tree(show)
    } else if is_word(word, "--json") {
        with_output(Output::Json, show)
    } else if is_word(word, "--type") {
        with_output(Output::Type, show)
    } else if is_word(word, "--places") {
        Ok(Show {
            shows_places: true,
            ..show
        })
    } else if is_word(word, "--show-keys") {
        Ok(Show {
            shows_keys: true,
            ..show
        })
    } else if is_word(word, "--no-keys") {
        Ok(Show {
            shows_keys: false,
            ..show
        })
    } else if is_word(word, "--all-found-keys") {
        Ok(Show {
            tries_all: true,
            ..show
        })
    } else {
        with_file(word, show)
    }
}

/// As this type, where neither this nor a tree was asked for.
fn with_type<'a>(name: &'a str, show: Show<'a>) -> Result<Show<'a>, Fault<'a>>
    ensures { result ≡ with_type name.now show.entry }
{
    if show.type_name.is_some() {
        return Err(Fault::Twice(Word { text: "--as" }));
    }
    if show.is_tree {
        return Err(Fault::TypeAndTree);
    }
    Ok(Show {
        type_name: Some(name),
        ..show
    })
}

/// Which keys an option with this name gives.
fn source_kind(option: &str) -> Option<SourceKind>
    ensures { result ≡ source_kind option.now }
{
    if is_word(option, "--key") {
        Some(SourceKind::Key)
    } else if is_word(option, "--key-file") {
        Some(SourceKind::KeyFile)
    } else if is_word(option, "--keytab") {
        Some(SourceKind::Keytab)
    } else {
        None
    }
}

/// With one more key, or file of keys.
fn with_source<'a>(kind: SourceKind, text: &'a str, show: Show<'a>) -> Result<Show<'a>, AllocError>
    ensures { IfOk result (λ made. Ok made ≡ with_source kind text.now show.entry) }
{
    let mut sources = show.sources;
    sources.push(Source { kind, text })?;
    Ok(Show {
        type_name: show.type_name,
        is_tree: show.is_tree,
        output: show.output,
        shows_places: show.shows_places,
        shows_keys: show.shows_keys,
        tries_all: show.tries_all,
        sources,
        password_files: show.password_files,
        file: show.file,
        is_named: show.is_named,
    })
}

/// With one more file that holds a password.
fn with_password_file<'a>(name: &'a str, show: Show<'a>) -> Result<Show<'a>, AllocError>
    ensures { IfOk result (λ made. Ok made ≡ with_password_file name.now show.entry) }
{
    let mut password_files = show.password_files;
    password_files.push(FileName { text: name })?;
    Ok(Show {
        type_name: show.type_name,
        is_tree: show.is_tree,
        output: show.output,
        shows_places: show.shows_places,
        shows_keys: show.shows_keys,
        tries_all: show.tries_all,
        sources: show.sources,
        password_files,
        file: show.file,
        is_named: show.is_named,
    })
}

/// Whether an argument is an option with a value.
fn is_valued(argument: &str) -> bool
    ensures { result ≡ is_valued argument.now }
{
    is_word(argument, "--as")
        || is_word(argument, "--key")
        || is_word(argument, "--key-file")
        || is_word(argument, "--keytab")
        || is_word(argument, "--password-file")
}

/// With an option that has a value.
fn with_value<'a>(
    option: &'a str,
    value: &'a str,
    show: Show<'a>,
) -> Result<Result<Show<'a>, Fault<'a>>, AllocError>
    ensures { IfOk result (λ found. found ≡ with_value option.now value.now show.entry) }
{
    if is_word(option, "--as") {
        return Ok(with_type(value, show));
    }
    if is_word(option, "--password-file") {
        return Ok(Ok(with_password_file(value, show)?));
    }
    match source_kind(option) {
        Some(kind) => Ok(Ok(with_source(kind, value, show)?)),
        None => Ok(Err(stray(option))),
    }
}

/// What is asked for with one more option or file, and the arguments behind it.
#[derive(Drop)]
struct Step<'a> {
    show: Show<'a>,
    behind: &'a [String],
}

/// With an option and its value in one argument, an option without a value, or a file.
fn with_one<'a>(word: &'a str, show: Show<'a>) -> Result<Result<Show<'a>, Fault<'a>>, AllocError>
    ensures { IfOk result (λ found. found ≡ with_one word.now show.entry) }
{
    let Joined { name, value } = split(word);
    if is_valued(name) {
        return with_value(name, value, show);
    }
    Ok(with_flag(word, show))
}

/// With the option or the file that the first argument is; `rest` stands behind it.
fn with_first<'a>(
    word: &'a str,
    rest: &'a [String],
    show: Show<'a>,
) -> Result<Result<Step<'a>, Fault<'a>>, AllocError>
    requires no_help { is_help word.now ≡ false }
    requires no_end { ends_options word.now ≡ false }
    ensures { IfOk result (λ found. MatchResult found
        (λ step. (options_of show.entry (word.now ∷ map string_bytes rest.now) ≡ options_of step.show (map string_bytes step.behind.now))
        × (length step.behind.now ≤ length rest.now))
        (λ fault. options_of show.entry (word.now ∷ map string_bytes rest.now) ≡ Err fault)) }
{
    if !is_valued(word) {
        return match with_one(word, show)? {
            Ok(show) => Ok(Ok(Step { show, behind: rest })),
            Err(fault) => Ok(Err(fault)),
        };
    }
    let Some((value, behind)) = rest.split_first() else {
        return Ok(Err(Fault::NoValue(Word { text: word })));
    };
    match with_value(word, value.as_str(), show)? {
        Ok(show) => Ok(Ok(Step { show, behind })),
        Err(fault) => Ok(Err(fault)),
    }
}

/// What is asked for with what stands behind the end of the options.
fn behind_end<'a>(show: Show<'a>, words: &'a [String]) -> Result<Command<'a>, Fault<'a>>
    ensures { result ≡ behind_end show.entry (map string_bytes words.now) }
{
    let Some((word, rest)) = words.split_first() else {
        return Ok(Command::Show(show));
    };
    let argument = word.as_str();
    match (
        with_input(named_behind(argument), unexpected(argument), show),
        rest.first(),
    ) {
        (Ok(asked), None) => Ok(Command::Show(asked)),
        (Ok(_), Some(other)) => Err(unexpected(other.as_str())),
        (Err(fault), _) => Err(fault),
    }
}

/// What options ask for, behind those that asked for this.
fn with_options<'a>(
    show: Show<'a>,
    words: &'a [String],
) -> Result<Result<Command<'a>, Fault<'a>>, AllocError>
    ensures { IfOk result (λ found. found ≡ options_of show.entry (map string_bytes words.now)) }
{
    let mut asked = show;
    let mut rest = words;
    'options: while let Some((word, behind)) = rest.split_first() {
        if is_help(word.as_str()) {
            return Ok(Ok(Command::Help(Topic::Show)));
        }
        if ends_options(word.as_str()) {
            return Ok(behind_end(asked, behind));
        }
        match with_first(word.as_str(), behind, asked)? {
            Ok(step) => {
                asked = step.show;
                rest = step.behind;
            }
            Err(fault) => return Ok(Err(fault)),
        }
    }
    Ok(Ok(Command::Show(asked)))
}

/// Without any option.
fn nothing_asked<'a>(alloc: Global) -> Show<'a>
    ensures { result ≡ nothing_asked }
{
    Show {
        type_name: None,
        is_tree: false,
        output: None,
        shows_places: false,
        shows_keys: false,
        tries_all: false,
        sources: Vec::new(alloc),
        password_files: Vec::new(alloc),
        file: None,
        is_named: false,
    }
}

/// Whether the first argument asks for help.
fn begins_with_help(words: &[String]) -> bool
    ensures { result ≡ begins_with_help (map string_bytes words.now) }
{
    match words.first() {
        Some(word) => is_help(word.as_str()),
        None => false,
    }
}

/// The file that arguments behind the end of the options name, or standard input where there is none.
fn last_operand(words: &[String]) -> Result<Operand<'_>, Fault<'_>>
    ensures { result ≡ last_operand (map string_bytes words.now) }
{
    let Some((word, rest)) = words.split_first() else {
        return Ok(Operand { file: None });
    };
    let Some(operand) = named_behind(word.as_str()) else {
        return Err(unexpected(word.as_str()));
    };
    match rest.first() {
        None => Ok(operand),
        Some(other) => Err(unexpected(other.as_str())),
    }
}

/// The file that the arguments of a command without options name, or standard input where there is none.
fn operand_of(words: &[String]) -> Result<Operand<'_>, Fault<'_>>
    ensures { result ≡ operand_of (map string_bytes words.now) }
{
    let Some((word, rest)) = words.split_first() else {
        return Ok(Operand { file: None });
    };
    if ends_options(word.as_str()) {
        return last_operand(rest);
    }
    let Some(operand) = named(word.as_str()) else {
        return Err(stray(word.as_str()));
    };
    match rest.first() {
        None => Ok(operand),
        Some(other) => Err(stray(other.as_str())),
    }
}

/// What the arguments of `list` ask for.
fn list_of(words: &[String]) -> Result<Command<'_>, Fault<'_>>
    ensures { result ≡ of_operand topic.List command.List (map string_bytes words.now) }
{
    if begins_with_help(words) {
        return Ok(Command::Help(Topic::List));
    }
    Ok(Command::List(operand_of(words)?))
}

/// What the arguments of `convert` ask for behind the format.
fn conversion_to(format: Format, words: &[String]) -> Result<Command<'_>, Fault<'_>>
    ensures { result ≡ of_operand topic.Convert (command.Convert format) (map string_bytes words.now) }
{
    if begins_with_help(words) {
        return Ok(Command::Help(Topic::Convert));
    }
    Ok(Command::Convert(format, operand_of(words)?))
}

/// The format of this name.
fn format_of(name: &str) -> Option<Format>
    ensures { result ≡ format_of name.now }
{
    if is_word(name, "kirbi") {
        Some(Format::Kirbi)
    } else if is_word(name, "ccache") {
        Some(Format::Ccache)
    } else {
        None
    }
}

/// What the arguments of `convert` ask for.
fn conversion_of(words: &[String]) -> Result<Command<'_>, Fault<'_>>
    ensures { result ≡ conversion_of (map string_bytes words.now) }
{
    let Some((word, rest)) = words.split_first() else {
        return Err(Fault::NoFormat);
    };
    if is_help(word.as_str()) {
        return Ok(Command::Help(Topic::Convert));
    }
    match format_of(word.as_str()) {
        Some(format) => conversion_to(format, rest),
        None => Err(Fault::NoFormat),
    }
}

/// What the arguments of `proxy` ask for behind the direction.
fn proxy_to(direction: Direction, words: &[String]) -> Result<Command<'_>, Fault<'_>>
    ensures { result ≡ of_operand topic.Proxy (command.Proxy direction) (map string_bytes words.now) }
{
    if begins_with_help(words) {
        return Ok(Command::Help(Topic::Proxy));
    }
    Ok(Command::Proxy(direction, operand_of(words)?))
}

/// The direction of this name.
fn direction_of(name: &str) -> Option<Direction>
    ensures { result ≡ direction_of name.now }
{
    if is_word(name, "request") {
        Some(Direction::Request)
    } else if is_word(name, "reply") {
        Some(Direction::Reply)
    } else {
        None
    }
}

/// What the arguments of `proxy` ask for.
fn proxy_of(words: &[String]) -> Result<Command<'_>, Fault<'_>>
    ensures { result ≡ proxy_of (map string_bytes words.now) }
{
    let Some((word, rest)) = words.split_first() else {
        return Err(Fault::NoDirection);
    };
    if is_help(word.as_str()) {
        return Ok(Command::Help(Topic::Proxy));
    }
    match direction_of(word.as_str()) {
        Some(direction) => proxy_to(direction, rest),
        None => Err(Fault::NoDirection),
    }
}

/// What the arguments of `check` ask for behind the name of the type.
fn check_as<'a>(name: &'a str, words: &'a [String]) -> Result<Command<'a>, Fault<'a>>
    ensures { result ≡ of_operand topic.Check (command.Check name.now) (map string_bytes words.now) }
{
    if begins_with_help(words) {
        return Ok(Command::Help(Topic::Check));
    }
    Ok(Command::Check(TypeName { text: name }, operand_of(words)?))
}

/// What the arguments of `check` ask for, the first of which is an option with its value, or wrong.
fn check_by<'a>(word: &'a str, rest: &'a [String]) -> Result<Command<'a>, Fault<'a>>
    ensures { result ≡ check_by word.now (map string_bytes rest.now) }
{
    let Joined { name, value } = split(word);
    if !is_word(name, "--as") {
        return Err(Fault::NoType);
    }
    check_as(value, rest)
}

/// What the arguments of `check` ask for.
fn check_of(words: &[String]) -> Result<Command<'_>, Fault<'_>>
    ensures { result ≡ check_of (map string_bytes words.now) }
{
    let Some((word, rest)) = words.split_first() else {
        return Err(Fault::NoType);
    };
    if is_help(word.as_str()) {
        return Ok(Command::Help(Topic::Check));
    }
    if !is_word(word.as_str(), "--as") {
        return check_by(word.as_str(), rest);
    }
    match rest.split_first() {
        Some((name, behind)) => check_as(name.as_str(), behind),
        None => Err(Fault::NoValue(Word {
            text: word.as_str(),
        })),
    }
}

/// What a command's name and the arguments behind it ask for.
fn command_of<'a>(
    alloc: Global,
    name: &'a str,
    rest: &'a [String],
) -> Result<Result<Command<'a>, Fault<'a>>, AllocError>
    ensures { IfOk result (λ found. found ≡ command_of name.now (map string_bytes rest.now)) }
{
    if is_word(name, "show") {
        with_options(nothing_asked(alloc), rest)
    } else if is_word(name, "check") {
        Ok(check_of(rest))
    } else if is_word(name, "list") {
        Ok(list_of(rest))
    } else if is_word(name, "convert") {
        Ok(conversion_of(rest))
    } else if is_word(name, "proxy") {
        Ok(proxy_of(rest))
    } else if is_word(name, "accept") {
        accept_of(alloc, rest)
    } else {
        Ok(Err(unknown_command(name)))
    }
}

/// The command that the arguments are, or the first thing from the left that is wrong with them. The only other error is an allocation
/// failure.
pub fn parse<'a>(
    alloc: Global,
    arguments: &'a [String],
) -> Result<Result<Command<'a>, Fault<'a>>, AllocError>
    ensures { IfOk result (λ found. found ≡ asked_by (map string_bytes arguments.now)) }
{
    let Some((name, rest)) = arguments.split_first() else {
        return Ok(Err(Fault::NoCommand));
    };
    if is_help(name.as_str()) {
        return Ok(Ok(Command::Help(Topic::Program)));
    }
    if is_word(name.as_str(), "--version") {
        return Ok(Ok(Command::Version));
    }
    command_of(alloc, name.as_str(), rest)
}
