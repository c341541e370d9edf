//! What the arguments of `accept` ask for.

ghost use Rattle.std.specs.Prelude.{◌≡◌, ◌≤◌, ◌∷◌, false, codes, length, map, Some, Ok, Err, IfOk, MatchResult};
ghost use Rattle.std.specs.String.{string_bytes};
ghost use Rattle.jolmurig_command.specs.AcceptArguments.{accept_asked, accept_end, accept_file, accept_flag, accept_input, accept_one, accept_options};
ghost use Rattle.jolmurig_command.specs.AcceptArguments.{accept_pac, accept_value, accept_valued, once, pac_of, with_realm, with_server};
ghost use Rattle.jolmurig_command.specs.Accepts.{no_option};
ghost use Rattle.jolmurig_command.specs.Words.{ends_options, is_help};

use crate::arguments::{Joined, ends_options, is_help, is_word, named, named_behind, split};
use crate::command::{Accept, Command, NameText, Operand, Topic};
use crate::fault::{Fault, Word, stray, unexpected};
use krb_accept::PacCheck;
use std::alloc::{AllocError, Global};

/// Of what an argument names, where none did before; or else what is wrong with it.
fn accept_input<'a>(
    named: Option<Operand<'a>>,
    wrong: Fault<'a>,
    asked: Accept<'a>,
) -> Result<Accept<'a>, Fault<'a>>
    ensures { result ≡ accept_input named.entry wrong.entry asked.entry }
{
    let Some(operand) = named else {
        return Err(wrong);
    };
    if asked.is_named {
        return Err(wrong);
    }
    Ok(Accept {
        file: operand.file,
        is_named: true,
        ..asked
    })
}

/// Of this file, where none was asked for.
fn accept_file<'a>(argument: &'a str, asked: Accept<'a>) -> Result<Accept<'a>, Fault<'a>>
    ensures { result ≡ accept_file argument.now asked.entry }
{
    accept_input(named(argument), stray(argument), asked)
}

/// With an option that has no value, or a file.
fn accept_flag<'a>(word: &'a str, asked: Accept<'a>) -> Result<Accept<'a>, Fault<'a>>
    ensures { result ≡ accept_flag word.now asked.entry }
{
    if is_word(word, "--bare") {
        Ok(Accept {
            is_bare: true,
            ..asked
        })
    } else if is_word(word, "--other-checksum") {
        Ok(Accept {
            takes_other: true,
            ..asked
        })
    } else {
        accept_file(word, asked)
    }
}

/// What is done with the PAC, by a name.
fn pac_of(word: &str) -> Option<PacCheck>
    ensures { result ≡ pac_of word.now }
{
    if is_word(word, "required") {
        Some(PacCheck::Required)
    } else if is_word(word, "ignored") {
        Some(PacCheck::Ignored)
    } else {
        None
    }
}

/// With this done with the PAC, where nothing was asked for.
fn accept_pac<'a>(word: &str, asked: Accept<'a>) -> Result<Accept<'a>, Fault<'a>>
    ensures { result ≡ accept_pac word.now asked.entry }
{
    let Some(check) = pac_of(word) else {
        return Err(Fault::OtherPac);
    };
    if asked.pac.is_some() {
        return Err(Fault::Twice(Word { text: "--pac" }));
    }
    Ok(Accept {
        pac: Some(check),
        ..asked
    })
}

/// Of this keytab, where none was asked for.
fn with_keytab<'a>(text: &'a str, asked: Accept<'a>) -> Result<Accept<'a>, Fault<'a>>
    ensures { result ≡ once (codes "--keytab") asked.entry.keytab (record asked.entry { keytab = Some text.now }) }
{
    if asked.keytab.is_some() {
        return Err(Fault::Twice(Word { text: "--keytab" }));
    }
    Ok(Accept {
        keytab: Some(text),
        ..asked
    })
}

/// At this time.
fn with_time<'a>(text: &'a str, asked: Accept<'a>) -> Result<Accept<'a>, Fault<'a>>
    ensures { result ≡ once (codes "--time") asked.entry.time (record asked.entry { time = Some text.now }) }
{
    if asked.time.is_some() {
        return Err(Fault::Twice(Word { text: "--time" }));
    }
    Ok(Accept {
        time: Some(text),
        ..asked
    })
}

/// With this skew.
fn with_skew<'a>(text: &'a str, asked: Accept<'a>) -> Result<Accept<'a>, Fault<'a>>
    ensures { result ≡ once (codes "--skew") asked.entry.skew (record asked.entry { skew = Some text.now }) }
{
    if asked.skew.is_some() {
        return Err(Fault::Twice(Word { text: "--skew" }));
    }
    Ok(Accept {
        skew: Some(text),
        ..asked
    })
}

/// With these channel bindings.
fn with_bindings<'a>(text: &'a str, asked: Accept<'a>) -> Result<Accept<'a>, Fault<'a>>
    ensures { result ≡ once (codes "--bindings") asked.entry.bindings (record asked.entry { bindings = Some text.now }) }
{
    if asked.bindings.is_some() {
        return Err(Fault::Twice(Word { text: "--bindings" }));
    }
    Ok(Accept {
        bindings: Some(text),
        ..asked
    })
}

/// With one more server.
fn with_server<'a>(name: &'a str, asked: Accept<'a>) -> Result<Accept<'a>, AllocError>
    ensures { IfOk result (λ made. Ok made ≡ with_server name.now asked.entry) }
{
    let mut servers = asked.servers;
    servers.push(NameText { text: name })?;
    Ok(Accept {
        keytab: asked.keytab,
        time: asked.time,
        skew: asked.skew,
        servers,
        realms: asked.realms,
        bindings: asked.bindings,
        pac: asked.pac,
        is_bare: asked.is_bare,
        takes_other: asked.takes_other,
        file: asked.file,
        is_named: asked.is_named,
    })
}

/// With one more realm.
fn with_realm<'a>(name: &'a str, asked: Accept<'a>) -> Result<Accept<'a>, AllocError>
    ensures { IfOk result (λ made. Ok made ≡ with_realm name.now asked.entry) }
{
    let mut realms = asked.realms;
    realms.push(NameText { text: name })?;
    Ok(Accept {
        keytab: asked.keytab,
        time: asked.time,
        skew: asked.skew,
        servers: asked.servers,
        realms,
        bindings: asked.bindings,
        pac: asked.pac,
        is_bare: asked.is_bare,
        takes_other: asked.takes_other,
        file: asked.file,
        is_named: asked.is_named,
    })
}

/// Whether an argument is an option with a value.
fn accept_valued(argument: &str) -> bool
    ensures { result ≡ accept_valued argument.now }
{
    is_word(argument, "--keytab")
        || is_word(argument, "--time")
        || is_word(argument, "--skew")
        || is_word(argument, "--server")
        || is_word(argument, "--realm")
        || is_word(argument, "--bindings")
        || is_word(argument, "--pac")
}

/// With an option that has a value.
fn accept_value<'a>(
    option: &'a str,
    value: &'a str,
    asked: Accept<'a>,
) -> Result<Result<Accept<'a>, Fault<'a>>, AllocError>
    ensures { IfOk result (λ found. found ≡ accept_value option.now value.now asked.entry) }
{
    if is_word(option, "--keytab") {
        Ok(with_keytab(value, asked))
    } else if is_word(option, "--time") {
        Ok(with_time(value, asked))
    } else if is_word(option, "--skew") {
        Ok(with_skew(value, asked))
    } else if is_word(option, "--server") {
        Ok(Ok(with_server(value, asked)?))
    } else if is_word(option, "--realm") {
        Ok(Ok(with_realm(value, asked)?))
    } else if is_word(option, "--bindings") {
        Ok(with_bindings(value, asked))
    } else if is_word(option, "--pac") {
        Ok(accept_pac(value, asked))
    } else {
        Ok(Err(stray(option)))
    }
}

/// What is asked for with one more option or file, and the arguments behind it.
#[derive(Drop)]
struct Step<'a> {
    asked: Accept<'a>,
    behind: &'a [String],
}

/// With an option and its value in one argument, an option without a value, or a file.
fn accept_one<'a>(
    word: &'a str,
    asked: Accept<'a>,
) -> Result<Result<Accept<'a>, Fault<'a>>, AllocError>
    ensures { IfOk result (λ found. found ≡ accept_one word.now asked.entry) }
{
    let Joined { name, value } = split(word);
    if accept_valued(name) {
        return accept_value(name, value, asked);
    }
    Ok(accept_flag(word, asked))
}

/// With the option or the file that the first argument is; `rest` stands behind it.
fn accept_first<'a>(
    word: &'a str,
    rest: &'a [String],
    asked: Accept<'a>,
) -> Result<Result<Step<'a>, Fault<'a>>, AllocError>
    requires no_help { is_help word.now ≡ false }
    requires no_end { ends_options word.now ≡ false }
    ensures { IfOk result (λ found. MatchResult found
        (λ step. (accept_options asked.entry (word.now ∷ map string_bytes rest.now) ≡ accept_options step.asked (map string_bytes step.behind.now))
        × (length step.behind.now ≤ length rest.now))
        (λ fault. accept_options asked.entry (word.now ∷ map string_bytes rest.now) ≡ Err fault)) }
{
    if !accept_valued(word) {
        return match accept_one(word, asked)? {
            Ok(asked) => Ok(Ok(Step {
                asked,
                behind: rest,
            })),
            Err(fault) => Ok(Err(fault)),
        };
    }
    let Some((value, behind)) = rest.split_first() else {
        return Ok(Err(Fault::NoValue(Word { text: word })));
    };
    match accept_value(word, value.as_str(), asked)? {
        Ok(asked) => Ok(Ok(Step { asked, behind })),
        Err(fault) => Ok(Err(fault)),
    }
}

/// What is asked for, where a keytab is named.
fn accept_asked<'a>(asked: Accept<'a>) -> Result<Command<'a>, Fault<'a>>
    ensures { result ≡ accept_asked asked.entry }
{
    if asked.keytab.is_none() {
        return Err(Fault::NoKeytab);
    }
    Ok(Command::Accept(asked))
}

/// What is asked for with what stands behind the end of the options.
fn accept_end<'a>(asked: Accept<'a>, words: &'a [String]) -> Result<Command<'a>, Fault<'a>>
    ensures { result ≡ accept_end asked.entry (map string_bytes words.now) }
{
    let Some((word, rest)) = words.split_first() else {
        return accept_asked(asked);
    };
    let argument = word.as_str();
    match (
        accept_input(named_behind(argument), unexpected(argument), asked),
        rest.first(),
    ) {
        (Ok(next), None) => accept_asked(next),
        (Ok(_), Some(other)) => Err(unexpected(other.as_str())),
        (Err(fault), _) => Err(fault),
    }
}

/// What options ask for, behind those that asked for this.
fn accept_options<'a>(
    asked: Accept<'a>,
    words: &'a [String],
) -> Result<Result<Command<'a>, Fault<'a>>, AllocError>
    ensures { IfOk result (λ found. found ≡ accept_options asked.entry (map string_bytes words.now)) }
{
    let mut so_far = asked;
    let mut rest = words;
    'options: while let Some((word, behind)) = rest.split_first() {
        if is_help(word.as_str()) {
            return Ok(Ok(Command::Help(Topic::Accept)));
        }
        if ends_options(word.as_str()) {
            return Ok(accept_end(so_far, behind));
        }
        match accept_first(word.as_str(), behind, so_far)? {
            Ok(step) => {
                so_far = step.asked;
                rest = step.behind;
            }
            Err(fault) => return Ok(Err(fault)),
        }
    }
    Ok(accept_asked(so_far))
}

/// What the arguments of `accept` ask for.
pub(crate) fn accept_of<'a>(
    alloc: Global,
    words: &'a [String],
) -> Result<Result<Command<'a>, Fault<'a>>, AllocError>
    ensures { IfOk result (λ found. found ≡ accept_options no_option (map string_bytes words.now)) }
{
    let asked = Accept {
        keytab: None,
        time: None,
        skew: None,
        servers: Vec::new(alloc),
        realms: Vec::new(alloc),
        bindings: None,
        pac: None,
        is_bare: false,
        takes_other: false,
        file: None,
        is_named: false,
    };
    accept_options(asked, words)
}
