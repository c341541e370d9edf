//! The program over any reader and any writers.

ghost use Rattle.std.specs.Prelude.{◌≡◌, ◌⊎◌, ◌++◌, ◌∷◌, [], true, false, map, option_copied, IfOk, IfErr, OnOk, MatchResult, Err};
ghost use Rattle.std.specs.Io.KnownBytes.{Appends};
ghost use Rattle.std.specs.String.{string_bytes};
ghost use Rattle.jolmurig.specs.Failures.{line_of, status_of_failure};
ghost use Rattle.jolmurig.specs.Help.{help_of};
ghost use Rattle.jolmurig.specs.Outcome.{AreNotesWritten, HasTaken, IsAcceptRun, IsReportWritten};
ghost use Rattle.jolmurig.specs.Outcome.{IsCheckRun, IsCheckRunAs, IsConvertRun, IsInputRejected, IsKindOf, IsLeft, IsLineWritten, IsListRun, IsMade, IsTold};
ghost use Rattle.jolmurig.specs.Outcome.{IsNotMade, IsOfNoKind, IsPrepared, IsProxyRun, IsRun, IsRunOf, IsShowRun, IsUnprepared, Outcome, output_of, placed_output, status_of};
ghost use Rattle.jolmurig.specs.declared.failure.Failure.{Failure};

use crate::answer::shown;
use crate::calls::Calls;
use crate::check::check_octets;
use crate::clock::Clock;
use crate::convert::{Conversion, conversion_of};
use crate::failure::Failure;
use crate::files::Files;
use crate::help::{ACCEPT, CHECK, CONVERT, HELP, LIST, PROXY, SHOW, VERSION, page_of};
use crate::input::{read_input, read_octets};
use crate::judge::{judge, undecided_of};
use crate::keys::keys_of_sources;
use crate::list::list_of;
use crate::openers::Openers;
use crate::passwords::passwords_of_files;
use crate::proxy::{Passed, passed_of};
use jolmurig_command::{
    Accept, Command, Direction, Fault, Format, Output, Show, Topic, TypeName, parse,
};
use krb_accept_report::Report;
use krb_io::write_all;
use krb_show_any::{Kind, PageError, Pages, kind_of_name};
use std::alloc::{AllocError, Global};
use std::io;
use std::io::{Read, Write};

/// Writes all of the octets, and lets none wait in the writer.
fn write_out<W: Write>(output: &mut W, octets: &[u8]) -> Result<(), Failure<'static>>
    ensures written { OnOk result (Appends (W.contents output.old) (W.contents output.new) octets.now) }
    ensures rejected { IfErr result (λ e. (e ≡ Failure.Write) × HasTaken octets.now (W.contents output.old) (W.contents output.new)) }
{
    if write_all(output, octets).is_err() {
        return Err(Failure::Write);
    }
    if output.flush().is_err() {
        return Err(Failure::Write);
    }
    Ok(())
}

/// The kind of the type that is asked for.
fn kind_asked<'a>(show: &Show<'a>) -> Result<Option<Kind>, Failure<'a>>
    ensures found { IfOk result (IsKindOf show.now) }
    ensures rejected { IfErr result (IsOfNoKind show.now) }
{
    match show.type_name {
        Some(name) => match kind_of_name(name) {
            Some(kind) => Ok(Some(kind)),
            None => Err(Failure::NoType(TypeName { text: name })),
        },
        None => {
            if show.is_tree {
                Ok(Some(Kind::Tree))
            } else {
                Ok(None)
            }
        }
    }
}

/// An output with places, where these are asked for.
fn placed_output(shows_places: bool, output: Output) -> Output
    ensures { result ≡ placed_output shows_places output }
{
    match (shows_places, output) {
        (true, Output::Text) => Output::TextWithPlaces,
        (true, Output::Json) => Output::JsonWithPlaces,
        (_, output) => output,
    }
}

/// The output that is asked for.
fn output_asked(show: &Show) -> Output
    ensures { result ≡ output_of show.now }
{
    placed_output(show.shows_places, show.output.unwrap_or(Output::Text))
}

/// What is asked to be shown, looked up: the kind, and what opens what is sealed.
#[derive(Drop)]
struct Prepared {
    kind: Option<Kind>,
    openers: Openers,
}

/// The kind of what is asked to be shown, and what opens what is sealed.
fn prepare<'a, F: Files>(alloc: Global, files: &F, show: &Show<'a>) -> Result<Prepared, Failure<'a>>
    ensures found { IfOk result (λ p. IsPrepared (F.gives files.now) show.now p.kind p.openers) }
    ensures rejected { IfErr result (λ e. IsUnprepared (F.gives files.now) show.now e) }
{
    let kind = kind_asked(show)?;
    let keys = keys_of_sources(alloc, files, &show.sources)?;
    let passwords = passwords_of_files(alloc, files, &show.password_files)?;
    Ok(Prepared {
        kind,
        openers: Openers {
            keys,
            passwords,
            tries_all: show.tries_all,
        },
    })
}

/// What is written of what is asked to be shown, once it is looked up.
fn make_prepared<'a, S: Pages<Kind, PageError>, C: Calls, F: Files, R: Read>(
    alloc: Global,
    show: &Show<'a>,
    prepared: Prepared,
    files: &F,
    input: &mut R,
) -> Result<Vec<u8>, Failure<'a>>
    ensures found { IsPrepared (F.gives files.now) show.now prepared.kind prepared.openers
        → IfOk result (λ made. IsMade S.tells C.opens (F.gives files.now) C.breaks show.now (R.remaining input.old) made.items) }
    ensures rejected { IsPrepared (F.gives files.now) show.now prepared.kind prepared.openers
        → IfErr result (IsInputRejected S.tells C.opens (F.gives files.now) C.places show.now (R.remaining input.old)) }
    ensures left { IsLeft show.now.file (R.remaining input.old) (R.remaining input.new) }
{
    let octets = read_octets(alloc, files, show.file, input)?;
    shown::<S, C>(
        alloc,
        prepared.kind,
        output_asked(show),
        show.shows_keys,
        prepared.openers,
        &octets,
    )
}

/// What is written of what is asked to be shown.
fn make<'a, S: Pages<Kind, PageError>, C: Calls, F: Files, R: Read>(
    alloc: Global,
    show: &Show<'a>,
    files: &F,
    input: &mut R,
) -> Result<Vec<u8>, Failure<'a>>
    ensures found { IfOk result (λ made. IsMade S.tells C.opens (F.gives files.now) C.breaks show.now (R.remaining input.old) made.items) }
    ensures rejected { IfErr result (IsNotMade S.tells C.opens (F.gives files.now) C.places show.now (R.remaining input.old) (R.remaining input.new)) }
    ensures left { IsLeft show.now.file (R.remaining input.old) (R.remaining input.new) }
{
    let prepared = prepare(alloc, files, show)?;
    make_prepared::<S, C, F, R>(alloc, show, prepared, files, input)
}

/// Writes all of the octets; there are no notes.
fn write_made<W: Write>(
    alloc: Global,
    output: &mut W,
    made: &[u8],
) -> Result<Vec<u8>, Failure<'static>>
    ensures { MatchResult result (λ notes. (notes.items ≡ []) × Appends (W.contents output.old) (W.contents output.new) made.now)
        (λ e. (e ≡ Failure.Write) × HasTaken made.now (W.contents output.old) (W.contents output.new)) }
{
    write_out(output, made)?;
    Ok(Vec::new(alloc))
}

/// Writes a page of the help.
fn write_help<W: Write>(
    alloc: Global,
    topic: Topic,
    output: &mut W,
) -> Result<Vec<u8>, Failure<'static>>
    ensures { MatchResult result
        (λ notes. (notes.items ≡ []) × Appends (W.contents output.old) (W.contents output.new)
        (help_of HELP.now SHOW.now CHECK.now LIST.now CONVERT.now PROXY.now ACCEPT.now topic))
        (λ e. (e ≡ Failure.Write) × HasTaken (help_of HELP.now SHOW.now CHECK.now LIST.now CONVERT.now PROXY.now ACCEPT.now topic)
        (W.contents output.old) (W.contents output.new)) }
{
    write_made(alloc, output, page_of(topic).as_bytes())
}

/// Writes the version.
fn write_version<W: Write>(alloc: Global, output: &mut W) -> Result<Vec<u8>, Failure<'static>>
    ensures { MatchResult result (λ notes. (notes.items ≡ []) × Appends (W.contents output.old) (W.contents output.new) VERSION.now)
        (λ e. (e ≡ Failure.Write) × HasTaken VERSION.now (W.contents output.old) (W.contents output.new)) }
{
    write_made(alloc, output, VERSION.as_bytes())
}

/// Shows a file or the input.
fn show<'a, S: Pages<Kind, PageError>, C: Calls, F: Files, R: Read, W: Write>(
    alloc: Global,
    show: &Show<'a>,
    files: &F,
    input: &mut R,
    output: &mut W,
) -> Result<Vec<u8>, Failure<'a>>
    ensures { IsShowRun S.tells C.opens (F.gives files.now) C.breaks C.places show.now (R.remaining input.old) (R.remaining input.new)
        (W.contents output.old) (W.contents output.new) result }
{
    let made = make::<S, C, F, R>(alloc, show, files, input)?;
    write_made(alloc, output, &made)
}

/// Writes the octets of a file or the input, if they are of a kind. The notes are their warnings.
fn check_as<'a, S: Pages<Kind, PageError>, C: Calls, F: Files, R: Read, W: Write>(
    alloc: Global,
    kind: Kind,
    file: Option<&'a str>,
    files: &F,
    input: &mut R,
    output: &mut W,
) -> Result<Vec<u8>, Failure<'a>>
    ensures { IsCheckRunAs S.tells C.places C.breaks (F.gives files.now) kind (option_copied file.entry) (R.remaining input.old) (R.remaining input.new)
        (W.contents output.old) (W.contents output.new) result }
{
    let octets = read_octets(alloc, files, file, input)?;
    let notes = check_octets::<S, C>(alloc, kind, &octets)?;
    write_with_notes(output, &octets, notes)
}

/// Writes the octets of a file or the input, if they are of the type of this name.
fn check<'a, S: Pages<Kind, PageError>, C: Calls, F: Files, R: Read, W: Write>(
    alloc: Global,
    name: &'a str,
    file: Option<&'a str>,
    files: &F,
    input: &mut R,
    output: &mut W,
) -> Result<Vec<u8>, Failure<'a>>
    ensures { IsCheckRun S.tells C.places C.breaks (F.gives files.now) name.now (option_copied file.entry) (R.remaining input.old) (R.remaining input.new)
        (W.contents output.old) (W.contents output.new) result }
{
    match kind_of_name(name) {
        Some(kind) => check_as::<S, C, F, R, W>(alloc, kind, file, files, input, output),
        None => Err(Failure::NoType(TypeName { text: name })),
    }
}

/// Lists the entries of a file or the input.
fn list<'a, C: Calls, F: Files, R: Read, W: Write>(
    alloc: Global,
    file: Option<&'a str>,
    files: &F,
    input: &mut R,
    output: &mut W,
) -> Result<Vec<u8>, Failure<'a>>
    ensures { IsListRun (F.gives files.now) C.lists (option_copied file.entry) (R.remaining input.old) (R.remaining input.new)
        (W.contents output.old) (W.contents output.new) result }
{
    let octets = read_octets(alloc, files, file, input)?;
    let text = list_of::<C>(alloc, &octets)?;
    write_made(alloc, output, &text)
}

/// Writes all of the octets, and gives back the notes.
fn write_with_notes<W: Write>(
    output: &mut W,
    made: &[u8],
    notes: Vec<u8>,
) -> Result<Vec<u8>, Failure<'static>>
    ensures { MatchResult result (λ told. (told.items ≡ notes.items) × Appends (W.contents output.old) (W.contents output.new) made.now)
        (λ e. (e ≡ Failure.Write) × HasTaken made.now (W.contents output.old) (W.contents output.new)) }
{
    write_out(output, made)?;
    Ok(notes)
}

/// Converts a file or the input.
fn convert<'a, C: Calls, F: Files, R: Read, W: Write>(
    alloc: Global,
    to: Format,
    file: Option<&'a str>,
    files: &F,
    input: &mut R,
    output: &mut W,
) -> Result<Vec<u8>, Failure<'a>>
    ensures { IsConvertRun (F.gives files.now) C.converts C.unconverted to (option_copied file.entry) (R.remaining input.old) (R.remaining input.new)
        (W.contents output.old) (W.contents output.new) result }
{
    let octets = read_octets(alloc, files, file, input)?;
    let Conversion { octets, notes } = conversion_of::<C>(alloc, to, &octets)?;
    write_with_notes(output, &octets, notes)
}

/// Passes a file or the input on through a proxy.
fn pass_on<'a, C: Calls, F: Files, R: Read, W: Write>(
    alloc: Global,
    way: Direction,
    file: Option<&'a str>,
    files: &F,
    input: &mut R,
    output: &mut W,
) -> Result<Vec<u8>, Failure<'a>>
    ensures { IsProxyRun (F.gives files.now) C.passes C.blocks way (option_copied file.entry) (R.remaining input.old) (R.remaining input.new)
        (W.contents output.old) (W.contents output.new) result }
{
    let octets = read_input(alloc, files, file, input)?;
    let Passed { octets, line } = passed_of::<C>(alloc, way, &octets)?;
    write_with_notes(output, &octets, line)
}

/// A line with its line feed.
fn with_line_feed(line: Vec<u8>) -> Result<Vec<u8>, AllocError>
    ensures { IfOk result (λ whole. whole.items ≡ line.items ++ 10 ∷ []) }
{
    let mut whole = line;
    whole.push(b'\n')?;
    Ok(whole)
}

/// What a line that is written comes to.
fn outcome_of(alloc: Global, accepts: bool) -> Result<Vec<u8>, Failure<'static>>
    ensures { MatchResult result (λ notes. (notes.items ≡ []) × (accepts ≡ true)) (λ e. (e ≡ Failure.Refused) × (accepts ≡ false)) }
{
    if accepts {
        Ok(Vec::new(alloc))
    } else {
        Err(Failure::Refused)
    }
}

/// Writes what is said of a token. The failure `Refused` says that its client is not let in.
fn write_report<W: Write>(
    alloc: Global,
    output: &mut W,
    report: Report,
) -> Result<Vec<u8>, Failure<'static>>
    ensures { IsReportWritten report.accepts report.line.items (W.contents output.old) (W.contents output.new) result }
{
    let accepts = report.accepts;
    let line = with_line_feed(report.line)?;
    write_out(output, &line)?;
    outcome_of(alloc, accepts)
}

/// Says whether a service lets the client of a token in.
fn accept<'a, C: Calls, F: Files + Clock, R: Read, W: Write>(
    alloc: Global,
    asked: &Accept<'a>,
    files: &F,
    input: &mut R,
    output: &mut W,
) -> Result<Vec<u8>, Failure<'a>>
    ensures { IsAcceptRun (F.gives files.now) (F.ticks files.now) C.judges C.misjudges asked.now (R.remaining input.old) (R.remaining input.new)
        (W.contents output.old) (W.contents output.new) result }
{
    match judge::<C, F, R>(alloc, asked, files, input) {
        Ok(report) => match write_report(alloc, output, report) {
            Ok(notes) => Ok(notes),
            Err(failure) => Err(undecided_of(failure)),
        },
        Err(failure) => Err(undecided_of(failure)),
    }
}

/// Does what a command asks for, if the arguments are one.
fn obey<'a, S: Pages<Kind, PageError>, C: Calls, F: Files + Clock, R: Read, W: Write>(
    alloc: Global,
    command: Result<Command<'a>, Fault<'a>>,
    files: &F,
    input: &mut R,
    output: &mut W,
) -> Result<Vec<u8>, Failure<'a>>
    ensures { IsRun S.tells C.opens (F.gives files.now) C.places C.breaks C.lists C.converts C.unconverted C.passes C.blocks C.judges C.misjudges (F.ticks files.now) command.entry
        (help_of HELP.now SHOW.now CHECK.now LIST.now CONVERT.now PROXY.now ACCEPT.now) VERSION.now
        (R.remaining input.old) (R.remaining input.new) (W.contents output.old) (W.contents output.new) result }
{
    match command {
        Err(fault) => Err(Failure::Arguments(fault)),
        Ok(Command::Help(topic)) => write_help(alloc, topic, output),
        Ok(Command::Version) => write_version(alloc, output),
        Ok(Command::Show(asked)) => show::<S, C, F, R, W>(alloc, &asked, files, input, output),
        Ok(Command::Check(name, of)) => {
            check::<S, C, F, R, W>(alloc, name.text, of.file, files, input, output)
        }
        Ok(Command::List(of)) => list::<C, F, R, W>(alloc, of.file, files, input, output),
        Ok(Command::Convert(to, of)) => {
            convert::<C, F, R, W>(alloc, to, of.file, files, input, output)
        }
        Ok(Command::Proxy(way, of)) => {
            pass_on::<C, F, R, W>(alloc, way, of.file, files, input, output)
        }
        Ok(Command::Accept(asked)) => accept::<C, F, R, W>(alloc, &asked, files, input, output),
    }
}

/// Does what the arguments ask for. Returned are notes, none or lines.
fn perform<'a, S: Pages<Kind, PageError>, C: Calls, F: Files + Clock, R: Read, W: Write>(
    alloc: Global,
    arguments: &'a [String],
    files: &F,
    input: &mut R,
    output: &mut W,
) -> Result<Vec<u8>, Failure<'a>>
    ensures { IsRunOf S.tells C.opens (F.gives files.now) C.places C.breaks C.lists C.converts C.unconverted C.passes C.blocks C.judges C.misjudges (F.ticks files.now) (map string_bytes arguments.now)
        (help_of HELP.now SHOW.now CHECK.now LIST.now CONVERT.now PROXY.now ACCEPT.now) VERSION.now
        (R.remaining input.old) (R.remaining input.new) (W.contents output.old) (W.contents output.new) result }
{
    let command = parse(alloc, arguments)?;
    obey::<S, C, F, R, W>(alloc, command, files, input, output)
}

/// How a run ended.
#[derive(Drop)]
pub struct Ended {
    /// The exit status.
    pub status: u8,
    /// Whether standard error took all of the line or of the notes; else the writer's error, before
    /// which it took a proper prefix of them.
    pub told: io::Result<()>,
}

/// Writes the line of an error.
fn tell<E: Write>(alloc: Global, failure: &Failure, errors: &mut E) -> io::Result<()>
    ensures { IsTold (line_of failure.now) (E.contents errors.old) (E.contents errors.new) result
        ⊎ IsTold (line_of Failure.Memory) (E.contents errors.old) (E.contents errors.new) result }
{
    match failure.line(alloc) {
        Ok(line) => write_all(errors, &line),
        Err(_) => write_all(errors, b"jolmurig: memory: an allocation failed\n"),
    }
}

/// Writes the line of an error, and returns its status and whether the line was written.
pub fn reject<E: Write>(alloc: Global, failure: &Failure, errors: &mut E) -> Ended
    ensures status { result.status ≡ status_of_failure failure.now }
    ensures told { IsLineWritten (E.contents errors.old) (E.contents errors.new) result.told (Err failure.now) }
{
    let told = tell(alloc, failure, errors);
    Ended {
        status: failure.status(),
        told,
    }
}

/// Writes notes, if there are any.
fn note<E: Write>(notes: &[u8], errors: &mut E) -> io::Result<()>
    ensures { AreNotesWritten (E.contents errors.old) (E.contents errors.new) result notes.now }
{
    if notes.is_empty() {
        return Ok(());
    }
    write_all(errors, notes)
}

/// One run of the program: its status; and one line to `errors` if it fails, else its notes.
pub fn run<S: Pages<Kind, PageError>, C: Calls, F: Files + Clock, R: Read, W: Write, E: Write>(
    alloc: Global,
    arguments: &[String],
    files: &F,
    input: &mut R,
    output: &mut W,
    errors: &mut E,
) -> Ended
    ensures ran { (outcome : Outcome) × (result.status ≡ status_of outcome)
        × IsLineWritten (E.contents errors.old) (E.contents errors.new) result.told outcome
        × IsRunOf S.tells C.opens (F.gives files.now) C.places C.breaks C.lists C.converts C.unconverted C.passes C.blocks C.judges C.misjudges (F.ticks files.now) (map string_bytes arguments.now)
        (help_of HELP.now SHOW.now CHECK.now LIST.now CONVERT.now PROXY.now ACCEPT.now) VERSION.now
        (R.remaining input.old) (R.remaining input.new) (W.contents output.old) (W.contents output.new) outcome }
{
    match perform::<S, C, F, R, W>(alloc, arguments, files, input, output) {
        Ok(notes) => Ended {
            status: 0,
            told: note(&notes, errors),
        },
        Err(failure) => reject(alloc, &failure, errors),
    }
}
