//! Whether a service lets the client of a token in.

ghost use Rattle.std.specs.Prelude.{◌≡◌, ◌≢◌, ◌⊎◌, ℤ, ℕ, List, None, Some, Ok, IfErr, IfOk, MatchOption, option_copied};
ghost use Rattle.hex.specs.Hex.{decode_of};
ghost use Rattle.krb_accept_report.specs.Texts.{IsTimeOf};
ghost use Rattle.krb_accept_report.specs.declared.report.ReportError.{ReportError};
ghost use Rattle.jolmurig.specs.Judgements.{AreBindings, AreMeans, AreNoBindings, AreNoMeans, AreSettings, HasBindings, HasNoBindings, IsClock, IsKeytab, IsMoment, IsNoClock};
ghost use Rattle.jolmurig.specs.Judgements.{IsNoKeytab, IsNoService, IsSeconds, IsService, failure_of_report, undecided_of};
ghost use Rattle.jolmurig.specs.Outcome.{AreNotRead, AreRead, IsJudged, IsLeft, IsNotJudged, question_of};
ghost use Rattle.jolmurig.specs.declared.failure.Failure.TheVariants as failure;
ghost use Rattle.jolmurig.specs.declared.failure.Undecided.TheVariants as undecided;

use crate::calls::Calls;
use crate::clock::Clock;
use crate::failure::{Failure, Undecided};
use crate::files::{Files, Purpose, octets_of_file};
use crate::input::read_octets;
use crate::terms::terms_of;
use hex::FromHexError;
use jolmurig_command::{Accept, Fault};
use krb_accept::{PacCheck, Settings};
use krb_accept_report::{Question, Report, ReportError, seconds_of_text};
use krb_accept_rules::Terms;
use std::alloc::Global;
use std::io::Read;

/// The seconds that a text names in decimal, with or without a minus.
fn seconds_in(text: &str) -> Option<i64>
    ensures { MatchOption result ((seconds : ℤ) → IsSeconds text.now seconds → ⊥) (IsSeconds text.now) }
{
    if text.starts_with('+') {
        return None;
    }
    match text.parse::<i64>() {
        Ok(seconds) => Some(seconds),
        Err(_) => None,
    }
}

/// The seconds since 1970 that a text names as 2026-01-02T03:04:05Z.
fn time_in(alloc: Global, text: &str) -> Result<Option<i64>, Failure<'static>>
    ensures found { IfOk result (λ found. MatchOption found ((seconds : ℤ) → IsTimeOf text.now seconds → ⊥) (IsTimeOf text.now)) }
    ensures rejected { IfErr result (λ e. e ≡ failure.Memory) }
{
    let found = seconds_of_text(alloc, text.as_bytes())?;
    Ok(found)
}

/// The time that a text names, in seconds since 1970: these in decimal, or as 2026-01-02T03:04:05Z.
fn moment_of(alloc: Global, text: &str) -> Result<i64, Failure<'static>>
    ensures found { IfOk result (IsMoment text.now) }
    ensures rejected { IfErr result (λ e. (e ≡ failure.Memory) ⊎ ((e ≡ failure.Time) × ((seconds : ℤ) → IsMoment text.now seconds → ⊥))) }
{
    if let Some(seconds) = seconds_in(text) {
        return Ok(seconds);
    }
    match time_in(alloc, text) {
        Ok(Some(seconds)) => Ok(seconds),
        Ok(None) => Err(Failure::Time),
        Err(failure) => Err(failure),
    }
}

/// The time that is named, or that of the clock.
fn clock_of<F: Clock>(alloc: Global, files: &F, time: Option<&str>) -> Result<i64, Failure<'static>>
    ensures found { IfOk result (IsClock (F.ticks files.now) (option_copied time.entry)) }
    ensures rejected { IfErr result (λ e. (e ≡ failure.Memory) ⊎ IsNoClock (F.ticks files.now) (option_copied time.entry) e) }
{
    match time {
        Some(text) => moment_of(alloc, text),
        None => match files.seconds() {
            Some(seconds) => Ok(seconds),
            None => Err(Failure::Undecided(Undecided::Clock)),
        },
    }
}

/// The 16 octets that a text names in hexadecimal.
fn octets_of(alloc: Global, text: &str) -> Result<[u8; 16], Failure<'static>>
    ensures found { IfOk result (HasBindings text.now) }
    ensures rejected { IfErr result (λ e. (e ≡ failure.Memory) ⊎ ((e ≡ failure.Bindings) × HasNoBindings text.now)) }
{
    let octets = match hex::decode(alloc, text) {
        Ok(octets) => octets,
        Err(FromHexError::OutOfMemory) => return Err(Failure::Memory),
        Err(_) => return Err(Failure::Bindings),
    };
    match <[u8; 16]>::try_from(octets.as_slice()) {
        Ok(bindings) => Ok(bindings),
        Err(_) => Err(Failure::Bindings),
    }
}

/// The channel bindings that are named, if they are.
fn bindings_of(alloc: Global, bindings: Option<&str>) -> Result<Option<[u8; 16]>, Failure<'static>>
    ensures found { IfOk result (AreBindings (option_copied bindings.entry)) }
    ensures rejected { IfErr result (λ e. (e ≡ failure.Memory) ⊎ AreNoBindings (option_copied bindings.entry) e) }
{
    match bindings {
        Some(text) => Ok(Some(octets_of(alloc, text)?)),
        None => Ok(None),
    }
}

/// What the service asks of tokens.
fn settings_of(alloc: Global, asked: &Accept) -> Result<Settings, Failure<'static>>
    ensures found { IfOk result (AreSettings asked.now) }
    ensures rejected { IfErr result (λ e. (e ≡ failure.Memory) ⊎ AreNoBindings asked.now.bindings e) }
{
    let bindings = bindings_of(alloc, asked.bindings)?;
    Ok(Settings {
        bindings,
        bare_request: asked.is_bare,
        other_checksum: asked.takes_other,
        pac: asked.pac.unwrap_or(PacCheck::Checked),
    })
}

/// The octets of the keytab that is named.
fn keytab_of<'a, F: Files>(
    alloc: Global,
    files: &F,
    keytab: Option<&'a str>,
) -> Result<Vec<u8>, Failure<'a>>
    ensures found { IfOk result (λ octets. IsKeytab (F.gives files.now) (option_copied keytab.entry) octets.items) }
    ensures rejected { IfErr result (λ e. (e ≡ failure.Memory) ⊎ IsNoKeytab (F.gives files.now) (option_copied keytab.entry) e) }
{
    match keytab {
        Some(name) => octets_of_file(alloc, files, Purpose::Keytab, name),
        None => Err(Failure::Arguments(Fault::NoKeytab)),
    }
}

/// What a service has beside its terms.
#[derive(Drop)]
struct Means {
    settings: Settings,
    clock: i64,
    keytab: Vec<u8>,
}

/// What the service that is asked about has beside its terms.
fn means_of<'a, F: Files + Clock>(
    alloc: Global,
    files: &F,
    asked: &Accept<'a>,
) -> Result<Means, Failure<'a>>
    ensures found { IfOk result (λ m. AreMeans (F.gives files.now) (F.ticks files.now) asked.now m.settings m.clock m.keytab.items) }
    ensures rejected { IfErr result (λ e. (e ≡ failure.Memory) ⊎ AreNoMeans (F.gives files.now) (F.ticks files.now) asked.now e) }
{
    let settings = settings_of(alloc, asked)?;
    let clock = clock_of(alloc, files, asked.time)?;
    let keytab = keytab_of(alloc, files, asked.keytab)?;
    Ok(Means {
        settings,
        clock,
        keytab,
    })
}

/// The service that is asked about.
#[derive(Drop)]
struct Service {
    terms: Terms,
    means: Means,
}

/// The service that is asked about.
fn service_of<'a, F: Files + Clock>(
    alloc: Global,
    files: &F,
    asked: &Accept<'a>,
) -> Result<Service, Failure<'a>>
    ensures found { IfOk result (λ s. IsService (F.gives files.now) (F.ticks files.now) asked.now
        s.terms s.means.settings s.means.clock s.means.keytab.items) }
    ensures rejected { IfErr result (λ e. (e ≡ failure.Memory) ⊎ IsNoService (F.gives files.now) (F.ticks files.now) asked.now e) }
{
    let terms = terms_of(alloc, asked)?;
    match means_of(alloc, files, asked) {
        Ok(means) => Ok(Service { terms, means }),
        Err(error) => {
            drop(terms);
            Err(error)
        }
    }
}

/// The failure that an error of a report is.
fn failure_of_report(error: ReportError) -> Failure<'static>
    ensures { result ≡ failure_of_report error }
{
    match error {
        ReportError::Keytab(why) => Failure::Undecided(Undecided::Keytab(why)),
        ReportError::OutOfMemory => Failure::Memory,
    }
}

/// The failure, where nothing is decided.
pub fn undecided_of<'a>(failure: Failure<'a>) -> Failure<'a>
    ensures { result ≡ undecided_of failure.entry }
{
    match failure {
        Failure::Memory => Failure::Undecided(Undecided::Memory),
        Failure::NotBase64 => Failure::Undecided(Undecided::NotBase64),
        Failure::Read => Failure::Undecided(Undecided::Read),
        Failure::Write => Failure::Undecided(Undecided::Write),
        Failure::NoFile(file) => Failure::Undecided(Undecided::NoFile(file)),
        other => other,
    }
}

/// What is said of octets.
fn said_of<C: Calls>(alloc: Global, question: &Question) -> Result<Report, Failure<'static>>
    ensures said { IfOk result (λ r. C.judges question.now r.accepts r.line.items) }
    ensures none { IfErr result (λ e. (why : ReportError) × C.misjudges question.now why × (e ≡ failure_of_report why)) }
{
    match C::judged(alloc, question) {
        Ok(report) => Ok(report),
        Err(error) => Err(failure_of_report(error)),
    }
}

/// What a service says of the token of a file or the input.
fn judge_by<'a, C: Calls, F: Files, R: Read>(
    alloc: Global,
    service: &Service,
    file: Option<&'a str>,
    files: &F,
    input: &mut R,
) -> Result<Report, Failure<'a>>
    ensures said { IfOk result (λ r. (octets : List ℕ) × AreRead (F.gives files.now) (option_copied file.entry) (R.remaining input.old) octets
        × C.judges (question_of service.now.means.keytab.items octets service.now.means.clock service.now.terms service.now.means.settings)
        r.accepts r.line.items) }
    ensures rejected { IfErr result (λ e. AreNotRead (F.gives files.now) (option_copied file.entry) (R.remaining input.old) e
        ⊎ ((octets : List ℕ) × AreRead (F.gives files.now) (option_copied file.entry) (R.remaining input.old) octets
        × ((why : ReportError)
        × C.misjudges (question_of service.now.means.keytab.items octets service.now.means.clock service.now.terms service.now.means.settings) why
        × (e ≡ failure_of_report why)))) }
    ensures left { IsLeft (option_copied file.entry) (R.remaining input.old) (R.remaining input.new) }
{
    let octets = read_octets(alloc, files, file, input)?;
    let question = Question {
        keytab: &service.means.keytab,
        octets: &octets,
        clock: service.means.clock,
        terms: &service.terms,
        settings: service.means.settings,
    };
    said_of::<C>(alloc, &question)
}

/// What the service that is asked about says of the token of a file or the input.
pub fn judge<'a, C: Calls, F: Files + Clock, R: Read>(
    alloc: Global,
    asked: &Accept<'a>,
    files: &F,
    input: &mut R,
) -> Result<Report, Failure<'a>>
    ensures said { IfOk result (λ r. IsJudged (F.gives files.now) (F.ticks files.now) C.judges asked.now (R.remaining input.old) r.accepts r.line.items) }
    ensures rejected { IfErr result (IsNotJudged (F.gives files.now) (F.ticks files.now) C.misjudges asked.now (R.remaining input.old) (R.remaining input.new)) }
    ensures left { IsLeft asked.now.file (R.remaining input.old) (R.remaining input.new) }
{
    let service = service_of(alloc, files, asked)?;
    let said = judge_by::<C, F, R>(alloc, &service, asked.file, files, input);
    drop(service);
    said
}
