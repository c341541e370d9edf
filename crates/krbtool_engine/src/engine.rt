//! The program over any reader and any writers.

ghost use Rattle.std.specs.Prelude.{◌≡◌, ◌⊎◌, ℕ, ⊤, map, take, IfOk, IfErr, OnOk, IfSome, Result, Err};
ghost use Rattle.std.specs.Io.KnownBytes.{Keeps, Appends, IsAtEnd};
ghost use Rattle.std.specs.String.{string_bytes};
ghost use Rattle.krbtool_engine.specs.declared.failure.Failure.{Failure};
ghost use Rattle.krbtool_engine.specs.Outcome.{status_of, rejection_status, IsLineWritten, IsRun};

use crate::answer::answer;
use crate::failure::{Failure, read_failure};
use crate::parse::parse;
use krb_der::DerEncode;
use krb_enc_parts::data_types::EncTicketPart;
use std::alloc::Global;
use std::io::{ErrorKind, Read, Write};

/// All that the reader has left.
fn read_all<R: Read>(alloc: Global, input: &mut R) -> Result<Vec<u8>, Failure>
    ensures read { IfOk result (λ octets. IfSome (R.remaining input.old) (λ all. octets.items ≡ all)) }
    ensures end { OnOk result (IsAtEnd (R.remaining input.new)) }
    ensures rejected { IfErr result (λ e. (e ≡ Failure.Memory) ⊎ (e ≡ Failure.Read)) }
{
    let mut octets = Vec::new(alloc);
    input.read_to_end(&mut octets).map_err(read_failure)?;
    Ok(octets)
}

/// Writes all of the octets, and lets none wait in the writer.
fn write_out<W: Write>(output: &mut W, octets: &[u8]) -> Result<(), Failure>
    ensures written { OnOk result (Appends (W.contents output.old) (W.contents output.new) octets.now) }
    ensures rejected { IfErr result (λ e. e ≡ Failure.Write) }
{
    if output.write_all(octets).is_err() || output.flush().is_err() {
        return Err(Failure::Write);
    }
    Ok(())
}

/// Reads all of the input, and writes the result to it.
fn perform<R: Read, W: Write>(
    alloc: Global,
    arguments: &[String],
    input: &mut R,
    output: &mut W,
) -> Result<(), Failure>
    ensures { IsRun ⟦<EncTicketPart as DerEncode>⟧.is_value ⟦<EncTicketPart as DerEncode>⟧.enc
        ⟦<EncTicketPart as DerEncode>⟧.first ⟦<EncTicketPart as DerEncode>⟧.error
        (map string_bytes arguments.now) (R.remaining input.old) (R.remaining input.new)
        (W.contents output.old) (W.contents output.new) result }
{
    let command = parse(alloc, arguments)?;
    let octets = read_all(alloc, input)?;
    let made = answer::<EncTicketPart>(alloc, &command, &octets)?;
    write_out(output, &made)?;
    Ok(())
}

/// Writes the octets, as many of them as the writer takes.
fn write_prefix<W: Write>(output: &mut W, octets: &[u8])
    ensures { (count : ℕ) × Appends (W.contents output.old) (W.contents output.new) (take count octets.now) }
{
    let mut rest = octets;
    for _ in 0..u64::MAX {
        if rest.is_empty() {
            return;
        }
        match output.write(rest) {
            Ok(0) => return,
            Ok(count) => rest = &rest[count..],
            Err(error) => {
                if error.kind() != ErrorKind::Interrupted {
                    return;
                }
            }
        }
    }
}

/// Writes the line of an error, and returns its status. A failed write of that line changes nothing.
pub fn reject<E: Write>(failure: &Failure, errors: &mut E) -> u8
    ensures status { result ≡ rejection_status failure.now }
    ensures told { IsLineWritten (E.contents errors.old) (E.contents errors.new) (Err failure.now) }
{
    write_prefix(errors, failure.line().as_bytes());
    failure.status()
}

/// One run of the program: its status, and one line to `errors` where it fails.
pub fn run<R: Read, W: Write, E: Write>(
    alloc: Global,
    arguments: &[String],
    input: &mut R,
    output: &mut W,
    errors: &mut E,
) -> u8
    ensures ran { (outcome : Result ⊤ Failure) × (result ≡ status_of outcome)
        × IsLineWritten (E.contents errors.old) (E.contents errors.new) outcome
        × IsRun ⟦<EncTicketPart as DerEncode>⟧.is_value ⟦<EncTicketPart as DerEncode>⟧.enc
        ⟦<EncTicketPart as DerEncode>⟧.first ⟦<EncTicketPart as DerEncode>⟧.error
        (map string_bytes arguments.now) (R.remaining input.old) (R.remaining input.new)
        (W.contents output.old) (W.contents output.new) outcome }
    ensures quiet { result ≡ 0 → Keeps (E.contents errors.old) (E.contents errors.new) }
{
    match perform(alloc, arguments, input, output) {
        Ok(()) => 0,
        Err(failure) => reject(&failure, errors),
    }
}
