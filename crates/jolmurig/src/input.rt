//! The input of a command.

ghost use Rattle.std.specs.Prelude.{◌≡◌, ◌⊎◌, None, Some, option_copied, IfOk, IfErr, IfSome};
ghost use Rattle.jolmurig.specs.Outcome.{AreNotRead, AreRead, IsInput, IsLeft, IsNoInput};
ghost use Rattle.jolmurig.specs.declared.failure.Failure.TheVariants as failure;

use crate::failure::Failure;
use crate::files::{Files, Purpose, octets_of_file};
use krb_input::octets_of_input;
use krb_io::{ReadError, read_to_end};
use std::alloc::Global;
use std::io::Read;

/// All that the reader has left.
fn read_all<R: Read>(alloc: Global, input: &mut R) -> Result<Vec<u8>, Failure<'static>>
    ensures read { IfOk result (λ octets. IfSome (R.remaining input.old) (λ all. octets.items ≡ all)) }
    ensures rejected { IfErr result (λ e. (e ≡ failure.Memory) ⊎ (e ≡ failure.Read)) }
{
    match read_to_end(alloc, input) {
        Ok(octets) => Ok(octets),
        Err(ReadError::OutOfMemory) => Err(Failure::Memory),
        Err(ReadError::Io(_)) => Err(Failure::Read),
    }
}

/// What is read: the file of this name, or all that the reader has left.
pub fn read_input<'a, F: Files, R: Read>(
    alloc: Global,
    files: &F,
    file: Option<&'a str>,
    input: &mut R,
) -> Result<Vec<u8>, Failure<'a>>
    ensures read { IfOk result (λ all. IsInput (F.gives files.now) (option_copied file.entry) (R.remaining input.old) all.items) }
    ensures rejected { IfErr result (IsNoInput (F.gives files.now) (option_copied file.entry)) }
    ensures left { IsLeft (option_copied file.entry) (R.remaining input.old) (R.remaining input.new) }
{
    match file {
        Some(name) => octets_of_file(alloc, files, Purpose::Input, name),
        None => read_all(alloc, input),
    }
}

/// The octets that the file of this name stands for, or all that the reader has left.
pub fn read_octets<'a, F: Files, R: Read>(
    alloc: Global,
    files: &F,
    file: Option<&'a str>,
    input: &mut R,
) -> Result<Vec<u8>, Failure<'a>>
    ensures read { IfOk result (λ octets. AreRead (F.gives files.now) (option_copied file.entry) (R.remaining input.old) octets.items) }
    ensures rejected { IfErr result (AreNotRead (F.gives files.now) (option_copied file.entry) (R.remaining input.old)) }
    ensures left { IsLeft (option_copied file.entry) (R.remaining input.old) (R.remaining input.new) }
{
    let all = read_input(alloc, files, file, input)?;
    let octets = octets_of_input(alloc, &all)?;
    Ok(octets)
}
