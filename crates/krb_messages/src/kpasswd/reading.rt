//! Frames of two messages, from readers.

ghost use Rattle.std.specs.Prelude.{◌≡◌, ◌++◌, ◌∷◌, ◌<◌, ◌^◌, [], List, ℕ, length, Some, IfOk, IfErr, OnOk, MatchResult};
ghost use Rattle.std.specs.Io.KnownBytes.{Consumes};
ghost use Rattle.krb_messages.specs.Frame.{IsFramed};
ghost use Rattle.krb_messages.specs.Rejected.{EndsOrFails, HeaderRejected, HeaderTaken, IsFailure, IsShort, ReaderRejected};

use crate::kpasswd::error::ReadFrameError;
use crate::kpasswd::rejection::{Rejection, ap_message_rejection, krb_priv_rejection};
use krb_der::{Der, DerEncode, from_reader};
use krb_io::read_once;
use krb_registry::krb_priv::KRB_PRIV_VERSION;
use std::alloc::Global;
use std::io::Read;

/// The reader's next octet. A read that a signal interrupts is tried again.
fn read_octet<R: Read>(reader: &mut R) -> Result<u8, Rejection>
    ensures ok { IfOk result (λ x. Consumes (R.remaining reader.old) (R.remaining reader.new) (x ∷ [])) }
    ensures err { IfErr result (EndsOrFails (R.remaining reader.old) (R.remaining reader.new)) }
{
    let mut octet = [0; 1];
    match read_once(reader, &mut octet) {
        Ok(0) => Err(Rejection::Frame(ReadFrameError::Cut)),
        Ok(_) => Ok(octet[0]),
        Err(error) => Err(Rejection::Device(error)),
    }
}

/// The reader's next two octets.
fn read_pair<R: Read>(reader: &mut R) -> Result<[u8; 2], Rejection>
    ensures ok { IfOk result (λ pair. Consumes (R.remaining reader.old) (R.remaining reader.new) pair) }
    ensures err { IfErr result (IsShort (R.remaining reader.old) (R.remaining reader.new)) }
{
    let first = read_octet(reader)?;
    let second = read_octet(reader)?;
    Ok([first, second])
}

/// Reads the six octets before the messages: a length, the version, and another length. The lengths are not looked at.
fn read_header<R: Read>(reader: &mut R) -> Result<(), Rejection>
    ensures ok { OnOk result (HeaderTaken (R.remaining reader.old) (R.remaining reader.new)) }
    ensures err { IfErr result (HeaderRejected (R.remaining reader.old) (R.remaining reader.new)) }
{
    let _whole = read_pair(reader)?;
    let version = read_pair(reader)?;
    if version != KRB_PRIV_VERSION {
        return Err(Rejection::Frame(ReadFrameError::Version));
    }
    let _first = read_pair(reader)?;
    Ok(())
}

/// The two messages of the frame that the reader's next octets are.
fn read_messages<A: Der + Drop, B: Der, R: Read>(
    alloc: Global,
    reader: &mut R,
) -> Result<(A, B), Rejection>
    ensures valid { IfOk result (λ p. A.is_value p.0 × B.is_value p.1) }
    ensures found { IfOk result (λ p. (octets : List ℕ) × IsFramed octets (A.enc p.0) (B.enc p.1)
        × Consumes (R.remaining reader.old) (R.remaining reader.new) octets) }
    ensures rejected { IfErr result (ReaderRejected ⟦<A as DerEncode>⟧ ⟦<B as DerEncode>⟧ (R.remaining reader.old) (R.remaining reader.new)) }
{
    read_header(reader)?;
    let first = match from_reader::<A, R>(alloc, reader) {
        Ok(message) => message,
        Err(error) => return Err(ap_message_rejection(error)),
    };
    let second = match from_reader::<B, R>(alloc, reader) {
        Ok(message) => message,
        Err(error) => return Err(krb_priv_rejection(error)),
    };
    Ok((first, second))
}

/// The two messages of the frame that the reader's next octets are. Exactly these are read. A frame is an error only where the reader
/// or an allocation fails.
pub(crate) fn take_messages<A: Der + Drop, B: Der, R: Read>(
    alloc: Global,
    reader: &mut R,
) -> Result<(A, B), Rejection>
    ensures valid { IfOk result (λ p. A.is_value p.0 × B.is_value p.1) }
    ensures found { IfOk result (λ p. (octets : List ℕ) × IsFramed octets (A.enc p.0) (B.enc p.1)
        × Consumes (R.remaining reader.old) (R.remaining reader.new) octets) }
    ensures rejected { IfErr result (ReaderRejected ⟦<A as DerEncode>⟧ ⟦<B as DerEncode>⟧ (R.remaining reader.old) (R.remaining reader.new)) }
    ensures reads { (a : A) (b : B) (octets rest : List ℕ) → A.is_value a → B.is_value b → length octets < 2 ^ 64 → IsFramed octets (A.enc a) (B.enc b)
        → R.remaining reader.old ≡ Some (octets ++ rest) → MatchResult result (λ p. (p ≡ (a, b)) × (R.remaining reader.new ≡ Some rest)) IsFailure }
{
    read_messages(alloc, reader)
}
