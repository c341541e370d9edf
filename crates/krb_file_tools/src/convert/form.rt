//! Encodings, and why octets are none.

ghost use Rattle.std.specs.Prelude.{◌≡◌, ◌↔◌, pos, IsTrue, IfOk, IfErr};
ghost use Rattle.krb_der_core.specs.Errors.{ValueError};
ghost use Rattle.krb_file_tools.specs.Answers.{IsMemoryOr, IsNot, IsOf, refusal_of};

use crate::convert::error::ConvertError;
use krb_der::{Asn1DerError, Der, IntegerAsn1, from_bytes};
use std::alloc::Global;

/// What octets are to be the encoding of.
#[derive(Clone, Copy, PartialEq, Eq)]
pub(crate) enum Form {
    /// A KRB-CRED.
    Kirbi,
    /// An EncKrbCredPart.
    Part,
    /// A Ticket.
    Ticket,
}

/// The error of octets that are no encoding.
fn refusal(form: Form, why: Asn1DerError) -> ConvertError
    ensures { result ≡ refusal_of form why }
{
    match form {
        Form::Kirbi => ConvertError::Kirbi(why),
        Form::Part => ConvertError::Part(why),
        Form::Ticket => ConvertError::Ticket(why),
    }
}

/// The value whose encoding these octets are, or their first error.
pub(crate) fn read<T: Der + Drop>(
    alloc: Global,
    form: Form,
    octets: &[u8],
) -> Result<T, ConvertError>
    ensures found { IfOk result (IsOf T.is_value T.enc octets.now) }
    ensures rejected { IfErr result (λ e. IsMemoryOr e (IsNot form (ValueError T.is_value T.enc T.first T.error octets.now) e)) }
{
    match from_bytes(alloc, octets) {
        Ok(value) => Ok(value),
        Err(Asn1DerError::OutOfMemory) => Err(ConvertError::OutOfMemory),
        Err(why) => Err(refusal(form, why)),
    }
}
