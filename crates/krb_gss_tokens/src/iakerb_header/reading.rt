//! What octets are read as a header of IAKERB.

ghost use Rattle.std.specs.Prelude.{◌≡◌, IfOk, IfErr};
ghost use Rattle.krb_der.specs.Whole.{Answers, NoDevice};
ghost use Rattle.krb_der_core.specs.Errors.{PrefixLaws, OrMemory};
ghost use Rattle.krb_gss_tokens.specs.Header.{ContentReads};

use crate::iakerb_header::messages::IAKerbHeader;
use krb_der::composite::{Fields, Sequence};
use krb_der::{Asn1DerError, DerEncode};
use std::alloc::Global;

/// Lemma: octets with an error do not begin with the fields.
pub(crate) fn known_errors<F: Fields>()
    ensures { PrefixLaws F.are_values F.octets F.ends F.error }
{}

/// The header that the content of a SEQUENCE is read as (draft-ietf-kitten-iakerb-03, 3): the realm, then the cookie if the
/// next octet is `a2`, then the flags if the next octet is `a3`. Trailing octets are ignored, whatever they are.
///
/// The first error of these fields is returned, from the left. `Io` is never returned.
pub fn read_content(alloc: Global, content: &[u8]) -> Result<IAKerbHeader, Asn1DerError>
    ensures valid { IfOk result ⟦<IAKerbHeader as DerEncode>⟧.is_value }
    ensures found { IfOk result (ContentReads content.now) }
    ensures reads { (h : IAKerbHeader) → ⟦<IAKerbHeader as DerEncode>⟧.is_value h → ContentReads content.now h → Answers result h }
    ensures no_device { IfErr result NoDevice }
    ensures first_error { IfErr result (OrMemory (⟦<IAKerbHeader as DerEncode>⟧.error 48 content.now)) }
{
    known_errors::<<IAKerbHeader as Sequence>::Fields>();
    let (fields, _) = <IAKerbHeader as Sequence>::Fields::read_fields(alloc, content)?;
    Ok(IAKerbHeader::from_fields(fields))
}
