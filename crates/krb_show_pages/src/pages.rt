//! Pages of octets by the row of their type: messages and opened parts by their first octet, other types by name.

ghost use Rattle.std.specs.Prelude.{◌≡◌, nat_eq};
ghost use Rattle.std.specs.Option.{option_copied};
ghost use Rattle.krb_show_pages.specs.Pages.{IsPageByFirst, IsPageOfNamed, IsPageOfType, is_reply, named_if};
ghost use Rattle.krb_show_pages.specs.Told.{is_message, is_part};

use crate::replies::page_of_reply;
use crate::types::{is_name, name_of_tag, title};
use krb_der::Asn1DerError;
use krb_show::Page;
use krb_show_messages::page_by_row;
use std::alloc::Global;

/// Whether the encodings of a message begin with this octet (RFC 4120, 5.10).
pub fn is_message(octet: u8) -> bool
    ensures { result ≡ is_message octet }
{
    octet == 0x61
        || (0x6a <= octet && octet <= 0x6f)
        || octet == 0x75
        || octet == 0x76
        || octet == 0x7e
}

/// Whether the encodings of an opened part begin with this octet (RFC 4120, 5.10).
pub fn is_part(octet: u8) -> bool
    ensures { result ≡ is_part octet }
{
    octet == 0x62 || octet == 0x63 || (0x79 <= octet && octet <= 0x7d)
}

/// The name of what begins with this octet, if it is to be taken.
fn named_if(is_taken: bool, first: u8) -> Option<&'static str>
    ensures { option_copied result ≡ named_if is_taken first }
{
    if is_taken { name_of_tag(first) } else { None }
}

/// The page of octets by the row of this name, if there is a name.
fn page_of_named(
    alloc: Global,
    name: Option<&'static str>,
    octets: &[u8],
) -> Result<Page, Asn1DerError>
    ensures { IsPageOfNamed (λ p. p.items) (option_copied name.entry) octets.now result }
{
    match name {
        Some(name) => page_by_row(alloc, name, name, octets),
        None => Err(Asn1DerError::InvalidData),
    }
}

/// The page of a message (RFC 4120, 5.3 to 5.9), told by its first octet: `61` Ticket, `6a` AS-REQ, `6b` AS-REP, `6c` TGS-REQ, `6d` TGS-REP,
/// `6e` AP-REQ, `6f` AP-REP, `75` KRB-PRIV, `76` KRB-CRED, `7e` KRB-ERROR. No octet is `TruncatedData`, another first octet `InvalidData`, and else
/// what is no element of the row of that name is refused with its first error, from the left.
pub fn page_of_message(alloc: Global, octets: &[u8]) -> Result<Page, Asn1DerError>
    ensures { IsPageByFirst is_message (λ p. p.items) octets.now result }
{
    let Some((first, _rest)) = octets.split_first() else {
        return Err(Asn1DerError::TruncatedData);
    };
    page_of_named(alloc, named_if(is_message(*first), *first), octets)
}

/// The page of an opened part (RFC 4120, 5.3 to 5.8), told by its first octet: `62` Authenticator, `63` EncTicketPart, `79` EncASRepPart, `7a`
/// EncTGSRepPart, `7b` EncAPRepPart, `7c` EncKrbPrivPart, `7d` EncKrbCredPart. Refused as by `page_of_message`.
pub fn page_of_part(alloc: Global, octets: &[u8]) -> Result<Page, Asn1DerError>
    ensures { IsPageByFirst is_part (λ p. p.items) octets.now result }
{
    let Some((first, _rest)) = octets.split_first() else {
        return Err(Asn1DerError::TruncatedData);
    };
    page_of_named(alloc, named_if(is_part(*first), *first), octets)
}

/// The page of octets that are to be the message or the opened part whose encodings begin with this octet. Refused as by `page_of_message`: another first
/// octet is `InvalidData`.
pub fn page_of_application(alloc: Global, tag: u8, octets: &[u8]) -> Result<Page, Asn1DerError>
    ensures { IsPageByFirst (nat_eq tag) (λ p. p.items) octets.now result }
{
    let Some((first, _rest)) = octets.split_first() else {
        return Err(Asn1DerError::TruncatedData);
    };
    page_of_named(alloc, named_if(tag == *first, *first), octets)
}

/// Whether this is the name of PA-PK-AS-REP (RFC 4556, 3.2.3).
pub fn is_reply(name: &str) -> bool
    ensures { result ≡ is_reply name.now }
{
    is_name("PA-PK-AS-REP", name)
}

/// The page of octets that are to be a value of the type of this name, as `type_of_name` returns it, under the name that the standard gives the type. What
/// is no element of the type's row is refused with its first error, from the left; a name that no row has is `InvalidData`. `Io` is never returned.
pub fn page_of_type(alloc: Global, name: &'static str, octets: &[u8]) -> Result<Page, Asn1DerError>
    ensures { IsPageOfType name.now (λ p. p.items) octets.now result }
{
    if is_reply(name) {
        return page_of_reply(alloc, octets);
    }
    page_by_row(alloc, name, title(name), octets)
}
