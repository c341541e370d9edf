//! Kinds of octets, told by their first octets.

ghost use Rattle.std.specs.Prelude.{◌≡◌};
ghost use Rattle.krb_show_any.specs.Kinds.{is_application, is_ccache, is_frame, is_keytab, is_negoex, is_per_message, is_token_tag, is_zeros, kind_of, kind_without_tag};

use krb_show_pages::{is_message, is_part};

/// What octets are.
#[derive(Clone, Copy, PartialEq, Eq)]
pub enum Kind {
    /// The message or the opened part of a message (RFC 4120, 5.3 to 5.9) whose first octet this is.
    Application(u8),
    /// A token of the GSS-API, of Kerberos or of SPNEGO, which its first octet names.
    Token,
    /// A PAC (MS-PAC, 2.3).
    Pac,
    /// A message of NEGOEX (MS-NEGOEX, 2.2.6).
    Negoex,
    /// A frame in which a password is changed (RFC 3244, 2).
    PasswordFrame,
    /// A keytab of version 2 (MIT Kerberos, "Keytab file format").
    Keytab,
    /// A credential cache of version 3 or 4 (MIT Kerberos, "Credential cache file format").
    Ccache,
    /// A type that its first octet does not tell, by its name as its standard spells it: `type_of_name` of `krb_show_pages`.
    Type(&'static str),
    /// Any octets, as elements by their tags and lengths alone (X.690, 8.1).
    Tree,
}

/// Whether the encodings of a message or of an opened part begin with this octet (RFC 4120, 5.10).
pub fn is_application(octet: u8) -> bool
    ensures { result ≡ is_application octet }
{
    is_message(octet) || is_part(octet)
}

/// Whether a token of the GSS-API begins with this octet, which is one of a DER encoding.
fn is_token_tag(octet: u8) -> bool
    ensures { result ≡ is_token_tag octet }
{
    octet == 0x60 || octet == 0xa0 || octet == 0xa1
}

/// Whether octets begin as a MIC or a Wrap token. A credential cache of version 4 has in its first two octets the token id of Wrap, and in its fourth
/// the low octet of its header's length, where a Wrap token has `ff`.
fn is_per_message(octets: &[u8]) -> bool
    ensures { result ≡ is_per_message octets.now }
{
    match octets {
        [0x04, 0x04, ..] => true,
        [0x05, 0x04, _, 0xff, ..] => true,
        [0x05, 0x04] => true,
        [0x05, 0x04, _] => true,
        _ => false,
    }
}

/// Whether zeros follow the first octet, seven of them.
fn is_zeros(octets: &[u8]) -> bool
    ensures { result ≡ is_zeros octets.now }
{
    match octets {
        [_, 0, 0, 0, 0, 0, 0, 0, ..] => true,
        _ => false,
    }
}

/// Whether octets begin as a message of NEGOEX.
fn is_negoex(octets: &[u8]) -> bool
    ensures { result ≡ is_negoex octets.now }
{
    match octets {
        [b'N', b'E', b'G', b'O', b'E', b'X', b'T', b'S', ..] => true,
        _ => false,
    }
}

/// Whether octets begin as a frame of version 1 whose length is theirs.
fn is_frame(octets: &[u8]) -> bool
    ensures { result ≡ is_frame octets.now }
{
    match octets {
        [high, low, 0, 1, ..] => *high as usize * 256 + *low as usize == octets.len(),
        _ => false,
    }
}

/// Whether octets begin as a keytab of version 2.
fn is_keytab(octets: &[u8]) -> bool
    ensures { result ≡ is_keytab octets.now }
{
    match octets {
        [0x05, 0x02, ..] => true,
        _ => false,
    }
}

/// Whether octets begin as a credential cache of version 3 or 4.
fn is_ccache(octets: &[u8]) -> bool
    ensures { result ≡ is_ccache octets.now }
{
    match octets {
        [0x05, 0x03, ..] => true,
        [0x05, 0x04, ..] => true,
        _ => false,
    }
}

/// The kind that octets begin as, where no tag tells it.
fn kind_without_tag(octets: &[u8]) -> Option<Kind>
    ensures { result ≡ kind_without_tag octets.now }
{
    if is_per_message(octets) {
        return Some(Kind::Token);
    }
    if is_negoex(octets) {
        return Some(Kind::Negoex);
    }
    if is_zeros(octets) {
        return Some(Kind::Pac);
    }
    if is_frame(octets) {
        return Some(Kind::PasswordFrame);
    }
    if is_keytab(octets) {
        return Some(Kind::Keytab);
    }
    if is_ccache(octets) {
        return Some(Kind::Ccache);
    }
    None
}

/// The kind that octets begin as; the first rule that fits decides, and `None` is returned where none does.
///
/// 1. A first octet of RFC 4120, 5.10: that message or opened part.
/// 2. `60`, `a0`, `a1`, or `04 04`, or `05 04` with a fourth octet of `ff` or with none: a token of the GSS-API.
/// 3. `NEGOEXTS` in ASCII: a message of NEGOEX.
/// 4. Seven zeros behind the first octet: a PAC of fewer than 256 buffers.
/// 5. Two octets that are the number of all octets, then `00 01`: a frame in which a password is changed.
/// 6. `05 02`: a keytab of version 2.
/// 7. `05 03` or `05 04`: a credential cache of version 3 or 4. One of version 4 whose header's length has the low octet `ff` is a token by rule 2.
pub fn kind_of_octets(octets: &[u8]) -> Option<Kind>
    ensures { result ≡ kind_of octets.now }
{
    let (first, _rest) = octets.split_first()?;
    if is_application(*first) {
        return Some(Kind::Application(*first));
    }
    if is_token_tag(*first) {
        return Some(Kind::Token);
    }
    kind_without_tag(octets)
}
