//! Octets walked by the row of their kind.

ghost use Rattle.std.specs.Prelude.{◌≡◌, IfOk};
ghost use Rattle.krb_show_any.specs.Rows.{IsWalkOf, choice_row, row_name, token_row, type_row};

use crate::kind::Kind;
use crate::names::name_of_kind;
use krb_show::{Walk, walk_named};
use krb_show_pages::is_reply;
use std::alloc::{AllocError, Global};

/// The name of the row of a token: that of the alternative of `NegotiationToken` (RFC 4178, 4.2) which the first octet tells, `a1` the
/// second and else the first. What has another form than DER has none: MIC and Wrap tokens, `04` and `05`, and frames, `60`.
fn token_row(octets: &[u8]) -> &'static str
    ensures { result.now ≡ token_row octets.now }
{
    match octets {
        [0xa1, ..] => "NegotiationToken (negTokenResp)",
        [0x04, ..] => "token",
        [0x05, ..] => "token",
        [0x60, ..] => "token",
        _ => "NegotiationToken (negTokenInit)",
    }
}

/// The name of the row of the alternative of `PA-PK-AS-REP` (RFC 4556, 3.2.3) which the first octet tells: `81` the second, and else the
/// first.
fn choice_row(octets: &[u8]) -> &'static str
    ensures { result.now ≡ choice_row octets.now }
{
    match octets {
        [0x81, ..] => "PA-PK-AS-REP (encKeyPack)",
        _ => "PA-PK-AS-REP (dhInfo)",
    }
}

/// The name of the row of octets of a type: that of the type, but for PA-PK-AS-REP, which is a CHOICE.
pub(crate) fn type_row(name: &'static str, octets: &[u8]) -> &'static str
    ensures { result.now ≡ type_row name.now octets.now }
{
    if is_reply(name) {
        choice_row(octets)
    } else {
        name
    }
}

/// The name of the row of octets of a kind, if they have one: that of the kind, but for two types of alternatives.
fn row_name(kind: Kind, octets: &[u8]) -> &'static str
    ensures { result.now ≡ row_name kind octets.now }
{
    match kind {
        Kind::Token => token_row(octets),
        Kind::Type(name) => type_row(name, octets),
        _ => name_of_kind(kind),
    }
}

/// Walks octets of a kind by its row, if it has one: PACs, files and frames have none.
pub(crate) fn walk_octets(alloc: Global, kind: Kind, octets: &[u8]) -> Result<Walk, AllocError>
    ensures { IfOk result (IsWalkOf kind octets.now) }
{
    walk_named(alloc, row_name(kind, octets), name_of_kind(kind), octets)
}
