//! The names of kinds.

ghost use Rattle.std.specs.Prelude.{◌≡◌};
ghost use Rattle.krb_show_any.specs.Names.{IsNamed, kind_name, other_named};

use crate::kind::Kind;
use krb_show_pages::{is_same_name, name_of_tag, tag_of_name, type_of_name};

/// The kinds that have one name.
fn other_named(name: &str) -> Option<Kind>
    ensures { result ≡ other_named name.now }
{
    if is_same_name(b"token", name.as_bytes()) {
        Some(Kind::Token)
    } else if is_same_name(b"PAC", name.as_bytes()) {
        Some(Kind::Pac)
    } else if is_same_name(b"NEGOEX", name.as_bytes()) {
        Some(Kind::Negoex)
    } else if is_same_name(b"password-frame", name.as_bytes()) {
        Some(Kind::PasswordFrame)
    } else if is_same_name(b"keytab", name.as_bytes()) {
        Some(Kind::Keytab)
    } else if is_same_name(b"ccache", name.as_bytes()) {
        Some(Kind::Ccache)
    } else if is_same_name(b"tree", name.as_bytes()) {
        Some(Kind::Tree)
    } else {
        None
    }
}

/// The kind of this name, letters of either case alike: the name that the standard gives a type, or `token`, `PAC`, `NEGOEX`, `password-frame`,
/// `keytab`, `ccache` or `tree`.
/// `None` where no kind has it.
pub fn kind_of_name(name: &str) -> Option<Kind>
    ensures { IsNamed name.now result }
{
    if let Some(tag) = tag_of_name(name) {
        return Some(Kind::Application(tag));
    }
    if let Some(kind) = other_named(name) {
        return Some(kind);
    }
    match type_of_name(name) {
        Some(name) => Some(Kind::Type(name)),
        None => None,
    }
}

/// The name of a kind.
pub fn name_of_kind(kind: Kind) -> &'static str
    ensures { result.now ≡ kind_name kind }
{
    match kind {
        Kind::Application(tag) => match name_of_tag(tag) {
            Some(name) => name,
            None => "message",
        },
        Kind::Token => "token",
        Kind::Pac => "PAC",
        Kind::Negoex => "NEGOEX",
        Kind::PasswordFrame => "password-frame",
        Kind::Keytab => "keytab",
        Kind::Ccache => "ccache",
        Kind::Tree => "tree",
        Kind::Type(name) => name,
    }
}
