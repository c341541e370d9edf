//! Whether a client waits for an AP-REP (RFC 4121, 4.1.1.1; RFC 4120, 5.5.1).

ghost use Rattle.std.specs.Prelude.{MatchBool};
ghost use Rattle.krb_accept.specs.Wanted.{WantsReply};

use crate::said::gss_octets;
use krb_accept_rules::Accepted;
use krb_types::view::is_set;

/// The option of an AP-REQ that asks for mutual authentication (RFC 4120, 5.5.1).
const MUTUAL_REQUIRED: usize = 2;

/// Whether a client waits for an AP-REP, with these flags of its context. The checksum of the GSS-API says it by the flag of mutual
/// authentication (2; RFC 4121, 4.1.1.1), and then ap-options are not looked at, which are under no key. A client with another checksum, or
/// none, has no flags, and says it by mutual-required (bit 2) of its ap-options.
pub fn wants_reply(accepted: &Accepted, flags: u32) -> bool
    ensures { MatchBool result (WantsReply accepted.now flags) (WantsReply accepted.now flags → ⊥) }
{
    match gss_octets(&accepted.checksum) {
        Some(_octets) => flags / 2 % 2 == 1,
        None => is_set(&accepted.options, MUTUAL_REQUIRED),
    }
}
