//! The time that a server sends back (RFC 4120, 3.2.4 and 3.2.5).

ghost use Rattle.std.specs.Prelude.{MatchBool};
ghost use Rattle.krb_client_rules.specs.Times.{HasTime};

use krb_enc_parts::data_types::EncApRepPartInner;
use krb_types::view::unix_seconds;

/// The time of the authenticator that was sent.
#[derive(Clone, Copy, PartialEq, Eq)]
pub struct Sent {
    /// ctime, in seconds since 1 January 1970, 00:00:00 UTC.
    pub seconds: i64,
    /// cusec, 0 to 999999.
    pub microseconds: u32,
}

/// Whether the part of an AP-REP has the time that was sent, in seconds and microseconds (RFC 4120,
/// 3.2.5).
pub fn has_time(part: &EncApRepPartInner, sent: &Sent) -> bool
    ensures { MatchBool result (HasTime sent.now part.now) (HasTime sent.now part.now → ⊥) }
{
    unix_seconds(&part.ctime.0) == sent.seconds && part.cusec.0.is_number(sent.microseconds)
}
