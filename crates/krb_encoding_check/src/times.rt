//! Contents of GeneralizedTimes.

ghost use Rattle.std.specs.Prelude.{MatchBool};
ghost use Rattle.krb_der_core.specs.GeneralizedTime.{IsRealTime, time_content};
ghost use Rattle.krb_encoding_check.specs.Contents.{Has, HasNone};

use krb_der_core::time_of_content;

/// Whether a content is that of a GeneralizedTime, as Kerberos has them.
pub(crate) fn is_time(content: &[u8]) -> bool
    ensures { MatchBool result (Has IsRealTime time_content content.now) (HasNone IsRealTime time_content content.now) }
{
    time_of_content(content).is_ok()
}
