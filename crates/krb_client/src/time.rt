//! The time of the KDC, and what is passed in with a step.

ghost use Rattle.std.specs.Prelude.{◌≡◌};
ghost use Rattle.krb_client.specs.Moments.{ahead_of, clock_of, confounder_of, kdc_time};

use crate::moment::Moment;
use crate::replies::Reported;
use crate::terms::Terms;
use krb_client_rules::Clock;
use krb_crypto::{Cipher, CipherSuite};

/// The KDC's time, as far as it is known: the client's, and where the KDC's was taken, what it was
/// ahead.
pub(crate) fn kdc_time(offset: &Option<i64>, moment: &Moment) -> i64
    ensures { result ≡ kdc_time offset.now moment.now.seconds }
{
    match offset {
        Some(offset) => moment.seconds.saturating_add(*offset),
        None => moment.seconds,
    }
}

/// The clock by which a reply is checked.
pub(crate) fn clock_of(terms: &Terms, offset: &Option<i64>, moment: &Moment) -> Clock
    ensures { result ≡ clock_of terms.now offset.now moment.now }
{
    Clock {
        seconds: kdc_time(offset, moment),
        skew: terms.skew,
    }
}

/// What the KDC's time is ahead of the client's.
pub(crate) fn ahead(reported: &Reported, moment: &Moment) -> i64
    ensures { result ≡ ahead_of reported.now.seconds moment.now.seconds }
{
    reported.seconds.saturating_sub(moment.seconds)
}

/// What the KDC's time is ahead of the client's, which is known.
pub(crate) fn offset_of(reported: &Reported, moment: &Moment) -> Option<i64>
    ensures { result ≡ Some (ahead_of reported.now.seconds moment.now.seconds) }
{
    Some(ahead(reported, moment))
}

/// The confounder of a part under this suite.
pub(crate) fn confounder_of<'a>(moment: &'a Moment, suite: &CipherSuite) -> &'a [u8]
    ensures { result.now ≡ confounder_of suite.now moment.now.random }
{
    let size = suite.confounder_size();
    &moment.random[..size]
}
