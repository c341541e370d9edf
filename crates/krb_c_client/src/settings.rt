//! The settings of a call: powers of two, added.

ghost use Rattle.std.specs.Prelude.{◌≡◌, ◌≢◌};
ghost use Rattle.krb_c_client.specs.Settings.{has_setting, optional};

/// A postdated ticket is asked for.
pub(crate) const FROM: u32 = 1;

/// A time until which the ticket is renewable is asked for.
pub(crate) const RTIME: u32 = 2;

/// The transport may deliver replies to other requests.
pub(crate) const DATAGRAMS: u32 = 4;

/// A reply may rename the client and the server, by the checksum of the request.
pub(crate) const CANONICALIZE: u32 = 8;

/// The authenticator has the number of the client's first message.
pub(crate) const SEQUENCE: u32 = 1;

/// The authenticator has the checksum of the GSS-API.
pub(crate) const GSS: u32 = 2;

/// The service is to answer.
pub(crate) const MUTUAL: u32 = 4;

/// Whether a setting is among those that were added.
pub(crate) fn has_setting(settings: u32, setting: u32) -> bool
    requires { setting ≢ 0 }
    ensures { result ≡ has_setting settings setting }
{
    settings / setting % 2 == 1
}

/// A time, where the setting is there.
pub(crate) fn optional(settings: u32, setting: u32, time: i64) -> Option<i64>
    requires { setting ≢ 0 }
    ensures { result ≡ optional settings setting time }
{
    if has_setting(settings, setting) {
        Some(time)
    } else {
        None
    }
}
