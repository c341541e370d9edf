//! What the checksum of an authenticator says of a context (RFC 4121, 4.1.1).

ghost use Rattle.std.specs.Prelude.{◌≡◌, ℕ, List, IfErr, IfOk, MatchOption};
ghost use Rattle.krb_accept.specs.Said.{HasChecksum, IsNotSaid, IsSaid, TakesOther, RefusesOther, known_flags};

use crate::checksum::checksum_of;
use crate::settings::Settings;
use crate::token_refusal::TokenRefusal;
use krb_accept_rules::fits_bindings;
use krb_types::data_types::Checksum;

/// The type of the checksum of the GSS-API (RFC 4121, 4.1.1).
const GSS_CHECKSUM: u32 = 0x8003;

/// What a checksum says.
#[derive(Clone, Copy)]
pub(crate) struct Said<'a> {
    /// The flags of the context (RFC 4121, 4.1.1.1).
    pub flags: u32,
    /// The octets of the delegated credentials; none, where the flag of delegation is not set.
    pub delegated: &'a [u8],
}

/// The octets of the checksum, where it is one of the GSS-API.
pub(crate) fn gss_octets(checksum: &Option<Checksum>) -> Option<&[u8]>
    ensures { MatchOption result ((octets : List ℕ) → HasChecksum checksum.now octets → ⊥) (λ octets. HasChecksum checksum.now octets.now) }
{
    let Some(checksum) = checksum else {
        return None;
    };
    if !checksum.cksumtype.0.is_number(GSS_CHECKSUM) {
        return None;
    }
    Some(checksum.checksum.0.0.as_slice())
}

/// What is said where the checksum is not one of the GSS-API.
fn other(settings: &Settings) -> Result<Said<'static>, TokenRefusal>
    ensures taken { IfOk result (λ said. TakesOther settings.now said.flags said.delegated.now) }
    ensures refused { IfErr result (RefusesOther settings.now) }
{
    if !settings.other_checksum {
        return Err(TokenRefusal::ChecksumType);
    }
    if settings.bindings.is_some() {
        return Err(TokenRefusal::Bindings);
    }
    Ok(Said {
        flags: 0,
        delegated: &[],
    })
}

/// The flags that RFC 4121, 4.1.1.1, and MS-KILE, 3.4.5.1, give a meaning that a client may set: 1 to 32, and 0x1000.
fn known_flags(flags: u32) -> u32
    ensures { result ≡ known_flags flags }
{
    flags % 64 + flags / 4096 % 2 * 4096
}

/// What the checksum says, where it keeps the rules; else the first that it breaks.
pub(crate) fn said_of<'a>(
    settings: &Settings,
    checksum: &'a Option<Checksum>,
) -> Result<Said<'a>, TokenRefusal>
    ensures said { IfOk result (λ said. IsSaid settings.now checksum.now said.flags said.delegated.now) }
    ensures refused { IfErr result (IsNotSaid settings.now checksum.now) }
{
    let Some(octets) = gss_octets(checksum) else {
        return other(settings);
    };
    let Some(said) = checksum_of(octets) else {
        return Err(TokenRefusal::ChecksumLayout);
    };
    if !fits_bindings(&settings.bindings, said.bindings) {
        return Err(TokenRefusal::Bindings);
    }
    Ok(Said {
        flags: known_flags(said.flags),
        delegated: said.delegated,
    })
}
