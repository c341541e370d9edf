//! Which refusal it is that octets have no page.

ghost use Rattle.std.specs.Prelude.{◌≡◌};
ghost use Rattle.krb_c_pages.specs.Refusals.{ccache_refusal, der_refusal, frame_refusal, keytab_refusal, page_refusal, pac_refusal, token_refusal};

use krb_c_calls::CallError;
use krb_der::Asn1DerError;
use krb_files::ccache::CcacheError;
use krb_files::keytab::KeytabError;
use krb_gss_tokens::GssApiMessageError;
use krb_messages::kpasswd::ReadFrameError;
use krb_pac::PacError;
use krb_show_any::PageError;
use krb_show_tokens::kpasswd::PasswordFrameError;

/// Of an element of DER.
fn der_refusal(error: &Asn1DerError) -> CallError
    ensures { result ≡ der_refusal error.now }
{
    match error {
        Asn1DerError::InvalidData => CallError::Invalid,
        Asn1DerError::TruncatedData => CallError::Truncated,
        Asn1DerError::UnsupportedValue => CallError::Unsupported,
        Asn1DerError::Io(_) => CallError::Never,
        Asn1DerError::OutOfMemory => CallError::Memory,
    }
}

/// Of a token of the GSS-API.
fn token_refusal(error: &GssApiMessageError) -> CallError
    ensures { result ≡ token_refusal error.now }
{
    match error {
        GssApiMessageError::InvalidId(_, _) => CallError::Token,
        GssApiMessageError::InvalidMechanismOid(_, _) => CallError::Token,
        GssApiMessageError::IoError(_) => CallError::Truncated,
        GssApiMessageError::InvalidMicFiller(_) => CallError::Token,
        GssApiMessageError::InvalidWrapFiller(_) => CallError::Token,
        GssApiMessageError::Asn1Error(why) => der_refusal(why),
        GssApiMessageError::OutOfMemory => CallError::Memory,
    }
}

/// Of a PAC.
fn pac_refusal(error: &PacError) -> CallError
    ensures { result ≡ pac_refusal error.now }
{
    match error {
        PacError::Version(_) => CallError::OtherVersion,
        PacError::PacBufferType(_) => CallError::PacType,
        PacError::IoError(_) => CallError::Truncated,
        PacError::InvalidVersion(_) => CallError::OtherVersion,
        PacError::InvalidRange => CallError::PacRange,
        PacError::OutOfMemory => CallError::Memory,
    }
}

/// Of a frame in which a password is changed.
fn frame_refusal(error: &PasswordFrameError) -> CallError
    ensures { result ≡ frame_refusal error.now }
{
    match error {
        PasswordFrameError::TrailingOctets => CallError::Invalid,
        PasswordFrameError::Frame(why) => match why {
            ReadFrameError::Cut => CallError::Truncated,
            ReadFrameError::Version => CallError::OtherVersion,
            ReadFrameError::ApMessage(_) => CallError::Invalid,
            ReadFrameError::KrbPriv(_) => CallError::Invalid,
            ReadFrameError::OutOfMemory => CallError::Memory,
        },
    }
}

/// Of a keytab.
fn keytab_refusal(error: &KeytabError) -> CallError
    ensures { result ≡ keytab_refusal error.now }
{
    match error {
        KeytabError::InvalidVersion(_) => CallError::OtherVersion,
        KeytabError::Truncated => CallError::Truncated,
        KeytabError::InvalidRecord(_) => CallError::Invalid,
    }
}

/// Of a credential cache.
fn ccache_refusal(error: &CcacheError) -> CallError
    ensures { result ≡ ccache_refusal error.now }
{
    match error {
        CcacheError::InvalidVersion(_) => CallError::OtherVersion,
        CcacheError::InvalidField(_) => CallError::Invalid,
    }
}

/// Of any kind.
pub(crate) fn page_refusal(error: &PageError) -> CallError
    ensures { result ≡ page_refusal error.now }
{
    match error {
        PageError::Der(error) => der_refusal(error),
        PageError::Token(error) => token_refusal(error),
        PageError::Pac(error) => pac_refusal(error),
        PageError::Negoex(_) => CallError::Invalid,
        PageError::PasswordFrame(error) => frame_refusal(error),
        PageError::Keytab(error) => keytab_refusal(error),
        PageError::Ccache(error) => ccache_refusal(error),
        PageError::OutOfMemory => CallError::Memory,
    }
}
