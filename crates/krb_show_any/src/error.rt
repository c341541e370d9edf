//! Why octets have no page.

ghost use Rattle.std.specs.Prelude.{◌≡◌};
ghost use Rattle.krb_show_any.specs.Errors.{ccache_reason, der_reason, field_reason, frame_reason, keytab_reason, of_der, of_exchange, of_file, of_frame, of_pac, of_token, pac_reason, reason, record_reason, token_reason};

use krb_der::Asn1DerError;
use krb_files::ccache::CcacheError;
use krb_files::fields::FieldError;
use krb_files::keytab::KeytabError;
use krb_gss_tokens::GssApiMessageError;
use krb_messages::kpasswd::ReadFrameError;
use krb_pac::PacError;
use krb_show::Page;
use krb_show_pages::FilePageError;
use krb_show_tokens::kpasswd::PasswordFrameError;
use std::io;
use thiserror::Error;

/// Why octets have no page.
#[derive(Debug, Drop, Error)]
pub enum PageError {
    /// The octets are no encoding of a value of the type, for this reason.
    #[error("{0}")]
    Der(Asn1DerError),
    /// The octets are no token of the GSS-API, for this reason.
    #[error("{0}")]
    Token(GssApiMessageError),
    /// The octets are no PAC, for this reason.
    #[error("{0}")]
    Pac(PacError),
    /// The octets are no message of NEGOEX, for this reason.
    #[error("{0}")]
    Negoex(io::Error),
    /// The octets are no frame in which a password is changed, for this reason.
    #[error("{0}")]
    PasswordFrame(PasswordFrameError),
    /// The octets are no keytab, for this reason.
    #[error("{0}")]
    Keytab(KeytabError),
    /// The octets are no credential cache, for this reason.
    #[error("{0}")]
    Ccache(CcacheError),
    /// An allocation failed.
    #[error("out of memory")]
    OutOfMemory,
}

/// The result of reading a value by DER.
pub fn of_der(outcome: Result<Page, Asn1DerError>) -> Result<Page, PageError>
    ensures { result ≡ of_der outcome }
{
    match outcome {
        Ok(page) => Ok(page),
        Err(Asn1DerError::OutOfMemory) => Err(PageError::OutOfMemory),
        Err(error) => Err(PageError::Der(error)),
    }
}

/// The result of reading a token.
pub fn of_token(outcome: Result<Page, GssApiMessageError>) -> Result<Page, PageError>
    ensures { result ≡ of_token outcome }
{
    match outcome {
        Ok(page) => Ok(page),
        Err(GssApiMessageError::OutOfMemory) => Err(PageError::OutOfMemory),
        Err(error) => Err(PageError::Token(error)),
    }
}

/// The result of reading a PAC.
pub fn of_pac(outcome: Result<Page, PacError>) -> Result<Page, PageError>
    ensures { result ≡ of_pac outcome }
{
    match outcome {
        Ok(page) => Ok(page),
        Err(PacError::OutOfMemory) => Err(PageError::OutOfMemory),
        Err(error) => Err(PageError::Pac(error)),
    }
}

/// The result of reading a message of NEGOEX.
pub fn of_exchange(outcome: io::Result<Page>) -> Result<Page, PageError>
    ensures { of_exchange outcome result }
{
    match outcome {
        Ok(page) => Ok(page),
        Err(error) => match error.kind() {
            io::ErrorKind::OutOfMemory => Err(PageError::OutOfMemory),
            _ => Err(PageError::Negoex(error)),
        },
    }
}

/// The result of reading a frame.
pub fn of_frame(outcome: Result<Page, PasswordFrameError>) -> Result<Page, PageError>
    ensures { result ≡ of_frame outcome }
{
    match outcome {
        Ok(page) => Ok(page),
        Err(PasswordFrameError::Frame(ReadFrameError::OutOfMemory)) => Err(PageError::OutOfMemory),
        Err(error) => Err(PageError::PasswordFrame(error)),
    }
}

/// The result of reading a keytab or a credential cache.
pub fn of_file(outcome: Result<Page, FilePageError>) -> Result<Page, PageError>
    ensures { result ≡ of_file outcome }
{
    match outcome {
        Ok(page) => Ok(page),
        Err(FilePageError::OutOfMemory) => Err(PageError::OutOfMemory),
        Err(FilePageError::Keytab(error)) => Err(PageError::Keytab(error)),
        Err(FilePageError::Ccache(error)) => Err(PageError::Ccache(error)),
    }
}

/// Why octets are no DER encoding.
fn der_reason(error: &Asn1DerError) -> &'static str
    ensures { result.now ≡ der_reason error.now }
{
    match error {
        Asn1DerError::InvalidData => "InvalidData: the octets are no DER encoding of this type",
        Asn1DerError::TruncatedData =>
            "TruncatedData: the octets end too early, or a field is missing",
        Asn1DerError::UnsupportedValue =>
            "UnsupportedValue: a length is indefinite or has more than eight octets",
        Asn1DerError::Io(_) => "reading failed",
        Asn1DerError::OutOfMemory => "out of memory",
    }
}

/// Why octets are no token.
fn token_reason(error: &GssApiMessageError) -> &'static str
    ensures { result.now ≡ token_reason error.now }
{
    match error {
        GssApiMessageError::InvalidId(_, _) =>
            "InvalidId: the token id is of no message that is known",
        GssApiMessageError::InvalidMechanismOid(_, _) =>
            "InvalidMechanismOid: the mechanism is another",
        GssApiMessageError::IoError(_) => "UnexpectedEof: the octets end within the token",
        GssApiMessageError::InvalidMicFiller(_) => "InvalidMicFiller: octets 3 to 7 are not all ff",
        GssApiMessageError::InvalidWrapFiller(_) => "InvalidWrapFiller: octet 3 is not ff",
        GssApiMessageError::Asn1Error(why) => der_reason(why),
        GssApiMessageError::OutOfMemory => "out of memory",
    }
}

/// Why octets are no PAC.
fn pac_reason(error: &PacError) -> &'static str
    ensures { result.now ≡ pac_reason error.now }
{
    match error {
        PacError::Version(_) => "InvalidVersion: the version is not 0",
        PacError::PacBufferType(_) => "PacBufferType: the number of no type of a buffer",
        PacError::IoError(_) => "UnexpectedEof: the octets end within the directory",
        PacError::InvalidVersion(_) => "InvalidVersion: the version is not 0",
        PacError::InvalidRange => "InvalidRange: a buffer's octets are not all there",
        PacError::OutOfMemory => "out of memory",
    }
}

/// Why octets are no frame.
fn frame_reason(error: &PasswordFrameError) -> &'static str
    ensures { result.now ≡ frame_reason error.now }
{
    match error {
        PasswordFrameError::TrailingOctets => "TrailingOctets: octets follow the frame",
        PasswordFrameError::Frame(why) => match why {
            ReadFrameError::Cut => "Cut: the octets end before the messages",
            ReadFrameError::Version => "Version: the version is not 1",
            ReadFrameError::ApMessage(_) =>
                "ApMessage: the first message is no AP-REQ and no AP-REP",
            ReadFrameError::KrbPriv(_) => "KrbPriv: the second message is no KRB-PRIV",
            ReadFrameError::OutOfMemory => "out of memory",
        },
    }
}

/// Why the record of a keytab holds no entry.
fn record_reason(error: &FieldError) -> &'static str
    ensures { result.now ≡ record_reason error.now }
{
    match error {
        FieldError::Truncated => "InvalidRecord: a record ends within a number",
        FieldError::LengthPastEnd =>
            "InvalidRecord: a length says more octets than a record has left",
        FieldError::CountPastEnd =>
            "InvalidRecord: a count says more elements than a record has octets left",
        FieldError::RepetitionDiffers => "InvalidRecord: a number that stands twice differs",
    }
}

/// Why octets are no keytab.
fn keytab_reason(error: &KeytabError) -> &'static str
    ensures { result.now ≡ keytab_reason error.now }
{
    match error {
        KeytabError::InvalidVersion(_) => "InvalidVersion: the version is not 2, octets 05 02",
        KeytabError::Truncated =>
            "Truncated: the octets end within the version, a record's length or a record",
        KeytabError::InvalidRecord(why) => record_reason(why),
    }
}

/// Why the field of a credential cache is not whole.
fn field_reason(error: &FieldError) -> &'static str
    ensures { result.now ≡ field_reason error.now }
{
    match error {
        FieldError::Truncated => "InvalidField: the octets end within a number",
        FieldError::LengthPastEnd => "InvalidField: a length says more octets than there are",
        FieldError::CountPastEnd =>
            "InvalidField: a count says more elements than there are octets",
        FieldError::RepetitionDiffers => "InvalidField: a number that stands twice differs",
    }
}

/// Why octets are no credential cache.
fn ccache_reason(error: &CcacheError) -> &'static str
    ensures { result.now ≡ ccache_reason error.now }
{
    match error {
        CcacheError::InvalidVersion(_) =>
            "InvalidVersion: the version is not 3 or 4, octets 05 03 or 05 04",
        CcacheError::InvalidField(why) => field_reason(why),
    }
}

impl PageError {
    /// The error and what it means, in a few words of ASCII, without a line feed.
    pub fn reason(&self) -> &'static str
        ensures { result.now ≡ reason self.now }
    {
        match self {
            PageError::Der(error) => der_reason(error),
            PageError::Token(error) => token_reason(error),
            PageError::Pac(error) => pac_reason(error),
            PageError::Negoex(_) => "the octets are no message of NEGOEX",
            PageError::PasswordFrame(error) => frame_reason(error),
            PageError::Keytab(error) => keytab_reason(error),
            PageError::Ccache(error) => ccache_reason(error),
            PageError::OutOfMemory => "out of memory",
        }
    }
}
