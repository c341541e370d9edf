//! Why a token is refused.

ghost use Rattle.std.specs.Prelude.{◌≡◌, ◌≢◌, false};
ghost use Rattle.krb_accept.specs.TokenRefusals.{is_memory, memory, token_error_code, token_text};
ghost use Rattle.krb_accept.specs.declared.token_refusal.TokenRefusal.TheVariants.{Request};

use krb_accept_rules::{Refusal, Rule};
use std::alloc::AllocError;
use std::fmt;

/// Why a token is refused: the first rule that it breaks, in the order of the variants; but the rules of the replay cache come last.
#[derive(Clone, Copy, PartialEq, Eq)]
pub enum TokenRefusal {
    /// The octets are not the one encoding of a token of Kerberos with the token id of an AP-REQ (RFC 2743, 3.1; RFC 4121, 4.1).
    Frame,
    /// The client is not let in.
    Request(Refusal),
    /// An AD-WIN2K-PAC stands where nobody verifies it: bare, deeper than in an AD-IF-RELEVANT of the ticket, in an AD-KDCIssued, an
    /// AD-AND-OR or an AD-CAMMAC, beside another, or in the authenticator; or it may: more than 16 levels of these stand in one another, or
    /// in one that has to hold authorization data none stand (MS-PAC, 2.1).
    PacPlace,
    /// The ticket has no PAC, and the service asks for one (MS-PAC, 2.1).
    PacMissing,
    /// The ticket's PAC is none, or its PAC_CLIENT_INFO or one of its signatures is not there whole (MS-PAC, 2.3, 2.7 and 2.8).
    PacForm,
    /// The server checksum of the PAC does not hold under the key that decrypted the ticket (MS-PAC, 2.8.1).
    PacChecksum,
    /// The PAC names another client than the ticket, or another time of authentication (MS-PAC, 2.7).
    PacClient,
    /// The authenticator has no checksum, or one of another type than 0x8003 (RFC 4121, 4.1.1).
    ChecksumType,
    /// The checksum is not laid out as RFC 4121, 4.1.1, says.
    ChecksumLayout,
    /// The client's channel bindings are not the service's (RFC 4121, 4.1.1.2).
    Bindings,
    /// The delegated credentials are not the one encoding of a KRB-CRED, or no key of the context decrypts their part (RFC 4121, 4.1.1;
    /// RFC 4120, 5.8).
    Delegation,
}

impl TokenRefusal {
    /// Whether nothing is decided, since an allocation failed.
    pub fn is_out_of_memory(&self) -> bool
        ensures value { result ≡ is_memory self.now }
        ensures other { result ≡ false → self.now ≢ memory }
    {
        match self {
            TokenRefusal::Request(refusal) => match refusal.rule {
                Rule::OutOfMemory => true,
                _ => false,
            },
            _ => false,
        }
    }

    /// The number of the error in a KRB-ERROR (RFC 4120, 7.5.9).
    pub fn code(&self) -> u32
        ensures { result ≡ token_error_code self.now }
    {
        match self {
            TokenRefusal::Request(refusal) => refusal.rule.code(),
            TokenRefusal::PacClient => 36,
            TokenRefusal::PacChecksum | TokenRefusal::Bindings => 41,
            TokenRefusal::ChecksumType => 50,
            TokenRefusal::Frame | TokenRefusal::PacPlace => 60,
            TokenRefusal::PacMissing | TokenRefusal::PacForm => 60,
            TokenRefusal::ChecksumLayout | TokenRefusal::Delegation => 60,
        }
    }

    /// What it is called that the token is refused, in English: a text that krb.h and the Python package have too (docs/rules).
    pub fn text(&self) -> &'static str
        ensures { result.now ≡ token_text self.now }
    {
        match self {
            TokenRefusal::Request(refusal) => refusal.rule.text(),
            TokenRefusal::Frame => "not a token of Kerberos with an AP-REQ",
            TokenRefusal::PacPlace => "a PAC stands, or may stand, where nobody verifies it",
            TokenRefusal::PacMissing => "the ticket has no PAC",
            TokenRefusal::PacForm => "the PAC is malformed, or lacks a buffer that is checked",
            TokenRefusal::PacChecksum => "the PAC's server checksum does not hold",
            TokenRefusal::PacClient =>
                "the PAC is of another client than the ticket, or of another time",
            TokenRefusal::ChecksumType => "the authenticator has no checksum of type 0x8003",
            TokenRefusal::ChecksumLayout => "the authenticator's checksum is malformed",
            TokenRefusal::Bindings => "the client's channel bindings are others than the service's",
            TokenRefusal::Delegation => "the delegated credentials cannot be decrypted or read",
        }
    }
}

impl fmt::Display for TokenRefusal {
    fn fmt<W: fmt::Write>(&self, f: &mut fmt::Formatter<W>) -> fmt::Result {
        f.write_str(self.text())
    }
}

impl From<Refusal> for TokenRefusal {
    ghost from_gives = { λ r e. e ≡ Request r };

    fn from(refusal: Refusal) -> TokenRefusal {
        TokenRefusal::Request(refusal)
    }
}

impl From<AllocError> for TokenRefusal {
    ghost from_gives = { λ _ e. e ≡ memory };

    fn from(error: AllocError) -> TokenRefusal {
        TokenRefusal::Request(Refusal::from(error))
    }
}
