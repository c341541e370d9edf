//! What octets are that begin as no kind.

ghost use Rattle.std.specs.Prelude.{◌≡◌};
ghost use Rattle.jolmurig.specs.Unknowns.{is_printed, is_text, unknown_of, unknown_reason, unknown_subject};

/// What octets are that begin as no kind.
#[derive(Clone, Copy, PartialEq, Eq)]
pub enum Unknown {
    /// There are none.
    Empty,
    /// They begin as a message of NTLM does (MS-NLMP, 2.2.1).
    Ntlm,
    /// They are text of ASCII.
    Text,
    /// They are others.
    Other,
}

/// Whether an octet is a printable character of ASCII, a blank, a tab or an end of line.
fn is_printed(octet: u8) -> bool
    ensures { result ≡ is_printed octet }
{
    (octet >= 32 && octet <= 126) || octet == 9 || octet == 10 || octet == 13
}

/// Whether octets are text of ASCII.
pub fn is_text(octets: &[u8]) -> bool
    ensures { result ≡ is_text octets.now }
{
    octets.iter().all(|octet| is_printed(*octet))
}

/// What octets are that begin as no kind.
pub fn unknown_of(octets: &[u8]) -> Unknown
    ensures { result ≡ unknown_of octets.now }
{
    if octets.is_empty() {
        Unknown::Empty
    } else if octets.starts_with(b"NTLMSSP\0") {
        Unknown::Ntlm
    } else if is_text(octets) {
        Unknown::Text
    } else {
        Unknown::Other
    }
}

impl Unknown {
    /// What the failure is of.
    pub fn subject(self) -> &'static str
        ensures { result.now ≡ unknown_subject self }
    {
        match self {
            Unknown::Empty => "empty",
            Unknown::Ntlm => "NTLM",
            Unknown::Text => "text",
            Unknown::Other => "unknown kind",
        }
    }

    /// What is said of them.
    pub fn reason(self) -> &'static str
        ensures { result.now ≡ unknown_reason self }
    {
        match self {
            Unknown::Empty => "there are no octets",
            Unknown::Ntlm => "the octets are a message of NTLM, and none of Kerberos",
            Unknown::Text =>
                "the octets are text, in none of the forms that are read: PEM, a header of HTTP, hexadecimal or base64",
            Unknown::Other => "the octets begin as no kind that is known; --as TYPE names one",
        }
    }
}
