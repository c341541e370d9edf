//! Why a client is not let in.

ghost use Rattle.std.specs.Prelude.{◌≡◌};
ghost use Rattle.krb_accept_rules.specs.Refusals.{error_code, plain, rule_text};
ghost use Rattle.krb_accept_rules.specs.declared.refusal.Rule.TheVariants as Rules;

use std::alloc::AllocError;
use std::fmt;

/// A rule that a request keeps, named by its breach. The variants are in the order of the rules.
#[derive(Clone, Copy, PartialEq, Eq)]
pub enum Rule {
    /// The octets are the one encoding of an AP-REQ (RFC 4120, 5.5.1).
    NotRequest,
    /// pvno is 5 (5.5.1).
    Version,
    /// msg-type is 14 (5.5.1).
    MessageType,
    /// tkt-vno is 5 (5.3).
    TicketVersion,
    /// ap-options has at least 32 bits (5.2.8).
    Options,
    /// use-session-key is not set, or the caller gives a session key (3.2.3).
    UserToUser,
    /// The terms name the server that the ticket names, or name none, and a key is of it (3.2.3).
    NotUs,
    /// One of these is of the encryption type of the ticket (3.2.3).
    NoKey,
    /// One of these is of the version that the ticket names, where it names one (3.2.3).
    KeyVersion,
    /// The encryption type of the ticket is supported and permitted (3.2.3).
    TicketSuite,
    /// One of these keys opens the ticket (3.2.3).
    Ticket,
    /// The flags of the ticket have at least 32 bits (5.2.8).
    Flags,
    /// The encryption type of the session key is supported and permitted, and the authenticator
    /// names it (5.2.9).
    SessionSuite,
    /// The session key opens the authenticator (3.2.3).
    Authenticator,
    /// authenticator-vno is 5 (5.5.1).
    AuthenticatorVersion,
    /// cusec is 0 to 999999 (5.2.4).
    Microseconds,
    /// seq-number is 0 to 4294967295, where it is present (5.2.4).
    SequenceNumber,
    /// A subkey is of a supported and permitted encryption type, and has the length of its keys
    /// (5.5.1).
    Subkey,
    /// The ticket is of the client that made the authenticator (3.2.3).
    OtherClient,
    /// The ticket may be used from the client's address (3.2.3).
    OtherAddress,
    /// The client's time differs from the clock by no more than the skew (3.2.3).
    Skew,
    /// The ticket has begun (3.2.3).
    NotYetValid,
    /// The ticket does not have the flag INVALID (3.2.3).
    Invalid,
    /// The ticket has not ended (3.2.3).
    Expired,
    /// The ticket does not have the flag ANONYMOUS, or the service lets in clients without a name
    /// (RFC 8062, 3).
    Anonymous,
    /// The client's realm is one of those of the terms, where these name some.
    ClientRealm,
    /// A KDC has checked the path of realms, there is none, or the service does not ask (2.7).
    Path,
    /// The service understands each element of authorization data (5.2.6).
    CriticalData,
    /// Each AD-IF-RELEVANT holds the one encoding of an AuthorizationData (5.2.6.1).
    DataForm,
    /// The client's time is one that the cache has remembered all of (3.2.3).
    Unremembered,
    /// The authenticator is not in the cache (3.2.3).
    Repeat,
    /// No allocation failed.
    OutOfMemory,
}

impl Rule {
    /// The number of the error in a KRB-ERROR (RFC 4120, 7.5.9).
    pub fn code(&self) -> u32
        ensures { result ≡ error_code self.now }
    {
        match self {
            Rule::TicketSuite | Rule::SessionSuite | Rule::Subkey => 14,
            Rule::Path => 28,
            Rule::Ticket | Rule::Authenticator => 31,
            Rule::Expired => 32,
            Rule::NotYetValid | Rule::Invalid => 33,
            Rule::Unremembered | Rule::Repeat => 34,
            Rule::NotUs => 35,
            Rule::OtherClient => 36,
            Rule::Skew => 37,
            Rule::OtherAddress => 38,
            Rule::Version | Rule::TicketVersion | Rule::AuthenticatorVersion => 39,
            Rule::NotRequest | Rule::MessageType => 40,
            Rule::KeyVersion => 44,
            Rule::NoKey => 45,
            Rule::Options | Rule::Flags | Rule::Microseconds | Rule::SequenceNumber => 60,
            Rule::Anonymous | Rule::ClientRealm => 60,
            Rule::CriticalData | Rule::DataForm | Rule::OutOfMemory => 60,
            Rule::UserToUser => 67,
        }
    }

    /// What the breach of the rule is called, in English: a text that krb.h and the Python package have too (docs/rules).
    pub fn text(&self) -> &'static str
        ensures { result.now ≡ rule_text self.now }
    {
        match self {
            Rule::NotRequest => "the message is not an AP-REQ",
            Rule::Version => "pvno is not 5",
            Rule::MessageType => "msg-type is not 14",
            Rule::TicketVersion => "tkt-vno is not 5",
            Rule::Options => "ap-options has fewer than 32 bits",
            Rule::UserToUser =>
                "the ticket is under a session key, as for user-to-user authentication",
            Rule::NotUs =>
                "no key for the server that the ticket names, or no client is let in for it",
            Rule::NoKey => "no key of the ticket's encryption type",
            Rule::KeyVersion => "no key of the kvno that the ticket names",
            Rule::TicketSuite => "the ticket's encryption type is not supported or permitted",
            Rule::Ticket => "no key decrypts the ticket",
            Rule::Flags => "the ticket's flags have fewer than 32 bits",
            Rule::SessionSuite =>
                "the session key's encryption type is not permitted, or the authenticator names another",
            Rule::Authenticator => "the session key does not decrypt the authenticator",
            Rule::AuthenticatorVersion => "authenticator-vno is not 5",
            Rule::Microseconds => "cusec is not of 0 to 999999",
            Rule::SequenceNumber => "seq-number is not of 0 to 4294967295",
            Rule::Subkey =>
                "the subkey's encryption type is not permitted, or its length is another",
            Rule::OtherClient => "the authenticator names another client than the ticket",
            Rule::OtherAddress => "the ticket is not for the client's address",
            Rule::Skew => "clock skew",
            Rule::NotYetValid => "the ticket is not yet valid",
            Rule::Invalid => "the ticket has the flag INVALID",
            Rule::Expired => "the ticket has expired",
            Rule::Anonymous => "the client is anonymous",
            Rule::ClientRealm => "no client of this realm is let in",
            Rule::Path => "no KDC has checked the path of realms",
            Rule::CriticalData =>
                "authorization data that a service has to understand, and does not",
            Rule::DataForm => "the authorization data is malformed",
            Rule::Unremembered => "the authenticator is older than the replay cache",
            Rule::Repeat => "the authenticator was accepted before",
            Rule::OutOfMemory => "an allocation failed",
        }
    }
}

impl fmt::Display for Rule {
    fn fmt<W: fmt::Write>(&self, f: &mut fmt::Formatter<W>) -> fmt::Result {
        f.write_str(self.text())
    }
}

/// Why a client is not let in: the first rule that is broken, and what was seen of it.
#[derive(Clone, Copy, PartialEq, Eq)]
pub struct Refusal {
    /// The first rule that is broken.
    pub rule: Rule,
    /// The client's time for `Skew`, the ticket's start for `NotYetValid` and its end for
    /// `Expired`, in seconds since 1 January 1970, 00:00:00 UTC; the version of the key that the
    /// ticket names for `KeyVersion`, where it fits 64 bits; else `None`.
    pub seen: Option<i64>,
}

impl Refusal {
    /// The refusal by a rule of which nothing was seen.
    pub fn plain(rule: Rule) -> Refusal
        ensures { result ≡ plain rule }
    {
        Refusal { rule, seen: None }
    }
}

impl fmt::Display for Refusal {
    fn fmt<W: fmt::Write>(&self, f: &mut fmt::Formatter<W>) -> fmt::Result {
        f.write_str(self.rule.text())
    }
}

impl From<AllocError> for Refusal {
    ghost from_gives = { λ _ e. e ≡ plain Rules.OutOfMemory };

    fn from(_error: AllocError) -> Refusal {
        Refusal::plain(Rule::OutOfMemory)
    }
}
