//! Why Kerberos refuses a client.

use krb_accept::{ReplyError, TokenRefusal};
use std::fmt;

/// Why a `KerberosAcceptor` refuses a client: the first reason, in the order of the variants.
#[derive(Clone, Copy)]
pub enum KerberosRefusal {
    /// The client's token was taken before: this mechanism takes one token.
    Established,
    /// No token came.
    NoToken,
    /// The token breaks this rule of an acceptor, and none before it.
    Token(TokenRefusal),
    /// The client wants DCE style, whose context is established by a third message (MS-KILE,
    /// 3.4.5.1).
    DceStyle,
    /// The key of the context is of no suite that RFC 4121 has tokens for, as one of triple DES.
    NoTokenKey,
    /// The client waits for an AP-REP, and this is why none is made.
    NoReply(ReplyError),
}

impl fmt::Display for KerberosRefusal {
    fn fmt<W: fmt::Write>(&self, f: &mut fmt::Formatter<W>) -> fmt::Result {
        match self {
            KerberosRefusal::Established => f.write_str("a token of a client was taken before"),
            KerberosRefusal::NoToken => f.write_str("no token came"),
            KerberosRefusal::Token(refusal) => refusal.fmt(f),
            KerberosRefusal::DceStyle => f.write_str("the client wants DCE style"),
            KerberosRefusal::NoTokenKey => {
                f.write_str("RFC 4121 has no tokens for the key of the context")
            }
            KerberosRefusal::NoReply(error) => error.fmt(f),
        }
    }
}

/// Why no step is made.
#[derive(Clone, Copy)]
pub(crate) enum StepError {
    /// An allocation failed.
    OutOfMemory,
    /// The client is refused.
    Refused(KerberosRefusal),
}
