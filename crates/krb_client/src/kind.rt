//! What octets begin as.

ghost use Rattle.krb_client.specs.Kinds.{IsKind};

/// KRB-ERROR: application 30, constructed (RFC 4120, 5.9.1; X.690, 8.1.2).
const KRB_ERROR: u8 = 0x7e;

/// What octets are, by their tag.
#[derive(Drop, Clone, Copy)]
pub(crate) enum Kind {
    /// The reply that is waited for.
    Reply,
    /// A KRB-ERROR.
    Error,
    /// Neither.
    Other,
}

/// What octets begin as, where the reply that is waited for begins with this octet.
pub(crate) fn kind_of(octets: &[u8], reply: u8) -> Kind
    ensures { IsKind octets.now reply result }
{
    match octets.first() {
        Some(&tag) => {
            if tag == reply {
                Kind::Reply
            } else if tag == KRB_ERROR {
                Kind::Error
            } else {
                Kind::Other
            }
        }
        None => Kind::Other,
    }
}
