//! Channel bindings, compared (RFC 4121, 4.1.1.2).

ghost use Rattle.std.specs.Prelude.{MatchBool};
ghost use Rattle.krb_accept_rules.specs.Bindings.{FitsBindings};

/// Whether a client's channel bindings are the service's (RFC 4121, 4.1.1.2): the field of the
/// authenticator's checksum is the 16 octets of the hash of the service's own. Where the service has
/// none, those of the client are not compared.
pub fn fits_bindings(own: &Option<[u8; 16]>, bindings: &[u8]) -> bool
    ensures { MatchBool result (FitsBindings own.now bindings.now) (FitsBindings own.now bindings.now → ⊥) }
{
    match own {
        Some(own) => bindings == own.as_slice(),
        None => true,
    }
}
