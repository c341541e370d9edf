//! How requests are read and opened.

ghost use Rattle.std.specs.Prelude.{◌≡◌, ℕ, ℤ, List, IfOk, MatchBool, MatchOption};
ghost use Rattle.krb_accept_rules.specs.Values.{HasNone, IsTheValue};
ghost use Rattle.krb_accept_rules.specs.declared.fields.AuthenticatorFields.{AuthenticatorFields};
ghost use Rattle.krb_accept_rules.specs.declared.fields.RequestFields.{RequestFields};
ghost use Rattle.krb_accept_rules.specs.declared.fields.TicketFields.{TicketFields};
ghost use Rattle.krb_accept_rules.specs.declared.key.ServiceKey.{ServiceKey};
ghost use Rattle.krb_types.specs.declared.data_types.encryption.EncryptionKey.{EncryptionKey};

use crate::fields::{AuthenticatorFields, RequestFields, TicketFields};
use crate::key::ServiceKey;
use krb_der::IntegerAsn1;
use krb_types::data_types::EncryptionKey;
use std::alloc::{AllocError, Global};

/// How requests are read and opened. The decision is proved over any impl, so its proof names no
/// type of a message and no suite.
pub trait Opening {
    /// The octets are a request with these fields.
    ghost reads: { List ℕ → RequestFields → Type 0 };

    /// The number is that of an encryption type that is supported.
    ghost supports: { ℤ → Type 0 };

    /// The key has as many octets as keys of its encryption type have.
    ghost has_length: { EncryptionKey → Type 0 };

    /// The ticket of the request is sealed under this key, and these are its fields.
    ghost opens_ticket: { ServiceKey → RequestFields → TicketFields → Type 0 };

    /// The authenticator of the request is sealed under this session key, and these are its fields.
    ghost opens_authenticator: { EncryptionKey → RequestFields → AuthenticatorFields → Type 0 };

    /// The octets are the encoding of an AuthorizationData (RFC 4120, 5.2.6).
    ghost is_data: { List ℕ → Type 0 };

    /// The fields of the one request that the octets are, if they are one.
    fn read_request(alloc: Global, octets: &[u8]) -> Result<Option<RequestFields>, AllocError>
        ensures { IfOk result (λ found. MatchOption found (HasNone (reads octets.now)) (IsTheValue (reads octets.now))) };

    /// Whether an encryption type is supported.
    fn is_supported(etype: &IntegerAsn1) -> bool
        ensures { MatchBool result (supports etype.now) (supports etype.now → ⊥) };

    /// Whether a key has as many octets as keys of its encryption type have. Where this is not
    /// supported, any answer will do.
    fn has_key_length(key: &EncryptionKey) -> bool
        ensures { MatchBool result (has_length key.now) (has_length key.now → ⊥) };

    /// What the ticket holds, if it is sealed under the key.
    fn open_ticket(
        alloc: Global,
        key: &ServiceKey,
        request: &RequestFields,
    ) -> Result<Option<TicketFields>, AllocError>
        ensures { IfOk result
            (λ found. MatchOption found (HasNone (opens_ticket key.now request.now))
            (IsTheValue (opens_ticket key.now request.now))) };

    /// The authenticator, if it is sealed under the session key.
    fn open_authenticator(
        alloc: Global,
        key: &EncryptionKey,
        request: &RequestFields,
    ) -> Result<Option<AuthenticatorFields>, AllocError>
        ensures { IfOk result
            (λ found. MatchOption found (HasNone (opens_authenticator key.now request.now))
            (IsTheValue (opens_authenticator key.now request.now))) };

    /// Whether octets are the encoding of an AuthorizationData (RFC 4120, 5.2.6).
    fn is_authorization_data(alloc: Global, octets: &[u8]) -> Result<bool, AllocError>
        ensures { IfOk result (λ is. MatchBool is (is_data octets.now) (is_data octets.now → ⊥)) };
}
