//! AP-REQs, tickets and authenticators of RFC 4120, under the suites.

ghost use Rattle.std.specs.Prelude.{◌≡◌, MatchOption};

use crate::fields::{authenticator_of, request_of, ticket_of};
use crate::opening::{octets_of, value_of, value_under};
use krb_accept_rules::{AuthenticatorFields, Opening, RequestFields, ServiceKey, TicketFields};
use krb_crypto::{Cipher, CipherSuite};
use krb_der::{DerEncode, IntegerAsn1};
use krb_enc_parts::data_types::{Authenticator, EncTicketPart};
use krb_messages::messages::ApReq;
use krb_registry::key_usages::{AP_REQ_AUTHENTICATOR, TICKET_REP};
use krb_types::data_types::{AuthorizationData, EncryptionKey};
use std::alloc::{AllocError, Global};

/// AP-REQs, tickets and authenticators of RFC 4120, under the suites of RFC 3961, RFC 3962 and RFC 8009.
pub struct Kerberos;

impl Opening for Kerberos {
    ghost use Rattle.krb_accept.specs.Kerberos.{HasLength, IsAuthenticator, IsAuthorizationData, IsRequest, IsSupported, IsTicket};

    ghost reads = { IsRequest ⟦<ApReq as DerEncode>⟧ };

    ghost supports = { IsSupported };

    ghost has_length = { HasLength };

    ghost opens_ticket = { IsTicket ⟦<EncTicketPart as DerEncode>⟧ };

    ghost opens_authenticator = { IsAuthenticator ⟦<Authenticator as DerEncode>⟧ };

    ghost is_data = { IsAuthorizationData ⟦<AuthorizationData as DerEncode>⟧ };

    fn read_request(alloc: Global, octets: &[u8]) -> Result<Option<RequestFields>, AllocError> {
        match value_of::<ApReq>(alloc, octets)? {
            Some(request) => Ok(Some(request_of(request.0))),
            None => Ok(None),
        }
    }

    fn is_supported(etype: &IntegerAsn1) -> bool {
        match CipherSuite::of_number(etype) {
            Some(_suite) => true,
            None => false,
        }
    }

    fn has_key_length(key: &EncryptionKey) -> bool {
        match CipherSuite::of_number(&key.key_type.0) {
            Some(suite) => octets_of(&key.key_value.0).len() == suite.key_size(),
            None => false,
        }
    }

    fn open_ticket(
        alloc: Global,
        key: &ServiceKey,
        request: &RequestFields,
    ) -> Result<Option<TicketFields>, AllocError> {
        let Some(suite) = CipherSuite::of_number(&request.ticket.etype.0) else {
            return Ok(None);
        };
        let octets = octets_of(&key.octets);
        let cipher = octets_of(&request.ticket.cipher.0);
        match value_under::<EncTicketPart>(alloc, &suite, octets, TICKET_REP, cipher)? {
            Some(part) => Ok(Some(ticket_of(part.0))),
            None => Ok(None),
        }
    }

    fn open_authenticator(
        alloc: Global,
        key: &EncryptionKey,
        request: &RequestFields,
    ) -> Result<Option<AuthenticatorFields>, AllocError> {
        let Some(suite) = CipherSuite::of_number(&key.key_type.0) else {
            return Ok(None);
        };
        let octets = octets_of(&key.key_value.0);
        let cipher = octets_of(&request.authenticator.cipher.0);
        match value_under::<Authenticator>(alloc, &suite, octets, AP_REQ_AUTHENTICATOR, cipher)? {
            Some(value) => Ok(Some(authenticator_of(value.0))),
            None => Ok(None),
        }
    }

    fn is_authorization_data(alloc: Global, octets: &[u8]) -> Result<bool, AllocError> {
        match value_of::<AuthorizationData>(alloc, octets)? {
            Some(_data) => Ok(true),
            None => Ok(false),
        }
    }
}
