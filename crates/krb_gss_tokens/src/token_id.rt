//! The token id, two octets after the mechanism in a token, as a field of a sequence.

ghost use Rattle.std.specs.Prelude.{ℕ, List, true};
ghost use Rattle.krb_gss_tokens.specs.Token.{IdError, IsTokenId};
ghost use Rattle.krb_gss_tokens.specs.TokenIdLaws.{id_begins, id_error_laws, id_one_reading};

use krb_der::Asn1DerError;
use krb_der::composite::{FieldRefs, Fields};
use std::alloc::{AllocError, Global};
use std::marker::Model;

/// The id of an inner token (RFC 4121, 4.1): two octets with no tag and no length.
#[derive(Drop)]
pub struct TokenId(pub [u8; 2]);

impl Model for TokenId {
    ghost Value = { List ℕ };

    ghost view = { λ id. id.0 };

    ghost inverse = { λ v. record { 0 = v } };
}

/// Lemma: an array of two octets is a list of two octets.
fn known_token_id(id: [u8; 2])
    ensures { IsTokenId id }
{}

impl Fields for TokenId {
    ghost octets = { λ v. v };

    ghost are_values = { IsTokenId };

    ghost begins = { λ follow t. true };

    ghost distinguished = { λ follow. Unit {0} };

    ghost begin_so = { id_begins };

    ghost one_reading = { id_one_reading };

    ghost ends = { λ v rest. Unit {0} };

    ghost error = { IdError };

    ghost error_laws = { id_error_laws };

    ghost distinguished_ends = { λ follow reported v x h hx. tt };

    fn read_fields(_alloc: Global, input: &[u8]) -> Result<(Self, usize), Asn1DerError> {
        if input.len() < 2 {
            return Err(Asn1DerError::TruncatedData);
        }
        let id = [input[0], input[1]];
        known_token_id(id);
        Ok((TokenId(id), 2))
    }
}

impl FieldRefs for TokenId {
    ghost octets = { λ v. v };

    ghost are_values = { IsTokenId };

    fn write_refs(&self, _alloc: Global, out: &mut Vec<u8>) -> Result<(), AllocError> {
        known_token_id(self.0);
        out.extend_from_slice(&self.0)
    }
}
