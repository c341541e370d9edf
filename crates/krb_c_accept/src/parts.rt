//! The octets that are handed out of a client that is let in.

ghost use Rattle.std.specs.Prelude.{◌≡◌, ◌++◌, length, IfOk, OnOk};
ghost use Rattle.std.specs.Option.{option_map};
ghost use Rattle.krb_c_accept.specs.Parts.{ArePartsOf, joined, optional_delegated, optional_encoding, optional_octets, place_behind, places_behind};
ghost use Rattle.krb_c_accept.specs.Replies.{optional_key};

use crate::decision::LetIn;
use crate::records::OutPlace;
use crate::reply::Reply;
use krb_accept::Delegated;
use krb_der::{DerEncode, to_vec};
use krb_types::data_types::{AuthorizationData, EncryptionKey};
use std::alloc::{AllocError, Global};

/// Octets of a client and of the answer to it.
#[derive(Clone, Copy)]
pub(crate) struct Parts<'a> {
    pub entry: &'a [u8],
    pub session_key: &'a [u8],
    pub subkey: &'a [u8],
    pub own_subkey: &'a [u8],
    pub pac: &'a [u8],
    pub transited: &'a [u8],
    pub authorization_data: &'a [u8],
    pub restrictions: &'a [u8],
    pub delegated: &'a [u8],
    pub reply: &'a [u8],
}

/// Where they stand, one behind the other.
#[derive(Clone, Copy)]
pub(crate) struct Places {
    pub entry: OutPlace,
    pub session_key: OutPlace,
    pub subkey: OutPlace,
    pub own_subkey: OutPlace,
    pub pac: OutPlace,
    pub transited: OutPlace,
    pub authorization_data: OutPlace,
    pub restrictions: OutPlace,
    pub delegated: OutPlace,
    pub reply: OutPlace,
}

/// The octets of a key; none of none.
pub(crate) fn octets_of_key(key: &Option<EncryptionKey>) -> &[u8]
    ensures { result.now ≡ optional_key key.now }
{
    match key {
        Some(key) => &key.key_value.0.0,
        None => &[],
    }
}

/// The encoding of authorization data; no octets of none.
pub(crate) fn encoding_of(
    alloc: Global,
    elements: &Option<AuthorizationData>,
) -> Result<Vec<u8>, AllocError>
    ensures { IfOk result (λ octets. octets.items ≡ optional_encoding ⟦<AuthorizationData as DerEncode>⟧ elements.now) }
{
    match elements {
        Some(elements) => match to_vec(alloc, elements) {
            Ok(octets) => Ok(octets),
            Err(_) => Err(AllocError),
        },
        None => Ok(Vec::new(alloc)),
    }
}

/// The octets of a delegated KRB-CRED; none of none.
fn octets_of_delegated(delegated: &Option<Delegated>) -> &[u8]
    ensures { result.now ≡ optional_delegated delegated.now }
{
    match delegated {
        Some(delegated) => &delegated.octets,
        None => &[],
    }
}

/// The octets of a PAC; none of none.
fn octets_of_pac(pac: &Option<Vec<u8>>) -> &[u8]
    ensures { result.now ≡ optional_octets (option_map (λ v. v.items) pac.now) }
{
    match pac {
        Some(octets) => octets,
        None => &[],
    }
}

/// The octets of a client that is let in, and of the answer to it, with the encodings of the ticket's authorization data and of the
/// authenticator's.
pub(crate) fn parts_of<'a>(
    let_in: &'a LetIn,
    reply: &'a Reply,
    authorization_data: &'a [u8],
    restrictions: &'a [u8],
) -> Parts<'a>
    requires authorization_data { authorization_data.now
        ≡ optional_encoding ⟦<AuthorizationData as DerEncode>⟧ let_in.now.context.accepted.ticket.authorization_data }
    requires restrictions { restrictions.now ≡ optional_encoding ⟦<AuthorizationData as DerEncode>⟧ let_in.now.context.accepted.authorization_data }
    ensures { ArePartsOf ⟦<AuthorizationData as DerEncode>⟧ let_in.now reply.now result }
{
    let context = &let_in.context;
    let accepted = &context.accepted;
    Parts {
        entry: &let_in.entry,
        session_key: &accepted.ticket.key.key_value.0.0,
        subkey: octets_of_key(&accepted.subkey),
        own_subkey: &reply.own_subkey,
        pac: octets_of_pac(&context.pac),
        transited: &accepted.ticket.transited.contents.0.0,
        authorization_data,
        restrictions,
        delegated: octets_of_delegated(&context.delegated),
        reply: &reply.octets,
    }
}

/// Appends octets, and tells where they stand.
fn put_behind(out: &mut Vec<u8>, octets: &[u8]) -> Result<OutPlace, AllocError>
    ensures place { IfOk result (λ place. place ≡ place_behind out.old.items octets.now) }
    ensures appended { OnOk result (out.new.items ≡ out.old.items ++ octets.now) }
{
    let offset = out.len();
    out.extend_from_slice(octets)?;
    Ok(OutPlace {
        offset,
        size: octets.len(),
    })
}

/// Appends the parts, one behind the other, and tells where they stand.
pub(crate) fn put_parts(out: &mut Vec<u8>, parts: &Parts) -> Result<Places, AllocError>
    ensures places { IfOk result (λ places. places ≡ places_behind out.old.items parts.now) }
    ensures appended { OnOk result (out.new.items ≡ joined out.old.items parts.now) }
{
    let entry = put_behind(out, parts.entry)?;
    let session_key = put_behind(out, parts.session_key)?;
    let subkey = put_behind(out, parts.subkey)?;
    let own_subkey = put_behind(out, parts.own_subkey)?;
    let pac = put_behind(out, parts.pac)?;
    let transited = put_behind(out, parts.transited)?;
    let authorization_data = put_behind(out, parts.authorization_data)?;
    let restrictions = put_behind(out, parts.restrictions)?;
    let delegated = put_behind(out, parts.delegated)?;
    let reply = put_behind(out, parts.reply)?;
    Ok(Places {
        entry,
        session_key,
        subkey,
        own_subkey,
        pac,
        transited,
        authorization_data,
        restrictions,
        delegated,
        reply,
    })
}
