//! Replies that rename the client or the server (RFC 6806, 6, 8 and 11).

ghost use Rattle.std.specs.Prelude.{◌≡◌, ◌≢◌, MatchBool, MatchOption, IfErr, IfOk, OnOk};
ghost use Rattle.krb_client.specs.Firsts.{IsFirst, NoneIs};
ghost use Rattle.krb_client.specs.RequestChecksums.{IsRequestChecksum};
ghost use Rattle.krb_client.specs.Renamed.{HasMark, HasNoMark, HasNoRequestChecksum, HasRequestChecksum, IsMark, IsNoSum};
ghost use Rattle.krb_client.specs.Requests.{suite_key};
ghost use Rattle.krb_client.specs.declared.renamed.RenameError.TheVariants as errors;

use crate::replies::ReplyError;
use crate::requests::{LentKey, RequestError, request_checksum};
use krb_client_rules::Key;
use krb_der::DerEncode;
use krb_messages::messages::EncKdcRepPart;
use krb_types::data_types::{Checksum, PaData};
use krb_types::view::items;
use std::alloc::Global;
use thiserror::Error;

/// PA-REQ-ENC-PA-REP among pre-authentication data (RFC 6806, 11).
const REQ_ENC_PA_REP: u32 = 149;

/// Why a reply that renames grants nothing, in the order of the variants.
#[derive(Debug, Drop, Error)]
pub enum RenameError {
    /// The time was not sent under a key.
    #[error("the request had no pre-authentication")]
    NoKey,
    /// The reply breaks a rule.
    #[error("the reply: {0}")]
    Reply(ReplyError),
    /// Its part has no checksum of the request: it has no PA-REQ-ENC-PA-REP.
    #[error("the reply has no checksum of the request")]
    Absent,
    /// The checksum is not that of the request under the reply key.
    #[error("the checksum is not that of the request")]
    Checksum,
    /// An allocation failed.
    #[error("memory")]
    OutOfMemory,
}

/// Whether an element is PA-REQ-ENC-PA-REP.
fn is_mark(element: &PaData) -> bool
    ensures { MatchBool result (IsMark element.now) (IsMark element.now → ⊥) }
{
    element.padata_type.0.is_number(REQ_ENC_PA_REP)
}

/// The first PA-REQ-ENC-PA-REP of these elements.
fn first_mark(elements: &[PaData]) -> Option<&PaData>
    ensures { MatchOption result (NoneIs IsMark elements.now) (λ d. IsFirst IsMark elements.now d.now) }
{
    for element in elements {
        if is_mark(element) {
            return Some(element);
        }
    }
    None
}

/// What stands in the first PA-REQ-ENC-PA-REP of a part.
fn mark_of(part: &EncKdcRepPart) -> Option<&[u8]>
    ensures { MatchOption result (HasNoMark part.now) (λ octets. HasMark part.now octets.now) }
{
    match &part.encrypted_pa_data.0 {
        Some(list) => match first_mark(items(&list.0)) {
            Some(element) => Some(element.padata_data.0.0.as_slice()),
            None => None,
        },
        None => None,
    }
}

/// The encoding of the checksum of a request under a key.
fn sum_of(alloc: Global, key: &Key, request: &[u8]) -> Result<Vec<u8>, RenameError>
    ensures made { IfOk result (λ sum. IsRequestChecksum ⟦<Checksum as DerEncode>⟧ (suite_key key.now) request.now sum.items) }
    ensures rejected { IfErr result (IsNoSum key.now) }
{
    let lent = LentKey {
        suite: &key.suite,
        octets: key.octets.as_slice(),
    };
    match request_checksum(alloc, &lent, request) {
        Ok(sum) => Ok(sum),
        Err(RequestError::Key) => Err(RenameError::Checksum),
        Err(_error) => Err(RenameError::OutOfMemory),
    }
}

/// Whether octets are the same.
fn are_same(first: &[u8], second: &[u8]) -> bool
    ensures { MatchBool result (first.now ≡ second.now) (first.now ≢ second.now) }
{
    first == second
}

/// Whether a part has the checksum of the request under the reply key.
pub(crate) fn check_request(
    alloc: Global,
    key: &Key,
    request: &[u8],
    part: &EncKdcRepPart,
) -> Result<(), RenameError>
    ensures has { OnOk result (HasRequestChecksum ⟦<Checksum as DerEncode>⟧ key.now request.now part.now) }
    ensures rejected { IfErr result (HasNoRequestChecksum ⟦<Checksum as DerEncode>⟧ key.now request.now part.now) }
{
    let Some(octets) = mark_of(part) else {
        return Err(RenameError::Absent);
    };
    let sum = sum_of(alloc, key, request)?;
    if are_same(sum.as_slice(), octets) {
        Ok(())
    } else {
        Err(RenameError::Checksum)
    }
}
