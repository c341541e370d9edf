//! Parts of messages, opened.

ghost use Rattle.std.specs.Prelude.{IfOk, IfErr, MatchResult};
ghost use Rattle.krb_client.specs.Opened.{IsClosed, IsNotOpened, IsOpened, IsPart};

use crate::replies::error::ReplyError;
use krb_client_rules::Key;
use krb_crypto::CipherSuite;
use krb_crypto::prepared::OpeningKey;
use krb_crypto::seal::PartError;
use krb_crypto::seal::prepared::open_part;
use krb_der::{Der, DerEncode};
use std::alloc::Global;

/// The value whose encoding the suite seals to the octets.
fn opened<T: Der + Drop>(
    alloc: Global,
    suite: &CipherSuite,
    key: &[u8],
    usage: i32,
    sealed: &[u8],
) -> Result<T, PartError>
    ensures { MatchResult result (IsPart ⟦<T as DerEncode>⟧ suite.now key.now usage sealed.now)
        (IsClosed ⟦<T as DerEncode>⟧ suite.now key.now usage sealed.now) }
{
    let prepared = match OpeningKey::new(suite, key, usage) {
        Ok(prepared) => prepared,
        Err(error) => return Err(PartError::Crypto(error)),
    };
    match open_part::<T>(alloc, &prepared, sealed) {
        Ok(value) => Ok(value),
        Err(PartError::Crypto(error)) => Err(PartError::Crypto(error)),
        Err(PartError::Der(error)) => Err(PartError::Der(error)),
    }
}

/// The value whose encoding is sealed to the octets under this key.
pub(crate) fn part_under<T: Der + Drop>(
    alloc: Global,
    key: &Key,
    usage: i32,
    sealed: &[u8],
) -> Result<T, ReplyError>
    ensures found { IfOk result (IsOpened ⟦<T as DerEncode>⟧ key.now usage sealed.now) }
    ensures rejected { IfErr result (IsNotOpened ⟦<T as DerEncode>⟧ key.now usage sealed.now) }
{
    match opened(alloc, &key.suite, key.octets.as_slice(), usage, sealed) {
        Ok(value) => Ok(value),
        Err(why) => Err(ReplyError::Opening(why)),
    }
}
