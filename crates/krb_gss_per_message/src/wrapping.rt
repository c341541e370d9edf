//! Wrap tokens, made.

ghost use Rattle.std.specs.Prelude.{◌≡◌, IfOk, IfErr};
ghost use Rattle.krb_gss_per_message.specs.Wrap.{IsWrapped, IsWrappedInClear, unrotated_header};

use crate::error::ProtectionError;
use crate::key::TokenKey;
use crate::octets::joined;
use crate::rotation::rotate;
use crate::sums::checksum_of;
use krb_gss_tokens::WrapToken;
use std::alloc::Global;

/// The header of a Wrap token before its data is rotated.
pub(crate) fn header_of(
    alloc: Global,
    flags: u8,
    extra_count: u16,
    sequence_number: u64,
) -> [u8; 16]
    ensures { result ≡ unrotated_header flags extra_count sequence_number }
{
    let token = WrapToken {
        flags,
        ec: extra_count,
        rrc: 0,
        seq_num: sequence_number,
        payload: None,
        checksum: Vec::new(alloc),
    };
    token.header()
}

/// The Wrap token of a message with confidentiality (RFC 4121, 4.2.4 and 4.2.6.2), under this sequence number and with its data rotated to the right
/// by `rotation` octets, the RRC: the message and then the token's header, with RRC 0, are encrypted by the key usage of the sender's Wrap
/// tokens. There is no filler, so EC is 0.
///
/// The confounder is random, and another one in each call. `OutOfMemory` is the only error.
pub fn wrap(
    alloc: Global,
    key: &TokenKey,
    sequence_number: u64,
    rotation: u16,
    confounder: &[u8; 16],
    message: &[u8],
) -> Result<Vec<u8>, ProtectionError>
    ensures made { IfOk result (λ token. IsWrapped key.now sequence_number rotation confounder.now message.now token.items) }
    ensures memory { IfErr result (λ e. e ≡ ProtectionError.OutOfMemory) }
{
    let flags = key.flags(true);
    let header = header_of(alloc, flags, 0, sequence_number);
    let plaintext = joined(alloc, message, &header)?;
    let Ok(mut sealed) = key.sealing_key().encrypt(alloc, &plaintext, confounder) else {
        return Err(ProtectionError::OutOfMemory);
    };
    rotate(&mut sealed, rotation);
    let token = WrapToken {
        flags,
        ec: 0,
        rrc: rotation,
        seq_num: sequence_number,
        payload: None,
        checksum: sealed,
    };
    Ok(token.to_vec(alloc)?)
}

/// The Wrap token of a message without confidentiality (RFC 4121, 4.2.4 and 4.2.6.2), under this sequence number and with its data rotated to the
/// right by `rotation` octets, the RRC: the message and then its checksum, of which EC is the number of octets. The checksum is that of the
/// message and then the token's header, with EC and RRC 0, by the suite's own checksum and the key usage of the sender's Wrap tokens.
///
/// `OutOfMemory` is the only error.
pub fn wrap_in_clear(
    alloc: Global,
    key: &TokenKey,
    sequence_number: u64,
    rotation: u16,
    message: &[u8],
) -> Result<Vec<u8>, ProtectionError>
    ensures made { IfOk result (λ token. IsWrappedInClear key.now sequence_number rotation message.now token.items) }
    ensures memory { IfErr result (λ e. e ≡ ProtectionError.OutOfMemory) }
{
    let flags = key.flags(false);
    let header = header_of(alloc, flags, 0, sequence_number);
    let checksum = checksum_of(alloc, &key.clear_key(), message, &header)?;
    let mut data = joined(alloc, message, &checksum)?;
    rotate(&mut data, rotation);
    let token = WrapToken {
        flags,
        ec: checksum.len() as u16,
        rrc: rotation,
        seq_num: sequence_number,
        payload: None,
        checksum: data,
    };
    Ok(token.to_vec(alloc)?)
}
