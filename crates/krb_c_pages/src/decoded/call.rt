//! The call.

ghost use Rattle.std.specs.Prelude.{◌≡◌, ◌≤◌, ◌++◌, MatchBool, MatchResult, length, drop};
ghost use Rattle.krb_c_calls.specs.Statuses.{refusal_status};
ghost use Rattle.krb_c_pages.specs.Decoded.{ArePut, Fits, IsDecoded, IsDecodedAnswer, RefusesDecoding, arrays, counts_of};

use crate::decoded::decoding::{Decoding, decoding_of};
use crate::decoded::record::{DecodedCounts, PartRecord};
use crate::keys::keys_of;
use crate::put::fill;
use krb_c_calls::items::{ItemRecord, WalkRefusal, walked};
use krb_c_calls::{CallError, DONE, ROOM};
use krb_decrypt::MOST_FOUND;
use std::alloc::Global;

/// What is handed out of octets of a type, or why they are refused.
fn decoding_in(
    alloc: Global,
    type_name: &[u8],
    octets: &[u8],
    keytab: &[u8],
) -> Result<Decoding, WalkRefusal>
    ensures { MatchResult result (IsDecoded type_name.now octets.now keytab.now)
        (λ e. RefusesDecoding type_name.now octets.now keytab.now (refusal_status e.refusal) e.offset) }
{
    let items = match walked(alloc, type_name, octets) {
        Ok(items) => items,
        Err(refused) => return Err(refused),
    };
    let keys = match keys_of(alloc, keytab) {
        Ok(keys) => keys,
        Err(refusal) => return Err(WalkRefusal { refusal, offset: 0 }),
    };
    let most = keys.len() + MOST_FOUND;
    match decoding_of(alloc, most, keys, octets, &items) {
        Ok(decoding) => Ok(decoding),
        Err(_) => Err(WalkRefusal {
            refusal: CallError::Memory,
            offset: 0,
        }),
    }
}

/// How much is handed out.
fn counts_of(decoding: &Decoding) -> DecodedCounts
    ensures { result ≡ counts_of decoding.now }
{
    DecodedCounts {
        items: decoding.items().len(),
        parts: decoding.parts().len(),
        octets: decoding.octets().len(),
        offset: 0,
    }
}

/// Puts what is handed out to the front of the caller's arrays, if there is room in all of them.
fn put_decoded(
    decoding: &Decoding,
    items: &mut [ItemRecord],
    parts: &mut [PartRecord],
    out: &mut [u8],
    told: &mut DecodedCounts,
) -> u32
    ensures { ArePut decoding.now (arrays items.old parts.old out.old) (arrays items.new parts.new out.new)
        told.new result }
{
    let counts = counts_of(decoding);
    *told = counts;
    if counts.items > items.len() || counts.parts > parts.len() || counts.octets > out.len() {
        return ROOM;
    }
    fill(decoding.items(), items);
    fill(decoding.parts(), parts);
    fill(decoding.octets(), out);
    DONE
}

/// All items of octets that are one element of the type that its standard calls so, as `krb_c_calls::items::items` has them, with what the keys of a keytab
/// open in them (RFC 3961, 5.3): of each ciphertext among the items what the keys make of it, and behind the items those of the parts, whose places are in
/// the part's octets. These stand in `out`, each behind the name of the key that decrypts it. A keytab of no octets has no keys.
///
/// A ciphertext is tried under the keys of the keytab, in order, and those that stand in parts before it, of which a thousand at most are tried; for the
/// usages that its role says. A ciphertext in a part is not decrypted.
///
/// Status 0 where all is at the front of `items`, `parts` and `out`, and `told` says how many they are; 1 where one of these has too little room: then all are
/// as they were, and `told` says how many they would be. Else they are as they were, and `told` has only `offset`: what `items` answers to such octets; 23
/// where the keytab is none; 2 where an allocation failed.
pub fn decode(
    alloc: Global,
    type_name: &[u8],
    octets: &[u8],
    keytab: &[u8],
    items: &mut [ItemRecord],
    parts: &mut [PartRecord],
    out: &mut [u8],
    told: &mut DecodedCounts,
) -> u32
    ensures { IsDecodedAnswer type_name.now octets.now keytab.now (arrays items.old parts.old out.old)
        (arrays items.new parts.new out.new) told.new result }
{
    match decoding_in(alloc, type_name, octets, keytab) {
        Ok(decoding) => put_decoded(&decoding, items, parts, out, told),
        Err(refused) => {
            *told = DecodedCounts {
                items: 0,
                parts: 0,
                octets: 0,
                offset: refused.offset,
            };
            refused.refusal.status()
        }
    }
}
