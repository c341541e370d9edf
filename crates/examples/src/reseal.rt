//! Tickets, sealed again.
#![tactic(auto)]

ghost use Rattle.std.specs.Prelude.{◌≡◌, ℕ, List, pos, length, IfOk};
ghost use Rattle.picky_krb.specs.Sealed.{IsSealedAes};

use picky_krb::crypto::aes::Aes128CtsHmacSha196;
use picky_krb::data_types::EncTicketPart;
use picky_krb::der::Der;
use picky_krb::seal::{PartError, open_part, seal_part};
use std::alloc::Global;

/// The part that was sealed to these octets, sealed under another confounder.
fn reseal<T: Der + Drop>(
    alloc: Global,
    key: &[u8],
    usage: i32,
    sealed: &[u8],
    confounder: &[u8; 16],
) -> Result<Vec<u8>, PartError>
    ensures key { IfOk result (λ _. length key.now ≡ 16) }
    ensures sealed { IfOk result (λ octets. (payload : List ℕ) × IsSealedAes key.now usage confounder.now payload octets.items) }
{
    let cipher = Aes128CtsHmacSha196::new();
    let part: T = open_part(alloc, &cipher, key, usage, sealed)?;
    seal_part(alloc, &cipher, key, usage, confounder, &part)
}

/// The same of the part of a ticket, whose key usage is 2.
pub fn reseal_ticket(
    alloc: Global,
    key: &[u8],
    sealed: &[u8],
    confounder: &[u8; 16],
) -> Result<Vec<u8>, PartError>
    ensures key { IfOk result (λ _. length key.now ≡ 16) }
    ensures sealed { IfOk result (λ octets. (payload : List ℕ) × IsSealedAes key.now (pos 2) confounder.now payload octets.items) }
{
    reseal::<EncTicketPart>(alloc, key, 2, sealed, confounder)
}
