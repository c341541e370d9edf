//! Lemmas about the definitions.

ghost use Rattle.std.specs.Prelude.{◌≡◌, ◌↔◌, ◌≤◌, ℕ, List, IsTrue, length};
ghost use Rattle.krb_crypto_block.specs.Aes.{aes_block};
ghost use Rattle.krb_crypto_block.specs.Modes.{IsOctets, Cts, HasOnePlain};
ghost use Rattle.krb_crypto_block.specs.declared.aes.AesSize.{AesSize};

use crate::aes::AesSize;

/// Ciphertext stealing is one to one and onto at every length from 16 octets on (RFC 3962, 5), under each key of octets: each
/// list of octets is what exactly one list becomes, which is as long, and that becomes no other.
pub fn stealing_is_one_to_one()
    ensures onto { (key c : List ℕ) → IsOctets key → IsOctets c → 16 ≤ length c → HasOnePlain (aes_block key) c }
    ensures one { (key p c d : List ℕ) → Cts (aes_block key) p c → Cts (aes_block key) p d → c ≡ d }
{}

/// `==` of sizes returns true for equal ones and for no others, and a clone of a size is that size again.
pub fn sizes()
    ensures equality { (a b : AesSize) → IsTrue (⟦<AesSize as PartialEq>⟧.eq a b) ↔ (a ≡ b) }
    ensures clones { (a b : AesSize) → ⟦<AesSize as Clone>⟧.is_clone a b → b ≡ a }
{}
