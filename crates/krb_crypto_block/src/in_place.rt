//! Calls over octets that the caller holds, for the crates of encryption schemes. They allocate nothing, so none returns
//! `OutOfMemory`. The calls that the library re-exports are at the root.

ghost use Rattle.std.specs.Prelude.{◌≡◌, ◌%◌, ◌≤◌, ℕ, List, length};
ghost use Rattle.krb_crypto_block.specs.Aes.{aes_block};
ghost use Rattle.krb_crypto_block.specs.Des.{ede3};
ghost use Rattle.krb_crypto_block.specs.Modes.{Cts, IsCbc, IsOctets};

use crate::aes::{AesDecryptionKey, AesEncryptionKey};
use crate::des::DesKey;
pub use crate::nfold::n_fold_into;
use crate::{cbc, stealing};

/// Makes of the octets what CBC with ciphertext stealing makes of them under AES (RFC 3962, 5).
pub fn encrypt_aes_cts(key: &AesEncryptionKey, octets: &mut [u8])
    requires { 16 ≤ length octets.old }
    ensures { Cts (aes_block key.now) octets.old octets.new }
{
    key.undoes();
    stealing::encrypt_cts(key, octets);
}

/// Makes of the octets the one list of octets that `encrypt_aes_cts` makes them of.
pub fn decrypt_aes_cts(key: &AesDecryptionKey, octets: &mut [u8])
    requires { 16 ≤ length octets.old }
    ensures plain { Cts (aes_block key.now) octets.new octets.old }
    ensures only { (q : List ℕ) → IsOctets q → Cts (aes_block key.now) q octets.old → q ≡ octets.new }
{
    key.undoes();
    stealing::decrypt_cts(key, octets);
}

/// Makes of whole blocks of 8 octets what CBC from a zero block on makes of them under triple DES (RFC 3961, 6.3).
pub fn encrypt_des(key: &DesKey, octets: &mut [u8])
    requires { length octets.old % 8 ≡ 0 }
    ensures { IsCbc 8 (ede3 key.now) octets.old octets.new }
{
    cbc::encrypt_cbc(key, octets);
}

/// Makes of whole blocks of 8 octets the one list of octets that `encrypt_des` makes them of.
pub fn decrypt_des(key: &DesKey, octets: &mut [u8])
    requires { length octets.old % 8 ≡ 0 }
    ensures plain { IsCbc 8 (ede3 key.now) octets.new octets.old }
    ensures only { (q : List ℕ) → IsOctets q → IsCbc 8 (ede3 key.now) q octets.old → q ≡ octets.new }
{
    key.undoes();
    cbc::decrypt_cbc(key, octets);
}
