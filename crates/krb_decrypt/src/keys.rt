//! The keys that passwords give.

ghost use Rattle.std.specs.Prelude.{◌≡◌, map, IfOk, MatchOption, OnOk};
ghost use Rattle.krb_crypto_message.specs.Sealing.{IsOfNone, IsTheOne};
ghost use Rattle.krb_crypto.specs.BySuite.{IsPasswordKey};
ghost use Rattle.krb_decrypt.specs.PasswordKeys.{KeyUnder, KeysOfPasswords, KeysOfSalt, KeysOfSalts, adds, password_name};
ghost use Rattle.krb_decrypt.specs.Salts.{salts_of};

use crate::key::Key;
use crate::salts::salts_of;
use krb_crypto::{Cipher, CipherSuite};
use krb_crypto_block::KerberosCryptoError;
use krb_show::Token;
use std::alloc::{AllocError, Global};

/// The key of a suite that a password and a salt give; `None` where they give none.
fn key_under(
    alloc: Global,
    suite: &CipherSuite,
    password: &[u8],
    salt: &[u8],
) -> Result<Option<Vec<u8>>, AllocError>
    ensures { IfOk result (λ found. MatchOption found (IsOfNone (IsPasswordKey suite.now password.now salt.now))
        (λ key. IsTheOne (IsPasswordKey suite.now password.now salt.now) key.items)) }
{
    match suite.generate_key_from_password(alloc, password, salt) {
        Ok(key) => Ok(Some(key)),
        Err(KerberosCryptoError::OutOfMemory) => Err(AllocError),
        Err(_) => Ok(None),
    }
}

/// The name of a key that a password and a salt give.
fn password_name(alloc: Global, salt: &[u8]) -> Result<Vec<u8>, AllocError>
    ensures { IfOk result (λ name. name.items ≡ password_name salt.now) }
{
    let mut name = Vec::from_slice(alloc, b"password, salt ")?;
    name.extend_from_slice(salt)?;
    Ok(name)
}

/// Appends the key of a suite.
fn push_key(
    alloc: Global,
    password: &[u8],
    salt: &[u8],
    suite: CipherSuite,
    keys: &mut Vec<Key>,
) -> Result<(), AllocError>
    ensures { OnOk result (adds (KeyUnder password.now salt.now suite) keys.old.items keys.new.items) }
{
    if let Some(octets) = key_under(alloc, &suite, password, salt)? {
        let name = password_name(alloc, salt)?;
        keys.push(Key {
            suite,
            octets,
            name,
        })?;
    }
    Ok(())
}

/// Appends the keys of the five suites.
fn push_keys(
    alloc: Global,
    password: &[u8],
    salt: &[u8],
    keys: &mut Vec<Key>,
) -> Result<(), AllocError>
    ensures { OnOk result (adds (KeysOfSalt password.now salt.now) keys.old.items keys.new.items) }
{
    push_key(
        alloc,
        password,
        salt,
        CipherSuite::Aes128CtsHmacSha196,
        keys,
    )?;
    push_key(
        alloc,
        password,
        salt,
        CipherSuite::Aes256CtsHmacSha196,
        keys,
    )?;
    push_key(
        alloc,
        password,
        salt,
        CipherSuite::Aes128CtsHmacSha256128,
        keys,
    )?;
    push_key(
        alloc,
        password,
        salt,
        CipherSuite::Aes256CtsHmacSha384192,
        keys,
    )?;
    push_key(alloc, password, salt, CipherSuite::Des3CbcSha1Kd, keys)?;
    Ok(())
}

/// The keys of salts, in their order.
fn keys_of_salts(alloc: Global, password: &[u8], salts: &[Vec<u8>]) -> Result<Vec<Key>, AllocError>
    ensures { IfOk result (λ keys. KeysOfSalts password.now (map (λ s. s.items) salts.now) keys.items) }
{
    let mut keys = Vec::new(alloc);
    let mut rest = salts;
    'salts: while let Some((salt, behind)) = rest.split_first() {
        push_keys(alloc, password, salt, &mut keys)?;
        rest = behind;
    }
    Ok(keys)
}

/// Appends the keys of a password with salts.
fn push_password(
    alloc: Global,
    password: &[u8],
    salts: &[Vec<u8>],
    keys: &mut Vec<Key>,
) -> Result<(), AllocError>
    ensures { OnOk result (adds (KeysOfSalts password.now (map (λ s. s.items) salts.now)) keys.old.items keys.new.items) }
{
    let mut more = keys_of_salts(alloc, password, salts)?;
    keys.append(&mut more)
}

/// The keys of passwords, each with all salts.
fn keys_with_salts(
    alloc: Global,
    passwords: &[Vec<u8>],
    salts: &[Vec<u8>],
) -> Result<Vec<Key>, AllocError>
    ensures { IfOk result (λ keys. KeysOfPasswords (map (λ p. p.items) passwords.now) (map (λ s. s.items) salts.now) keys.items) }
{
    let mut keys = Vec::new(alloc);
    let mut rest = passwords;
    'passwords: while let Some((password, behind)) = rest.split_first() {
        push_password(alloc, password, salts, &mut keys)?;
        rest = behind;
    }
    Ok(keys)
}

/// The keys that passwords give for the principals of a page (RFC 3961, 3; RFC 3962, 4; RFC 8009, 4): for each password, and each salt that the page has,
/// as `salts_of` says, those of all suites, with the iteration counts that these standards have by default. The name of each has its salt. The only
/// error is an allocation failure.
pub fn keys_of_passwords(
    alloc: Global,
    passwords: &[Vec<u8>],
    page: &[Token],
) -> Result<Vec<Key>, AllocError>
    ensures { IfOk result (λ keys. KeysOfPasswords (map (λ p. p.items) passwords.now) (salts_of page.now) keys.items) }
{
    if passwords.is_empty() {
        return Ok(Vec::new(alloc));
    }
    let salts = salts_of(alloc, page)?;
    keys_with_salts(alloc, passwords, &salts)
}
