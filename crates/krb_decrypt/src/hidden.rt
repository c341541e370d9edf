//! Pages without the octets of keys and passwords.

ghost use Rattle.std.specs.Prelude.{◌≡◌, ◌++◌, ◌∷◌, [], if◌then◌else◌, IfOk, OnOk};
ghost use Rattle.krb_decrypt.specs.Hidden.{NoneIsSecret, hidden, hidden_page, hiding, is_etype, is_secret, is_zero};

use krb_registry::Kind;
use krb_show::{Form, Page, Token};
use std::alloc::{AllocError, Global};

/// Whether a token of this form holds a key, a password or a PIN, or octets in the clear that may hold one.
fn is_secret(form: Form, is_clear: bool) -> bool
    ensures { result ≡ is_secret is_clear form }
{
    match form {
        Form::Secret => true,
        Form::Cipher => is_clear,
        _ => false,
    }
}

/// Whether a token is the number of an encryption type.
fn is_etype(token: &Token) -> bool
    ensures { result ≡ is_etype token.now }
{
    match token.form() {
        Form::Number => matches!(token.kind(), Some(Kind::EncryptionType)),
        _ => false,
    }
}

/// Whether octets in the place of encrypted ones behind this token are in the clear, where `is_clear` says so of such before it.
fn clear_after(token: &Token, is_clear: bool) -> bool
    ensures { result ≡ (if is_etype token.now then is_zero token.now else is_clear) }
{
    if is_etype(token) {
        matches!(token.number(), Some(0))
    } else {
        is_clear
    }
}

/// The word that stands for a token.
fn hiding(alloc: Global, token: Token) -> Result<Token, AllocError>
    ensures { IfOk result (λ made. made ≡ hiding token) }
{
    let word = Vec::from_slice(alloc, b"hidden")?;
    Ok(token.with_word(alloc, word))
}

/// Appends a token, or the word that stands for it.
fn push_shown(
    alloc: Global,
    token: Token,
    is_clear: bool,
    page: &mut Page,
) -> Result<(), AllocError>
    ensures { OnOk result (page.new.items ≡ page.old.items ++ hidden is_clear token ∷ []) }
{
    if is_secret(token.form(), is_clear) {
        page.push(hiding(alloc, token)?)?;
    } else {
        page.push(token)?;
    }
    Ok(())
}

/// The page without the octets of keys and passwords: the word `hidden` stands in the place of each token of the form `Form::Secret` (the octets of a key of
/// RFC 4120, 5.2.9, of a keytab or of a credential cache, UserSessionKey of MS-PAC, 2.5, and the buffer around it, a password of RFC 3244 or of MS-CSSP, a PIN), and of one of
/// the form `Form::Cipher` behind the encryption type 0, which is in the clear and may hold keys (RFC 4120, 5.8.1), under any label. Other tokens stay
/// as they are; octets that hold a key within them, as those of a tree, are among these. The only error is an allocation failure.
#[tactic(auto, using(crate::proofs::Walks::hidden_more, crate::proofs::Walks::clear_more, crate::proofs::Walks::none_is_secret))]
pub fn without_keys(alloc: Global, page: Page) -> Result<Page, AllocError>
    ensures made { IfOk result (λ made. made.items ≡ hidden_page page.items) }
    ensures no_secret { IfOk result (λ made. NoneIsSecret made.items) }
{
    let mut made = Vec::with_capacity(alloc, page.len())?;
    let mut is_clear = false;
    'tokens: for token in page {
        let was_clear = is_clear;
        is_clear = clear_after(&token, was_clear);
        push_shown(alloc, token, was_clear, &mut made)?;
    }
    Ok(made)
}
