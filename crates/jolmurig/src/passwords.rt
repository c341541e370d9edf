//! The passwords that the options name.

ghost use Rattle.std.specs.List.{position_or_len};
ghost use Rattle.std.specs.Prelude.{◌≡◌, ◌≤◌, ◌⊎◌, ◌++◌, ◌∷◌, [], length, map, IfOk, IfErr, OnOk};
ghost use Rattle.jolmurig.specs.Passwords.{ArePasswords, HasNoPassword, first_line, is_line_end, password_gives, pushes};
ghost use Rattle.jolmurig.specs.declared.failure.Failure.TheVariants as failure;

use crate::failure::Failure;
use crate::files::{Files, Purpose, octets_of_file};
use jolmurig_command::FileName;
use std::alloc::{AllocError, Global};

/// Whether an octet is a line feed or a carriage return.
fn is_line_end(octet: u8) -> bool
    ensures { result ≡ is_line_end octet }
{
    octet == b'\n' || octet == b'\r'
}

/// How many octets stand before the first line break: all, where there is none.
fn line_length(octets: &[u8]) -> usize
    ensures length { result ≡ position_or_len is_line_end octets.now }
    ensures within { result ≤ length octets.now }
{
    for (index, octet) in octets.iter().enumerate() {
        if is_line_end(*octet) {
            return index;
        }
    }
    octets.len()
}

/// The octets before the first line break.
fn first_line(octets: &[u8]) -> &[u8]
    ensures { result.now ≡ first_line octets.now }
{
    &octets[..line_length(octets)]
}

/// The password that a file holds.
fn password_of_file<'a, F: Files>(
    alloc: Global,
    files: &F,
    name: &'a str,
) -> Result<Vec<u8>, Failure<'a>>
    ensures found { IfOk result (λ password. password_gives (F.gives files.now) name.now password.items) }
    ensures rejected { IfErr result (λ e. (e ≡ failure.Memory) ⊎ HasNoPassword (F.gives files.now) (name.now ∷ []) e) }
{
    let octets = octets_of_file(alloc, files, Purpose::PasswordFile, name)?;
    Ok(Vec::from_slice(alloc, first_line(&octets))?)
}

/// Appends a password.
fn push(password: Vec<u8>, passwords: &mut Vec<Vec<u8>>) -> Result<(), AllocError>
    ensures { OnOk result (map (λ p. p.items) passwords.new.items ≡ map (λ p. p.items) passwords.old.items ++ password.items ∷ []) }
{
    passwords.push(password)?;
    Ok(())
}

/// Appends the password that a file holds.
fn push_password<'a, F: Files>(
    alloc: Global,
    files: &F,
    name: &'a str,
    passwords: &mut Vec<Vec<u8>>,
) -> Result<(), Failure<'a>>
    ensures found { OnOk result (pushes (password_gives (F.gives files.now) name.now)
        (map (λ p. p.items) passwords.old.items) (map (λ p. p.items) passwords.new.items)) }
    ensures rejected { IfErr result (λ e. (e ≡ failure.Memory) ⊎ HasNoPassword (F.gives files.now) (name.now ∷ []) e) }
{
    let password = password_of_file(alloc, files, name)?;
    push(password, passwords)?;
    Ok(())
}

/// The passwords that files hold, in their order.
pub fn passwords_of_files<'a, F: Files>(
    alloc: Global,
    files: &F,
    names: &[FileName<'a>],
) -> Result<Vec<Vec<u8>>, Failure<'a>>
    ensures found { IfOk result (λ passwords. ArePasswords (F.gives files.now) names.now (map (λ p. p.items) passwords.items)) }
    ensures rejected { IfErr result (λ e. (e ≡ failure.Memory) ⊎ HasNoPassword (F.gives files.now) names.now e) }
{
    let mut passwords = Vec::new(alloc);
    'names: for name in names {
        push_password(alloc, files, name.text, &mut passwords)?;
    }
    Ok(passwords)
}
