//! What opens what is sealed.

use krb_decrypt::Key;
use std::marker::Model;

/// What opens what is sealed.
#[derive(Drop)]
pub struct Openers {
    /// The keys.
    pub keys: Vec<Key>,
    /// The passwords, which give keys with the salts of a page.
    pub passwords: Vec<Vec<u8>>,
    /// Whether all keys are tried that are found in what is opened, and not only the first thousand.
    pub tries_all: bool,
}

impl Model for Openers {
    ghost use Rattle.std.specs.Prelude.{map};
    ghost use Rattle.jolmurig.specs.Answers.{Openers};

    ghost Value = { Openers };

    ghost view = { λ o. record { keys = o.keys.items; passwords = map (λ p. p.items) o.passwords.items; tries_all = o.tries_all } };
}
