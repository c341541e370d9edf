//! A mechanism that protects nothing: tokens in turn, and MICs that are a key and the text.

ghost use Rattle.std.specs.Prelude.{◌≡◌};
ghost use Rattle.test_values.specs.Paired.{Fits, FitsOther, toy_pair};
ghost use Rattle.test_values.specs.Steady.{toy_steady};
ghost use Rattle.test_values.specs.Toy.{is_mic as is_mic_of, left_at, toy_meaning};

use krb_spnego_rules::laws::Paired;
use krb_spnego_rules::{Mechanism, MechanismError, Turn};
use std::alloc::{AllocError, Global};

/// One side's context of the toy.
#[derive(Drop)]
pub struct Toy {
    /// The arcs of its object identifier.
    pub arcs: Vec<u64>,
    /// How many tokens are still to be exchanged.
    pub left: u8,
    /// The key of its MICs.
    pub key: u8,
    /// It offers MICs.
    pub integrity: bool,
}

fn is_mic(key: u8, text: &[u8], mic: &[u8]) -> bool
    ensures { result ≡ is_mic_of key text.now mic.now }
{
    match mic {
        [] => false,
        [first, rest @ ..] => *first == key && rest == text,
    }
}

/// How many tokens are left, after one that came or did not.
fn left_after(came: bool, left: u8) -> u8
    ensures { result ≡ left_at came left }
{
    if came {
        if left == 0 {
            return 0;
        }
        return left - 1;
    }
    left
}

impl Mechanism for Toy {
    ghost meaning = { toy_meaning };

    ghost steady = { toy_steady };

    fn arcs(&self) -> &[u64] {
        self.arcs.as_slice()
    }

    fn is_named(&self, arcs: &[u64]) -> bool {
        arcs == self.arcs.as_slice()
    }

    fn has_integrity(&self) -> bool {
        self.integrity
    }

    fn is_bare(&self, _token: &[u8]) -> bool {
        false
    }

    fn step(&mut self, alloc: Global, token: Option<&[u8]>) -> Result<Turn, MechanismError> {
        if self.left == 0 {
            return Err(MechanismError::Refused);
        }
        let left = left_after(token.is_some(), self.left);
        if left == 0 {
            self.left = 0;
            return Ok(Turn::Ends);
        }
        let Ok(own) = Vec::from_slice(alloc, &[left]) else {
            return Err(MechanismError::OutOfMemory);
        };
        self.left = left - 1;
        if left == 1 {
            Ok(Turn::EndsWithToken(own))
        } else {
            Ok(Turn::Continues(own))
        }
    }

    fn make_mic(&mut self, alloc: Global, text: &[u8]) -> Result<Vec<u8>, AllocError> {
        let mut mic = Vec::new(alloc);
        mic.push(self.key)?;
        mic.extend_from_slice(text)?;
        Ok(mic)
    }

    fn verify_mic(&self, _alloc: Global, text: &[u8], mic: &[u8]) -> Result<bool, AllocError> {
        Ok(is_mic(self.key, text, mic))
    }
}

impl Paired<Toy> for Toy {
    ghost at_mine = { Fits };

    ghost at_theirs = { FitsOther };

    ghost pair = { toy_pair };
}
