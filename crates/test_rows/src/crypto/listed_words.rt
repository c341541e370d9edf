//! A generator of a caller's own.

ghost use Rattle.std.specs.Prelude.{ℕ};
ghost use Rattle.rand_core.specs.Steps.{steps_u32, stream_of};
ghost use Rattle.test_rows.specs.ListedWords.{listed};
ghost use Rattle.test_rows.specs.declared.crypto.listed_words.TheConstants.{WORDS};

use rand_core::utils::NextWord;
use rand_core::{Rng, utils};
use std::marker::Model;

/// What it gives. The first sixteen octets are the confounder of published ciphertexts.
const WORDS: [u32; 8] = [
    0x219d_34a1,
    0x5db9_e8ee,
    0xb45b_82a7,
    0x4ee0_a5a7,
    0x0302_0100,
    0x0706_0504,
    0x0b0a_0908,
    0x0f0e_0d0c,
];

/// A generator that gives eight words over and over, from this place on. A contract sees its place.
#[derive(Debug, Drop)]
pub struct ListedWords(pub u32);

impl Model for ListedWords {
    ghost Value = { ℕ };

    ghost view = { λ generator. generator.0 };
}

impl NextWord<u32> for ListedWords {
    ghost step = { listed WORDS };

    fn next_word(&mut self) -> u32 {
        let word = WORDS[(self.0 % 8) as usize];
        self.0 = self.0.wrapping_add(1);
        word
    }
}

impl Rng for ListedWords {
    ghost stream = { stream_of (steps_u32 (listed WORDS)) };

    fn next_u32(&mut self) -> u32 {
        self.next_word()
    }

    fn next_u64(&mut self) -> u64 {
        utils::next_u64_via_u32(self)
    }

    fn fill_bytes(&mut self, dst: &mut [u8]) {
        utils::fill_bytes_via_u32(self, dst)
    }
}
