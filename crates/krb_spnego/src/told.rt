//! A mechanism that a caller runs elsewhere, as the values that the caller tells of it.

ghost use Rattle.std.specs.Prelude.{◌≡◌, nat_eq, not, MatchBool};
ghost use Rattle.std.specs.Cmp.Lexicographic.{pointwise};
ghost use Rattle.std.specs.List.{list_any};
ghost use Rattle.krb_spnego.specs.Told.{IsOf, told_meaning, told_steady};
ghost use Rattle.krb_spnego_rules.specs.Decisions.{continues};

use krb_spnego_rules::{Mechanism, MechanismError, Progress, Turn};
use std::alloc::{AllocError, Global};

/// A MIC of the peer's that a mechanism verified, and the text of which it holds.
#[derive(Drop)]
pub struct Verified {
    /// The text.
    pub text: Vec<u8>,
    /// The MIC.
    pub mic: Vec<u8>,
}

/// What a caller tells of one of its mechanisms for one step of a negotiation.
///
/// Its answers are those that are told, each once: a token is taken only where `turn` is there, a
/// MIC of the peer's holds only if it is the one in `verified`, of the text there.
#[derive(Drop)]
pub struct Told {
    /// Its place among this side's mechanisms, from 0 on.
    pub place: u32,
    /// The arcs of its object identifier.
    pub oid: Vec<u64>,
    /// The arcs of others that peers use in its place.
    pub others: Vec<Vec<u64>>,
    /// Its context protects messages by MICs.
    pub integrity: bool,
    /// The octets that came are a first token of its own.
    pub bare: bool,
    /// Its context is established.
    pub established: bool,
    /// What it made of the peer's token, or of none where it begins: `None` where it refuses.
    pub turn: Option<Turn>,
    /// The MIC of the peer's that it verified.
    pub verified: Option<Verified>,
    /// Its own MIC.
    pub mic: Option<Vec<u8>>,
    /// It was asked for its own MIC, and none was told.
    pub lacks_mic: bool,
}

/// Whether arcs are the same.
fn are_same(one: &[u64], other: &[u64]) -> bool
    ensures { result ≡ pointwise nat_eq one.now other.now }
{
    one == other
}

/// Whether octets are the same.
fn are_octets(one: &[u8], other: &[u8]) -> bool
    ensures { MatchBool result (one.now ≡ other.now) (one.now ≡ other.now → ⊥) }
{
    one == other
}

/// Whether arcs are those of another name.
fn is_other(others: &[Vec<u64>], arcs: &[u64]) -> bool
    ensures { result ≡ list_any (λ other. pointwise nat_eq other.items arcs.now) others.now }
{
    others.iter().any(|other| are_same(other.as_slice(), arcs))
}

/// Whether this MIC was verified of this text.
fn is_of(verified: &Verified, text: &[u8], mic: &[u8]) -> bool
    ensures { MatchBool result (IsOf verified.now text.now mic.now) (IsOf verified.now text.now mic.now → ⊥) }
{
    if are_octets(verified.text.as_slice(), text) {
        are_octets(verified.mic.as_slice(), mic)
    } else {
        false
    }
}

/// Whether the context is established.
fn is_established(progress: Progress) -> bool
    ensures { result ≡ not (continues progress) }
{
    match progress {
        Progress::Continues => false,
        Progress::EndsWithToken => true,
        Progress::Ends => true,
    }
}

impl Mechanism for Told {
    ghost meaning = { told_meaning };

    ghost steady = { told_steady };

    fn arcs(&self) -> &[u64] {
        self.oid.as_slice()
    }

    #[tactic(auto, unfolding(crate::specs::Told::is_told_name))]
    fn is_named(&self, arcs: &[u64]) -> bool {
        if are_same(self.oid.as_slice(), arcs) {
            true
        } else {
            is_other(&self.others, arcs)
        }
    }

    fn has_integrity(&self) -> bool {
        self.integrity
    }

    fn is_bare(&self, token: &[u8]) -> bool {
        self.bare
    }

    fn step(&mut self, alloc: Global, token: Option<&[u8]>) -> Result<Turn, MechanismError> {
        match self.turn.take() {
            Some(turn) => {
                self.established = is_established(turn.progress());
                Ok(turn)
            }
            None => Err(MechanismError::Refused),
        }
    }

    fn make_mic(&mut self, alloc: Global, text: &[u8]) -> Result<Vec<u8>, AllocError> {
        match self.mic.take() {
            Some(mic) => Ok(mic),
            None => {
                self.lacks_mic = true;
                Ok(Vec::new(alloc))
            }
        }
    }

    fn verify_mic(&self, alloc: Global, text: &[u8], mic: &[u8]) -> Result<bool, AllocError> {
        match &self.verified {
            Some(verified) => Ok(is_of(verified, text, mic)),
            None => Ok(false),
        }
    }
}
