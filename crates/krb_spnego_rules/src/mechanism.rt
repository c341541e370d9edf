//! What a mechanism lends to a negotiation.

ghost use Rattle.std.specs.Prelude.{◌≡◌, List, ℕ, Err, find, IfOk, MatchBool};
ghost use Rattle.std.specs.Option.{option_copied};
ghost use Rattle.krb_spnego_rules.specs.Turns.{progress_in, token_in};
ghost use Rattle.krb_spnego_rules.specs.Meaning.{IsSteady, Meaning};

use crate::words::Progress;
use std::alloc::{AllocError, Global};

/// How a mechanism's context stands after a token, and its own token.
#[derive(Drop)]
pub enum Turn {
    /// It waits for a token of the peer; this one is to be sent.
    Continues(Vec<u8>),
    /// It is established; this last token is to be sent.
    EndsWithToken(Vec<u8>),
    /// It is established, and there is no token to be sent.
    Ends,
}

impl Turn {
    /// How the context stands.
    pub fn progress(&self) -> Progress
        ensures { result ≡ progress_in self.now }
    {
        match self {
            Turn::Continues(_) => Progress::Continues,
            Turn::EndsWithToken(_) => Progress::EndsWithToken,
            Turn::Ends => Progress::Ends,
        }
    }

    /// The token that is to be sent.
    pub fn token(self) -> Option<Vec<u8>>
        ensures { result ≡ token_in self }
    {
        match self {
            Turn::Continues(token) => Some(token),
            Turn::EndsWithToken(token) => Some(token),
            Turn::Ends => None,
        }
    }
}

/// Why a mechanism makes no step.
#[derive(Clone, Copy)]
pub enum MechanismError {
    /// An allocation failed.
    OutOfMemory,
    /// It refuses the token.
    Refused,
}

/// One side's context of a security mechanism (RFC 4178, 3; RFC 2743, 2.2), which a negotiation
/// drives.
pub trait Mechanism: Drop {
    // What it means: who implements the trait says it, and answers for it.
    ghost meaning: { Meaning Self };

    /// The arcs of the object identifier that it is offered under.
    fn arcs(&self) -> &[u64]
        ensures { result.now ≡ meaning.oid self.now };

    /// Whether an object identifier names it: its own, or one that peers use in its place.
    fn is_named(&self, arcs: &[u64]) -> bool
        ensures { result ≡ meaning.names self.now arcs.now };

    /// Whether its context protects messages by MICs (RFC 2743, 1.2.2).
    fn has_integrity(&self) -> bool
        ensures { result ≡ meaning.integrity self.now };

    /// Whether octets are a first token of its own, with no negotiation around it.
    fn is_bare(&self, token: &[u8]) -> bool
        ensures { result ≡ meaning.bare self.now token.now };

    /// What it makes of the peer's token, or of none where it begins.
    fn step(&mut self, alloc: Global, token: Option<&[u8]>) -> Result<Turn, MechanismError>
        ensures taken { IfOk result (meaning.steps self.old (option_copied token.entry) self.new) }
        ensures refused { result ≡ Err MechanismError.Refused → meaning.refuses self.old (option_copied token.entry) };

    /// A MIC of a text, once the context is established.
    fn make_mic(&mut self, alloc: Global, text: &[u8]) -> Result<Vec<u8>, AllocError>
        ensures { IfOk result (λ mic. meaning.makes self.old text.now mic.items self.new) };

    /// Whether a MIC of the peer holds of a text, once the context is established.
    fn verify_mic(&self, alloc: Global, text: &[u8], mic: &[u8]) -> Result<bool, AllocError>
        ensures { IfOk result (λ held. MatchBool held (meaning.holds self.now text.now mic.now) (meaning.holds self.now text.now mic.now → ⊥)) };

    // What stays when it steps, and when it makes a MIC.
    ghost steady: { IsSteady meaning };
}

/// The first of the mechanisms that an object identifier names.
pub(crate) fn find_named<M: Mechanism>(mechanisms: Vec<M>, name: &[u64]) -> Option<M>
    ensures { result ≡ find (λ m. M.meaning.names m name.now) mechanisms.items }
{
    mechanisms
        .into_iter()
        .find(|mechanism| mechanism.is_named(name))
}
