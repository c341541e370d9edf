//! Lemmas: functions with no body, whose contracts state what holds of the definitions.

ghost use Rattle.std.specs.Prelude.{◌≡◌, ◌↔◌, IsTrue};
ghost use Rattle.krb_gss_tokens.specs.Mic.{Mic};
ghost use Rattle.krb_gss_tokens.specs.Wrap.{Wrap};

use crate::mic_token::MicToken;
use crate::wrap_token::WrapToken;

/// `==` on tokens: it is true for equal values and for no others.
pub fn equality()
    ensures mic_token { (a b : Mic) → IsTrue (⟦<MicToken as PartialEq>⟧.eq a b) ↔ (a ≡ b) }
    ensures wrap_token { (a b : Wrap) → IsTrue (⟦<WrapToken as PartialEq>⟧.eq a b) ↔ (a ≡ b) }
{}
