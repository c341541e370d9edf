//! Texts and words at the start of octets.

ghost use Rattle.std.specs.Prelude.{◌≡◌};
ghost use Rattle.std.specs.Option.{option_copied};
ghost use Rattle.krb_input.specs.Words.{after_text, after_word};

/// The octets behind a text that is at their start; `None` where it is not there.
pub fn after_text<'a>(text: &[u8], octets: &'a [u8]) -> Option<&'a [u8]>
    ensures { option_copied result ≡ after_text text.now octets.now }
{
    let Some((wanted, text_rest)) = text.split_first() else {
        return Some(octets);
    };
    let (found, rest) = octets.split_first()?;
    if found != wanted {
        return None;
    }
    after_text(text_rest, rest)
}

/// The octets behind a word that is at their start, its letters in either case; `None` where it is not there. The word is given in lower
/// case.
pub fn after_word<'a>(word: &[u8], octets: &'a [u8]) -> Option<&'a [u8]>
    ensures { option_copied result ≡ after_word word.now octets.now }
{
    let Some((wanted, word_rest)) = word.split_first() else {
        return Some(octets);
    };
    let (found, rest) = octets.split_first()?;
    if found.to_ascii_lowercase() != *wanted {
        return None;
    }
    after_word(word_rest, rest)
}
