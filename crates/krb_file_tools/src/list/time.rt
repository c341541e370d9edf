//! Times as text.

ghost use Rattle.std.specs.Prelude.{◌≡◌, IfOk};
ghost use Rattle.krb_file_tools.specs.Texts.{IsTimeText};
ghost use Rattle.krb_show.specs.Leaves.{time_word};
ghost use Rattle.krb_show_text.specs.Text.{ArePrintable};

use krb_der::GeneralizedTimeAsn1;
use krb_show::{Label, Show};
use krb_types::view::time_of_unix_seconds;
use std::alloc::{AllocError, Global};

/// A time in ISO 8601: the word that a page shows for it.
fn time_word(alloc: Global, time: &GeneralizedTimeAsn1) -> Result<Vec<u8>, AllocError>
    ensures { IfOk result (λ word. word.items ≡ time_word time.now) }
{
    let label = Label::new("time");
    let mut page = Vec::new(alloc);
    Show::<()>::show(time, alloc, &label, &mut page)?;
    let mut word = Vec::with_capacity(alloc, 20)?;
    if let Some(token) = page.first() {
        word.extend_from_slice(token.octets())?;
    }
    Ok(word)
}

/// A time of so many seconds since 1970, or where it has no year of 0 to 9999 the number.
#[tactic(auto, using(crate::proofs::Printable::printable_time, crate::proofs::Printable::printable_number))]
pub(crate) fn text_of_seconds(alloc: Global, seconds: u32) -> Result<Vec<u8>, AllocError>
    ensures text { IfOk result (λ text. IsTimeText seconds text.items) }
    ensures printable { IfOk result (λ text. ArePrintable text.items) }
{
    match time_of_unix_seconds(i64::from(seconds)) {
        Ok(time) => time_word(alloc, &time),
        Err(_) => {
            let digits = format!(in alloc; "{seconds}")?;
            Ok(digits.into_bytes())
        }
    }
}
