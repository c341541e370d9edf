//! Pages as JSON (RFC 8259) with places.

ghost use Rattle.std.specs.Prelude.{◌≡◌, ◌++◌, ◌∷◌, [], length, IfOk, OnOk};
ghost use Rattle.std.specs.Option.{option_copied};
ghost use Rattle.std.specs.String.{string_bytes};
ghost use Rattle.krb_show_text.specs.Text.{ArePrintable};
ghost use Rattle.krb_show_any.specs.Paired.{are_paired, begins, ends, is_same, paired_line};

use krb_show::{Form, Token};
use krb_show_text::{json_of_page, json_of_page_with_places};
use std::alloc::{AllocError, Global};

/// Whether a token begins a struct or a list.
fn begins(form: Form) -> bool
    ensures { result ≡ begins form }
{
    matches!(form, Form::Struct | Form::List)
}

/// Whether a token ends a struct or a list.
fn ends(form: Form) -> bool
    ensures { result ≡ ends form }
{
    matches!(form, Form::StructEnd | Form::ListEnd)
}

/// Whether what begins last has a place as its end has, or neither has.
fn is_same(begun: Option<bool>, has_place: bool) -> bool
    ensures { result ≡ is_same begun has_place }
{
    match begun {
        Some(begun) => begun == has_place,
        None => false,
    }
}

/// Whether each struct and each list that begins with a place ends with one, and no other.
fn are_paired(alloc: Global, page: &[Token]) -> Result<bool, AllocError>
    ensures { IfOk result (λ paired. paired ≡ are_paired [] page.now) }
{
    let mut begun: Vec<bool> = Vec::new(alloc);
    let mut rest = page;
    'tokens: while let Some((token, behind)) = rest.split_first() {
        let has_place = token.place().is_some();
        if begins(token.form()) {
            begun.push(has_place)?;
        } else if ends(token.form()) {
            if !is_same(begun.last().copied(), has_place) {
                return Ok(false);
            }
            let _ended = begun.pop();
        }
        rest = behind;
    }
    Ok(true)
}

/// A page as JSON with places, as `json_of_page_with_places` writes it, if each struct and each list that begins with a place ends with
/// one, and no other; else without, as `json_of_page` writes it: an object of a place that begins is one that ends (RFC 8259, 4). That no page of
/// this library is written without is tested, and not proved.
pub fn json_with_places(alloc: Global, page: &[Token]) -> Result<String, AllocError>
    ensures json { IfOk result (λ json. string_bytes json ≡ paired_line page.now ++ 10 ∷ []) }
    ensures printable { OnOk result (ArePrintable (paired_line page.now)) }
{
    if are_paired(alloc, page)? {
        json_of_page_with_places(alloc, page)
    } else {
        json_of_page(alloc, page)
    }
}
