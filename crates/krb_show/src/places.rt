//! Places of the elements that tokens are of.

ghost use Rattle.std.specs.Prelude.{◌≡◌, ◌<◌, length};
ghost use Rattle.krb_show.specs.Tokens.{placed_at, placed_behind};

use crate::token::Page;
use krb_message_fields::places::Place;

/// Gives the token at an index, if there is one, this place.
pub(crate) fn give_place(page: &mut Page, index: usize, place: Place)
    ensures { page.new.items ≡ placed_at place index page.old.items }
{
    if let Some(token) = page.get_mut(index) {
        token.set_place(place);
    }
}

/// Gives the first and the last token behind so many this place, if there are any.
pub(crate) fn place_behind(page: &mut Page, start: usize, place: Place)
    ensures { page.new.items ≡ placed_behind place start page.old.items }
{
    if start < page.len() {
        let last = page.len() - 1;
        give_place(page, start, place);
        give_place(page, last, place);
    }
}
