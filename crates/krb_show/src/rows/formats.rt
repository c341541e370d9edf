//! Octets of formats that are no DER, within elements.

ghost use Rattle.std.specs.Prelude.{◌≡◌, ℕ, List, [], Option, IfOk, OnErr, OnOk};
ghost use Rattle.krb_message_fields.specs.declared.places.place.Place.{Place};
ghost use Rattle.krb_schema.specs.declared.shape.Role.{Role};
ghost use Rattle.krb_show.specs.Leaves.{octets_of};
ghost use Rattle.krb_show.specs.Tokens.{Begins, Label, Token};

use crate::{Label, Page, show_octets};
use krb_message_fields::places::Place;
use krb_schema::Role;
use std::alloc::{AllocError, Global};

/// What the octets of elements are shown as that are more than octets to a program, though not to DER.
pub trait ShowsFormats {
    /// What a page is after such octets are appended to it: what they are to a program, the content of the INTEGER that stands last before them,
    /// the label, the octets, the page before and the page after.
    ghost tells: { Role → List ℕ → Label → List ℕ → List Token → List Token → Type 0 };

    /// The places in such octets of what `show_format` appends for them: what they are to a program, the content of the INTEGER that stands last
    /// before them, the octets, and the places.
    ghost places: { Role → List ℕ → List ℕ → List (Option Place) → Type 0 };

    /// Appends the octets to the page, which is as before where an allocation fails.
    fn show_format(
        alloc: Global,
        role: Role,
        number: &[u8],
        label: &Label,
        octets: &[u8],
        page: &mut Page,
    ) -> Result<(), AllocError>
        ensures ok { OnOk result (tells role number.now label.now octets.now page.old.items page.new.items) }
        ensures kept { OnOk result (Begins page.old.items page.new.items) }
        ensures err { OnErr result (page.new.items ≡ page.old.items) };

    /// Where in such octets what each token tells stands that `show_format` appends for them, in the order of the tokens; `None` of
    /// what has no place of its own. `push_items_with_places` gives a token its place only if the octets there are what it tells.
    fn places_of_format(
        alloc: Global,
        role: Role,
        number: &[u8],
        octets: &[u8],
    ) -> Result<Vec<Option<Place>>, AllocError>
        ensures { IfOk result (λ found. places role number.now octets.now found.items) };
}

/// All of them are octets.
#[derive(Drop)]
pub struct NoFormats;

impl ShowsFormats for NoFormats {
    ghost tells = { λ role number label octets. octets_of label octets };

    ghost places = { λ role number octets found. found ≡ [] };

    fn show_format(
        alloc: Global,
        _role: Role,
        _number: &[u8],
        label: &Label,
        octets: &[u8],
        page: &mut Page,
    ) -> Result<(), AllocError> {
        show_octets(alloc, label, octets, page)
    }

    fn places_of_format(
        alloc: Global,
        _role: Role,
        _number: &[u8],
        _octets: &[u8],
    ) -> Result<Vec<Option<Place>>, AllocError> {
        Ok(Vec::new(alloc))
    }
}
