//! What stands in a struct beside the number that says of which type it is.

ghost use Rattle.std.specs.Prelude.{◌≡◌, ◌↔◌, IsTrue, ℕ, ℤ, pos, List, OnOk, OnErr};
ghost use Rattle.krb_show.specs.Tokens.{Label, Token, Begins};

use crate::fields::ShowFields;
use crate::token::{Label, Page};
use krb_der::{ExplicitContextTag, IntegerAsn1, OctetStringAsn1};
use std::alloc::{AllocError, Global};
use std::marker::PhantomData;

/// Octets whose type is said by a number beside them, as in PA-DATA.
pub trait OpensValues {
    /// What a page is after the octets are appended to it, opened as their type has them: the label, the number, the octets, the page
    /// before and the page after.
    ghost opened: { Label → ℤ → List ℕ → List Token → List Token → Type 0 };

    /// Appends the octets, opened as their type has them, to the page, which is as before where an allocation fails.
    fn show_value(
        alloc: Global,
        label: &Label,
        number: &IntegerAsn1,
        octets: &[u8],
        page: &mut Page,
    ) -> Result<(), AllocError>
        ensures ok { OnOk result (opened label.now number.now octets.now page.old.items page.new.items) }
        ensures kept { OnOk result (Begins page.old.items page.new.items) }
        ensures err { OnErr result (page.new.items ≡ page.old.items) };
}

/// The field of a struct that holds such octets, and its label.
#[derive(Drop)]
pub struct TypedValue<'a, V, N, M> {
    pub label: Label<'a>,
    pub number: &'a ExplicitContextTag<IntegerAsn1, N>,
    pub octets: &'a ExplicitContextTag<OctetStringAsn1, M>,
    pub values: PhantomData<V>,
}

impl<'a, V: OpensValues, N, M> ShowFields for TypedValue<'a, V, N, M> {
    ghost shows = { λ f. V.opened f.label f.number.now f.octets.now };

    fn show_fields(&self, alloc: Global, page: &mut Page) -> Result<(), AllocError> {
        let number = self.number;
        let octets = self.octets;
        V::show_value(alloc, &self.label, &number.0, octets.0.0.as_slice(), page)
    }
}
