//! The fields of a struct, under their labels.

ghost use Rattle.std.specs.Prelude.{◌≡◌, List, OnOk, OnErr};
ghost use Rattle.krb_show.specs.Tokens.{Token, Begins};
ghost use Rattle.krb_show.specs.Pages.{◌then◌, ends_struct, struct_of};

use crate::show::Show;
use crate::token::{Form, Label, Page, push_mark};
use std::alloc::{AllocError, Global};
use std::marker::PhantomData;

/// Fields, one after another, lent for showing: what `show_fields!` makes.
pub trait ShowFields {
    /// What a page is after the tokens of the fields are appended.
    ghost shows: { Self → List Token → List Token → Type 0 };

    /// Appends the tokens of the fields to the page, which is as before where an allocation fails.
    fn show_fields(&self, alloc: Global, page: &mut Page) -> Result<(), AllocError>
        ensures ok { OnOk result (shows self.now page.old.items page.new.items) }
        ensures kept { OnOk result (Begins page.old.items page.new.items) }
        ensures err { OnErr result (page.new.items ≡ page.old.items) };
}

/// A field and its label.
#[derive(Drop)]
pub struct Field<'a, K, T> {
    pub label: Label<'a>,
    pub value: &'a T,
    pub shown: PhantomData<K>,
}

impl<'a, K, T: Show<K>> ShowFields for Field<'a, K, T> {
    ghost shows = { λ f. T.shows f.label f.value.now };

    fn show_fields(&self, alloc: Global, page: &mut Page) -> Result<(), AllocError> {
        self.value.show(alloc, &self.label, page)
    }
}

impl<L: ShowFields, R: ShowFields> ShowFields for (L, R) {
    ghost shows = { λ f. L.shows f.0 then R.shows f.1 };

    fn show_fields(&self, alloc: Global, page: &mut Page) -> Result<(), AllocError> {
        let start = page.len();
        self.0.show_fields(alloc, page)?;
        let shown = self.1.show_fields(alloc, page);
        if shown.is_err() {
            page.truncate(start);
        }
        shown
    }
}

/// Appends the tokens of a struct with these fields.
pub fn show_struct<F: ShowFields>(
    alloc: Global,
    label: &Label,
    fields: &F,
    page: &mut Page,
) -> Result<(), AllocError>
    ensures ok { OnOk result (struct_of label.now (F.shows fields.now) page.old.items page.new.items) }
    ensures kept { OnOk result (Begins page.old.items page.new.items) }
    ensures err { OnErr result (page.new.items ≡ page.old.items) }
{
    let start = page.len();
    push_mark(alloc, Form::Struct, label, page)?;
    let shown = show_to_end(alloc, label, fields, page);
    if shown.is_err() {
        page.truncate(start);
    }
    shown
}

/// Appends the tokens of fields, and the end of their struct.
fn show_to_end<F: ShowFields>(
    alloc: Global,
    label: &Label,
    fields: &F,
    page: &mut Page,
) -> Result<(), AllocError>
    ensures ok { OnOk result ((F.shows fields.now then ends_struct label.now) page.old.items page.new.items) }
    ensures kept { OnOk result (Begins page.old.items page.new.items) }
    ensures err { OnErr result (page.new.items ≡ page.old.items) }
{
    let start = page.len();
    fields.show_fields(alloc, page)?;
    let shown = push_mark(alloc, Form::StructEnd, label, page);
    if shown.is_err() {
        page.truncate(start);
    }
    shown
}

/// The fields of a struct with their labels, lent for showing: `show_fields!(Message; self; "etype" EncryptionType = etype, "kvno" =
/// kvno)`. First stands the `K` of the fields' `Show<K>`, then the value, then of each field the name that the standard gives it, the
/// `Kind` of its numbers where they have names, and behind `=` the field. The caller's crate lists `krb_registry`. The fields are pairs, those
/// before in the first half.
#[macro_export]
macro_rules! show_fields {
    (@one $value:expr; $shown:ty; $name:literal = $field:ident) => {
        $crate::Field {
            label: $crate::Label {
                text: $name,
                kind: None,
                role: $crate::Role::None,
                is_item: false,
            },
            value: &$value.$field,
            shown: std::marker::PhantomData::<$shown>,
        }
    };
    (@one $value:expr; $shown:ty; $name:literal $kind:ident = $field:ident) => {
        $crate::Field {
            label: $crate::Label {
                text: $name,
                kind: Some(krb_registry::Kind::$kind),
                role: $crate::Role::None,
                is_item: false,
            },
            value: &$value.$field,
            shown: std::marker::PhantomData::<$shown>,
        }
    };
    (@trailing $value:expr; $shown:ty; $fields:expr) => { $fields };
    (@trailing $value:expr; $shown:ty; $fields:expr, $name:literal $($kind:ident)? = $field:ident $(, $names:literal $($kinds:ident)? = $more:ident)*) => {
        $crate::show_fields!(@trailing $value; $shown; ($fields, $crate::show_fields!(@one $value; $shown; $name $($kind)? = $field)) $(, $names $($kinds)? = $more)*)
    };
    ($shown:ty; $value:expr; $name:literal $($kind:ident)? = $field:ident $(, $names:literal $($kinds:ident)? = $more:ident)*) => {
        $crate::show_fields!(@trailing $value; $shown; $crate::show_fields!(@one $value; $shown; $name $($kind)? = $field) $(, $names $($kinds)? = $more)*)
    };
}
