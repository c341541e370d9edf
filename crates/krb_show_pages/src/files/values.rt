//! Texts, octets, times and lists.

ghost use Rattle.std.specs.Prelude.{◌≡◌, map, IfOk};
ghost use Rattle.krb_show.specs.Leaves.{octets_of, secret_octets_of, text_of};
ghost use Rattle.krb_show.specs.Pages.{list_of};
ghost use Rattle.krb_show_pages.specs.Files.{texts_of, time_or_number_of};

use crate::files::{File, Text};
use krb_files::fields::ComponentsView;
use krb_show::{Label, Page, Show, ShowFields, show_list, show_octets, show_secret, show_text};
use krb_types::view::time_of_unix_seconds;
use std::alloc::{AllocError, Global};
use std::marker::{Model, PhantomData};

/// Octets of the file.
impl<'a> Show<File> for &'a [u8] {
    ghost shows = { λ label v. octets_of label v.now };

    fn show(&self, alloc: Global, label: &Label, page: &mut Page) -> Result<(), AllocError> {
        show_octets(alloc, label, self, page)
    }
}

/// The octets of a key of the file.
#[derive(Drop)]
pub(crate) struct KeyOctets<'a> {
    pub(crate) octets: &'a [u8],
}

impl<'a> Model for KeyOctets<'a> {
    ghost use Rattle.std.specs.Prelude.{List, ℕ};
    ghost use Rattle.std.specs.Coded.{coded_ℕ, coded_list};

    ghost Value = { List ℕ };

    ghost view = { λ k. k.octets.now };
}

impl<'a> Show<File> for KeyOctets<'a> {
    ghost shows = { secret_octets_of };

    fn show(&self, alloc: Global, label: &Label, page: &mut Page) -> Result<(), AllocError> {
        show_secret(alloc, label, self.octets, page)
    }
}

/// A text of the file, which is any octets.
impl<'a> Show<Text> for &'a [u8] {
    ghost shows = { λ label v. text_of label v.now };

    fn show(&self, alloc: Global, label: &Label, page: &mut Page) -> Result<(), AllocError> {
        show_text(alloc, label, self, page)
    }
}

/// A realm of the file, which is a text.
#[derive(Drop)]
pub(crate) struct Realm<'a> {
    pub(crate) octets: &'a [u8],
}

impl<'a> Model for Realm<'a> {
    ghost use Rattle.std.specs.Prelude.{List, ℕ};
    ghost use Rattle.std.specs.Coded.{coded_ℕ, coded_list};

    ghost Value = { List ℕ };

    ghost view = { λ r. r.octets.now };
}

impl<'a> Show<File> for Realm<'a> {
    ghost shows = { text_of };

    fn show(&self, alloc: Global, label: &Label, page: &mut Page) -> Result<(), AllocError> {
        show_text(alloc, label, self.octets, page)
    }
}

/// The components of a name, in their order.
fn components<'a>(
    alloc: Global,
    components: ComponentsView<'a>,
) -> Result<Vec<&'a [u8]>, AllocError>
    ensures { IfOk result (λ v. map (λ x. x.now) v.items ≡ components.entry) }
{
    components.collect(alloc)
}

/// The components of a name, which are texts.
impl<'a> Show<File> for ComponentsView<'a> {
    ghost shows = { texts_of };

    fn show(&self, alloc: Global, label: &Label, page: &mut Page) -> Result<(), AllocError> {
        let components = components(alloc, self.again())?;
        show_list::<Text, _>(alloc, label, &components, page)
    }
}

/// A time of the file, in seconds since 1970.
#[derive(Drop)]
pub(crate) struct Seconds {
    pub(crate) seconds: u32,
}

impl Model for Seconds {
    ghost use Rattle.std.specs.Prelude.{ℕ};

    ghost Value = { ℕ };

    ghost view = { λ s. s.seconds };
}

/// The time, or where it has no year of 0 to 9999 the number of seconds.
impl Show<File> for Seconds {
    ghost shows = { time_or_number_of };

    fn show(&self, alloc: Global, label: &Label, page: &mut Page) -> Result<(), AllocError> {
        match time_of_unix_seconds(i64::from(self.seconds)) {
            Ok(time) => Show::<File>::show(&time, alloc, label, page),
            Err(_) => Show::<File>::show(&self.seconds, alloc, label, page),
        }
    }
}

/// The items of a list, lent for showing, and its label.
#[derive(Drop)]
pub(crate) struct Items<'a, K, T> {
    pub(crate) label: Label<'a>,
    pub(crate) items: &'a [T],
    pub(crate) shown: PhantomData<K>,
}

impl<'a, K, T: Show<K>> ShowFields for Items<'a, K, T> {
    ghost shows = { λ f. list_of (λ l. T.shows l) f.label f.items.now };

    fn show_fields(&self, alloc: Global, page: &mut Page) -> Result<(), AllocError> {
        show_list::<K, T>(alloc, &self.label, self.items, page)
    }
}
