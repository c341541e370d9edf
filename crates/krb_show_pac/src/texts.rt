//! Names, security identifiers and octets.

ghost use Rattle.krb_show.specs.Leaves.{octets_of, secret_octets_of};
ghost use Rattle.krb_show_pac.specs.Values.{identifier_of, name_or_octets_of};

use crate::Pac;
use krb_pac_contents::SidView;
use krb_pac_contents::text::{name_text, sid_text};
use krb_show::{Label, Page, Show, show_octets, show_secret, show_text, show_word};
use std::alloc::{AllocError, Global};
use std::marker::Model;

/// A name, in UTF-16, little endian.
#[derive(Drop)]
pub(crate) struct Name<'a> {
    pub(crate) octets: &'a [u8],
}

impl<'a> Model for Name<'a> {
    ghost use Rattle.std.specs.Prelude.{List, ℕ};
    ghost use Rattle.std.specs.Coded.{coded_ℕ, coded_list};

    ghost Value = { List ℕ };

    ghost view = { λ n. n.octets.now };
}

/// The text, or the octets where they are no UTF-16.
impl<'a> Show<Pac> for Name<'a> {
    ghost shows = { name_or_octets_of };

    fn show(&self, alloc: Global, label: &Label, page: &mut Page) -> Result<(), AllocError> {
        match name_text(alloc, self.octets)? {
            Some(text) => show_text(alloc, label, text.as_bytes(), page),
            None => show_octets(alloc, label, self.octets, page),
        }
    }
}

/// A security identifier, as `S-1-5-21-..`.
impl<'a> Show<Pac> for SidView<'a> {
    ghost shows = { identifier_of };

    fn show(&self, alloc: Global, label: &Label, page: &mut Page) -> Result<(), AllocError> {
        let text = sid_text(alloc, self)?;
        show_word(alloc, label, text.as_bytes(), page)
    }
}

/// Octets of the PAC.
impl<'a> Show<Pac> for &'a [u8] {
    ghost shows = { λ label v. octets_of label v.now };

    fn show(&self, alloc: Global, label: &Label, page: &mut Page) -> Result<(), AllocError> {
        show_octets(alloc, label, self, page)
    }
}

/// The octets of a session key.
#[derive(Drop)]
pub(crate) struct SessionKey<'a> {
    pub(crate) octets: &'a [u8],
}

impl<'a> Model for SessionKey<'a> {
    ghost use Rattle.std.specs.Prelude.{List, ℕ};
    ghost use Rattle.std.specs.Coded.{coded_ℕ, coded_list};

    ghost Value = { List ℕ };

    ghost view = { λ k. k.octets.now };
}

impl<'a> Show<Pac> for SessionKey<'a> {
    ghost shows = { secret_octets_of };

    fn show(&self, alloc: Global, label: &Label, page: &mut Page) -> Result<(), AllocError> {
        show_secret(alloc, label, self.octets, page)
    }
}
