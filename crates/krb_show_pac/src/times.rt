//! Times (MS-DTYP 2.3.3, FILETIME).

ghost use Rattle.krb_show_pac.specs.Values.{filetime_of};

use crate::Pac;
use krb_pac_contents::text::{FileTime, time_of_filetime};
use krb_show::{Label, Page, Show, show_word};
use std::alloc::{AllocError, Global};
use std::marker::Model;

/// A time, in units of 100 nanoseconds since 1601.
#[derive(Drop)]
pub(crate) struct Moment {
    pub(crate) filetime: u64,
}

impl Model for Moment {
    ghost use Rattle.std.specs.Prelude.{ℕ};

    ghost Value = { ℕ };

    ghost view = { λ m. m.filetime };
}

/// The second, `never`, or where the time has no year of 0 to 9999 the number.
impl Show<Pac> for Moment {
    ghost shows = { filetime_of };

    fn show(&self, alloc: Global, label: &Label, page: &mut Page) -> Result<(), AllocError> {
        match time_of_filetime(self.filetime) {
            FileTime::Never => show_word(alloc, label, b"never", page),
            FileTime::Time { time, .. } => Show::<Pac>::show(&time, alloc, label, page),
            FileTime::Unrepresentable => Show::<Pac>::show(&self.filetime, alloc, label, page),
        }
    }
}
