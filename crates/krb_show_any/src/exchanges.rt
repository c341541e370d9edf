//! Messages of NEGOEX.

ghost use Rattle.std.specs.Prelude.{false};
ghost use Rattle.krb_show_negoex.specs.Negoex.{AreTold, IsFollowed, IsMessageTold};

use crate::pages::Pages;
use krb_show::Page;
use krb_show_negoex::page_of_negoex;
use std::alloc::Global;
use std::io;

/// Messages of NEGOEX.
#[derive(Drop)]
pub struct Exchanges;

impl Pages<(), io::Error> for Exchanges {
    ghost tells = { λ _ octets result. ((IsFollowed octets → ⊥) → IsMessageTold false (λ page. page.items) octets result)
        × (IsFollowed octets → AreTold (λ page. page.items) octets result) };

    fn page_of(alloc: Global, _kind: (), octets: &[u8]) -> Result<Page, io::Error> {
        page_of_negoex(alloc, octets)
    }
}
