//! The octets that a message is written as, piece by piece (MS-NEGOEX, 2.2).

ghost use Rattle.std.specs.Prelude.{◌≡◌, ◌≢◌, ◌+◌, ◌*◌, ◌^◌, ◌<◌, ℕ, ◌++◌, List, Option, is_some, length};
ghost use Rattle.std.specs.List.{flat_map};
ghost use Rattle.std.specs.Option.{option_map};
ghost use Rattle.byteorder.specs.Endian.{little_bytes};
ghost use Rattle.uuid.specs.Parts.{swap_fields};
ghost use Rattle.krb_show.specs.Leaves.{octets_of};
ghost use Rattle.krb_show.specs.Pages.{optional_of};
ghost use Rattle.krb_show_negoex.specs.Negoex.{IsBehind, IsUnsaid, exchange_octets, header_octets, heads_octets, nego_octets, place_octets, values_octets, verify_octets};

use crate::Format;
use krb_negoex::negoex::data_types::MessageHeader;
use krb_negoex::negoex::views::{
    AuthSchemesView, ExchangeView, ExtensionsView, NegoView, VerifyView,
};
use krb_show::{Label, Page, Show, show_octets};
use std::alloc::{AllocError, Global};
use std::marker::Model;
use uuid::Uuid;

/// A piece that octets may begin with.
trait Piece {
    /// Its octets.
    ghost written: { Self → List ℕ };

    /// The octets behind the piece; `None` where they do not begin with it.
    fn behind<'o>(&self, octets: &'o [u8]) -> Option<&'o [u8]>
        ensures { IsBehind octets.now (written self.now) result };
}

/// The octets behind these; `None` where they do not begin with these.
fn behind<'o>(octets: &'o [u8], piece: &[u8]) -> Option<&'o [u8]>
    ensures { IsBehind octets.now piece.now result }
{
    octets.strip_prefix(piece)
}

impl Piece for u32 {
    ghost written = { little_bytes 4 };

    fn behind<'o>(&self, octets: &'o [u8]) -> Option<&'o [u8]> {
        behind(octets, &self.to_le_bytes())
    }
}

impl Piece for u64 {
    ghost written = { little_bytes 8 };

    fn behind<'o>(&self, octets: &'o [u8]) -> Option<&'o [u8]> {
        behind(octets, &self.to_le_bytes())
    }
}

impl Piece for Uuid {
    ghost written = { swap_fields };

    fn behind<'o>(&self, octets: &'o [u8]) -> Option<&'o [u8]> {
        behind(octets, &self.to_bytes_le())
    }
}

impl Piece for [u8; 32] {
    ghost written = { λ v. v };

    fn behind<'o>(&self, octets: &'o [u8]) -> Option<&'o [u8]> {
        behind(octets, self.as_slice())
    }
}

impl Piece for [u8; 4] {
    ghost written = { λ v. v };

    fn behind<'o>(&self, octets: &'o [u8]) -> Option<&'o [u8]> {
        behind(octets, self.as_slice())
    }
}

/// The one piece, and the other behind it.
impl<A: Piece, B: Piece> Piece for (A, B) {
    ghost written = { λ v. A.written v.0 ++ B.written v.1 };

    fn behind<'o>(&self, octets: &'o [u8]) -> Option<&'o [u8]> {
        match self.0.behind(octets) {
            Some(rest) => self.1.behind(rest),
            None => None,
        }
    }
}

/// Octets as they are.
#[derive(Drop)]
struct Octets<'v>(&'v [u8]);

impl<'v> Piece for Octets<'v> {
    ghost written = { λ v. v.0.now };

    fn behind<'o>(&self, octets: &'o [u8]) -> Option<&'o [u8]> {
        behind(octets, self.0)
    }
}

/// The lowest four octets of a number.
#[derive(Drop)]
struct Low(u128);

impl Piece for Low {
    ghost written = { λ v. little_bytes 4 v.0 };

    fn behind<'o>(&self, octets: &'o [u8]) -> Option<&'o [u8]> {
        let all = self.0.to_le_bytes();
        behind(octets, &all[..4])
    }
}

/// Where a vector's elements are, and how many (MS-NEGOEX, 2.2.5.2).
#[derive(Drop)]
struct VectorPlace {
    offset: u128,
    count: u128,
}

impl Piece for VectorPlace {
    ghost written = { λ v. place_octets v.offset v.count };

    fn behind<'o>(&self, octets: &'o [u8]) -> Option<&'o [u8]> {
        if self.count == 0 {
            behind(octets, &[0; 8])
        } else {
            (Low(self.offset), Low(self.count)).behind(octets)
        }
    }
}

impl Piece for MessageHeader {
    ghost written = { header_octets };

    fn behind<'o>(&self, octets: &'o [u8]) -> Option<&'o [u8]> {
        let lengths = (self.header_len, (self.message_len, self.conversation_id));
        let kind = u32::from(&self.message_type);
        (self.signature, (kind, (self.sequence_num, lengths))).behind(octets)
    }
}

/// The schemes, one behind another.
#[derive(Drop)]
struct Schemes<'v, 'm>(&'v AuthSchemesView<'m>);

impl<'v, 'm> Piece for Schemes<'v, 'm> {
    ghost written = { λ v. flat_map swap_fields v.0.now };

    fn behind<'o>(&self, octets: &'o [u8]) -> Option<&'o [u8]> {
        let schemes = self.0;
        let mut rest = octets;
        for n in 0..schemes.len() {
            match schemes.get(n) {
                Some(scheme) => match scheme.behind(rest) {
                    Some(trailing) => rest = trailing,
                    None => return None,
                },
                None => unreachable!(),
            }
        }
        Some(rest)
    }
}

/// How many octets these are.
fn count_of(octets: &[u8]) -> u128
    ensures is { result ≡ length octets.now }
    ensures small { result < 2 ^ 63 }
{
    octets.len() as u128
}

/// The fixed parts of extensions behind so many schemes, one behind another.
#[derive(Drop)]
struct Heads<'v, 'm> {
    schemes: usize,
    extensions: &'v ExtensionsView<'m>,
}

impl<'v, 'm> Piece for Heads<'v, 'm> {
    ghost written = { λ v. heads_octets (96 + 16 * v.schemes + 12 * length v.extensions.now) v.extensions.now };

    fn behind<'o>(&self, octets: &'o [u8]) -> Option<&'o [u8]> {
        let extensions = self.extensions;
        let mut offset = 96 + 16 * self.schemes as u128 + 12 * extensions.len() as u128;
        let mut rest = octets;
        for n in 0..extensions.len() {
            match extensions.get(n) {
                Some(extension) => {
                    let count = count_of(extension.extension_value());
                    let head = (extension.extension_type(), VectorPlace { offset, count });
                    match head.behind(rest) {
                        Some(trailing) => rest = trailing,
                        None => return None,
                    }
                    offset += count;
                }
                None => unreachable!(),
            }
        }
        Some(rest)
    }
}

/// The values of extensions, one behind another.
#[derive(Drop)]
struct Values<'v, 'm>(&'v ExtensionsView<'m>);

impl<'v, 'm> Piece for Values<'v, 'm> {
    ghost written = { λ v. values_octets v.0.now };

    fn behind<'o>(&self, octets: &'o [u8]) -> Option<&'o [u8]> {
        let extensions = self.0;
        let mut rest = octets;
        for n in 0..extensions.len() {
            match extensions.get(n) {
                Some(extension) => match behind(rest, extension.extension_value()) {
                    Some(trailing) => rest = trailing,
                    None => return None,
                },
                None => unreachable!(),
            }
        }
        Some(rest)
    }
}

/// All octets of a message, where they are not what the message is written as.
///
/// A contract sees an option of their list.
#[derive(Drop)]
pub struct Unsaid<'a>(Option<&'a [u8]>);

impl<'a> Model for Unsaid<'a> {
    ghost Value = { Option (List ℕ) };

    ghost view = { λ v. option_map (λ octets. octets.now) v.0 };
}

impl<'a> Unsaid<'a> {
    /// Whether there are any.
    pub fn is_some(&self) -> bool
        ensures { result ≡ is_some self.now }
    {
        self.0.is_some()
    }
}

impl<'a> Show<Format> for Unsaid<'a> {
    ghost shows = { λ label v. optional_of (octets_of label) v };

    fn show(&self, alloc: Global, label: &Label, page: &mut Page) -> Result<(), AllocError> {
        match self.0 {
            Some(octets) => show_octets(alloc, label, octets, page),
            None => Ok(()),
        }
    }
}

/// The octets, where they are not this piece alone.
fn unsaid_beside<'o, P: Piece>(octets: &'o [u8], piece: &P) -> Unsaid<'o>
    ensures { IsUnsaid octets.now (P.written piece.now) result }
{
    match piece.behind(octets) {
        Some(rest) => {
            if rest.is_empty() {
                Unsaid(None)
            } else {
                Unsaid(Some(octets))
            }
        }
        None => Unsaid(Some(octets)),
    }
}

/// The octets of a `Nego`, where they are not what it is written as.
pub fn unsaid_nego<'o>(octets: &'o [u8], message: &NegoView) -> Unsaid<'o>
    ensures { IsUnsaid octets.now (nego_octets message.now) result }
{
    let schemes = message.auth_schemes();
    let extensions = message.extensions();
    let places = (
        VectorPlace {
            offset: 96,
            count: schemes.len() as u128,
        },
        VectorPlace {
            offset: 96 + 16 * schemes.len() as u128,
            count: extensions.len() as u128,
        },
    );
    let heads = Heads {
        schemes: schemes.len(),
        extensions,
    };
    let vectors = (places, (Schemes(schemes), (heads, Values(extensions))));
    let fields = (
        message.header(),
        (*message.random(), (message.protocol_version(), vectors)),
    );
    unsaid_beside(octets, &fields)
}

/// The octets of an `Exchange`, where they are not what it is written as.
pub fn unsaid_exchange<'o>(octets: &'o [u8], message: &ExchangeView) -> Unsaid<'o>
    ensures { IsUnsaid octets.now (exchange_octets message.now) result }
{
    let exchange = message.exchange();
    let place = VectorPlace {
        offset: 64,
        count: exchange.len() as u128,
    };
    let fields = (
        message.header(),
        (message.auth_scheme(), (place, Octets(exchange))),
    );
    unsaid_beside(octets, &fields)
}

/// The octets of a `Verify`, where they are not what it is written as.
pub fn unsaid_verify<'o>(octets: &'o [u8], message: &VerifyView) -> Unsaid<'o>
    ensures { IsUnsaid octets.now (verify_octets message.now) result }
{
    let checksum = message.checksum();
    let value = checksum.checksum_value();
    let place = VectorPlace {
        offset: 80,
        count: value.len() as u128,
    };
    let numbers = (
        checksum.header_len(),
        (checksum.checksum_scheme(), checksum.checksum_type()),
    );
    let trailing = (place, ([0u8; 4], Octets(value)));
    let fields = (
        message.header(),
        (message.auth_scheme(), (numbers, trailing)),
    );
    unsaid_beside(octets, &fields)
}
