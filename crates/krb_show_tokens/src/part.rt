//! Parts of a token's octets.

ghost use Rattle.std.specs.Prelude.{◌≡◌, true, length, nat_lt, MatchOption};
ghost use Rattle.krb_show.specs.InnerPlaces.{place_at};
ghost use Rattle.krb_show_tokens.specs.Parts.{IsElementAt, IsSplit, NoElement};
ghost use Rattle.krb_show_tokens.specs.Places.{field};

use krb_der_core::read_tlv;
use krb_show::Place;

/// Octets of a token, and how many of its octets stand before them.
#[derive(Clone, Copy)]
pub(crate) struct Part<'a> {
    pub(crate) start: usize,
    pub(crate) octets: &'a [u8],
}

impl<'a> Part<'a> {
    /// Where they are.
    pub(crate) fn place(&self) -> Option<Place>
        ensures { result ≡ place_at self.now.start (length self.now.octets.now) }
    {
        Some(Place {
            offset: self.start,
            size: self.octets.len(),
        })
    }

    /// Where so many of them are, behind so many others of them.
    pub(crate) fn field(&self, offset: usize, size: usize) -> Place
        ensures { result ≡ field self.now.start offset size }
    {
        Place {
            offset: self.start.saturating_add(offset),
            size,
        }
    }

    /// So many octets at their front, and those behind; `None` if there are fewer.
    pub(crate) fn split(&self, size: usize) -> Option<(Part<'a>, Part<'a>)>
        ensures { MatchOption result (nat_lt (length self.now.octets.now) size ≡ true)
            (λ p. IsSplit self.now.start size p.0.start p.1.start p.0.octets.now p.1.octets.now self.now.octets.now) }
    {
        if self.octets.len() < size {
            return None;
        }
        let (octets, rest) = self.octets.split_at(size);
        let front = Part {
            start: self.start,
            octets,
        };
        let behind = Part {
            start: self.start.saturating_add(size),
            octets: rest,
        };
        Some((front, behind))
    }

    /// The content of the element of DER at their front, whatever its tag (X.690, 8.1.1), and what
    /// is behind the element; `None` if there is none.
    pub(crate) fn element(&self) -> Option<(Part<'a>, Part<'a>)>
        ensures { MatchOption result (NoElement self.now.octets.now)
            (λ p. IsElementAt self.now.start p.0.start p.1.start p.0.octets.now p.1.octets.now self.now.octets.now) }
    {
        if self.octets.is_empty() {
            return None;
        }
        let Ok((octets, taken)) = read_tlv(self.octets[0], self.octets) else {
            return None;
        };
        let (_, rest) = self.octets.split_at(taken);
        let content = Part {
            start: self.start.saturating_add(taken - octets.len()),
            octets,
        };
        let behind = Part {
            start: content.start.saturating_add(octets.len()),
            octets: rest,
        };
        Some((content, behind))
    }
}
