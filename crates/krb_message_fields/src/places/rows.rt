//! Elements that stand one after another.

ghost use Rattle.std.specs.Prelude.{MatchOption};
ghost use Rattle.krb_der_core.specs.Tlv.{tlv};
ghost use Rattle.krb_der_core.specs.Reading.{TakesPrefix};
ghost use Rattle.krb_message_fields.specs.Places.{IsAt};
ghost use Rattle.krb_message_fields.specs.Rows.{IsField, IsItem, NoField, NoFront, NoItem};

use crate::places::place::Place;
use krb_der_core::read_tlv;

/// The element that octets begin with.
#[derive(Drop)]
pub(crate) struct Element<'a> {
    /// Its tag.
    pub tag: u8,
    /// Its content.
    pub content: &'a [u8],
    /// The number of the element's octets.
    pub size: usize,
}

/// The element at the front; `None` where there is none.
pub(crate) fn front(octets: &[u8]) -> Option<Element<'_>>
    ensures { MatchOption result (NoFront octets.now) (λ f. TakesPrefix (tlv f.tag f.content.now) f.size octets.now) }
{
    if octets.is_empty() {
        return None;
    }
    let tag = octets[0];
    match read_tlv(tag, octets) {
        Ok((content, size)) => Some(Element { tag, content, size }),
        Err(_) => None,
    }
}

/// The content of the first element that has this tag; `None` where no element before a fault has it.
pub(crate) fn field(tag: u8, octets: &[u8]) -> Option<Place>
    ensures { MatchOption result (NoField tag octets.now) (IsAt (IsField tag octets.now) octets.now) }
{
    let mut passed = 0;
    while passed < octets.len() {
        let Some(next) = front(&octets[passed..]) else {
            return None;
        };
        if next.tag == tag {
            let size = next.content.len();
            let offset = passed + (next.size - size);
            return Some(Place { offset, size });
        }
        passed += next.size;
    }
    None
}

/// The element before which so many others stand; `None` where there are fewer before a fault.
pub(crate) fn item(index: usize, octets: &[u8]) -> Option<Place>
    ensures { MatchOption result (NoItem index octets.now) (IsAt (IsItem index octets.now) octets.now) }
{
    let mut passed = 0;
    let mut left = index;
    while passed < octets.len() {
        let Some(next) = front(&octets[passed..]) else {
            return None;
        };
        if left == 0 {
            return Some(Place {
                offset: passed,
                size: next.size,
            });
        }
        left -= 1;
        passed += next.size;
    }
    None
}
