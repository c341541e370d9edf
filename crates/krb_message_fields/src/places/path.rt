//! Paths into elements within elements.

ghost use Rattle.std.specs.Prelude.{MatchOption};
ghost use Rattle.krb_message_fields.specs.Paths.{IsPlace, IsStep, LeadsNowhere, NoStep};
ghost use Rattle.krb_message_fields.specs.Places.{IsAt};

use crate::places::place::{Place, Step};
use crate::places::rows::{field, item};

/// Where a step leads; `None` where it leads nowhere.
fn stepped(step: Step, octets: &[u8]) -> Option<Place>
    ensures { MatchOption result (NoStep step octets.now) (IsAt (IsStep step octets.now) octets.now) }
{
    match step {
        Step::Tag(tag) => field(tag, octets),
        Step::Item(index) => item(index, octets),
    }
}

/// Where a path leads, step by step into contents (X.690, 8.1.1), in octets from the front; `None` where it leads nowhere.
pub fn place_of(path: &[Step], octets: &[u8]) -> Option<Place>
    ensures { MatchOption result (LeadsNowhere path.now octets.now) (IsPlace path.now octets.now) }
{
    let Some((step, rest)) = path.split_first() else {
        return Some(Place {
            offset: 0,
            size: octets.len(),
        });
    };
    let outer = stepped(*step, octets)?;
    let within = &octets[outer.offset..outer.offset + outer.size];
    let inner = place_of(rest, within)?;
    Some(Place {
        offset: outer.offset + inner.offset,
        size: inner.size,
    })
}
