//! What a KDC granted, as octets.

ghost use Rattle.std.specs.Prelude.{◌≡◌, ◌++◌, IfOk};
ghost use Rattle.krb_c_client.specs.Followed.{IsTold};

use crate::records::{FollowedRecord, grants};
use krb_client::Granted;
use krb_der::{ApplicationTag, DerEncode, encoding};
use krb_messages::messages::EncTgsRepPart;
use krb_types::data_types::Ticket;
use std::alloc::{AllocError, Global};

/// What is told of a message that breaks no rule.
#[derive(Drop)]
pub(crate) struct Told {
    /// What follows.
    pub record: FollowedRecord,
    /// The octets that it tells of.
    pub octets: Vec<u8>,
}

/// The encodings of a ticket and of its part, which is under tag 26, one behind the other.
pub(crate) fn granted_told(alloc: Global, granted: Granted) -> Result<Told, AllocError>
    ensures { IfOk result (λ t. IsTold ⟦<Ticket as DerEncode>⟧ ⟦<EncTgsRepPart as DerEncode>⟧ granted t.record t.octets.items) }
{
    let Granted { ticket, part } = granted;
    let of_ticket = encoding(alloc, &ticket);
    drop(ticket);
    let part: EncTgsRepPart = ApplicationTag(part);
    let of_part = encoding(alloc, &part);
    drop(part);
    let mut octets = of_ticket?;
    let behind = of_part?;
    let record = grants(octets.len(), behind.len());
    octets.extend_from_slice(behind.as_slice())?;
    Ok(Told { record, octets })
}
