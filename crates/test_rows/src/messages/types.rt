//! The types of DER, by their names.

mod certificates;
pub mod encoded;
mod messages;
mod negotiation;
mod parts;
mod pre_authentication;
mod primitives;
mod shared;

use crate::messages::row::{Attempt, Row};
use certificates::try_certificate;
use messages::try_message;
use negotiation::try_negotiation;
use parts::try_part;
use pre_authentication::try_pre_authentication;
use primitives::try_primitive;
use shared::try_shared;

/// Reads the octets as the type of this name, and returns the findings. `None` where no type has the name.
pub fn try_type(row: &Row<'_>) -> Attempt {
    if let Some(found) = try_shared(row) {
        return Some(found);
    }
    if let Some(found) = try_pre_authentication(row) {
        return Some(found);
    }
    if let Some(found) = try_part(row) {
        return Some(found);
    }
    if let Some(found) = try_message(row) {
        return Some(found);
    }
    if let Some(found) = try_primitive(row) {
        return Some(found);
    }
    if let Some(found) = try_certificate(row) {
        return Some(found);
    }
    try_negotiation(row)
}
