//! Places in an input.

ghost use Rattle.std.specs.Prelude.{◌≡◌, ◌+◌, ◌≤◌, length};

use krb_message_fields::places::Place;

/// The place of a field that has so many octets behind it to the end of the input.
pub(crate) fn place_before(input: &[u8], field: &[u8], behind: usize) -> Place
    requires { length field.now + behind ≤ length input.now }
    ensures offset { result.offset + length field.now + behind ≡ length input.now }
    ensures size { result.size ≡ length field.now }
{
    Place {
        offset: input.len() - behind - field.len(),
        size: field.len(),
    }
}
