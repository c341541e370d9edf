//! The rotation of a Wrap token's data (RFC 4121, 4.2.5).

ghost use Rattle.std.specs.Prelude.{◌≡◌};
ghost use Rattle.krb_gss_per_message.specs.Rotation.{rotated_right};

/// Rotates octets to the right, by the count modulo their number.
pub(crate) fn rotate(octets: &mut Vec<u8>, count: u16)
    ensures { octets.new.items ≡ rotated_right count octets.old.items }
{
    if octets.is_empty() {
        return;
    }
    octets.rotate_right(count as usize % octets.len());
}

/// Undoes the rotation by this count.
pub(crate) fn rotate_back(octets: &mut Vec<u8>, count: u16)
    ensures { octets.old.items ≡ rotated_right count octets.new.items }
{
    if octets.is_empty() {
        return;
    }
    octets.rotate_left(count as usize % octets.len());
}
