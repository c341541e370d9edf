//! A confounder as the message calls take it: for the suites here, and for those in the crates above.

ghost use Rattle.std.specs.Prelude.{◌≡◌, length};

/// The octets, copied, as a confounder of the suite's length, which they have.
pub fn confounder_of<const SIZE: usize>(octets: &[u8]) -> [u8; SIZE]
    requires { length octets.now ≡ SIZE }
    ensures { result ≡ octets.now }
{
    let mut confounder = [0; SIZE];
    confounder.copy_from_slice(octets);
    confounder
}
