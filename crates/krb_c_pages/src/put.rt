//! Arrays of the caller's.

ghost use Rattle.std.specs.Prelude.{◌≡◌, ◌≤◌, ◌++◌, length, drop};

/// Puts these to the front of others, which are not fewer.
pub(crate) fn fill<T: Copy>(those: &[T], others: &mut [T])
    requires { length those.now ≤ length others.old }
    ensures { others.new ≡ those.now ++ drop (length those.now) others.old }
{
    others[..those.len()].copy_from_slice(those);
}
