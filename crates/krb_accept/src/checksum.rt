//! The checksum 8003 of an authenticator (RFC 4121, 4.1.1).

ghost use Rattle.std.specs.Prelude.{◌≡◌, ◌+◌, ◌<◌, ◌≤◌, ℕ, List, length, MatchOption};
ghost use Rattle.krb_accept.specs.Layout.{Delegates, IsLaidOut, number_16, number_32};

/// What the checksum says.
#[derive(Clone, Copy)]
pub struct ContextChecksum<'a> {
    /// The MD5 of the client's channel bindings, 16 octets; zeros, where it has none.
    pub bindings: &'a [u8],
    /// The flags of the context: 1 for delegation, 2 for mutual authentication, 4 for replay, 8 for sequence, 16 for confidentiality, 32 for integrity.
    pub flags: u32,
    /// The KRB-CRED with delegated credentials; empty, where the flag of delegation is not set.
    pub delegated: &'a [u8],
    /// Extensions.
    pub extensions: &'a [u8],
}

/// The number of four octets from an index on, lowest first.
fn number_32(octets: &[u8], index: usize) -> u32
    requires { index + 4 ≤ length octets.now }
    ensures { result ≡ number_32 octets.now index }
{
    u32::from_le_bytes([
        octets[index],
        octets[index + 1],
        octets[index + 2],
        octets[index + 3],
    ])
}

/// That of two.
fn number_16(octets: &[u8], index: usize) -> u16
    requires { index + 2 ≤ length octets.now }
    ensures { result ≡ number_16 octets.now index }
{
    u16::from_le_bytes([octets[index], octets[index + 1]])
}

/// The delegated credentials and the extensions.
fn delegated_in(octets: &[u8], flags: u32) -> Option<(&[u8], &[u8])>
    requires { 24 ≤ length octets.now }
    ensures { MatchOption result ((delegated extensions : List ℕ) → Delegates octets.now flags delegated extensions → ⊥)
        (λ p. Delegates octets.now flags p.0.now p.1.now) }
{
    if flags % 2 == 0 {
        return Some((&octets[..0], &octets[24..]));
    }
    if octets.len() < 28 || number_16(octets, 24) != 1 {
        return None;
    }
    let end = 28 + number_16(octets, 26) as usize;
    if octets.len() < end {
        return None;
    }
    Some((&octets[28..end], &octets[end..]))
}

/// What the octets of a checksum say, where they are laid out so.
pub fn checksum_of(octets: &[u8]) -> Option<ContextChecksum<'_>>
    ensures { MatchOption result ((bindings delegated extensions : List ℕ) (flags : ℕ) → IsLaidOut octets.now bindings flags delegated extensions → ⊥)
        (λ c. IsLaidOut octets.now c.bindings.now c.flags c.delegated.now c.extensions.now) }
{
    if octets.len() < 24 || number_32(octets, 0) != 16 {
        return None;
    }
    let flags = number_32(octets, 20);
    let Some((delegated, extensions)) = delegated_in(octets, flags) else {
        return None;
    };
    Some(ContextChecksum {
        bindings: &octets[4..20],
        flags,
        delegated,
        extensions,
    })
}
