//! Channel bindings (RFC 4121, 4.1.1.2).

ghost use Rattle.std.specs.Prelude.{◌≡◌, ℕ, List, ◌++◌, ◌^◌, ◌<◌, nat_lt, length, MatchOption};
ghost use Rattle.md5.specs.Md5.{Holds, md5};
ghost use Rattle.krb_accept.specs.Bindings.{FitsBindings, bindings_octets, counted};

use md5::{Digest, Md5};

/// What a channel is bound to (RFC 2744, 3.11; RFC 4121, 4.1.1.2): the addresses of both sides, mostly none (type 0 and no
/// octets), and data of the application, as `tls-server-end-point:` and a hash (RFC 5929).
#[derive(Drop, Clone, Copy)]
pub struct ChannelBindings<'a> {
    /// The type of the initiator's address; 0 where there is none.
    pub initiator_type: u32,
    /// The initiator's address.
    pub initiator_address: &'a [u8],
    /// The type of the acceptor's address; 0 where there is none.
    pub acceptor_type: u32,
    /// The acceptor's address.
    pub acceptor_address: &'a [u8],
    /// The data of the application.
    pub application_data: &'a [u8],
}

/// Whether a length is below 2^32.
fn fits(octets: &[u8]) -> bool
    ensures { result ≡ nat_lt (length octets.now) (2 ^ 32) }
{
    octets.len() < 1 << 32
}

/// Absorbs the length of octets, as four octets with the lowest first, and the octets.
fn update_counted(hasher: &mut Md5, octets: &[u8])
    requires { length octets.now < 2 ^ 32 }
    ensures { (m : List ℕ) → Holds hasher.old m → Holds hasher.new (m ++ counted octets.now) }
{
    hasher.update(&(octets.len() as u32).to_le_bytes());
    hasher.update(octets);
}

/// The hash of channel bindings that the checksum of an authenticator holds (RFC 4121, 4.1.1.2): MD5 over, for each side, the type of
/// its address, the address's length and the address, and then the length of the application's data and the data; each number has
/// four octets, the lowest first.
///
/// `None` where an address or the data have 2^32 octets or more, whose length no four octets hold.
pub fn channel_bindings(bindings: &ChannelBindings) -> Option<[u8; 16]>
    ensures { MatchOption result (FitsBindings bindings.now → ⊥) (λ hash. FitsBindings bindings.now × (hash ≡ md5 (bindings_octets bindings.now))) }
{
    if !fits(bindings.initiator_address)
        || !fits(bindings.acceptor_address)
        || !fits(bindings.application_data)
    {
        return None;
    }
    let mut hasher = Md5::new();
    hasher.update(&bindings.initiator_type.to_le_bytes());
    update_counted(&mut hasher, bindings.initiator_address);
    hasher.update(&bindings.acceptor_type.to_le_bytes());
    update_counted(&mut hasher, bindings.acceptor_address);
    update_counted(&mut hasher, bindings.application_data);
    Some(hasher.finalize())
}
