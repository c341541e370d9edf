//! Attributes of a PAC, and the client that asked for it.

ghost use Rattle.std.specs.Prelude.{◌≡◌, ◌≤◌, ℕ, List, length};
ghost use Rattle.krb_pac_contents.specs.Numbers.{long_at};
ghost use Rattle.krb_pac_contents.specs.Attributes.{attributes_of, requestor_of};

use crate::SidView;
use crate::buffers::error::BufferError;
use crate::numbers::u32_at;
use std::marker::Model;

/// Attributes of a PAC (MS-PAC 2.14, PAC_ATTRIBUTES_INFO) over the octets that the caller holds. A contract sees these.
#[derive(Drop)]
pub struct AttributesView<'a> {
    octets: &'a [u8],
}

impl<'a> Model for AttributesView<'a> {
    ghost Value = { List ℕ };

    ghost view = { λ v. v.octets.now };

    ghost invariant = { λ v. 8 ≤ length v.octets.now };
}

impl<'a> AttributesView<'a> {
    /// The attributes that the octets are, all of them.
    ///
    /// `Truncated` where there are not 8 octets, or not as many flags as FlagsLength says; `TrailingOctets` where there are more.
    #[tactic(auto, unfolding(crate::specs::Attributes::attributes_of))]
    pub fn new(octets: &'a [u8]) -> Result<Self, BufferError>
        ensures { result ≡ attributes_of octets.now }
    {
        if octets.len() < 8 {
            return Err(BufferError::Truncated);
        }
        let size = (u32_at(octets, 0) as usize + 31) / 32 * 4;
        if octets.len() < 4 + size {
            return Err(BufferError::Truncated);
        }
        if 4 + size < octets.len() {
            return Err(BufferError::TrailingOctets);
        }
        Ok(AttributesView { octets })
    }

    /// FlagsLength: how many bits the flags have.
    pub fn flags_length(&self) -> u32
        ensures { result ≡ long_at 0 self.now }
    {
        u32_at(self.octets, 0)
    }

    /// Flags, their first 32 bits: PAC_WAS_REQUESTED (1), PAC_WAS_GIVEN_IMPLICITLY (2).
    pub fn flags(&self) -> u32
        ensures { result ≡ long_at 4 self.now }
    {
        u32_at(self.octets, 4)
    }
}

/// The identifier of the client that asked for the ticket (MS-PAC 2.15, PAC_REQUESTOR): all the octets. `Sid` of the error of
/// `SidView::new`.
pub fn requestor(octets: &[u8]) -> Result<SidView<'_>, BufferError>
    ensures { result ≡ requestor_of octets.now }
{
    let sid = SidView::new(octets)?;
    Ok(sid)
}
