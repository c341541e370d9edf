//! The client's name and the time of its authentication.

ghost use Rattle.std.specs.Prelude.{◌≡◌, ◌≤◌, ℕ, List, length};
ghost use Rattle.byteorder.specs.Endian.{little_number};
ghost use Rattle.krb_pac_contents.specs.Client.{client_info_of, client_name};

use crate::buffers::error::BufferError;
use crate::numbers::u16_at;
use byteorder::{ByteOrder, LittleEndian};
use std::marker::Model;

/// The client's name and the time of its authentication (MS-PAC 2.7, PAC_CLIENT_INFO) over the octets that the caller holds. A contract
/// sees these.
#[derive(Drop)]
pub struct ClientInfoView<'a> {
    octets: &'a [u8],
}

impl<'a> Model for ClientInfoView<'a> {
    ghost Value = { List ℕ };

    ghost view = { λ v. v.octets.now };

    ghost invariant = { λ v. 10 ≤ length v.octets.now };
}

impl<'a> ClientInfoView<'a> {
    /// What the octets say of the client, all of them.
    ///
    /// `Truncated` where the first 10 octets are not all there; `NameLength` where the length of the name is odd; `Truncated` where the
    /// name is not all there, `TrailingOctets` where there is more. Windows looks at no octets after the name.
    #[tactic(auto, unfolding(crate::specs::Client::client_info_of))]
    pub fn new(octets: &'a [u8]) -> Result<Self, BufferError>
        ensures { result ≡ client_info_of octets.now }
    {
        if octets.len() < 10 {
            return Err(BufferError::Truncated);
        }
        let len = usize::from(u16_at(octets, 8));
        if len % 2 != 0 {
            return Err(BufferError::NameLength);
        }
        if octets.len() < 10 + len {
            return Err(BufferError::Truncated);
        }
        if 10 + len < octets.len() {
            return Err(BufferError::TrailingOctets);
        }
        Ok(ClientInfoView { octets })
    }

    /// ClientId: when the client authenticated itself, as a FILETIME (MS-DTYP 2.3.3): the `authtime` of the ticket.
    pub fn client_id(&self) -> u64
        ensures { result ≡ little_number 8 self.now }
    {
        LittleEndian::read_u64(self.octets)
    }

    /// Name: the client's name, in UTF-16, little endian.
    pub fn name(&self) -> &'a [u8]
        ensures { result.now ≡ client_name self.now }
    {
        let (_, name) = self.octets.split_at(10);
        name
    }
}
