//! What a buffer of a PAC holds.

ghost use Rattle.std.specs.Prelude.{◌≡◌, IfOk, IfErr};
ghost use Rattle.krb_pac.specs.Kind.{code, IsUnlisted};
ghost use Rattle.krb_pac.specs.declared.error.PacError.TheVariants as errors;

use crate::error::PacError;

/// What a buffer of a PAC holds: the `ulType` of its entry (MS-PAC 2.4).
#[derive(Debug, Clone, Copy, PartialEq, Eq)]
pub enum PacBufferType {
    /// Logon information (MS-PAC 2.5).
    KerbValidationInfo = 1,
    /// Credentials information (MS-PAC 2.6).
    Credentials = 2,
    /// The server's checksum (MS-PAC 2.8).
    ServerChecksum = 6,
    /// The checksum of the KDC, or privilege server (MS-PAC 2.8).
    KdcChecksum = 7,
    /// The client's name and the time of its authentication (MS-PAC 2.7).
    ClientInfo = 10,
    /// Constrained delegation information (MS-PAC 2.9).
    ConstrainedDelegationInformation = 11,
    /// The user's principal name and the domain's DNS name (MS-PAC 2.10).
    UpnDnsInfo = 12,
    /// Claims of the client (MS-PAC 2.11).
    ClientClaimsInfo = 13,
    /// Information on the client's device (MS-PAC 2.12).
    DeviceInfo = 14,
    /// Claims of the device (MS-PAC 2.13).
    DeviceClaimsInfo = 15,
    /// The ticket's checksum (MS-PAC 2.8).
    TicketChecksum = 16,
    /// Attributes of the PAC: whether the client asked for one (MS-PAC 2.14, PAC_ATTRIBUTES_INFO).
    PacAttributesInfo = 17,
    /// The security identifier of the client that asked for the ticket (MS-PAC 2.15, PAC_REQUESTOR).
    PacRequestor = 18,
    /// The extended checksum of the KDC, over the whole PAC (MS-PAC 2.8).
    FullPacChecksum = 19,
}

impl TryFrom<u32> for PacBufferType {
    type Error = PacError;

    ghost try_from_gives = { λ n r. IfOk r (λ k. code k ≡ n) × IfErr r (λ e. (e ≡ errors.PacBufferType n) × IsUnlisted n) };

    /// The type of this number. A number that no type has is `PacBufferType` of it.
    fn try_from(number: u32) -> Result<Self, PacError> {
        match number {
            1 => Ok(PacBufferType::KerbValidationInfo),
            2 => Ok(PacBufferType::Credentials),
            6 => Ok(PacBufferType::ServerChecksum),
            7 => Ok(PacBufferType::KdcChecksum),
            10 => Ok(PacBufferType::ClientInfo),
            11 => Ok(PacBufferType::ConstrainedDelegationInformation),
            12 => Ok(PacBufferType::UpnDnsInfo),
            13 => Ok(PacBufferType::ClientClaimsInfo),
            14 => Ok(PacBufferType::DeviceInfo),
            15 => Ok(PacBufferType::DeviceClaimsInfo),
            16 => Ok(PacBufferType::TicketChecksum),
            17 => Ok(PacBufferType::PacAttributesInfo),
            18 => Ok(PacBufferType::PacRequestor),
            19 => Ok(PacBufferType::FullPacChecksum),
            _ => Err(PacError::PacBufferType(number)),
        }
    }
}

impl From<PacBufferType> for u32 {
    ghost from_gives = { λ k n. n ≡ code k };

    /// The number of the type.
    fn from(kind: PacBufferType) -> u32 {
        kind as u32
    }
}
