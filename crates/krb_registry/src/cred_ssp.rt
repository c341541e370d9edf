//! Numbers of delegated credentials (MS-CSSP, 2.2.1.2).

/// The credentials are a TSPasswordCreds (MS-CSSP, 2.2.1.2).
pub const TS_PASSWORD_CREDS: u8 = 1;

/// The credentials are a TSSmartCardCreds (MS-CSSP, 2.2.1.2).
pub const TS_SMART_CARD_CREDS: u8 = 2;

/// The credentials are a TSRemoteGuardCreds (MS-CSSP, 2.2.1.2).
pub const TS_REMOTE_GUARD_CREDS: u8 = 6;

/// A key that exchanges keys, as `keySpec` of a TSCspDataDetail has it (MS-CSSP, 2.2.1.2.2.1).
pub const AT_KEYEXCHANGE: u8 = 1;

/// A key that signs, as `keySpec` of a TSCspDataDetail has it (MS-CSSP, 2.2.1.2.2.1).
pub const AT_SIGNATURE: u8 = 2;
