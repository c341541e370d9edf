//! What is passed in with each step.

/// The client's clock, and fresh random numbers, for one step. Each step has its own: the nonce is
/// that of the request that the step makes, and the octets are the confounder of what it seals.
#[derive(Drop, Clone, Copy)]
pub struct Moment {
    /// The client's time, in seconds since 1 January 1970, 00:00:00 UTC.
    pub seconds: i64,
    /// The microseconds after it, 0 to 999999.
    pub microseconds: u32,
    /// A random number below 2^31 (RFC 4120, 5.4.1).
    pub nonce: u32,
    /// Random octets. A confounder is as many of the first as its suite's is long, 16, or 8 under
    /// triple DES.
    pub random: [u8; 16],
}
