//! The well-known constants that keys are derived with.

ghost use Rattle.std.specs.Prelude.{◌≡◌};
ghost use Rattle.krb_crypto_message.specs.WellKnown.{usage_constant};

/// The octets that a key is derived from a password's octets with (RFC 3961, 6.3.1; RFC 3962, 4).
pub const KERBEROS: &[u8; 8] = b"kerberos";

/// What the last octet of a usage's constant says of the derived key (RFC 3961, 5.3).
const ENCRYPTION: u8 = 0xaa;

const CHECKSUM: u8 = 0x99;

const INTEGRITY: u8 = 0x55;

/// The constant of the encryption key Ke: the usage in four octets, the highest first, then `aa` (RFC 3961, 5.3).
pub fn usage_ke(key_usage: i32) -> [u8; 5]
    ensures { result ≡ usage_constant key_usage 0xaa }
{
    usage_constant(key_usage, ENCRYPTION)
}

/// The constant of the checksum key Kc: the usage in four octets, the highest first, then `99` (RFC 3961, 5.3).
pub fn usage_kc(key_usage: i32) -> [u8; 5]
    ensures { result ≡ usage_constant key_usage 0x99 }
{
    usage_constant(key_usage, CHECKSUM)
}

/// The constant of the integrity key Ki: the usage in four octets, the highest first, then `55` (RFC 3961, 5.3).
pub fn usage_ki(key_usage: i32) -> [u8; 5]
    ensures { result ≡ usage_constant key_usage 0x55 }
{
    usage_constant(key_usage, INTEGRITY)
}

fn usage_constant(key_usage: i32, kind: u8) -> [u8; 5]
    ensures { result ≡ usage_constant key_usage kind }
{
    let [first, second, third, fourth] = key_usage.to_be_bytes();
    [first, second, third, fourth, kind]
}
