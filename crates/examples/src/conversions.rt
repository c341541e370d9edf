//! The conversions of `picky_krb` by `From` and `TryFrom`, each once.
//!
//! The impl of a conversion to a number is in the crate of the type that is converted. A caller's line of crates.txt names
//! that crate beside `picky_krb`: `krb_negoex` for message types, `krb_pac` for buffer types, `krb_crypto` for suites.

ghost use Rattle.std.specs.Prelude.{◌≡◌, IfOk};
ghost use Rattle.krb_crypto.specs.Suites.{checksum_type, etype};
ghost use Rattle.krb_negoex.specs.Types.{type_code};
ghost use Rattle.krb_pac.specs.Kind.{code};

use picky_krb::crypto::{ChecksumSuite, CipherSuite, KerberosCryptoError};
use picky_krb::der::{Asn1DerError, ExplicitContextTag0, ImplicitContextTag0};
use picky_krb::gss_api::GssApiMessageError;
use picky_krb::negoex::data_types::MessageType;
use picky_krb::pac::{PacBufferType, PacError};
use picky_krb::seal::PartError;
use std::alloc::AllocError;
use std::io;

/// The number of a message type (MS-NEGOEX, 2.2.6.1).
pub fn message_type_number(message_type: &MessageType) -> u32
    ensures { result ≡ type_code message_type.now }
{
    u32::from(message_type)
}

/// The message type with this number; `InvalidData` where none has it.
pub fn message_type_of(number: u32) -> io::Result<MessageType>
    ensures { IfOk result (λ message_type. type_code message_type ≡ number) }
{
    MessageType::try_from(number)
}

/// The number of a type of PAC buffers (MS-PAC, 2.4).
pub fn buffer_type_number(buffer_type: PacBufferType) -> u32
    ensures { result ≡ code buffer_type }
{
    u32::from(buffer_type)
}

/// The type of PAC buffers with this number; `PacBufferType` of the number where none has it.
pub fn buffer_type_of(number: u32) -> Result<PacBufferType, PacError>
    ensures { IfOk result (λ buffer_type. code buffer_type ≡ number) }
{
    PacBufferType::try_from(number)
}

/// The number of a cipher suite (RFC 3961, 8), in each of its widths.
pub fn cipher_suite_numbers(suite: CipherSuite) -> (u32, u8, usize)
    ensures { (result.0 ≡ etype suite) × (result.1 ≡ etype suite) × (result.2 ≡ etype suite) }
{
    (u32::from(&suite), u8::from(&suite), usize::from(suite))
}

/// The number of a cipher suite in one octet.
pub fn cipher_suite_octet(suite: CipherSuite) -> u8
    ensures { result ≡ etype suite }
{
    u8::from(suite)
}

/// The cipher suite with this number; `AlgorithmIdentifier` of the number where none has it.
pub fn cipher_suite_of(number: usize) -> Result<CipherSuite, KerberosCryptoError>
    ensures { IfOk result (λ suite. etype suite ≡ number) }
{
    CipherSuite::try_from(number)
}

/// The number of a checksum suite (RFC 3961, 8), in each of its widths.
pub fn checksum_suite_numbers(suite: ChecksumSuite) -> (u32, u8, usize)
    ensures { (result.0 ≡ checksum_type suite) × (result.1 ≡ checksum_type suite) × (result.2 ≡ checksum_type suite) }
{
    (u32::from(&suite), u8::from(&suite), usize::from(suite))
}

/// The number of a checksum suite by value, in four octets.
pub fn checksum_suite_number(suite: ChecksumSuite) -> u32
    ensures { result ≡ checksum_type suite }
{
    u32::from(suite)
}

/// The number of a checksum suite by value, in one octet.
pub fn checksum_suite_octet(suite: ChecksumSuite) -> u8
    ensures { result ≡ checksum_type suite }
{
    u8::from(suite)
}

/// The checksum suite with this number; `AlgorithmIdentifier` of the number where none has it.
pub fn checksum_suite_of(number: usize) -> Result<ChecksumSuite, KerberosCryptoError>
    ensures { IfOk result (λ suite. checksum_type suite ≡ number) }
{
    ChecksumSuite::try_from(number)
}

/// A value under the explicit context tag 0.
pub fn explicit(value: bool) -> ExplicitContextTag0<bool>
    ensures { result ≡ value }
{
    ExplicitContextTag0::from(value)
}

/// A value under the implicit context tag 0.
pub fn implicit(value: bool) -> ImplicitContextTag0<bool>
    ensures { result ≡ value }
{
    ImplicitContextTag0::from(value)
}

/// An allocation failure as an error of DER.
pub fn der_error(found: Result<u8, AllocError>) -> Result<u8, Asn1DerError> {
    Ok(found?)
}

/// An allocation failure as an error of the cryptography.
pub fn crypto_error(found: Result<u8, AllocError>) -> Result<u8, KerberosCryptoError> {
    Ok(found?)
}

/// An error of DER as one of a token.
pub fn token_error(found: Result<u8, Asn1DerError>) -> Result<u8, GssApiMessageError> {
    Ok(found?)
}

/// An I/O error as one of a token.
pub fn token_io_error(found: io::Result<u8>) -> Result<u8, GssApiMessageError> {
    Ok(found?)
}

/// An I/O error as one of a PAC.
pub fn pac_io_error(found: io::Result<u8>) -> Result<u8, PacError> {
    Ok(found?)
}

/// An error of DER as one of sealing.
pub fn part_der_error(found: Result<u8, Asn1DerError>) -> Result<u8, PartError> {
    Ok(found?)
}

/// An error of the cryptography as one of sealing.
pub fn part_crypto_error(found: Result<u8, KerberosCryptoError>) -> Result<u8, PartError> {
    Ok(found?)
}
