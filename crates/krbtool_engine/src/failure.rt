//! Why a run is rejected.

ghost use Rattle.std.specs.Prelude.{◌≡◌, ◌⊎◌};
ghost use Rattle.krbtool_engine.specs.Failures.{of_der, of_part, der_line, crypto_line, line_of};
ghost use Rattle.krbtool_engine.specs.Outcome.{rejection_status};

use krb_crypto::KerberosCryptoError;
use krb_crypto::seal::PartError;
use krb_der::Asn1DerError;
use std::io;

/// Why a run is rejected.
#[derive(Drop)]
pub enum Failure {
    /// The arguments are no command.
    Arguments,
    /// The octets are no encoding, for this reason.
    Der(Asn1DerError),
    /// The encryption type is not known, or the cipher rejected the key or the octets, for this reason.
    Crypto(KerberosCryptoError),
    /// An allocation failed.
    Memory,
    /// The input could not be read.
    Read,
    /// The output could not be written.
    Write,
}

impl Failure {
    /// The status with which the program ends: 2 where the arguments are no command, else 1.
    pub fn status(&self) -> u8
        ensures { result ≡ rejection_status self.now }
    {
        match self {
            Failure::Arguments => 2,
            _ => 1,
        }
    }

    /// The line that the program writes, with its newline.
    pub fn line(&self) -> &'static str
        ensures { result.now ≡ line_of self.now }
    {
        match self {
            Failure::Arguments => {
                "usage: krbtool check | seal ETYPE KEYHEX USAGE CONFHEX | open ETYPE KEYHEX USAGE\n"
            }
            Failure::Der(error) => der_line(error),
            Failure::Crypto(error) => crypto_line(error),
            Failure::Memory => "krbtool: memory\n",
            Failure::Read | Failure::Write => "krbtool: io\n",
        }
    }
}

/// The line of an error by the type of a value.
fn der_line(error: &Asn1DerError) -> &'static str
    ensures { result.now ≡ der_line error.now }
{
    match error {
        Asn1DerError::InvalidData => "krbtool: der InvalidData\n",
        Asn1DerError::TruncatedData => "krbtool: der TruncatedData\n",
        Asn1DerError::UnsupportedValue => "krbtool: der UnsupportedValue\n",
        Asn1DerError::OutOfMemory => "krbtool: memory\n",
        Asn1DerError::Io(_) => "krbtool: io\n",
    }
}

/// The line of an error by the cipher.
fn crypto_line(error: &KerberosCryptoError) -> &'static str
    ensures { result.now ≡ crypto_line error.now }
{
    match error {
        KerberosCryptoError::KeyLength(_, _) => "krbtool: crypto KeyLength\n",
        KerberosCryptoError::CipherLength(_, _) => "krbtool: crypto CipherLength\n",
        KerberosCryptoError::AlgorithmIdentifier(_) => "krbtool: crypto AlgorithmIdentifier\n",
        KerberosCryptoError::AlgorithmIdentifierData(_) => {
            "krbtool: crypto AlgorithmIdentifierData\n"
        }
        KerberosCryptoError::IntegrityCheck => "krbtool: crypto IntegrityCheck\n",
        KerberosCryptoError::CipherError(_) => "krbtool: crypto CipherError\n",
        KerberosCryptoError::CipherUnpad => "krbtool: crypto CipherUnpad\n",
        KerberosCryptoError::CipherPad => "krbtool: crypto CipherPad\n",
        KerberosCryptoError::SeedBitLen(_) => "krbtool: crypto SeedBitLen\n",
        KerberosCryptoError::OutOfMemory => "krbtool: memory\n",
    }
}

/// The error of a part that was not sealed or not opened. A failed allocation is `Memory`.
impl From<PartError> for Failure {
    ghost from_gives = { λ error failure. failure ≡ of_part error };

    fn from(error: PartError) -> Failure {
        match error {
            PartError::Crypto(KerberosCryptoError::OutOfMemory) => Failure::Memory,
            PartError::Crypto(error) => Failure::Crypto(error),
            PartError::Der(error) => Failure::from(error),
        }
    }
}

/// The error of octets that are no encoding. A failed allocation is `Memory`.
impl From<Asn1DerError> for Failure {
    ghost from_gives = { λ error failure. failure ≡ of_der error };

    fn from(error: Asn1DerError) -> Failure {
        match error {
            Asn1DerError::OutOfMemory => Failure::Memory,
            error => Failure::Der(error),
        }
    }
}

/// The error of a reader that failed. A failed allocation is `Memory`.
pub fn read_failure(error: io::Error) -> Failure
    ensures { (result ≡ Failure.Memory) ⊎ (result ≡ Failure.Read) }
{
    if error.kind() == io::ErrorKind::OutOfMemory {
        Failure::Memory
    } else {
        Failure::Read
    }
}

/// The error of arguments that could not be had: an allocation failure, or an argument that is no text and so of no command.
pub fn arguments_failure(error: io::Error) -> Failure
    ensures { (result ≡ Failure.Memory) ⊎ (result ≡ Failure.Arguments) }
{
    if error.kind() == io::ErrorKind::OutOfMemory {
        Failure::Memory
    } else {
        Failure::Arguments
    }
}
