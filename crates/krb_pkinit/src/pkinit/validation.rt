//! How a Diffie-Hellman group was generated.

ghost use Rattle.std.specs.Prelude.{◌≡◌, ◌==◌, ◌++◌, ℤ, refl};
ghost use Rattle.krb_der.specs.Asn1.{bit_string, integer, sequence};
ghost use Rattle.krb_der.specs.FieldErrors.{sequence_error};
ghost use Rattle.krb_der.specs.FieldErrorLaws.{sequence_error_laws};
ghost use Rattle.krb_der.specs.SequenceLaws.{one_value_of, values_of};
ghost use Rattle.krb_der.specs.TlvLaws.{tagged_element};
ghost use Rattle.krb_der_core.specs.BitString.{Bits};

use krb_der::composite::{Fields, SEQUENCE, Sequence, read_sequence, write_sequence};
use krb_der::{Asn1DerError, BitStringAsn1, Der, DerEncode, DerSequence, IntegerAsn1};
use krb_der_x509::untagged::{Field, FieldRef};
use std::alloc::{AllocError, Global};
use std::marker::Model;

/// How a Diffie-Hellman group was generated, so that its generation can be validated (RFC 3279, 2.3.3).
///
/// ```text
/// ValidationParms ::= SEQUENCE {
///     seed        BIT STRING,
///     pgenCounter INTEGER
/// }
/// ```
///
/// A contract sees the two, in this order.
#[derive(Debug, Drop, PartialEq, Eq)]
pub struct ValidationParams {
    seed: BitStringAsn1,
    pg_gen_counter: IntegerAsn1,
}

impl Model for ValidationParams {
    ghost Value = { Bits × ℤ };

    ghost view = { λ v. (v.seed, v.pg_gen_counter) };

    ghost inverse = { λ v. record { seed = v.0; pg_gen_counter = v.1 } };
}

impl ValidationParams {
    /// The parameters of this seed and this counter.
    pub fn new(seed: BitStringAsn1, pg_gen_counter: IntegerAsn1) -> Self
        ensures { result ≡ (seed, pg_gen_counter) }
    {
        ValidationParams {
            seed,
            pg_gen_counter,
        }
    }

    /// The seed from which the primes were generated.
    pub fn seed(&self) -> &BitStringAsn1
        ensures { result.now ≡ self.now.0 }
    {
        &self.seed
    }

    /// How often the making was tried.
    pub fn pg_gen_counter(&self) -> &IntegerAsn1
        ensures { result.now ≡ self.now.1 }
    {
        &self.pg_gen_counter
    }
}

impl Sequence for ValidationParams {
    type Fields = (Field<BitStringAsn1>, Field<IntegerAsn1>);

    ghost fields = { λ v. v };

    ghost with_fields = { λ f. f };

    fn from_fields((seed, pg_gen_counter): Self::Fields) -> Self {
        ValidationParams::new(seed.0, pg_gen_counter.0)
    }
}

impl DerEncode for ValidationParams {
    ghost enc = { λ v. sequence (bit_string v.0 ++ integer v.1) };

    ghost is_value = { values_of ⟦<Self as Sequence>⟧ ⟦<<Self as Sequence>::Fields as Fields>⟧ };

    ghost first = { λ t. t == 48 };

    ghost is_element = { λ v h. tagged_element 48 _ };

    ghost one_value = { one_value_of ⟦<Self as Sequence>⟧ ⟦<<Self as Sequence>::Fields as Fields>⟧ (λ v. refl) (tt, tt) };

    ghost error = { sequence_error ⟦<<Self as Sequence>::Fields as Fields>⟧ };

    ghost error_laws = { sequence_error_laws ⟦<Self as Sequence>⟧ ⟦<<Self as Sequence>::Fields as Fields>⟧ (tt, tt) };

    fn starts(octet: u8) -> bool {
        octet == SEQUENCE
    }

    fn write(&self, alloc: Global, out: &mut Vec<u8>) -> Result<(), AllocError> {
        write_sequence(
            alloc,
            &(FieldRef(&self.seed), FieldRef(&self.pg_gen_counter)),
            out,
        )
    }
}

impl Der for ValidationParams {
    fn read_element(alloc: Global, tag: u8, content: &[u8]) -> Result<Self, Asn1DerError> {
        read_sequence(alloc, tag, content)
    }
}

impl DerSequence for ValidationParams {
    ghost is_sequence = { λ v. (_, refl) };
}
