//! Signatures (MS-PAC 2.8, PAC_SIGNATURE_DATA).

ghost use Rattle.std.specs.Prelude.{◌≡◌};
ghost use Rattle.krb_pac_signatures.specs.Signature.{rodc_identifier};
ghost use Rattle.krb_show_pac.specs.Signature.{as_signed, pac_signature_of, signed_of};

use crate::Pac;
use krb_der::Optional;
use krb_pac_signatures::SignatureView;
use krb_show::{Label, Page, Show, show_fields, show_number, show_struct};
use std::alloc::{AllocError, Global};
use std::marker::Model;

/// A number of 32 bits that stands for a signed one.
#[derive(Drop)]
struct Signed {
    number: u32,
}

impl Model for Signed {
    ghost use Rattle.std.specs.Prelude.{ℕ};

    ghost Value = { ℕ };

    ghost view = { λ s. s.number };
}

/// The signed number of 32 bits that has these bits.
fn as_signed(number: u32) -> i64
    ensures { result ≡ as_signed number }
{
    if number < 0x8000_0000 {
        i64::from(number)
    } else {
        i64::from(number) - 0x1_0000_0000
    }
}

impl Show<Pac> for Signed {
    ghost shows = { signed_of };

    fn show(&self, alloc: Global, label: &Label, page: &mut Page) -> Result<(), AllocError> {
        show_number(alloc, label, as_signed(self.number), page)
    }
}

/// The fields of a signature.
#[derive(Drop)]
struct SignatureFields<'a> {
    signature_type: Signed,
    signature: &'a [u8],
    rodc_identifier: Optional<Option<u32>>,
}

/// RODCIdentifier, where it is there.
fn rodc_identifier(signature: &SignatureView) -> Optional<Option<u32>>
    ensures { result.0 ≡ rodc_identifier signature.now }
{
    match signature.rodc_identifier() {
        Some(number) => Optional(Some(u32::from(number))),
        None => Optional(None),
    }
}

/// A signature (MS-PAC 2.8).
impl<'a> Show<Pac> for SignatureView<'a> {
    ghost shows = { pac_signature_of };

    fn show(&self, alloc: Global, label: &Label, page: &mut Page) -> Result<(), AllocError> {
        let fields = SignatureFields {
            signature_type: Signed {
                number: self.signature_type(),
            },
            signature: self.signature(),
            rodc_identifier: rodc_identifier(self),
        };
        show_struct(
            alloc,
            label,
            &show_fields!(
                Pac; fields;
                "SignatureType" ChecksumType = signature_type,
                "Signature" = signature,
                "RODCIdentifier" = rodc_identifier
            ),
            page,
        )
    }
}
