//! Object identifiers, and elements that are not read further.

ghost use Rattle.krb_show_tokens.specs.Leaves.{element_of, identifier_of};

use crate::GssToken;
use crate::leaves::show_identifier;
use krb_der_x509::{Asn1RawDer, ObjectIdentifierAsn1};
use krb_show::{Label, Page, Show, show_number, show_octets};
use std::alloc::{AllocError, Global};

/// Dotted numbers, and the name of the mechanism (RFC 4178, 4.1), if it is that of one.
impl Show<GssToken> for ObjectIdentifierAsn1 {
    ghost shows = { identifier_of };

    fn show(&self, alloc: Global, label: &Label, page: &mut Page) -> Result<(), AllocError> {
        show_identifier(alloc, label, self, page)
    }
}

/// The number of an ENUMERATED whose content is one octet below 128 (X.690, 8.4), and the octets of another element.
impl Show<GssToken> for Asn1RawDer {
    ghost shows = { element_of };

    fn show(&self, alloc: Global, label: &Label, page: &mut Page) -> Result<(), AllocError> {
        let octets = self.as_bytes();
        if octets.len() == 3 && octets[0] == 0x0a && octets[1] == 1 && octets[2] < 128 {
            return show_number(alloc, label, i64::from(octets[2]), page);
        }
        show_octets(alloc, label, octets, page)
    }
}
