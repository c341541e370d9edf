//! Lemmas: the parts of messages are values of their types, whatever they hold.

ghost use Rattle.std.specs.Prelude.{IfSome};
ghost use Rattle.std.specs.List.{AllByRecursion};
ghost use Rattle.std.specs.Str.{IsAscii};
ghost use Rattle.krb_der_core.specs.Encoding.{IsOctets};

use crate::flags::known_octets;
use krb_der::{Asn1SequenceOf, DerEncode, IntegerAsn1, OctetStringAsn1};
use krb_types::data_types::{EncryptedData, KerberosStringAsn1, PaData, PrincipalName, Ticket};

/// Lemma: a text is of ASCII.
pub(crate) fn known_text(text: &Option<KerberosStringAsn1>)
    ensures { IfSome text.now IsAscii }
{
    if let Some(text) = text {
        text.is_ascii();
    }
}

/// Lemma: an OCTET STRING is of octets.
pub(crate) fn known_octet_string(octets: &Option<OctetStringAsn1>)
    ensures { IfSome octets.now IsOctets }
{
    if let Some(octets) = octets {
        known_octets(&octets.0);
    }
}

/// Lemma: texts are of ASCII.
fn known_texts(texts: &[KerberosStringAsn1])
    ensures { AllByRecursion IsAscii texts.now }
{
    for text in texts {
        text.is_ascii();
    }
}

/// Lemma: a name is a value.
pub(crate) fn known_name(name: &PrincipalName)
    ensures { ⟦<PrincipalName as DerEncode>⟧.is_value name.now }
{
    known_texts(name.name_string.0.0.as_slice());
}

/// Lemma: a ciphertext is a value.
pub(crate) fn known_ciphertext(ciphertext: &EncryptedData)
    ensures { ⟦<EncryptedData as DerEncode>⟧.is_value ciphertext.now }
{
    known_octets(&ciphertext.cipher.0.0);
}

/// Lemma: a ticket is a value.
pub(crate) fn known_ticket(ticket: &Ticket)
    ensures { ⟦<Ticket as DerEncode>⟧.is_value ticket.now }
{
    ticket.0.realm.0.is_ascii();
    known_name(&ticket.0.sname.0);
    known_ciphertext(&ticket.0.enc_part.0);
}

/// Lemma: integers are values.
pub(crate) fn known_integers(integers: &Asn1SequenceOf<IntegerAsn1>)
    ensures { ⟦<Asn1SequenceOf<IntegerAsn1> as DerEncode>⟧.is_value integers.now }
{}

/// Lemma: each element of pre-authentication data is a value.
fn known_elements(elements: &[PaData])
    ensures { AllByRecursion ⟦<PaData as DerEncode>⟧.is_value elements.now }
{
    for element in elements {
        known_octets(&element.padata_data.0.0);
    }
}

/// Lemma: pre-authentication data are values.
pub(crate) fn known_padata(padata: &Option<Asn1SequenceOf<PaData>>)
    ensures { IfSome padata.now ⟦<Asn1SequenceOf<PaData> as DerEncode>⟧.is_value }
{
    if let Some(padata) = padata {
        known_elements(padata.0.as_slice());
    }
}
