//! A lemma about octets.

ghost use Rattle.krb_crypto_block.specs.Modes.{IsOctets};

/// A lemma: the elements are octets.
pub fn are_octets(elements: &[u8])
    ensures { IsOctets elements.now }
{}
