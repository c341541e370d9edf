//! Security mechanisms (RFC 4178, 4.1), by their object identifiers.

ghost use Rattle.std.specs.Prelude.{◌≡◌, ◌≢◌, List, map, IfOk, IfSome, IfNone};
ghost use Rattle.std.specs.List.{AllByRecursion};
ghost use Rattle.krb_der_x509.specs.ObjectIdentifier.{IsArcs};
ghost use Rattle.krb_build.specs.Mechanisms.{arcs, every};
ghost use Rattle.krb_build.specs.declared.mechanisms.Mechanism.{Mechanism};

use krb_der_x509::ObjectIdentifierAsn1;
use std::alloc::{AllocError, Global};

/// A security mechanism. `krb_registry::mechanism_name` has its name by its object identifier in dotted numbers.
#[derive(Clone, Copy, PartialEq, Eq)]
pub enum Mechanism {
    /// Kerberos, 1.2.840.113554.1.2.2 (RFC 4121, 1; RFC 1964, 1).
    Kerberos,
    /// Kerberos from user to user, 1.2.840.113554.1.2.2.3 (draft-swift-win2k-krb-user2user-03, 7).
    UserToUser,
    /// Kerberos as Windows 2000 spells it, 1.2.840.48018.1.2.2 (MS-SPNG, 3.1.5.2).
    MsKerberos,
    /// NTLM, 1.3.6.1.4.1.311.2.2.10 (MS-SPNG, 1.9; MS-NLMP).
    Ntlmssp,
    /// NEGOEX, 1.3.6.1.4.1.311.2.2.30 (MS-NEGOEX).
    Negoex,
    /// IAKERB, 1.3.6.1.5.2.5 (draft-ietf-kitten-iakerb-03, 3).
    Iakerb,
    /// PKU2U, 1.3.6.1.5.2.7 (draft-zhu-pku2u-09, 4).
    Pku2u,
    /// SPNEGO, 1.3.6.1.5.5.2 (RFC 4178, 3).
    Spnego,
}

/// All mechanisms.
static EVERY: [Mechanism; 8] = [
    Mechanism::Kerberos,
    Mechanism::UserToUser,
    Mechanism::MsKerberos,
    Mechanism::Ntlmssp,
    Mechanism::Negoex,
    Mechanism::Iakerb,
    Mechanism::Pku2u,
    Mechanism::Spnego,
];

/// All mechanisms.
fn every() -> &'static [Mechanism]
    ensures { result.now ≡ every }
{
    &EVERY
}

impl Mechanism {
    /// The arcs of its object identifier.
    pub fn arcs(self) -> &'static [u64]
        ensures { result.now ≡ arcs self }
    {
        match self {
            Mechanism::Kerberos => &[1, 2, 840, 113_554, 1, 2, 2],
            Mechanism::UserToUser => &[1, 2, 840, 113_554, 1, 2, 2, 3],
            Mechanism::MsKerberos => &[1, 2, 840, 48_018, 1, 2, 2],
            Mechanism::Ntlmssp => &[1, 3, 6, 1, 4, 1, 311, 2, 2, 10],
            Mechanism::Negoex => &[1, 3, 6, 1, 4, 1, 311, 2, 2, 30],
            Mechanism::Iakerb => &[1, 3, 6, 1, 5, 2, 5],
            Mechanism::Pku2u => &[1, 3, 6, 1, 5, 2, 7],
            Mechanism::Spnego => &[1, 3, 6, 1, 5, 5, 2],
        }
    }

    /// Its object identifier (RFC 4178, 4.1: a MechType). The only error is an allocation failure.
    pub fn identifier(self, alloc: Global) -> Result<ObjectIdentifierAsn1, AllocError>
        ensures { IfOk result (λ identifier. identifier ≡ arcs self) }
    {
        match ObjectIdentifierAsn1::from_arcs(alloc, self.arcs()) {
            Ok(identifier) => Ok(identifier),
            Err(_) => Err(AllocError),
        }
    }

    /// The mechanism that has this object identifier; `None` where it is none of these.
    pub fn of(identifier: &ObjectIdentifierAsn1) -> Option<Mechanism>
        ensures found { IfSome result (λ mechanism. identifier.now ≡ arcs mechanism) }
        ensures none { IfNone result ((mechanism : Mechanism) → identifier.now ≢ arcs mechanism) }
    {
        for mechanism in every() {
            if mechanism.arcs() == identifier.arcs() {
                return Some(*mechanism);
            }
        }
        None
    }
}

/// Lemma: the object identifiers of mechanisms are values.
#[tactic(auto, using(crate::proofs::Known::all_arcs))]
pub(crate) fn known_identifiers()
    ensures { (mechanisms : List Mechanism) → AllByRecursion IsArcs (map arcs mechanisms) }
{}
