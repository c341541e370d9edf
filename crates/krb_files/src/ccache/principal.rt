//! Principals of a credential cache.

ghost use Rattle.std.specs.Prelude.{◌≡◌};
ghost use Rattle.krb_files.specs.FieldReading.{Gives};
ghost use Rattle.krb_files.specs.CcacheReading.{principal_at as principal_fields_at};

use crate::fields::{
    ComponentsView, FieldError, LengthSize, PrincipalView, principal_at as name_at, u32_at,
};
use std::marker::Model;

/// A principal of a credential cache that the caller holds, and the type of its name.
#[derive(Drop)]
pub struct CcachePrincipalView<'a> {
    name_type: u32,
    principal: PrincipalView<'a>,
}

impl<'a> Model for CcachePrincipalView<'a> {
    ghost use Rattle.krb_files.specs.Ccache.{TypedPrincipal};

    ghost Value = { TypedPrincipal };

    ghost view = { λ p. record { name_type = p.name_type; principal = p.principal } };
}

impl<'a> CcachePrincipalView<'a> {
    /// The type of the name (RFC 4120, 6.2).
    pub fn name_type(&self) -> u32
        ensures { result ≡ self.now.name_type }
    {
        self.name_type
    }

    /// The realm and the components.
    pub fn principal(&self) -> &PrincipalView<'a>
        ensures { result.now ≡ self.now.principal }
    {
        &self.principal
    }

    /// The octets of the realm.
    pub fn realm(&self) -> &'a [u8]
        ensures { result.now ≡ self.now.principal.realm }
    {
        self.principal.realm()
    }

    /// The components of the name, in their order.
    pub fn components(&self) -> ComponentsView<'a>
        ensures { result ≡ self.now.principal.components }
    {
        self.principal.components()
    }

    /// The same principal again.
    pub(crate) fn again(&self) -> CcachePrincipalView<'a>
        ensures { result ≡ self.now }
    {
        CcachePrincipalView {
            name_type: self.name_type,
            principal: self.principal.again(),
        }
    }
}

/// The principal at the front: the type of its name, how many components it has, the realm and the components.
pub(crate) fn principal_at(octets: &[u8]) -> Result<(CcachePrincipalView<'_>, &[u8]), FieldError>
    ensures { Gives (λ x. (x.0, x.1.now)) result (principal_fields_at octets.now) }
{
    let (name_type, rest) = u32_at(octets)?;
    let (principal, rest) = name_at(LengthSize::Four, rest)?;
    Ok((
        CcachePrincipalView {
            name_type,
            principal,
        },
        rest,
    ))
}
