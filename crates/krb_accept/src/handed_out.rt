//! What is handed out of a client: its authorization data without PACs.

ghost use Rattle.std.specs.Prelude.{◌≡◌, [], ◌∷◌, ◌++◌, IfOk, OnOk};
ghost use Rattle.krb_accept.specs.HandedOut.{with_data};
ghost use Rattle.krb_accept.specs.PacPlaces.{AreKept, IsFree, IsPushedIf, IsWithoutPac, some_of};

use crate::pac_places::is_without_pac;
use krb_accept_rules::Accepted;
use krb_der::{Asn1SequenceOf, DerEncode, copy};
use krb_types::data_types::{AuthorizationData, AuthorizationDataInner};
use krb_types::view::items;
use std::alloc::{AllocError, Global};

/// Appends an equal element.
fn push_copy(
    alloc: Global,
    element: &AuthorizationDataInner,
    out: &mut Vec<AuthorizationDataInner>,
) -> Result<(), AllocError>
    ensures { OnOk result (out.new.items ≡ out.old.items ++ element.now ∷ []) }
{
    match copy(alloc, element) {
        Ok(same) => {
            out.push(same)?;
            Ok(())
        }
        Err(_error) => Err(AllocError),
    }
}

/// Appends an equal element, if no PAC stands in it.
fn push_if_free(
    alloc: Global,
    element: &AuthorizationDataInner,
    kept: &mut Vec<AuthorizationDataInner>,
) -> Result<(), AllocError>
    ensures { OnOk result (IsPushedIf (IsFree ⟦<AuthorizationData as DerEncode>⟧ 16) element.now kept.old.items kept.new.items) }
{
    if is_without_pac(alloc, element)? {
        return push_copy(alloc, element, kept);
    }
    Ok(())
}

/// Those elements in which no PAC stands.
fn kept_of(
    alloc: Global,
    elements: &[AuthorizationDataInner],
) -> Result<Vec<AuthorizationDataInner>, AllocError>
    ensures { IfOk result (λ kept. AreKept (IsFree ⟦<AuthorizationData as DerEncode>⟧ 16) elements.now kept.items) }
{
    let mut kept = Vec::new(alloc);
    'elements: for element in elements {
        push_if_free(alloc, element, &mut kept)?;
    }
    Ok(kept)
}

/// Authorization data of these elements; none of no elements.
fn data_of(elements: Vec<AuthorizationDataInner>) -> Option<AuthorizationData>
    ensures { result ≡ some_of elements.items }
{
    if elements.is_empty() {
        drop(elements);
        return None;
    }
    Some(Asn1SequenceOf(elements))
}

/// Authorization data without the elements in which a PAC stands.
pub(crate) fn without_pac(
    alloc: Global,
    field: &Option<AuthorizationData>,
) -> Result<Option<AuthorizationData>, AllocError>
    ensures { IfOk result (IsWithoutPac ⟦<AuthorizationData as DerEncode>⟧ field.now) }
{
    match field {
        Some(elements) => {
            let kept = kept_of(alloc, items(elements))?;
            Ok(data_of(kept))
        }
        None => Ok(None),
    }
}

/// The client, with other authorization data of the ticket and of the authenticator.
pub(crate) fn with_data(
    accepted: Accepted,
    of_ticket: Option<AuthorizationData>,
    of_authenticator: Option<AuthorizationData>,
) -> Accepted
    ensures { result ≡ with_data accepted of_ticket of_authenticator }
{
    let mut told = accepted;
    told.ticket.authorization_data = of_ticket;
    told.authorization_data = of_authenticator;
    told
}
