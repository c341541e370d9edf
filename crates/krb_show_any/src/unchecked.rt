//! Pages that say which PACs nobody checks.

ghost use Rattle.std.specs.Prelude.{◌≡◌, IfOk, OnOk};
ghost use Rattle.krb_show.specs.Tokens.{Begins};
ghost use Rattle.krb_show_any.specs.Unchecked.{IsInserted, IsWithUnchecked, before, begun, behind, deeper, ended, ends_with_holder, ends_with_pac, is_element_type, is_holder, is_holder_number, is_inside, is_octets, is_pac, is_pac_number, is_relevant_number, is_unchecked, named, passed, remark_of, seen_behind, told, typed};

use krb_registry::Kind;
use krb_show::{Form, Insert, Label, Page, Token, page_with, show_text};
use std::alloc::{AllocError, Global};
use std::marker::Model;

/// What a token stands in.
#[derive(Clone, Copy)]
pub(crate) enum Within {
    /// Neither of these.
    Neither,
    /// The part of a ticket (RFC 4120, 5.3), in so many structs and lists of it; whether the last of its elements that began is an
    /// AD-IF-RELEVANT; and whether the ticket's PAC stands before.
    Ticket(u32, bool, bool),
    /// An authenticator (RFC 4120, 5.5.1), in so many structs and lists of it.
    Authenticator(u32),
}

/// What says of PACs that nobody checks them. As a value it is what the next token stands in.
#[derive(Drop)]
struct Unchecked {
    within: Within,
}

impl Model for Unchecked {
    ghost use Rattle.krb_show_any.specs.declared.unchecked.Within.{Within};

    ghost Value = { Within };

    ghost view = { λ u. u.within };
}

/// What the fields of a struct of this name stand in.
fn named(text: &[u8]) -> Within
    ensures { result ≡ named text.now }
{
    if text == b"EncTicketPart".as_slice() {
        Within::Ticket(0, false, false)
    } else if text == b"Authenticator".as_slice() {
        Within::Authenticator(0)
    } else {
        Within::Neither
    }
}

/// What stands in a list.
fn deeper(within: Within) -> Within
    ensures { result ≡ deeper within }
{
    match within {
        Within::Neither => Within::Neither,
        Within::Ticket(depth, relevant, seen) => {
            Within::Ticket(depth.saturating_add(1), relevant, seen)
        }
        Within::Authenticator(depth) => Within::Authenticator(depth.saturating_add(1)),
    }
}

/// What stands in a struct of this name.
fn begun(text: &[u8], within: Within) -> Within
    ensures { result ≡ begun text.now within }
{
    match within {
        Within::Neither => named(text),
        _ => deeper(within),
    }
}

/// What stands behind the end of a struct or of a list.
fn ended(within: Within) -> Within
    ensures { result ≡ ended within }
{
    match within {
        Within::Neither => Within::Neither,
        Within::Ticket(depth, relevant, seen) => {
            if depth == 0 {
                Within::Neither
            } else {
                Within::Ticket(depth - 1, relevant, seen)
            }
        }
        Within::Authenticator(depth) => {
            if depth == 0 {
                Within::Neither
            } else {
                Within::Authenticator(depth - 1)
            }
        }
    }
}

/// Whether numbers are types of authorization data (RFC 4120, 7.5.4).
fn is_element_type(kind: Option<Kind>) -> bool
    ensures { result ≡ is_element_type kind }
{
    match kind {
        Some(Kind::AuthorizationDataType) => true,
        _ => false,
    }
}

/// Whether a number is that of AD-WIN2K-PAC.
fn is_pac_number(number: Option<i64>) -> bool
    ensures { result ≡ is_pac_number number }
{
    match number {
        Some(128) => true,
        _ => false,
    }
}

/// Whether a number is that of AD-IF-RELEVANT.
fn is_relevant_number(number: Option<i64>) -> bool
    ensures { result ≡ is_relevant_number number }
{
    match number {
        Some(1) => true,
        _ => false,
    }
}

/// Whether a number is that of a type that holds AuthorizationData: AD-IF-RELEVANT, AD-KDCIssued, AD-AND-OR, AD-MANDATORY-FOR-KDC or AD-CAMMAC.
fn is_holder_number(number: Option<i64>) -> bool
    ensures { result ≡ is_holder_number number }
{
    match number {
        Some(1 | 4 | 5 | 8 | 96) => true,
        _ => false,
    }
}

/// Whether a token is the type of a PAC, AD-WIN2K-PAC.
fn is_pac(token: &Token) -> bool
    ensures { result ≡ is_pac token.now }
{
    is_element_type(token.kind()) && is_pac_number(token.number())
}

/// Whether a token is the type of an element that holds others.
fn is_holder(token: &Token) -> bool
    ensures { result ≡ is_holder token.now }
{
    is_element_type(token.kind()) && is_holder_number(token.number())
}

/// What stands behind the type of an element of this number.
fn typed(number: Option<i64>, within: Within) -> Within
    ensures { result ≡ typed number within }
{
    match within {
        Within::Ticket(depth, relevant, seen) => {
            if depth == 2 {
                Within::Ticket(depth, is_relevant_number(number), seen)
            } else {
                Within::Ticket(depth, relevant, seen)
            }
        }
        _ => within,
    }
}

/// What stands behind a token that neither begins nor ends anything.
fn passed(token: &Token, within: Within) -> Within
    ensures { result ≡ passed token.now within }
{
    if is_element_type(token.kind()) {
        typed(token.number(), within)
    } else {
        within
    }
}

/// What the token behind one stands in.
fn behind(token: &Token, within: Within) -> Within
    ensures { result ≡ behind token.now within }
{
    match token.form() {
        Form::Struct => begun(token.text(), within),
        Form::List => deeper(within),
        Form::StructEnd | Form::ListEnd => ended(within),
        _ => passed(token, within),
    }
}

/// Whether a page ends with the type of a PAC.
fn ends_with_pac(page: &[Token]) -> bool
    ensures { result ≡ ends_with_pac page.now }
{
    match page.last() {
        Some(token) => is_pac(token),
        None => false,
    }
}

/// Whether a page ends with the type of an element that holds others.
fn ends_with_holder(page: &[Token]) -> bool
    ensures { result ≡ ends_with_holder page.now }
{
    match page.last() {
        Some(token) => is_holder(token),
        None => false,
    }
}

/// Whether a token is octets.
fn is_octets(form: Form) -> bool
    ensures { result ≡ is_octets form }
{
    match form {
        Form::Octets => true,
        _ => false,
    }
}

/// Whether this is the part of a ticket or an authenticator.
fn is_inside(within: Within) -> bool
    ensures { result ≡ is_inside within }
{
    match within {
        Within::Neither => false,
        Within::Ticket(_, _, _) | Within::Authenticator(_) => true,
    }
}

/// Whether nobody checks a PAC whose type stands in this: each but the first that stands in an element of a ticket's AD-IF-RELEVANT, whose
/// fields are in the list and the struct of the ticket's elements and in those of the elements within (MS-PAC, 2.3).
fn is_unchecked(within: Within) -> bool
    ensures { result ≡ is_unchecked within }
{
    match within {
        Within::Neither => false,
        Within::Ticket(depth, relevant, seen) => {
            if depth == 4 && relevant { seen } else { true }
        }
        Within::Authenticator(_) => true,
    }
}

/// What the token behind the type of a PAC stands in: behind that of the ticket's it has been seen.
fn seen_behind(within: Within) -> Within
    ensures { result ≡ seen_behind within }
{
    match within {
        Within::Ticket(depth, relevant, seen) => {
            Within::Ticket(depth, relevant, seen || (depth == 4 && relevant))
        }
        _ => within,
    }
}

/// The same, if the page ends with the type of a PAC.
fn before(is_pac: bool, within: Within) -> Within
    ensures { result ≡ before is_pac within }
{
    if is_pac { seen_behind(within) } else { within }
}

/// What is said of the type of an element.
#[derive(Clone, Copy)]
pub(crate) enum Remark {
    /// Nothing.
    Nothing,
    /// That nobody checks the PAC.
    Here,
    /// That nobody checks a PAC within.
    Inside,
}

/// What is said of the type with which a page ends, where it is that of a PAC, or of an element that holds others and whose data are octets.
fn remark_of(is_pac: bool, is_closed: bool, within: Within) -> Remark
    ensures { result ≡ remark_of is_pac is_closed within }
{
    if is_pac && is_unchecked(within) {
        Remark::Here
    } else if is_closed && is_inside(within) {
        Remark::Inside
    } else {
        Remark::Nothing
    }
}

/// Says it.
fn tell(alloc: Global, remark: Remark, page: &mut Page) -> Result<(), AllocError>
    ensures ok { OnOk result (told remark page.old.items page.new.items) }
    ensures kept { OnOk result (Begins page.old.items page.new.items) }
{
    let label = Label::new("unchecked");
    match remark {
        Remark::Nothing => Ok(()),
        Remark::Here => show_text(alloc, &label, b"nobody checks a PAC that stands here", page),
        Remark::Inside => show_text(
            alloc,
            &label,
            b"nobody checks a PAC that stands within",
            page,
        ),
    }
}

impl Insert for Unchecked {
    ghost inserts = { IsInserted };

    fn insert(&mut self, alloc: Global, next: &Token, page: &mut Page) -> Result<(), AllocError> {
        let is_pac = ends_with_pac(page);
        let is_closed = ends_with_holder(page) && is_octets(next.form());
        tell(alloc, remark_of(is_pac, is_closed, self.within), page)?;
        self.within = behind(next, before(is_pac, self.within));
        Ok(())
    }
}

/// The page, which says behind the type of each PAC that nobody checks that nobody does: `unchecked`. A service takes the PAC of a ticket that its key
/// opens, the first within an AD-IF-RELEVANT of the ticket's authorization data (MS-PAC, 2.3), and checks that one. Another in the part of a ticket,
/// by itself, in an element of another type, deeper or the second, and each in an authenticator may be of the client's own making. It says the same behind the type of
/// an element that holds others (AD-IF-RELEVANT, AD-KDCIssued, AD-AND-OR, AD-MANDATORY-FOR-KDC, AD-CAMMAC) whose data the page shows as octets, since they are
/// not these, or stand within two such elements. Nothing is said of authorization data that stand in neither. All other tokens stay, in their order. The only
/// error is an allocation failure.
pub fn page_with_unchecked(alloc: Global, page: Page) -> Result<Page, AllocError>
    ensures { IfOk result (λ made. IsWithUnchecked page.items made.items) }
{
    let mut unchecked = Unchecked {
        within: Within::Neither,
    };
    page_with(alloc, &mut unchecked, page)
}
