//! All kinds that the library reads.

ghost use Rattle.std.specs.Prelude.{◌≡◌, nat_eq, Result, Vec};
ghost use Rattle.std.specs.declared.alloc.Global.{Global};
ghost use Rattle.std.specs.declared.io.Error.{Error};
ghost use Rattle.krb_der_core.specs.declared.error.Asn1DerError.{Asn1DerError};
ghost use Rattle.krb_gss_tokens.specs.declared.error.GssApiMessageError.{GssApiMessageError};
ghost use Rattle.krb_pac.specs.declared.error.PacError.{PacError};
ghost use Rattle.krb_show.specs.Tokens.{Token};
ghost use Rattle.krb_show_pages.specs.Pages.{IsPageByFirst, IsPageOfType};
ghost use Rattle.krb_show_pages.specs.declared.files.error.FilePageError.{FilePageError};
ghost use Rattle.krb_show_tokens.specs.declared.kpasswd.error.PasswordFrameError.{PasswordFrameError};
ghost use Rattle.krb_show_any.specs.Told.{IsPacTold, IsTreeTold};
ghost use Rattle.krb_show_any.specs.Kinds.{by_kind};
ghost use Rattle.krb_show_any.specs.Errors.{of_der, of_exchange, of_file, of_frame, of_pac, of_token};

use crate::error::{PageError, of_der, of_exchange, of_file, of_frame, of_pac, of_token};
use crate::exchanges::Exchanges;
use crate::files::{Ccaches, Keytabs};
use crate::kind::Kind;
use crate::pages::Pages;
use crate::password_frames::PasswordFrames;
use crate::tokens::Tokens;
use krb_der::Asn1DerError;
use krb_gss_tokens::GssApiMessageError;
use krb_show::{Page, page_of_tree};
use krb_show_messages::page_of_pac;
use krb_show_pages::{FilePageError, page_of_application, page_of_type};
use krb_show_tokens::kpasswd::PasswordFrameError;
use std::alloc::Global;
use std::io;

/// The page of a message or an opened part.
fn application_page(alloc: Global, tag: u8, octets: &[u8]) -> Result<Page, PageError>
    ensures { (r : Result (Vec Token Global) Asn1DerError) × (result ≡ of_der r) × IsPageByFirst (nat_eq tag) (λ p. p.items) octets.now r }
{
    of_der(page_of_application(alloc, tag, octets))
}

/// The page of a token.
fn token_page(alloc: Global, octets: &[u8]) -> Result<Page, PageError>
    ensures { (r : Result (Vec Token Global) GssApiMessageError) × (result ≡ of_token r)
        × ⟦<Tokens as Pages<(), GssApiMessageError>>⟧.tells tt octets.now r }
{
    of_token(Tokens::page_of(alloc, (), octets))
}

/// The page of a PAC.
fn pac_page(alloc: Global, octets: &[u8]) -> Result<Page, PageError>
    ensures { (r : Result (Vec Token Global) PacError) × (result ≡ of_pac r) × IsPacTold octets.now r }
{
    of_pac(page_of_pac(alloc, octets))
}

/// The page of a message of NEGOEX.
fn exchange_page(alloc: Global, octets: &[u8]) -> Result<Page, PageError>
    ensures { (r : Result (Vec Token Global) Error) × of_exchange r result × ⟦<Exchanges as Pages<(), io::Error>>⟧.tells tt octets.now r }
{
    of_exchange(Exchanges::page_of(alloc, (), octets))
}

/// The page of a frame in which a password is changed.
fn frame_page(alloc: Global, octets: &[u8]) -> Result<Page, PageError>
    ensures { (r : Result (Vec Token Global) PasswordFrameError) × (result ≡ of_frame r)
        × ⟦<PasswordFrames as Pages<(), PasswordFrameError>>⟧.tells tt octets.now r }
{
    of_frame(PasswordFrames::page_of(alloc, (), octets))
}

/// The page of a keytab.
fn keytab_page(alloc: Global, octets: &[u8]) -> Result<Page, PageError>
    ensures { (r : Result (Vec Token Global) FilePageError) × (result ≡ of_file r)
        × ⟦<Keytabs as Pages<(), FilePageError>>⟧.tells tt octets.now r }
{
    of_file(Keytabs::page_of(alloc, (), octets))
}

/// The page of a credential cache.
fn ccache_page(alloc: Global, octets: &[u8]) -> Result<Page, PageError>
    ensures { (r : Result (Vec Token Global) FilePageError) × (result ≡ of_file r)
        × ⟦<Ccaches as Pages<(), FilePageError>>⟧.tells tt octets.now r }
{
    of_file(Ccaches::page_of(alloc, (), octets))
}

/// The page of a type that is named.
fn type_page(alloc: Global, name: &'static str, octets: &[u8]) -> Result<Page, PageError>
    ensures { (r : Result (Vec Token Global) Asn1DerError) × (result ≡ of_der r) × IsPageOfType name.now (λ p. p.items) octets.now r }
{
    of_der(page_of_type(alloc, name, octets))
}

/// The page of octets as a tree of elements.
fn tree_page(alloc: Global, octets: &[u8]) -> Result<Page, PageError>
    ensures { IsTreeTold octets.now result }
{
    match page_of_tree(alloc, octets) {
        Ok(page) => Ok(page),
        Err(_) => Err(PageError::OutOfMemory),
    }
}

/// All kinds that the library reads.
#[derive(Drop)]
pub struct Everything;

impl Pages<Kind, PageError> for Everything {
    ghost tells = { λ kind octets result. by_kind kind
        (λ tag. (r : Result (Vec Token Global) Asn1DerError) × (result ≡ of_der r) × IsPageByFirst (nat_eq tag) (λ p. p.items) octets r)
        ((r : Result (Vec Token Global) GssApiMessageError) × (result ≡ of_token r) × ⟦<Tokens as Pages<(), GssApiMessageError>>⟧.tells tt octets r)
        ((r : Result (Vec Token Global) PacError) × (result ≡ of_pac r) × IsPacTold octets r)
        ((r : Result (Vec Token Global) Error) × of_exchange r result × ⟦<Exchanges as Pages<(), io::Error>>⟧.tells tt octets r)
        ((r : Result (Vec Token Global) PasswordFrameError) × (result ≡ of_frame r) × ⟦<PasswordFrames as Pages<(), PasswordFrameError>>⟧.tells tt octets r)
        ((r : Result (Vec Token Global) FilePageError) × (result ≡ of_file r) × ⟦<Keytabs as Pages<(), FilePageError>>⟧.tells tt octets r)
        ((r : Result (Vec Token Global) FilePageError) × (result ≡ of_file r) × ⟦<Ccaches as Pages<(), FilePageError>>⟧.tells tt octets r)
        (λ name. (r : Result (Vec Token Global) Asn1DerError) × (result ≡ of_der r) × IsPageOfType name (λ p. p.items) octets r)
        (IsTreeTold octets result) };

    fn page_of(alloc: Global, kind: Kind, octets: &[u8]) -> Result<Page, PageError> {
        match kind {
            Kind::Application(tag) => application_page(alloc, tag, octets),
            Kind::Token => token_page(alloc, octets),
            Kind::Pac => pac_page(alloc, octets),
            Kind::Negoex => exchange_page(alloc, octets),
            Kind::PasswordFrame => frame_page(alloc, octets),
            Kind::Keytab => keytab_page(alloc, octets),
            Kind::Ccache => ccache_page(alloc, octets),
            Kind::Type(name) => type_page(alloc, name, octets),
            Kind::Tree => tree_page(alloc, octets),
        }
    }
}
