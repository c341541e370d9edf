//! Frames, as pages.

ghost use Rattle.std.specs.Prelude.{◌≡◌, ◌≤◌, ◌++◌, ℕ, [], List, drop, length, IfOk, IfErr, OnOk, MatchResult, codes};
ghost use Rattle.byteorder.specs.Endian.{big_number};
ghost use Rattle.krb_der_core.specs.Reading.{TakesPrefix};
ghost use Rattle.krb_messages.specs.Frame.{HoldsValues, IsFrameOf};
ghost use Rattle.krb_messages.specs.Rejected.{FrameRejected};
ghost use Rattle.krb_messages.specs.declared.kpasswd.error.ReadFrameError.{ReadFrameError};
ghost use Rattle.krb_messages.specs.declared.kpasswd.error.ReadFrameError.TheVariants as unread;
ghost use Rattle.krb_show.specs.Pages.{◌then◌, struct_of};
ghost use Rattle.krb_show.specs.Tokens.{Token, plain};
ghost use Rattle.krb_show_messages.specs.Shown.{shows_of};
ghost use Rattle.krb_show_tokens.specs.Frame.{IsFrameTold, frame_of, numbers_of};
ghost use Rattle.krb_show_tokens.specs.Laws.{frame_long, frame_memory};

use crate::kpasswd::error::PasswordFrameError;
use byteorder::{BigEndian, ByteOrder};
use krb_der::DerEncode;
use krb_messages::kpasswd::{KrbPrivMessage, ReadFrameError, read_frame};
use krb_messages::messages::{ApMessage, ApRep, ApReq, KrbPriv};
use krb_show::{Field, Label, Page, Role, show_fields, show_struct};
use krb_show_messages::{HasRow, Message, RowField};
use std::alloc::{AllocError, Global};
use std::marker::PhantomData;

/// The numbers before the messages.
#[derive(Drop)]
struct Numbers {
    message_length: u32,
    version: u32,
    first_length: u32,
}

/// The numbers before the messages, of which the version is 1.
fn numbers_before(octets: &[u8]) -> Numbers
    requires { 6 ≤ length octets.now }
    ensures message_length { result.message_length ≡ big_number 2 octets.now }
    ensures version { result.version ≡ 1 }
    ensures first_length { result.first_length ≡ big_number 2 (drop 4 octets.now) }
{
    Numbers {
        message_length: u32::from(BigEndian::read_u16(octets)),
        version: 1,
        first_length: u32::from(BigEndian::read_u16(&octets[4..])),
    }
}

/// A first message, and the names that depend on it.
#[derive(Drop)]
struct FirstMessage<'a, T> {
    length_name: &'static str,
    name: &'static str,
    message: &'a T,
}

/// Appends the tokens of a frame with these numbers and messages.
fn show_with<'a, T: DerEncode + HasRow>(
    alloc: Global,
    label: &Label,
    numbers: &'a Numbers,
    first: FirstMessage<'a, T>,
    krb_priv: &'a KrbPriv,
    page: &mut Page,
) -> Result<(), AllocError>
    ensures { OnOk result (struct_of label.now (
        numbers_of first.entry.length_name.now numbers.now.message_length numbers.now.version numbers.now.first_length
        then shows_of T.row_name T.enc (plain first.entry.name.now) first.entry.message.now
        then (shows_of ⟦<KrbPriv as HasRow>⟧.row_name ⟦<KrbPriv as DerEncode>⟧.enc) (plain (codes "KRB-PRIV-message")) krb_priv.now) page.old.items page.new.items) }
{
    let first_length = Field {
        label: Label {
            text: first.length_name,
            kind: None,
            role: Role::None,
            is_item: false,
        },
        value: &numbers.first_length,
        shown: PhantomData::<Message>,
    };
    let message = RowField {
        text: first.name,
        value: first.message,
    };
    let krb_priv = RowField {
        text: "KRB-PRIV-message",
        value: krb_priv,
    };
    let lengths = (
        show_fields!(Message; numbers; "message-length" = message_length, "protocol-version-number" = version),
        first_length,
    );
    show_struct(alloc, label, &((lengths, message), krb_priv), page)
}

/// Appends the tokens of a frame with these numbers.
fn show_messages(
    alloc: Global,
    label: &Label,
    numbers: &Numbers,
    frame: &KrbPrivMessage,
    page: &mut Page,
) -> Result<(), AllocError>
    ensures { OnOk result (frame_of (shows_of ⟦<ApReq as HasRow>⟧.row_name ⟦<ApReq as DerEncode>⟧.enc) (shows_of ⟦<ApRep as HasRow>⟧.row_name ⟦<ApRep as DerEncode>⟧.enc) (shows_of ⟦<KrbPriv as HasRow>⟧.row_name ⟦<KrbPriv as DerEncode>⟧.enc)
        label.now numbers.now.message_length numbers.now.version numbers.now.first_length frame.now.ap_message frame.now.krb_priv
        page.old.items page.new.items) }
{
    match &frame.ap_message {
        ApMessage::ApReq(message) => {
            let first = FirstMessage {
                length_name: "AP-REQ-length",
                name: "AP-REQ-data",
                message,
            };
            show_with(alloc, label, numbers, first, &frame.krb_priv, page)
        }
        ApMessage::ApRep(message) => {
            let first = FirstMessage {
                length_name: "AP-REP-length",
                name: "AP-REP-data",
                message,
            };
            show_with(alloc, label, numbers, first, &frame.krb_priv, page)
        }
    }
}

/// The page of a frame whose octets begin so.
fn page_of_messages(
    alloc: Global,
    octets: &[u8],
    frame: &KrbPrivMessage,
) -> Result<Page, AllocError>
    requires { 6 ≤ length octets.now }
    ensures { IfOk result (λ page. frame_of (shows_of ⟦<ApReq as HasRow>⟧.row_name ⟦<ApReq as DerEncode>⟧.enc) (shows_of ⟦<ApRep as HasRow>⟧.row_name ⟦<ApRep as DerEncode>⟧.enc) (shows_of ⟦<KrbPriv as HasRow>⟧.row_name ⟦<KrbPriv as DerEncode>⟧.enc)
        (plain (codes "password-frame")) (big_number 2 octets.now) 1 (big_number 2 (drop 4 octets.now)) frame.now.ap_message frame.now.krb_priv
        [] page.items) }
{
    let numbers = numbers_before(octets);
    let label = Label::new("password-frame");
    let mut page = Vec::new(alloc);
    show_messages(alloc, &label, &numbers, frame, &mut page)?;
    Ok(page)
}

/// Frames that are read and shown.
trait ShowFrame {
    /// What is a frame's messages, and which octets are a frame of them.
    ghost is_value: { Self → Type 0 };

    ghost is_frame: { Self → List ℕ → Type 0 };

    /// Which error octets have that begin with no frame.
    ghost rejected: { List ℕ → ReadFrameError → Type 0 };

    /// The page of a frame whose octets begin so.
    ghost shows: { List ℕ → Self → List Token → List Token → Type 0 };

    /// A frame has six octets before its messages, and an allocation may fail behind them.
    ghost long: { (m : Self) (octets : List ℕ) → is_frame m octets → 6 ≤ length octets };

    ghost memory: { (m : Self) (octets : List ℕ) → is_frame m octets → rejected octets unread.OutOfMemory };

    /// The frame at the start of the octets, and how many octets it has.
    fn read(alloc: Global, octets: &[u8]) -> Result<(Self, usize), ReadFrameError>
        ensures valid { IfOk result (λ p. is_value p.0) }
        ensures found { IfOk result (λ p. (x : List ℕ) × is_frame p.0 x × TakesPrefix x p.1 octets.now) }
        ensures reads { (m : Self) (x rest : List ℕ) → is_value m → is_frame m x → octets.now ≡ x ++ rest
            → MatchResult result (λ p. p ≡ (m, length x)) (λ e. e ≡ ReadFrameError.OutOfMemory) }
        ensures first_error { IfErr result (rejected octets.now) };

    /// The page of this frame, whose octets begin so.
    fn page(&self, alloc: Global, octets: &[u8]) -> Result<Page, AllocError>
        requires { 6 ≤ length octets.now }
        ensures { IfOk result (λ page. shows octets.now self.now [] page.items) };
}

impl ShowFrame for KrbPrivMessage {
    ghost is_value = { HoldsValues ⟦<ApMessage as DerEncode>⟧ ⟦<KrbPriv as DerEncode>⟧ };

    ghost is_frame = { IsFrameOf ⟦<ApMessage as DerEncode>⟧ ⟦<KrbPriv as DerEncode>⟧ };

    ghost rejected = { FrameRejected ⟦<ApMessage as DerEncode>⟧ ⟦<KrbPriv as DerEncode>⟧ };

    ghost shows = { λ octets m. frame_of (shows_of ⟦<ApReq as HasRow>⟧.row_name ⟦<ApReq as DerEncode>⟧.enc) (shows_of ⟦<ApRep as HasRow>⟧.row_name ⟦<ApRep as DerEncode>⟧.enc) (shows_of ⟦<KrbPriv as HasRow>⟧.row_name ⟦<KrbPriv as DerEncode>⟧.enc)
        (plain (codes "password-frame")) (big_number 2 octets) 1 (big_number 2 (drop 4 octets)) m.ap_message m.krb_priv };

    ghost long = { frame_long ⟦<ApMessage as DerEncode>⟧ ⟦<KrbPriv as DerEncode>⟧ };

    ghost memory = { frame_memory ⟦<ApMessage as DerEncode>⟧ ⟦<KrbPriv as DerEncode>⟧ };

    fn read(alloc: Global, octets: &[u8]) -> Result<(Self, usize), ReadFrameError> {
        read_frame(alloc, octets)
    }

    fn page(&self, alloc: Global, octets: &[u8]) -> Result<Page, AllocError> {
        page_of_messages(alloc, octets, self)
    }
}

/// The page of the frame that all of the octets are.
fn page_of_frame<F: ShowFrame + Drop>(
    alloc: Global,
    octets: &[u8],
) -> Result<Page, PasswordFrameError>
    ensures { IsFrameTold F.is_value F.is_frame F.rejected F.shows (λ page. page.items) octets.now result }
{
    let (frame, taken) = match F::read(alloc, octets) {
        Ok(read) => read,
        Err(why) => return Err(PasswordFrameError::Frame(why)),
    };
    if taken != octets.len() {
        return Err(PasswordFrameError::TrailingOctets);
    }
    match frame.page(alloc, octets) {
        Ok(page) => Ok(page),
        Err(_) => Err(PasswordFrameError::Frame(ReadFrameError::OutOfMemory)),
    }
}

/// The page of the frame that all of the octets are (RFC 3244, 2), a request or a reply: the length of the frame, the version, the length of
/// the AP-REQ or AP-REP, in octets, as the frame has them, and the two messages, under the name `password-frame`; the fields have the
/// standard's names, with a hyphen for each blank.
///
/// Both lengths are shown, and compared with nothing. What begins with no frame is refused as by `read_frame`, so a frame of another version
/// than 1, as that which sets a password, is `Version`, and one that holds a KRB-ERROR has an error of its AP message. Octets behind the
/// frame are `TrailingOctets`. An allocation failure is `OutOfMemory`, and comes only after the six octets before the messages.
pub fn page_of_password_frame(alloc: Global, octets: &[u8]) -> Result<Page, PasswordFrameError>
    ensures { IsFrameTold (HoldsValues ⟦<ApMessage as DerEncode>⟧ ⟦<KrbPriv as DerEncode>⟧) (IsFrameOf ⟦<ApMessage as DerEncode>⟧ ⟦<KrbPriv as DerEncode>⟧)
        (FrameRejected ⟦<ApMessage as DerEncode>⟧ ⟦<KrbPriv as DerEncode>⟧)
        (λ octets m. frame_of (shows_of ⟦<ApReq as HasRow>⟧.row_name ⟦<ApReq as DerEncode>⟧.enc) (shows_of ⟦<ApRep as HasRow>⟧.row_name ⟦<ApRep as DerEncode>⟧.enc) (shows_of ⟦<KrbPriv as HasRow>⟧.row_name ⟦<KrbPriv as DerEncode>⟧.enc)
        (plain (codes "password-frame")) (big_number 2 octets) 1 (big_number 2 (drop 4 octets)) m.ap_message m.krb_priv)
        (λ page. page.items) octets.now result }
{
    page_of_frame::<KrbPrivMessage>(alloc, octets)
}
