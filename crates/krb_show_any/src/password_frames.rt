//! Frames in which passwords are changed.

ghost use Rattle.std.specs.Prelude.{codes, drop};
ghost use Rattle.byteorder.specs.Endian.{big_number};
ghost use Rattle.krb_messages.specs.Frame.{HoldsValues, IsFrameOf};
ghost use Rattle.krb_messages.specs.Rejected.{FrameRejected};
ghost use Rattle.krb_show.specs.Tokens.{plain};
ghost use Rattle.krb_show_tokens.specs.Frame.{IsFrameTold, frame_of};
ghost use Rattle.krb_show_messages.specs.Shown.{shows_of};

use crate::pages::Pages;
use krb_der::DerEncode;
use krb_messages::messages::{ApMessage, ApRep, ApReq, KrbPriv};
use krb_show::Page;
use krb_show_messages::HasRow;
use krb_show_tokens::kpasswd::{PasswordFrameError, page_of_password_frame};
use std::alloc::Global;

/// Frames in which passwords are changed (RFC 3244, 2).
#[derive(Drop)]
pub struct PasswordFrames;

impl Pages<(), PasswordFrameError> for PasswordFrames {
    ghost tells = { λ _ octets result. IsFrameTold (HoldsValues ⟦<ApMessage as DerEncode>⟧ ⟦<KrbPriv as DerEncode>⟧)
        (IsFrameOf ⟦<ApMessage as DerEncode>⟧ ⟦<KrbPriv as DerEncode>⟧)
        (FrameRejected ⟦<ApMessage as DerEncode>⟧ ⟦<KrbPriv as DerEncode>⟧)
        (λ seen m. frame_of (shows_of ⟦<ApReq as HasRow>⟧.row_name ⟦<ApReq as DerEncode>⟧.enc) (shows_of ⟦<ApRep as HasRow>⟧.row_name ⟦<ApRep as DerEncode>⟧.enc) (shows_of ⟦<KrbPriv as HasRow>⟧.row_name ⟦<KrbPriv as DerEncode>⟧.enc)
        (plain (codes "password-frame")) (big_number 2 seen) 1 (big_number 2 (drop 4 seen)) m.ap_message m.krb_priv) (λ page. page.items) octets result };

    fn page_of(alloc: Global, _kind: (), octets: &[u8]) -> Result<Page, PasswordFrameError> {
        page_of_password_frame(alloc, octets)
    }
}
