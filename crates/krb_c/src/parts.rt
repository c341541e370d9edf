//! Messages checked, and their parts sealed and opened, for C. `krb.h` declares these calls.

ghost use Rattle.krb_c_calls.specs.Handing.{IsAnswered};
ghost use Rattle.krb_c_calls.specs.Kinds.{IsChecked};
ghost use Rattle.krb_c_calls.specs.MessageRules.{IsReading};
ghost use Rattle.krb_c_calls.specs.Parts.{IsOpening, IsSealing, RefusesOpening, RefusesSealing};

use krb_c_calls::parts::{check, open, seal};
use krb_der::DerEncode;
use krb_enc_parts::data_types::{
    Authenticator, EncApRepPart, EncKrbCredPart, EncKrbPrivPart, EncTicketPart,
};
use krb_messages::messages::{
    ApRep, ApReq, AsRep, AsReq, EncAsRepPart, EncTgsRepPart, KrbCred, KrbError, KrbPriv, TgsRep,
    TgsReq,
};
use krb_show_row_laws::laws::{rows_of_data_types, rows_of_messages, rows_of_parts};
use krb_types::data_types::Ticket;
use std::alloc::Global;

/// `krb_check` of `krb.h`: whether the octets are the one DER encoding of a message that has this application tag (RFC 4120, 5.10), by the row of its type.
#[unsafe(no_mangle)]
pub extern "C" fn krb_check(number: i32, octets: &[u8]) -> u32
    ensures { IsChecked (record {
      ticket = IsReading ⟦<Ticket as DerEncode>⟧;
      authenticator = IsReading ⟦<Authenticator as DerEncode>⟧;
      enc_ticket_part = IsReading ⟦<EncTicketPart as DerEncode>⟧;
      as_req = IsReading ⟦<AsReq as DerEncode>⟧;
      as_rep = IsReading ⟦<AsRep as DerEncode>⟧;
      tgs_req = IsReading ⟦<TgsReq as DerEncode>⟧;
      tgs_rep = IsReading ⟦<TgsRep as DerEncode>⟧;
      ap_req = IsReading ⟦<ApReq as DerEncode>⟧;
      ap_rep = IsReading ⟦<ApRep as DerEncode>⟧;
      krb_priv = IsReading ⟦<KrbPriv as DerEncode>⟧;
      krb_cred = IsReading ⟦<KrbCred as DerEncode>⟧;
      enc_as_rep_part = IsReading ⟦<EncAsRepPart as DerEncode>⟧;
      enc_tgs_rep_part = IsReading ⟦<EncTgsRepPart as DerEncode>⟧;
      enc_ap_rep_part = IsReading ⟦<EncApRepPart as DerEncode>⟧;
      enc_krb_priv_part = IsReading ⟦<EncKrbPrivPart as DerEncode>⟧;
      enc_krb_cred_part = IsReading ⟦<EncKrbCredPart as DerEncode>⟧;
      krb_error = IsReading ⟦<KrbError as DerEncode>⟧;
    }) number octets.now result }
{
    rows_of_data_types();
    rows_of_parts();
    rows_of_messages();
    check(number, octets)
}

/// `krb_seal_ticket_part` of `krb.h`: the EncTicketPart of a ticket (RFC 4120, 5.3), sealed.
#[unsafe(no_mangle)]
pub extern "C" fn krb_seal_ticket_part(
    alloc: Global,
    etype: i32,
    key: &[u8],
    usage: i32,
    confounder: &[u8],
    part: &[u8],
    out: &mut [u8],
    size: &mut usize,
) -> u32
    ensures { IsAnswered (IsSealing ⟦<EncTicketPart as DerEncode>⟧ etype key.now usage confounder.now part.now)
        (RefusesSealing ⟦<EncTicketPart as DerEncode>⟧ etype key.now confounder.now part.now) out.old out.new size.new result }
{
    seal::<EncTicketPart>(alloc, etype, key, usage, confounder, part, out, size)
}

/// `krb_open_ticket_part` of `krb.h`: the same part, opened.
#[unsafe(no_mangle)]
pub extern "C" fn krb_open_ticket_part(
    alloc: Global,
    etype: i32,
    key: &[u8],
    usage: i32,
    sealed: &[u8],
    out: &mut [u8],
    size: &mut usize,
) -> u32
    ensures { IsAnswered (IsOpening ⟦<EncTicketPart as DerEncode>⟧ etype key.now usage sealed.now)
        (RefusesOpening ⟦<EncTicketPart as DerEncode>⟧ etype key.now usage sealed.now) out.old out.new size.new result }
{
    open::<EncTicketPart>(alloc, etype, key, usage, sealed, out, size)
}

/// `krb_seal_authenticator` of `krb.h`: the Authenticator of an AP-REQ (RFC 4120, 5.5.1), sealed.
#[unsafe(no_mangle)]
pub extern "C" fn krb_seal_authenticator(
    alloc: Global,
    etype: i32,
    key: &[u8],
    usage: i32,
    confounder: &[u8],
    part: &[u8],
    out: &mut [u8],
    size: &mut usize,
) -> u32
    ensures { IsAnswered (IsSealing ⟦<Authenticator as DerEncode>⟧ etype key.now usage confounder.now part.now)
        (RefusesSealing ⟦<Authenticator as DerEncode>⟧ etype key.now confounder.now part.now) out.old out.new size.new result }
{
    seal::<Authenticator>(alloc, etype, key, usage, confounder, part, out, size)
}

/// `krb_open_authenticator` of `krb.h`: the same part, opened.
#[unsafe(no_mangle)]
pub extern "C" fn krb_open_authenticator(
    alloc: Global,
    etype: i32,
    key: &[u8],
    usage: i32,
    sealed: &[u8],
    out: &mut [u8],
    size: &mut usize,
) -> u32
    ensures { IsAnswered (IsOpening ⟦<Authenticator as DerEncode>⟧ etype key.now usage sealed.now)
        (RefusesOpening ⟦<Authenticator as DerEncode>⟧ etype key.now usage sealed.now) out.old out.new size.new result }
{
    open::<Authenticator>(alloc, etype, key, usage, sealed, out, size)
}

/// `krb_seal_as_rep_part` of `krb.h`: the EncASRepPart of an AS-REP (RFC 4120, 5.4.2), sealed.
#[unsafe(no_mangle)]
pub extern "C" fn krb_seal_as_rep_part(
    alloc: Global,
    etype: i32,
    key: &[u8],
    usage: i32,
    confounder: &[u8],
    part: &[u8],
    out: &mut [u8],
    size: &mut usize,
) -> u32
    ensures { IsAnswered (IsSealing ⟦<EncAsRepPart as DerEncode>⟧ etype key.now usage confounder.now part.now)
        (RefusesSealing ⟦<EncAsRepPart as DerEncode>⟧ etype key.now confounder.now part.now) out.old out.new size.new result }
{
    seal::<EncAsRepPart>(alloc, etype, key, usage, confounder, part, out, size)
}

/// `krb_open_as_rep_part` of `krb.h`: the same part, opened.
#[unsafe(no_mangle)]
pub extern "C" fn krb_open_as_rep_part(
    alloc: Global,
    etype: i32,
    key: &[u8],
    usage: i32,
    sealed: &[u8],
    out: &mut [u8],
    size: &mut usize,
) -> u32
    ensures { IsAnswered (IsOpening ⟦<EncAsRepPart as DerEncode>⟧ etype key.now usage sealed.now)
        (RefusesOpening ⟦<EncAsRepPart as DerEncode>⟧ etype key.now usage sealed.now) out.old out.new size.new result }
{
    open::<EncAsRepPart>(alloc, etype, key, usage, sealed, out, size)
}

/// `krb_seal_tgs_rep_part` of `krb.h`: the EncTGSRepPart of a TGS-REP (RFC 4120, 5.4.2), sealed.
#[unsafe(no_mangle)]
pub extern "C" fn krb_seal_tgs_rep_part(
    alloc: Global,
    etype: i32,
    key: &[u8],
    usage: i32,
    confounder: &[u8],
    part: &[u8],
    out: &mut [u8],
    size: &mut usize,
) -> u32
    ensures { IsAnswered (IsSealing ⟦<EncTgsRepPart as DerEncode>⟧ etype key.now usage confounder.now part.now)
        (RefusesSealing ⟦<EncTgsRepPart as DerEncode>⟧ etype key.now confounder.now part.now) out.old out.new size.new result }
{
    seal::<EncTgsRepPart>(alloc, etype, key, usage, confounder, part, out, size)
}

/// `krb_open_tgs_rep_part` of `krb.h`: the same part, opened.
#[unsafe(no_mangle)]
pub extern "C" fn krb_open_tgs_rep_part(
    alloc: Global,
    etype: i32,
    key: &[u8],
    usage: i32,
    sealed: &[u8],
    out: &mut [u8],
    size: &mut usize,
) -> u32
    ensures { IsAnswered (IsOpening ⟦<EncTgsRepPart as DerEncode>⟧ etype key.now usage sealed.now)
        (RefusesOpening ⟦<EncTgsRepPart as DerEncode>⟧ etype key.now usage sealed.now) out.old out.new size.new result }
{
    open::<EncTgsRepPart>(alloc, etype, key, usage, sealed, out, size)
}

/// `krb_seal_ap_rep_part` of `krb.h`: the EncAPRepPart of an AP-REP (RFC 4120, 5.5.2), sealed.
#[unsafe(no_mangle)]
pub extern "C" fn krb_seal_ap_rep_part(
    alloc: Global,
    etype: i32,
    key: &[u8],
    usage: i32,
    confounder: &[u8],
    part: &[u8],
    out: &mut [u8],
    size: &mut usize,
) -> u32
    ensures { IsAnswered (IsSealing ⟦<EncApRepPart as DerEncode>⟧ etype key.now usage confounder.now part.now)
        (RefusesSealing ⟦<EncApRepPart as DerEncode>⟧ etype key.now confounder.now part.now) out.old out.new size.new result }
{
    seal::<EncApRepPart>(alloc, etype, key, usage, confounder, part, out, size)
}

/// `krb_open_ap_rep_part` of `krb.h`: the same part, opened.
#[unsafe(no_mangle)]
pub extern "C" fn krb_open_ap_rep_part(
    alloc: Global,
    etype: i32,
    key: &[u8],
    usage: i32,
    sealed: &[u8],
    out: &mut [u8],
    size: &mut usize,
) -> u32
    ensures { IsAnswered (IsOpening ⟦<EncApRepPart as DerEncode>⟧ etype key.now usage sealed.now)
        (RefusesOpening ⟦<EncApRepPart as DerEncode>⟧ etype key.now usage sealed.now) out.old out.new size.new result }
{
    open::<EncApRepPart>(alloc, etype, key, usage, sealed, out, size)
}

/// `krb_seal_priv_part` of `krb.h`: the EncKrbPrivPart of a KRB-PRIV (RFC 4120, 5.7.1), sealed.
#[unsafe(no_mangle)]
pub extern "C" fn krb_seal_priv_part(
    alloc: Global,
    etype: i32,
    key: &[u8],
    usage: i32,
    confounder: &[u8],
    part: &[u8],
    out: &mut [u8],
    size: &mut usize,
) -> u32
    ensures { IsAnswered (IsSealing ⟦<EncKrbPrivPart as DerEncode>⟧ etype key.now usage confounder.now part.now)
        (RefusesSealing ⟦<EncKrbPrivPart as DerEncode>⟧ etype key.now confounder.now part.now) out.old out.new size.new result }
{
    seal::<EncKrbPrivPart>(alloc, etype, key, usage, confounder, part, out, size)
}

/// `krb_open_priv_part` of `krb.h`: the same part, opened.
#[unsafe(no_mangle)]
pub extern "C" fn krb_open_priv_part(
    alloc: Global,
    etype: i32,
    key: &[u8],
    usage: i32,
    sealed: &[u8],
    out: &mut [u8],
    size: &mut usize,
) -> u32
    ensures { IsAnswered (IsOpening ⟦<EncKrbPrivPart as DerEncode>⟧ etype key.now usage sealed.now)
        (RefusesOpening ⟦<EncKrbPrivPart as DerEncode>⟧ etype key.now usage sealed.now) out.old out.new size.new result }
{
    open::<EncKrbPrivPart>(alloc, etype, key, usage, sealed, out, size)
}

/// `krb_seal_cred_part` of `krb.h`: the EncKrbCredPart of a KRB-CRED (RFC 4120, 5.8.1), sealed.
#[unsafe(no_mangle)]
pub extern "C" fn krb_seal_cred_part(
    alloc: Global,
    etype: i32,
    key: &[u8],
    usage: i32,
    confounder: &[u8],
    part: &[u8],
    out: &mut [u8],
    size: &mut usize,
) -> u32
    ensures { IsAnswered (IsSealing ⟦<EncKrbCredPart as DerEncode>⟧ etype key.now usage confounder.now part.now)
        (RefusesSealing ⟦<EncKrbCredPart as DerEncode>⟧ etype key.now confounder.now part.now) out.old out.new size.new result }
{
    seal::<EncKrbCredPart>(alloc, etype, key, usage, confounder, part, out, size)
}

/// `krb_open_cred_part` of `krb.h`: the same part, opened.
#[unsafe(no_mangle)]
pub extern "C" fn krb_open_cred_part(
    alloc: Global,
    etype: i32,
    key: &[u8],
    usage: i32,
    sealed: &[u8],
    out: &mut [u8],
    size: &mut usize,
) -> u32
    ensures { IsAnswered (IsOpening ⟦<EncKrbCredPart as DerEncode>⟧ etype key.now usage sealed.now)
        (RefusesOpening ⟦<EncKrbCredPart as DerEncode>⟧ etype key.now usage sealed.now) out.old out.new size.new result }
{
    open::<EncKrbCredPart>(alloc, etype, key, usage, sealed, out, size)
}
