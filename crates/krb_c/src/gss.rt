//! Tokens of the GSS-API.

ghost use Rattle.krb_c_calls.specs.Handing.{IsAnswered};
ghost use Rattle.krb_c_calls.specs.Mics.{IsMicMade, RefusesMaking, IsMicVerification};
ghost use Rattle.krb_c_calls.specs.Wraps.{IsSealedWrap, RefusesSealing, IsClearWrap, IsUnwrapping};

use std::alloc::Global;

/// `krb_make_mic` of `krb.h`.
#[unsafe(no_mangle)]
pub extern "C" fn krb_make_mic(
    alloc: Global,
    etype: i32,
    key: &[u8],
    sent_by_acceptor: bool,
    acceptor_subkey: bool,
    sequence_number: u64,
    message: &[u8],
    out: &mut [u8],
    size: &mut usize,
) -> u32
    ensures { IsAnswered (IsMicMade etype key.now sent_by_acceptor acceptor_subkey sequence_number message.now)
        (RefusesMaking etype key.now) out.old out.new size.new result }
{
    krb_c_calls::tokens::make_mic(
        alloc,
        etype,
        key,
        sent_by_acceptor,
        acceptor_subkey,
        sequence_number,
        message,
        out,
        size,
    )
}

/// `krb_verify_mic` of `krb.h`.
#[unsafe(no_mangle)]
pub extern "C" fn krb_verify_mic(
    alloc: Global,
    etype: i32,
    key: &[u8],
    sent_by_acceptor: bool,
    acceptor_subkey: bool,
    message: &[u8],
    token: &[u8],
    sequence_number: &mut u64,
) -> u32
    ensures { IsMicVerification etype key.now sent_by_acceptor acceptor_subkey message.now token.now sequence_number.new result }
{
    krb_c_calls::tokens::verify_mic(
        alloc,
        etype,
        key,
        sent_by_acceptor,
        acceptor_subkey,
        message,
        token,
        sequence_number,
    )
}

/// `krb_wrap` of `krb.h`.
#[unsafe(no_mangle)]
pub extern "C" fn krb_wrap(
    alloc: Global,
    etype: i32,
    key: &[u8],
    sent_by_acceptor: bool,
    acceptor_subkey: bool,
    sequence_number: u64,
    rotation: u16,
    confounder: &[u8],
    message: &[u8],
    out: &mut [u8],
    size: &mut usize,
) -> u32
    ensures { IsAnswered (IsSealedWrap etype key.now sent_by_acceptor acceptor_subkey sequence_number rotation confounder.now message.now)
        (RefusesSealing etype key.now confounder.now) out.old out.new size.new result }
{
    krb_c_calls::tokens::wrap(
        alloc,
        etype,
        key,
        sent_by_acceptor,
        acceptor_subkey,
        sequence_number,
        rotation,
        confounder,
        message,
        out,
        size,
    )
}

/// `krb_wrap_in_clear` of `krb.h`.
#[unsafe(no_mangle)]
pub extern "C" fn krb_wrap_in_clear(
    alloc: Global,
    etype: i32,
    key: &[u8],
    sent_by_acceptor: bool,
    acceptor_subkey: bool,
    sequence_number: u64,
    rotation: u16,
    message: &[u8],
    out: &mut [u8],
    size: &mut usize,
) -> u32
    ensures { IsAnswered (IsClearWrap etype key.now sent_by_acceptor acceptor_subkey sequence_number rotation message.now)
        (RefusesMaking etype key.now) out.old out.new size.new result }
{
    krb_c_calls::tokens::wrap_in_clear(
        alloc,
        etype,
        key,
        sent_by_acceptor,
        acceptor_subkey,
        sequence_number,
        rotation,
        message,
        out,
        size,
    )
}

/// `krb_unwrap` of `krb.h`.
#[unsafe(no_mangle)]
pub extern "C" fn krb_unwrap(
    alloc: Global,
    etype: i32,
    key: &[u8],
    sent_by_acceptor: bool,
    acceptor_subkey: bool,
    token: &[u8],
    sequence_number: &mut u64,
    sealed: &mut bool,
    out: &mut [u8],
    size: &mut usize,
) -> u32
    ensures { IsUnwrapping etype key.now sent_by_acceptor acceptor_subkey token.now sequence_number.new sealed.new out.old out.new size.new result }
{
    krb_c_calls::tokens::unwrap(
        alloc,
        etype,
        key,
        sent_by_acceptor,
        acceptor_subkey,
        token,
        sequence_number,
        sealed,
        out,
        size,
    )
}
