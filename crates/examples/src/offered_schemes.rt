//! How many schemes a party offers.

ghost use Rattle.std.specs.Prelude.{◌≡◌, vec_len, IfOk};
ghost use Rattle.krb_negoex.specs.Wire.{nego_layout};
ghost use Rattle.krb_negoex.specs.declared.nego.Nego.{Nego};

use krb_negoex::negoex::NegoexMessage;
use krb_negoex::negoex::messages::Nego;
use std::alloc::Global;
use std::io;

/// The number of schemes that the message offers.
pub fn offered_schemes(alloc: Global, message: &[u8]) -> io::Result<usize>
    ensures { IfOk result (λ n. (nego : Nego) × nego_layout.part message.now message.now nego × (n ≡ vec_len nego.auth_schemes)) }
{
    let nego = Nego::decode(alloc, message)?;
    Ok(nego.auth_schemes.len())
}
