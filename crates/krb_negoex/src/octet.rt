//! An octet as data.

ghost use Rattle.std.specs.Prelude.{◌≡◌, ◌<◌, ◌≤◌};
ghost use Rattle.krb_negoex.specs.Wire.{one_octet};

use crate::parts::Placed;
use crate::traits::NegoexDataType;
use std::io;

impl Placed for u8 {
    ghost start = { λ v. 0 };

    fn payload_start(&self) -> usize {
        0
    }
}

impl NegoexDataType for u8 {
    type Error = io::Error;

    ghost known = { one_octet.readable };

    fn fixed_len() -> usize {
        1
    }

    fn size(&self) -> usize {
        let _octet = *self;
        1
    }
}
