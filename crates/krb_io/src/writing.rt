//! Writing.

ghost use Rattle.std.specs.Prelude.{◌≡◌, ◌≤◌, ◌<◌, length, take, IfOk, IfErr, OnOk, OnErr};
ghost use Rattle.std.specs.Io.KnownBytes.{Appends, Keeps};
ghost use Rattle.krb_io.specs.Transfer.{IsNotInterrupted, IsPrefixWritten};

use std::io;
use std::io::{Error, ErrorKind, Write};

/// One write, tried again where a signal interrupts it: how many octets from the start the writer took.
///
/// An error is the writer's, which has taken nothing.
fn write_once<W: Write>(writer: &mut W, octets: &[u8]) -> io::Result<usize>
    ensures within { IfOk result (λ n. n ≤ length octets.now) }
    ensures octets { IfOk result (λ n. Appends (W.contents writer.old) (W.contents writer.new) (take n octets.now)) }
    ensures kept { OnErr result (Keeps (W.contents writer.old) (W.contents writer.new)) }
    ensures lasting { IfErr result IsNotInterrupted }
{
    for _ in 0..u64::MAX {
        match writer.write(octets) {
            Ok(n) => return Ok(n),
            Err(error) => {
                if error.kind() != ErrorKind::Interrupted {
                    return Err(error);
                }
            }
        }
    }
    Err(Error::from(ErrorKind::TimedOut))
}

/// Writes all octets.
///
/// A writer that takes none of them is an error of the kind `WriteZero`; every other error is the writer's. It has then taken a
/// prefix of the octets, and not all of them.
pub fn write_all<W: Write>(writer: &mut W, octets: &[u8]) -> io::Result<()>
    ensures octets { OnOk result (Appends (W.contents writer.old) (W.contents writer.new) octets.now) }
    ensures prefix { OnErr result (IsPrefixWritten octets.now (W.contents writer.old) (W.contents writer.new)) }
    ensures lasting { IfErr result IsNotInterrupted }
{
    let mut done = 0;
    while done < octets.len() {
        let n = write_once(writer, &octets[done..])?;
        if n == 0 {
            return Err(Error::new(ErrorKind::WriteZero, "failed to write whole buffer"));
        }
        done += n;
    }
    Ok(())
}
