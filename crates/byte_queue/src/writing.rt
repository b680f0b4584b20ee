// Writes that take what there is room for.
ghost use Rattle.std.specs.Prelude.{◌≡◌, ◌≤◌, ◌<◌, take, length, IfOk, IfErr};
ghost use Rattle.std.specs.Io.KnownBytes.{Appends};

use std::io::{ErrorKind, Write};

/// A write that failed when so many bytes had been taken.
#[derive(Clone, Copy, Debug, PartialEq, Eq)]
pub struct CutOff {
    pub taken: usize,
}

/// Writes bytes until the writer has no room for more: how many it took. A write that a signal interrupts is repeated.
pub fn write_ready<W: Write>(writer: &mut W, bytes: &[u8]) -> Result<usize, CutOff>
    ensures ok { IfOk result (λ taken. (taken ≤ length bytes.now)
        × Appends (W.contents writer.old) (W.contents writer.new) (take taken bytes.now)) }
    ensures err { IfErr result (λ cut. (cut.taken ≤ length bytes.now)
        × Appends (W.contents writer.old) (W.contents writer.new) (take cut.taken bytes.now)) }
{
    let mut taken = 0;
    for _ in 0..u64::MAX {
        if taken == bytes.len() {
            return Ok(taken);
        }
        match writer.write(&bytes[taken..]) {
            Ok(0) => return Err(CutOff { taken }),
            Ok(count) => taken += count,
            Err(error) if error.kind() == ErrorKind::Interrupted => {}
            Err(error) if error.kind() == ErrorKind::WouldBlock => return Ok(taken),
            Err(_) => return Err(CutOff { taken }),
        }
    }
    Err(CutOff { taken })
}
