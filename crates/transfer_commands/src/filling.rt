//! Fills buffers from a reader.
ghost use Rattle.std.specs.Prelude.{◌≡◌, IfOk, IfErr};
ghost use Rattle.transfer_commands.specs.Filling.{BreaksOff, FillsTo};

use program_io::Counted;
use std::io::{ErrorKind, Read};

/// The reader failed, or was called as often as its counter can count.
#[derive(Clone, Copy)]
pub(crate) struct ReadFault;

/// Fills a buffer from its beginning, and returns how many bytes were read. They are fewer than the buffer's only if the input
/// ended.
pub(crate) fn fill<R: Read>(reader: &mut Counted<R>, buffer: &mut [u8]) -> Result<usize, ReadFault>
    ensures ok { IfOk result (FillsTo (R.remaining reader.old.inner) (R.remaining reader.new.inner) buffer.new) }
    ensures err { IfErr result (λ _. BreaksOff R.remaining reader.old reader.new) }
{
    let mut done = 0;
    for _turn in 0..u64::MAX {
        if done == buffer.len() {
            return Ok(done);
        }
        match reader.read(&mut buffer[done..]) {
            Ok(0) => return Ok(done),
            Ok(n) => done += n,
            Err(error) => {
                if error.kind() != ErrorKind::Interrupted {
                    return Err(ReadFault);
                }
            }
        }
    }
    Err(ReadFault)
}
