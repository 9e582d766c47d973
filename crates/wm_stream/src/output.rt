//! Writing a text.
ghost use Rattle.std.specs.Prelude.{OnErr, OnOk};
ghost use Rattle.std.specs.Io.KnownBytes.{Appends};
ghost use Rattle.wm_stream.specs.Output.{AppendsFront};

use std::io;
use std::io::{ErrorKind, Write};

/// Writes a text completely, and flushes the writer. An interrupted write is repeated.
///
/// # Errors
///
/// The first write that fails or takes nothing, and a failed flush; the writer has then gained a prefix of the text.
pub fn write_text<W: Write>(out: &mut W, text: &str) -> io::Result<()>
    ensures written { OnOk result (Appends (W.contents out.old) (W.contents out.new) text.now) }
    ensures stopped { OnErr result (AppendsFront (W.contents out.old) (W.contents out.new) text.now) }
{
    let mut left = text.as_bytes();
    // A loop with a last turn, since a writer may be interrupted any number of times.
    for _ in 0..u64::MAX {
        if left.is_empty() {
            return out.flush();
        }
        match out.write(left) {
            Ok(0) => return Err(io::Error::from(ErrorKind::WriteZero)),
            Ok(count) => left = &left[count..],
            Err(error) if error.kind() == ErrorKind::Interrupted => {}
            Err(error) => return Err(error),
        }
    }
    Err(io::Error::from(ErrorKind::Interrupted))
}
