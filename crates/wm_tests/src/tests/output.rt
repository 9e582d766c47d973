//! Texts over a writer that holds them.
use super::same;
use std::io;
use std::io::Write;
use wm_stream::write_text;

/// Keeps what is written, and passes it on only when it is flushed.
#[derive(Drop)]
struct HoldingWriter {
    held: Vec<u8>,
    bytes: Vec<u8>,
}

impl Write for HoldingWriter {
    fn write(&mut self, buf: &[u8]) -> io::Result<usize> {
        self.held.extend_from_slice(buf)?;
        Ok(buf.len())
    }

    fn flush(&mut self) -> io::Result<()> {
        self.bytes.extend_from_slice(self.held.as_slice())?;
        self.held.clear();
        Ok(())
    }
}

#[test]
fn a_text_is_flushed(rt: HostRuntime) {
    let mut out = HoldingWriter {
        held: Vec::new(rt.alloc()),
        bytes: Vec::new(rt.alloc()),
    };
    let written = write_text(&mut out, "allowed\n");
    same(&rt, written.is_ok(), true);
    same(&rt, out.bytes.as_slice(), b"allowed\n".as_slice());
}
