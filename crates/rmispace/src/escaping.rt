//! What is printed, so that nothing of it acts on a terminal.

ghost use Rattle.std.specs.Prelude.{◌≤◌, length};

use std::io;
use std::io::Write;

/// Writes to another writer, each control character but a newline as `\x1b`: names and paths may have them.
#[derive(Drop)]
pub struct EscapingWriter<'a, W> {
    pub inner: &'a mut W,
}

impl<'a, W: Write> Write for EscapingWriter<'a, W> {
    fn write(&mut self, bytes: &[u8]) -> io::Result<usize> {
        match bytes.first() {
            Some(first) if is_escaped(*first) => {
                write!(self.inner, "\\x{first:02x}")?;
                Ok(1)
            }
            _ => {
                let (plain, _) = bytes.split_at(plain_front(bytes));
                self.inner.write(plain)
            }
        }
    }

    fn flush(&mut self) -> io::Result<()> {
        self.inner.flush()
    }
}

fn is_escaped(byte: u8) -> bool {
    (byte < b' ' && byte != b'\n') || byte == 0x7f
}

// How many bytes come before the first that is escaped.
fn plain_front(bytes: &[u8]) -> usize
    ensures { result ≤ length bytes.now }
{
    for (index, byte) in bytes.iter().enumerate() {
        if is_escaped(*byte) {
            return index;
        }
    }
    bytes.len()
}
