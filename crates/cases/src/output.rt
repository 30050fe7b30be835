// Standard output, printed piece by piece.
ghost use Rattle.std.specs.Prelude.{IsOk};

use std::fmt;
use std::fmt::{Display, Formatter};
use std::io::Result;

// A file descriptor that is printed to without a buffer: each text between the holes of `print!`, and each text that a hole writes, is a write of its own. One
// that fails is lost and the next is tried, so nothing that prints by it gives up halfway: Ok does not say that all was written. What a full pipe still takes
// depends on where the texts end.
#[derive(Clone, Copy)]
pub struct Unbuffered(pub i32);

impl fmt::Write for Unbuffered {
    fn write_str(&mut self, s: &str) -> fmt::Result
        ensures { IsOk result }
    {
        io::write_all(self.0, s.as_bytes());
        Ok(())
    }
}

impl Print for Unbuffered {
    fn print<D: Display + Drop>(&self, value: D) -> Result<()>
        ensures { IsOk result }
    {
        let _ = Formatter::new(*self).write(value);
        Ok(())
    }

    fn println<D: Display + Drop>(&self, value: D) -> Result<()>
        ensures { IsOk result }
    {
        self.print(value)?;
        self.write_all(b"\n")
    }

    fn write_all(&self, bytes: &[u8]) -> Result<()>
        ensures { IsOk result }
    {
        io::write_all(self.0, bytes);
        Ok(())
    }
}
