// Strings in double quotes, with five bytes escaped.
ghost use Rattle.std.specs.Prelude.{◌≡◌, ◌+◌, ◌≤◌, if◌then◌else◌, ◌==◌, length};
ghost use Rattle.source.specs.Bytes.{part};
ghost use Rattle.rendered.specs.Spelled.{letter, escaped, escaped_all, spelled_string};
ghost use Rattle.writing.specs.Wrote.{Wrote};

use crate::back::Back;

// What stands behind the backslash of an escaped byte; none for a byte that stands for itself.
#[tactic(auto, unfolding(rendered::specs::Spelled::letter))]
fn letter(b: u8) -> Option<u8>
    ensures { result ≡ (if letter b == 0 then None else Some (letter b)) }
{
    match b {
        b'\\' => Some(b'\\'),
        b'"' => Some(b'"'),
        b'\n' => Some(b'n'),
        b'\t' => Some(b't'),
        b'\r' => Some(b'r'),
        _ => None,
    }
}

impl Back<'_> {
    fn put_escaped(&mut self, b: u8)
        ensures { Wrote (escaped b) self.old self.new }
    {
        match letter(b) {
            None => self.put(b),
            Some(behind) => {
                self.put(behind);
                self.put(b'\\');
            }
        }
    }

    // The last byte first.
    fn put_inside(&mut self, text: &[u8])
        ensures { Wrote (escaped_all text.now) self.old self.new }
    {
        for b in text.iter().rev() {
            self.put_escaped(*b);
        }
    }

    // The q bytes of the text from place p on.
    pub fn put_string(&mut self, text: &[u8], p: u32, q: u32)
        requires { p + q ≤ length text.now }
        ensures { Wrote (spelled_string (part text.now p (p + q))) self.old self.new }
    {
        let from = p as usize;
        self.put(b'"');
        self.put_inside(&text[from..from + q as usize]);
        self.put(b'"')
    }
}
