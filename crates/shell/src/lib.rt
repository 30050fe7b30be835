// The input as it is read, and the program's answer to it: all of the program but the calls of the system. The fields of a state are private, so a
// program comes to one only by `start` and, read by read, by `take`.
#![tactic(auto)]

ghost use Rattle.std.specs.Prelude.{◌≡◌, true, false, [], ◌≤◌, length};
ghost use Rattle.printing.specs.Wrote.{Shows};

// What one read is lent.
pub const CHUNK: usize = 1024;

// Whether the end is still to come, and what was found there.
#[derive(Clone, Copy)]
enum Stage {
    Open,
    Whole,
    Longer,
    Failed,
}

// The first `len` bytes of the script were read.
#[derive(Clone, Copy)]
pub struct Reading {
    script: [u8; listing::MOST + 1],
    len: usize,
    stage: Stage,
    ghost room: { length script ≡ 1024 },
    ghost within: { len ≤ 1023 },
}

impl Reading {
    ghost use Rattle.shell.specs.Input.{Moved, handed, front, heard, shown, is_open_lem, has_failed_lem, input};

    // Before the first read.
    pub fn start() -> Reading
        ensures { input result ≡ front [] }
    {
        Reading {
            script: [0; listing::MOST + 1],
            len: 0,
            stage: Stage::Open,
        }
    }

    // One read more: how many bytes it put into the chunk that was lent to it, none of them at the end of the input, or that it failed.
    pub fn take(&mut self, got: Option<usize>, chunk: &[u8; CHUNK])
        requires reading_value { is_open_lem (input self.old) ≡ true }
        requires moved { Moved 1024 got }
        ensures { input self.new ≡ heard (input self.old) (handed got chunk.now) }
    {
        match got {
            None => self.stage = Stage::Failed,
            Some(0) => self.stage = Stage::Whole,
            Some(k) if listing::MOST - self.len < k => self.stage = Stage::Longer,
            Some(k) => {
                let end = self.len + k;
                self.script[self.len..end].copy_from_slice(&chunk[..k]);
                self.len = end;
            }
        }
    }

    // Whether the end is still to come.
    pub fn is_open(&self) -> bool
        ensures { result ≡ is_open_lem (input self.now) }
    {
        matches!(self.stage, Stage::Open)
    }

    // Whether a read failed.
    pub fn has_failed(&self) -> bool
        ensures { result ≡ has_failed_lem (input self.now) }
    {
        matches!(self.stage, Stage::Failed)
    }

    // Writes what the program prints for an input that is no longer open, and answers how many bytes that are. Any 1,024 bytes are a longer input.
    pub fn answer(&self, out: &mut [u8; listing::ROOM]) -> usize
        requires { is_open_lem (input self.now) ≡ false }
        ensures { Shows (shown (input self.now)) out.old out.new result }
    {
        match self.stage {
            Stage::Open | Stage::Failed => 0,
            Stage::Whole => listing::list(&self.script, self.len, out),
            Stage::Longer => listing::list(&self.script, listing::MOST + 1, out),
        }
    }
}
