// A lent slice that is written from the back: one byte, a text, bytes of the source, and spaces.
ghost use Rattle.std.specs.Prelude.{◌≡◌, List, [], ◌∷◌, ℕ, ◌+◌, ◌≤◌, ◌<◌, length, replicate};
ghost use Rattle.source.specs.Bytes.{part};

use crate::front::{front_of_any, room};

// A text, byte by byte: the library's `copy_from_slice` would be a call of memmove, which whoever links the archive would have to have.
fn copy(out: &mut [u8], text: &[u8])
    requires { length out.old ≡ length text.now }
    ensures { out.new ≡ text.now }
{
    for k in 0..text.len() {
        out[k] = text[k];
    }
}

// What is put stands before what was put earlier.
#[derive(Drop)]
pub struct Back<'a> {
    out: &'a mut [u8],
    // One more than the place of the byte written last, and 0 once there was no room: no byte is put then. An Option would be asked at each byte.
    at: usize,
    ghost within: { at ≤ length out.now + 1 },
}

impl<'a> Back<'a> {
    ghost use Rattle.writing.specs.Wrote.{Wrote, Empty};
    ghost use Rattle.writing.specs.Written.{room, Gives};

    // Nothing is written yet. The slice takes a text of its own length, or the longest.
    pub fn new(out: &'a mut [u8]) -> Back<'a>
        ensures empty { Empty result out.old }
        ensures same { result.out.ghost_name ≡ out.entry.ghost_name }
    {
        let at = room(out.len()) + 1;
        Back::at(out, at)
    }

    // Bytes are put before a place that the caller chooses, in a slice of any length. Let go without `to_front`, what was put stays where it is.
    pub fn at(out: &'a mut [u8], at: usize) -> Back<'a>
        requires { at ≤ length out.old + 1 }
        ensures at { result.at ≡ at }
        ensures holds { result.out.now ≡ out.old }
        ensures same { result.out.ghost_name ≡ out.entry.ghost_name }
    {
        Back { out, at }
    }

    // The place that the next byte is put before, as `at` takes it.
    pub fn place(&self) -> usize
        ensures { result ≡ self.now.at }
    {
        let Back { at, .. } = self;
        *at
    }

    pub fn put(&mut self, b: u8)
        ensures { Wrote (b ∷ []) self.old self.new }
    {
        if self.at < 2 {
            self.at = 0;
            return;
        }
        self.at -= 1;
        let place = self.at - 1;
        self.out[place] = b;
    }

    // All of a text: room is asked for once.
    pub fn put_bytes(&mut self, text: &[u8])
        ensures { Wrote text.now self.old self.new }
    {
        let last = self.at;
        if last <= text.len() {
            self.at = 0;
            return;
        }
        let first = last - text.len();
        self.at = first;
        copy(&mut self.out[first - 1..last - 1], text);
    }

    // The bytes of the source between two places: a name, or a Float as it is spelled.
    pub fn put_part(&mut self, src: &[u8], from: u32, to: u32)
        requires { (from ≤ to) × (to ≤ length src.now) }
        ensures { Wrote (part src.now from to) self.old self.new }
    {
        self.put_bytes(&src[from as usize..to as usize]);
    }

    // So many spaces, as a line begins with two for each level.
    pub fn put_spaces(&mut self, n: usize)
        ensures { Wrote (replicate n 32) self.old self.new }
    {
        let last = self.at;
        if last <= n {
            self.at = 0;
            return;
        }
        let first = last - n;
        self.at = first;
        self.out[first - 1..last - 1].fill(b' ');
    }

    // The end: whatever text was written before `room + 1` stands at the front, and zeros behind it; all is zero, and the answer none, where there was no room for it,
    // and where it begins past that.
    pub fn to_front(self) -> Option<usize>
        ensures gives { (t before : List ℕ) (start : Back) → Empty start before → Wrote t start self.entry → Gives t (length before) result self.exit.0.now }
        ensures none { room (length self.entry.out.now) + 1 < self.entry.at → (result ≡ None) × (self.exit.0.now ≡ replicate (length self.entry.out.now) 0) }
    {
        let Back { out, at } = self;
        front_of_any(out, at)
    }
}
