// What becomes of a text in the end: it stands at the front of the slice, with zeros behind it.
ghost use Rattle.std.specs.Prelude.{◌≡◌, List, ℕ, ◌+◌, ◌≤◌, ◌<◌, length, replicate};
ghost use Rattle.writing.specs.Wrote.{WroteAt};
ghost use Rattle.writing.specs.Written.{room, Gives};

// The longest text.
const LONGEST: usize = 65536;

// The longest text that a slice of n bytes takes. One more is where its last byte is put before.
pub fn room(n: usize) -> usize
    ensures { result ≡ room n }
{
    n.min(LONGEST)
}

// No text: there was no room, or none ends where the longest one may.
fn none(out: &mut [u8]) -> Option<usize>
    ensures is { result ≡ None }
    ensures zeroed { out.new ≡ replicate (length out.old) 0 }
{
    out.fill(0);
    None
}

// A text that ends where the longest one may, and begins before `at`.
fn front(out: &mut [u8], at: usize) -> Option<usize>
    requires { at ≤ room (length out.old) + 1 }
    ensures { (t before : List ℕ) (start : ℕ) → start ≡ room (length before) + 1 → WroteAt t before start out.old at → Gives t (length before) result out.new }
{
    if at == 0 {
        return none(out);
    }
    let end = room(out.len());
    let m = end + 1 - at;
    out.copy_within(at - 1..end, 0);
    out[m..].fill(0);
    Some(m)
}

// The same before any place; none where `at` lies past the end of the longest text.
pub fn front_of_any(out: &mut [u8], at: usize) -> Option<usize>
    ensures gives { (t before : List ℕ) (start : ℕ) → start ≡ room (length before) + 1 → WroteAt t before start out.old at → Gives t (length before) result out.new }
    ensures none { room (length out.old) + 1 < at → (result ≡ None) × (out.new ≡ replicate (length out.old) 0) }
{
    if room(out.len()) + 1 < at {
        return none(out);
    }
    front(out, at)
}
