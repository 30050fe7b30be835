// A slice shown by its length and two sums of all its words.
ghost use Rattle.std.specs.Prelude.{◌≡◌, ◌+◌, ◌*◌, ◌%◌, ◌<◌, ◌≤◌, ◌^◌, length};
ghost use Rattle.std.specs.List.{FoldsTo};
ghost use Rattle.cases.specs.Sums.{Adds};

use std::fmt;
use std::fmt::{Display, Formatter};

// Each word w, a byte or more, makes the sum x into x * BASE + w + 1, modulo a prime.
fn add<const BASE: u64, const PRIME: u64>(x: u64, w: u32) -> u64
    requires base { BASE < 2 ^ 31 }
    requires prime { (0 < PRIME) × (PRIME ≤ 2 ^ 32) }
    requires sum { x < 2 ^ 32 }
    ensures bound { result < PRIME }
    ensures value { result ≡ (x * BASE + w + 1) % PRIME }
{
    (x * BASE + u64::from(w) + 1) % PRIME
}

#[derive(Clone, Copy)]
pub struct Sums {
    count: usize,
    first: u64,
    second: u64,
}

impl Sums {
    pub fn of<T: Copy + Into<u32>>(words: &[T]) -> Sums
        ensures count { result.count ≡ length words.now }
        ensures first { FoldsTo (Adds T.converts 65599 4294967291) 0 words.now result.first }
        ensures second { FoldsTo (Adds T.converts 69069 4294967279) 0 words.now result.second }
    {
        let mut first = 0;
        let mut second = 0;
        for w in words {
            let w: u32 = (*w).into();
            first = add::<65599, 4294967291>(first, w);
            second = add::<69069, 4294967279>(second, w);
        }
        Sums {
            count: words.len(),
            first,
            second,
        }
    }
}

impl Display for Sums {
    fn fmt<W: fmt::Write>(&self, f: &mut Formatter<W>) -> fmt::Result {
        let Sums {
            count,
            first,
            second,
        } = self;
        write!(f, " |")?;
        write!(f, " {count} {first} {second}")
    }
}
