// Zeros in a part of a lent slice, at each width that the areas have.
#![tactic(auto)]

ghost use Rattle.std.specs.Prelude.{◌≡◌, ◌≤◌, length};
ghost use Rattle.areas.specs.Area.{filled_with};

// A width of memory, and its zero.
pub trait Zero: Copy {
    ghost zero: { Self };

    fn zero() -> Self
        ensures { result ≡ zero };
}

impl Zero for u8 {
    ghost zero = { 0 };

    fn zero() -> u8 {
        0
    }
}

impl Zero for u32 {
    ghost zero = { 0 };

    fn zero() -> u32 {
        0
    }
}

// Zeros from `from` up to `to`: at u8 and at u32 the clause says `s.new ≡ zeroed from to s.old`.
pub fn put_zeros<T: Zero>(s: &mut [T], from: usize, to: usize)
    requires { (from ≤ to) × (to ≤ length s.old) }
    ensures { s.new ≡ filled_with T.zero from to s.old }
{
    for x in &mut s[from..to] {
        *x = T::zero();
    }
}
