// Ints: the shortest digits, with a minus where negative.
ghost use Rattle.std.specs.Prelude.{◌≡◌, ◌+◌, ◌^◌, ◌≤◌, ◌<◌, length};
ghost use Rattle.numbers.specs.Digits.{digits};
ghost use Rattle.numbers.specs.Bits.{int_of};
ghost use Rattle.rendered.specs.Spelled.{spelled_int};
ghost use Rattle.writing.specs.Wrote.{Wrote};

use crate::back::Back;

fn digit(n: u64) -> u8
    requires { n < 10 }
    ensures { result ≡ 48 + n }
{
    b'0' + n as u8
}

impl Back<'_> {
    // The last digit first.
    fn put_digits(&mut self, n: u64)
        requires { n < 10 ^ 19 }
        ensures { Wrote (digits 19 n) self.old self.new }
    {
        let mut rest = n;
        while 10 <= rest {
            self.put(digit(rest % 10));
            rest /= 10;
        }
        self.put(digit(rest));
    }

    // The Int whose 64 bits have these halves.
    pub fn put_int(&mut self, low: u32, high: u32)
        ensures { Wrote (spelled_int (int_of low high)) self.old self.new }
    {
        let bits = low as u64 + 4294967296 * high as u64;
        if high < 2147483648 {
            self.put_digits(bits);
        } else {
            self.put_digits(u64::MAX - bits + 1);
            self.put(b'-');
        }
    }
}
