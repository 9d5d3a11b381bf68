// A pen writes bytes, and numbers in decimal without leading zeros, into a lent slice as far as there is room for them; its place is past them in any
// case.
#![tactic(auto)]

ghost use Rattle.std.specs.Prelude.{[], ◌∷◌};
ghost use Rattle.statement.specs.Decimal.{decimal};
ghost use Rattle.newick_digits.specs.Pen.{Fits, Wrote};

// The slice, and the place of the next byte.
#[derive(Drop)]
pub struct Pen<'a> {
    pub out: &'a mut [u8],
    pub at: usize,
}

impl<'a> Pen<'a> {
    // One byte, where there is room for it.
    pub fn put(&mut self, b: u8)
        requires { Fits self.old (b ∷ []) }
        ensures { Wrote self.old self.new (b ∷ []) }
    {
        if self.at < self.out.len() {
            self.out[self.at] = b;
        }
        self.at += 1;
    }

    // A number in decimal, where there is room for it.
    pub fn put_number(&mut self, n: u64)
        requires { Fits self.old (decimal n) }
        ensures { Wrote self.old self.new (decimal n) }
    {
        if n >= 10 {
            self.put_number(n / 10);
        }
        self.put(b'0' + (n % 10) as u8);
    }
}
