ghost use Rattle.std.specs.Prelude.{◌≡◌, Some, decimal};
ghost use Rattle.samples.specs.Numbers.{added};

use std::fmt;

// A check sum over numbers in their order.
#[derive(Clone, Copy, PartialEq, Eq, Default, Debug)]
pub struct CheckSum(u64);

impl CheckSum {
    // Takes one number more into the sum.
    pub fn add(&mut self, n: u64)
        ensures { self.new.0 ≡ added self.old.0 n }
    {
        self.0 = self.0.wrapping_mul(31).wrapping_add(n);
    }
}

impl fmt::Display for CheckSum {
    ghost output = { λ sum. Some (decimal sum.0) };

    fn fmt<W: fmt::Write>(&self, f: &mut fmt::Formatter<W>) -> fmt::Result {
        write!(f, "{}", self.0)
    }
}
