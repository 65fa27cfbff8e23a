ghost use Rattle.std.specs.Prelude.{◌≡◌};
ghost use Rattle.prefix.specs.Model.{bits, compared};

use crate::cidr::Prefix;
use std::cmp::Ordering;

impl Prefix {
    // The order of tables, said of the bits: it is the derived one.
    pub fn compare(self, other: Prefix) -> Ordering
        ensures { result ≡ compared (bits self) (bits other) }
    {
        self.cmp(&other)
    }
}
