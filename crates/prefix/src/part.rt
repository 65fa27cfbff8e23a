ghost use Rattle.std.specs.Prelude.{◌≡◌, ◌+◌, ◌<◌, ◌≤◌, [], ◌∷◌, ◌++◌, length, take, MatchOption};
ghost use Rattle.prefix.specs.Model.{bits, Parted};

use crate::cidr::Prefix;
use crate::shift::{shl, shr};

// How one prefix stands to another.
#[derive(Clone, Copy, PartialEq, Eq, Debug)]
pub enum Parting {
    Same,
    // It goes on below the other: the next bit, and the rest.
    Below(bool, Prefix),
    // The other goes on below it.
    Above(bool, Prefix),
    // Both go on, apart: what they share, the next bit and the rest of this one, and the rest of the other.
    Apart(Prefix, bool, Prefix, Prefix),
}

impl Prefix {
    // It, a bit more, and then the rest; none where that is longer than an address.
    pub fn join(self, side: bool, rest: Prefix) -> Option<Prefix>
        ensures { MatchOption result (32 < length (bits self) + 1 + length (bits rest)) (λ p. bits p ≡ bits self ++ (side ∷ bits rest)) }
    {
        if self.len + rest.len >= 32 {
            return None;
        }
        // the three parts have no set bit in common
        let network = self.network
            + (shl(u32::from(side), 31 - self.len) + shr(rest.network, self.len + 1));
        Some(Prefix {
            network,
            len: self.len + 1 + rest.len,
        })
    }

    // The prefix one bit longer on a side; none where it is all of an address.
    pub fn child(self, side: bool) -> Option<Prefix>
        ensures { MatchOption result (length (bits self) ≡ 32) (λ p. bits p ≡ bits self ++ (side ∷ [])) }
    {
        self.join(side, Prefix::empty())
    }

    // The bit after the first `n`, and what follows it; none where it has no more than `n`.
    fn after(self, n: u8) -> Option<(bool, Prefix)>
        ensures { MatchOption result (length (bits self) ≤ n) (λ next. bits self ≡ take n (bits self) ++ (next.0 ∷ bits next.1)) }
    {
        let side = self.bit(n)?;
        let rest = Prefix {
            network: shl(self.network, n + 1),
            len: self.len - n - 1,
        };
        Some((side, rest))
    }

    // How it stands to another prefix.
    pub fn parting(self, other: Prefix) -> Parting
        ensures { Parted (bits self) (bits other) result }
    {
        let n = self.common(other);
        match (self.after(n), other.after(n)) {
            (None, None) => Parting::Same,
            (Some((side, rest)), None) => Parting::Below(side, rest),
            (None, Some((side, rest))) => Parting::Above(side, rest),
            (Some((side, rest)), Some((_, otherwise))) => {
                Parting::Apart(self.cut(n), side, rest, otherwise)
            }
        }
    }
}
