ghost use Rattle.std.specs.Prelude.{◌≡◌, ℕ, ◌&&◌, ◌||◌, ◌==◌, if◌then◌else◌, Some, decimal};
ghost use Rattle.std.specs.Fmt.{debug_list};
ghost use Rattle.aggregate.specs.Sets.{Empty, Lowest, has};

use std::ops::{BitAnd, BitOr};
use std::{array, fmt};
use table::NextHop;

// A set of next hops: a bit for each of the 256, in four words.
#[derive(Clone, Copy, PartialEq, Eq, PartialOrd, Ord, Hash, Default)]
pub struct HopSet {
    pub words: [u64; 4],
}

// It shows its words, as an array of them does.
impl fmt::Debug for HopSet {
    ghost debug_output = { λ set. debug_list (λ word. Some (decimal word)) set.words };

    fn fmt<W: fmt::Write>(&self, f: &mut fmt::Formatter<W>) -> fmt::Result {
        fmt::Debug::fmt(&self.words, f)
    }
}

impl HopSet {
    // The set of one next hop.
    pub fn only(hop: NextHop) -> HopSet
        ensures { (k : ℕ) → has result k ≡ (k == hop) }
    {
        let mut words = [0; 4];
        words[(hop / 64) as usize] = 1 << (hop % 64);
        HopSet { words }
    }

    // Whether a next hop is in the set.
    pub fn contains(&self, hop: NextHop) -> bool
        ensures { result ≡ has self.now hop }
    {
        (self.words[(hop / 64) as usize] >> (hop % 64)) % 2 == 1
    }

    // Whether the set has no next hop.
    pub fn is_empty(&self) -> bool
        ensures { Empty self.now result }
    {
        let [a, b, c, d] = self.words;
        a | b | c | d == 0
    }

    // The lowest next hop of the set, if it has one: the lowest bit of the first word that is not 0.
    pub fn lowest(&self) -> Option<NextHop>
        ensures { Lowest self.now result }
    {
        for (i, word) in self.words.iter().enumerate() {
            if *word != 0 {
                return Some((64 * i) as u8 + word.trailing_zeros() as u8);
            }
        }
        None
    }

    // This set, or in its place the other. Word by word, so that it compiles without a branch: which of them is asked for is often as good as random, and would be guessed wrong.
    pub(crate) fn or_if(self, replaced: bool, other: HopSet) -> HopSet
        ensures { (k : ℕ) → has result k ≡ (if replaced then has other k else has self k) }
    {
        HopSet {
            words: array::from_fn(|i| if replaced {
                other.words[i]
            } else {
                self.words[i]
            }),
        }
    }
}

// The next hops that both sets have.
impl BitAnd for HopSet {
    type Output = HopSet;

    ghost bitand_gives = { λ a b met. (k : ℕ) → has met k ≡ (has a k && has b k) };

    fn bitand(self, other: HopSet) -> HopSet {
        HopSet {
            words: array::from_fn(|i| self.words[i] & other.words[i]),
        }
    }
}

// The next hops that one or the other set has.
impl BitOr for HopSet {
    type Output = HopSet;

    ghost bitor_gives = { λ a b joined. (k : ℕ) → has joined k ≡ (has a k || has b k) };

    fn bitor(self, other: HopSet) -> HopSet {
        HopSet {
            words: array::from_fn(|i| self.words[i] | other.words[i]),
        }
    }
}
