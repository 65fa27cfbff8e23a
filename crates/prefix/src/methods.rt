ghost use Rattle.std.specs.Prelude.{◌≡◌, min, true, false, [], length, take, MatchOption};
ghost use Rattle.std.specs.List.{slice_get};
ghost use Rattle.prefix.specs.Bits.{begins, common, number};
ghost use Rattle.prefix.specs.Model.{address_bits, bits, canonical};

use crate::cidr::Prefix;
use crate::shift::{first_bits, shr};

impl Prefix {
    // The prefix network/len, or none where it is longer than an address or has a bit set after its length.
    pub fn new(network: u32, len: u8) -> Option<Prefix>
        ensures { MatchOption result (canonical 32 network len ≡ false) (λ p. (canonical 32 network len ≡ true) × (bits p ≡ take len (address_bits network))) }
    {
        if len > 32 || first_bits(network, len) != network {
            return None;
        }
        Some(Prefix { network, len })
    }

    // The prefix of no bits, with which every address begins.
    pub fn empty() -> Prefix
        ensures value { bits result ≡ [] }
        ensures long { length (bits result) ≡ 0 }
    {
        Prefix { network: 0, len: 0 }
    }

    // All the bits of an address.
    pub fn host(address: u32) -> Prefix
        ensures value { bits result ≡ address_bits address }
        ensures long { length (bits result) ≡ 32 }
    {
        Prefix {
            network: address,
            len: 32,
        }
    }

    // How many bits it has.
    #[tactic(auto, using(crate::proofs::Meaning::bits_length))]
    pub fn len(self) -> u8
        ensures { result ≡ length (bits self) }
    {
        self.len
    }

    // Its bits as a number of 32 bits, with zeros after them.
    #[tactic(auto, using(crate::proofs::Meaning::bits_number))]
    pub fn network(self) -> u32
        ensures { result ≡ number 32 (bits self) }
    {
        self.network
    }

    // The bit at a place, the first at 0; none past its length.
    pub fn bit(self, place: u8) -> Option<bool>
        ensures { result ≡ slice_get (bits self) place }
    {
        if place >= self.len {
            return None;
        }
        Some(shr(self.network, 31 - place) % 2 == 1)
    }

    // Its first `len` bits; all where it has no more.
    pub fn cut(self, len: u8) -> Prefix
        ensures value { bits result ≡ take len (bits self) }
        ensures long { length (bits result) ≡ min len (length (bits self)) }
    {
        if len >= self.len {
            return self;
        }
        Prefix {
            network: first_bits(self.network, len),
            len,
        }
    }

    // How many bits both begin with.
    pub fn common(self, other: Prefix) -> u8
        ensures { result ≡ common (bits self) (bits other) }
    {
        let shared = (self.network ^ other.network).leading_zeros() as u8;
        shared.min(self.len).min(other.len)
    }

    // Whether an address begins with it.
    pub fn contains(self, address: u32) -> bool
        ensures { result ≡ begins (bits self) (address_bits address) }
    {
        (self.network ^ address).leading_zeros() >= u32::from(self.len)
    }
}
