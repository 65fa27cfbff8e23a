ghost use Rattle.std.specs.Prelude.{◌≡◌, ◌-◌, ◌%◌, ◌^◌, ◌<◌, ◌≤◌};

// How many lengths prefixes have: from no bit to all 32 of an address.
pub const LENGTHS: u8 = 33;

// A prefix as it is written in CIDR notation, 10.0.0.0/8: a network address whose first `len` bits count.
// It has at most 32 bits, and none is set after its length, so two prefixes are equal exactly where their bits are.
// The order of tables is that of the fields: by the bits as a number, then by length.
#[derive(Clone, Copy, PartialEq, Eq, PartialOrd, Ord, Debug)]
pub struct Prefix {
    pub(crate) network: u32,
    pub(crate) len: u8,
    ghost word: { network < 2 ^ 32 },
    ghost short: { len ≤ 32 },
    ghost clean: { network % 2 ^ (32 - len) ≡ 0 },
}
