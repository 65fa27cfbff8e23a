ghost use Rattle.std.specs.Prelude.{◌≡◌, ◌-◌, ◌*◌, ◌/◌, ◌%◌, ◌^◌};

// Without its lowest `n` bits: nothing is left where these are all 32 or more.
pub(crate) fn shr(word: u32, n: u8) -> u32
    ensures { result ≡ word / 2 ^ n }
{
    word.unbounded_shr(u32::from(n))
}

// Without its highest `n` bits, and with `n` zeros after it.
pub(crate) fn shl(word: u32, n: u8) -> u32
    ensures { result ≡ (word * 2 ^ n) % 2 ^ 32 }
{
    word.unbounded_shl(u32::from(n))
}

// Its first `n` bits, with zeros after them; all where it has no more.
pub(crate) fn first_bits(word: u32, n: u8) -> u32
    ensures { result ≡ word / 2 ^ (32 - n) * 2 ^ (32 - n) }
{
    let rest = 32u8.saturating_sub(n);
    shl(shr(word, rest), rest)
}
