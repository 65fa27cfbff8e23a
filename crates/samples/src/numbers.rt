ghost use Rattle.samples.specs.Numbers.{Follows};

// A fixed sequence of numbers that look random; the same start gives the same numbers.
#[derive(Debug, Drop)]
pub struct Numbers(pub u64);

impl Iterator for Numbers {
    type Item = u64;

    ghost next_gives = { Follows };

    fn next(&mut self) -> Option<u64> {
        self.0 = self
            .0
            .wrapping_mul(6364136223846793005)
            .wrapping_add(1442695040888963407);
        Some(self.0)
    }
}
