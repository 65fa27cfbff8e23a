ghost use Rattle.std.specs.Prelude.{◌≡◌, Some};
ghost use Rattle.transition.specs.Model.{number_of, refusal_text};

use std::error::Error;
use std::fmt;

// Why a plan is not made.
#[derive(Clone, Copy, PartialEq, Eq, Debug)]
pub enum Refusal {
    // While going over, the device would have to hold more lines than it can.
    TooManyLines,
    // The slice that was lent has fewer places than the plan has writes.
    SliceTooShort,
}

// The number by which it is known outside; 0 where it has none.
impl From<Refusal> for u8 {
    ghost from_gives = { λ refusal number. number ≡ number_of refusal };

    fn from(refusal: Refusal) -> u8 {
        match refusal {
            Refusal::TooManyLines => 7,
            Refusal::SliceTooShort => 0,
        }
    }
}

impl fmt::Display for Refusal {
    ghost output = { λ refusal. Some (refusal_text refusal) };

    fn fmt<W: fmt::Write>(&self, f: &mut fmt::Formatter<W>) -> fmt::Result {
        f.write_str(match self {
            Refusal::TooManyLines => "going over takes more lines than the device holds",
            Refusal::SliceTooShort => "the slice has fewer places than the plan has writes",
        })
    }
}

impl Error for Refusal {}
