// The side of an address as a number and as text.
ghost use Rattle.std.specs.Prelude.{◌≡◌, Some};
ghost use Rattle.isa.specs.Sides.{IsSideOf, side_number, side_text};

use super::kinds::Side;
use std::fmt;

// The error for a number of no side.
#[derive(Clone, Copy, PartialEq, Eq, Debug)]
pub struct NoSide;

impl From<Side> for u16 {
    ghost from_gives = { λ side n. n ≡ side_number side };

    fn from(side: Side) -> u16 {
        match side {
            Side::Code => 0,
            Side::Data => 1,
        }
    }
}

impl TryFrom<u16> for Side {
    type Error = NoSide;

    ghost try_from_gives = { IsSideOf };

    fn try_from(n: u16) -> Result<Side, NoSide> {
        match n {
            0 => Ok(Side::Code),
            1 => Ok(Side::Data),
            _ => Err(NoSide),
        }
    }
}

impl fmt::Display for Side {
    ghost output = { λ side. Some (side_text side) };

    fn fmt<W: fmt::Write>(&self, f: &mut fmt::Formatter<W>) -> fmt::Result {
        f.write_str(match self {
            Side::Code => "code",
            Side::Data => "data",
        })
    }
}
