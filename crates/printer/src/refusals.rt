// The line that the program prints for a refused card: `refused` and the number.
ghost use Rattle.std.specs.Prelude.{◌≡◌, ◌≤◌, take};
ghost use Rattle.card.specs.Represents.{refusal_number};
ghost use Rattle.printer.specs.Shown.{Shows};

use card::{Refusal, refusal_number};

#[derive(Clone, Copy)]
pub struct Line {
    bytes: [u8; 11],
    length: usize,
}

impl Line {
    // The bytes of the line, which are the first ones.
    pub fn text(&self) -> &[u8]
        requires { self.now.length ≤ 11 }
        ensures { result.now ≡ take self.now.length self.now.bytes }
    {
        &self.bytes[..self.length]
    }
}

// The line, with one digit or two.
pub fn refused_line(refusal: Refusal) -> Line
    ensures { Shows (refusal_number refusal) result }
{
    let n = refusal_number(refusal);
    let has_one_digit = n < 10;
    if has_one_digit {
        let mut bytes = *b"refused 0\n\0";
        bytes[8] += n;
        return Line { bytes, length: 10 };
    }
    let mut bytes = *b"refused 00\n";
    bytes[8] += n / 10;
    bytes[9] += n % 10;
    Line { bytes, length: 11 }
}
