// Bytes, decimal numbers, and the start of a line: a letter and its numbers. A writer asks for as much room as its bytes take.
ghost use Rattle.std.specs.Prelude.{[], ◌∷◌};
ghost use Rattle.model.specs.Text.{decimal, spaced};
ghost use Rattle.text.specs.Letters.{blank};
ghost use Rattle.text.specs.Room.{Room};
ghost use Rattle.text.specs.Written.{Writes};

// One byte.
pub fn write_byte(out: &mut [u8], b: u8) -> usize
    requires { Room (b ∷ []) out.old }
    ensures { Writes (b ∷ []) out.old out.new result }
{
    out[0] = b;
    1
}

// A blank and a byte.
pub fn write_mark(out: &mut [u8], b: u8) -> usize
    requires { Room (blank ∷ b ∷ []) out.old }
    ensures { Writes (blank ∷ b ∷ []) out.old out.new result }
{
    let at = write_byte(out, b' ');
    out[at] = b;
    at + 1
}

// A number in decimal. Nearly all numbers of a listing have one digit or two, so these are written at once.
pub fn write_decimal(out: &mut [u8], n: usize) -> usize
    requires { Room (decimal n) out.old }
    ensures { Writes (decimal n) out.old out.new result }
{
    if n < 10 {
        out[0] = b'0' + n as u8;
        return 1;
    }
    if n < 100 {
        out[0] = b'0' + (n / 10) as u8;
        out[1] = b'0' + (n % 10) as u8;
        return 2;
    }
    let at = write_decimal(out, n / 10);
    out[at] = b'0' + (n % 10) as u8;
    at + 1
}

// A blank and a number.
pub fn write_item(out: &mut [u8], n: usize) -> usize
    requires { Room (blank ∷ decimal n) out.old }
    ensures { Writes (blank ∷ decimal n) out.old out.new result }
{
    let at = write_byte(out, b' ');
    let n = write_decimal(&mut out[at..], n);
    at + n
}

// A letter and a number.
pub fn write_one(out: &mut [u8], letter: u8, a: usize) -> usize
    requires { Room (spaced ((letter ∷ []) ∷ decimal a ∷ [])) out.old }
    ensures { Writes (spaced ((letter ∷ []) ∷ decimal a ∷ [])) out.old out.new result }
{
    let at = write_byte(out, letter);
    let n = write_item(&mut out[at..], a);
    at + n
}

// A letter and two numbers.
pub fn write_two(out: &mut [u8], letter: u8, a: usize, b: usize) -> usize
    requires { Room (spaced ((letter ∷ []) ∷ decimal a ∷ decimal b ∷ [])) out.old }
    ensures { Writes (spaced ((letter ∷ []) ∷ decimal a ∷ decimal b ∷ [])) out.old out.new result }
{
    let at = write_one(out, letter, a);
    let n = write_item(&mut out[at..], b);
    at + n
}
