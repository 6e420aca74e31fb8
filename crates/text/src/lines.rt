// The lines with one or two numbers.
ghost use Rattle.std.specs.Prelude.{[], ◌∷◌, ◌++◌};
ghost use Rattle.model.specs.Lines.{limit, membership, exclusion, nesting, total, ceiling};
ghost use Rattle.model.specs.Text.{decimal, spaced, line_text};
ghost use Rattle.text.specs.Letters.{newline};
ghost use Rattle.text.specs.Room.{Room};
ghost use Rattle.text.specs.Written.{Writes};

use crate::numbers::{write_one, write_two};

// A line of a letter and two numbers.
fn write_pair(out: &mut [u8], letter: u8, a: usize, b: usize) -> usize
    requires { Room (spaced ((letter ∷ []) ∷ decimal a ∷ decimal b ∷ []) ++ (newline ∷ [])) out.old }
    ensures { Writes (spaced ((letter ∷ []) ∷ decimal a ∷ decimal b ∷ []) ++ (newline ∷ [])) out.old out.new result }
{
    let at = write_two(out, letter, a, b);
    out[at] = b'\n';
    at + 1
}

// `M`: a property, and the most of it that a condition has.
pub fn write_limit(out: &mut [u8], c: usize, most: usize) -> usize
    requires { Room (line_text (limit c most)) out.old }
    ensures { Writes (line_text (limit c most)) out.old out.new result }
{
    write_pair(out, b'M', c, most)
}

// `D`: the index of a condition that strictly contains no other.
pub fn write_membership(out: &mut [u8], index: usize) -> usize
    requires { Room (line_text (membership index)) out.old }
    ensures { Writes (line_text (membership index)) out.old out.new result }
{
    let end = write_one(out, b'D', index);
    out[end] = b'\n';
    end + 1
}

// `X`: two `D` indices.
pub fn write_exclusion(out: &mut [u8], i: usize, j: usize) -> usize
    requires { Room (line_text (exclusion i j)) out.old }
    ensures { Writes (line_text (exclusion i j)) out.old out.new result }
{
    write_pair(out, b'X', i, j)
}

// `E`: the index of a condition, and that of one that it is strictly within.
pub fn write_nesting(out: &mut [u8], i: usize, j: usize) -> usize
    requires { Room (line_text (nesting i j)) out.old }
    ensures { Writes (line_text (nesting i j)) out.old out.new result }
{
    write_pair(out, b'E', i, j)
}

// `F`: a predicate and its total.
pub fn write_total(out: &mut [u8], predicate: usize, n: usize) -> usize
    requires { Room (line_text (total predicate n)) out.old }
    ensures { Writes (line_text (total predicate n)) out.old out.new result }
{
    write_pair(out, b'F', predicate, n)
}

// `C`: a predicate and its initial number of facts.
pub fn write_ceiling(out: &mut [u8], predicate: usize, n: usize) -> usize
    requires { Room (line_text (ceiling predicate n)) out.old }
    ensures { Writes (line_text (ceiling predicate n)) out.old out.new result }
{
    write_pair(out, b'C', predicate, n)
}
