// The lines with lists: `S`, `T` and `R`.
ghost use Rattle.std.specs.Prelude.{◌≡◌, [], ◌∷◌};
ghost use Rattle.masks.specs.Sets.{members_of};
ghost use Rattle.model.specs.Lines.{space, state, types};
ghost use Rattle.model.specs.Text.{kind_letter, line_text};
ghost use Rattle.text.specs.Kinds.{kind_says, space_front};
ghost use Rattle.text.specs.Letters.{blank, colon_byte};
ghost use Rattle.text.specs.Room.{Room};
ghost use Rattle.text.specs.Written.{Writes};

use crate::kinds::Kind;
use crate::numbers::{write_byte, write_mark, write_one, write_two};
use crate::rows::{write_last_counts, write_last_members, write_numbers};

// `T`: the counts of a condition.
pub fn write_state(out: &mut [u8], counts: &[u16]) -> usize
    requires { Room (line_text (state counts.now)) out.old }
    ensures { Writes (line_text (state counts.now)) out.old out.new result }
{
    let at = write_byte(out, b'T');
    let list = write_last_counts(&mut out[at..], counts);
    at + list
}

// `R`: a schema, a parameter and the objects that it may stand for, as a mask.
pub fn write_types(out: &mut [u8], schema: usize, parameter: usize, objects: u64) -> usize
    requires { Room (line_text (types schema parameter (members_of objects))) out.old }
    ensures { Writes (line_text (types schema parameter (members_of objects))) out.old out.new result }
{
    let at = write_two(out, b'R', schema, parameter);
    let n = write_last_members(&mut out[at..], objects);
    at + n
}

// The kind of a space and a colon.
fn write_kind(out: &mut [u8], kind: Kind) -> usize
    requires { Room (blank ∷ kind_letter (kind_says kind) ∷ blank ∷ colon_byte ∷ []) out.old }
    ensures { Writes (blank ∷ kind_letter (kind_says kind) ∷ blank ∷ colon_byte ∷ []) out.old out.new result }
{
    let at = write_mark(out, u8::from(kind));
    let n = write_mark(&mut out[at..], b':');
    at + n
}

// An `S` line up to the first colon.
fn write_space_head(out: &mut [u8], number: usize, kind: Kind) -> usize
    requires { Room (space_front number (kind_says kind) []) out.old }
    ensures { Writes (space_front number (kind_says kind) []) out.old out.new result }
{
    let at = write_one(out, b'S', number);
    let n = write_kind(&mut out[at..], kind);
    at + n
}

// An `S` line up to its properties.
fn write_space_front(out: &mut [u8], number: usize, kind: Kind, own: &[usize]) -> usize
    requires { Room (space_front number (kind_says kind) own.now) out.old }
    ensures { Writes (space_front number (kind_says kind) own.now) out.old out.new result }
{
    let at = write_space_head(out, number, kind);
    let n = write_numbers(&mut out[at..], own);
    at + n
}

// `S`: a space, its kind, its own properties, and its members, as a mask.
pub fn write_space(out: &mut [u8], number: usize, kind: Kind, own: &[usize], members: u64) -> usize
    requires { Room (line_text (space number (kind_says kind) own.now (members_of members))) out.old }
    ensures { Writes
        (line_text (space number (kind_says kind) own.now (members_of members)))
        out.old
        out.new
        result }
{
    let at = write_space_front(out, number, kind, own);
    let n = write_last_members(&mut out[at..], members);
    at + n
}
