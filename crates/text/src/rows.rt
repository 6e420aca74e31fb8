// Lists of numbers, each after one blank, and the last list of a line: a colon before it and the line's end after it.
ghost use Rattle.std.specs.Prelude.{ℕ, ◌≡◌, map};
ghost use Rattle.masks.specs.Sets.{members_of};
ghost use Rattle.text.specs.Numbers.{numbers, last_numbers};
ghost use Rattle.text.specs.Room.{Room};
ghost use Rattle.text.specs.Written.{Writes};

use crate::numbers::{write_item, write_mark};
use masks::{first_member, without_first};

// A number in the type that its list has.
pub trait Number: Copy {
    ghost value: { Self → ℕ };

    fn number(self) -> usize
        ensures { result ≡ value self };
}

impl Number for usize {
    ghost value = { λ n. n };

    fn number(self) -> usize {
        self
    }
}

impl Number for u16 {
    ghost value = { λ n. n };

    fn number(self) -> usize {
        usize::from(self)
    }
}

// The numbers of a list.
pub fn write_numbers<T: Number>(out: &mut [u8], list: &[T]) -> usize
    requires { Room (numbers (map T.value list.now)) out.old }
    ensures { Writes (numbers (map T.value list.now)) out.old out.new result }
{
    let mut at = 0;
    for &n in list {
        at += write_item(&mut out[at..], n.number());
    }
    at
}

// The counts as the last list of a line.
pub fn write_last_counts(out: &mut [u8], counts: &[u16]) -> usize
    requires { Room (last_numbers counts.now) out.old }
    ensures { Writes (last_numbers counts.now) out.old out.new result }
{
    let mut at = write_mark(out, b':');
    at += write_numbers(&mut out[at..], counts);
    out[at] = b'\n';
    at + 1
}

// The members of a mask, the lowest first. The mask is walked by its trailing zeros (document 01), so that no list of them is kept.
pub fn write_members(out: &mut [u8], mask: u64) -> usize
    requires { Room (numbers (members_of mask)) out.old }
    ensures { Writes (numbers (members_of mask)) out.old out.new result }
{
    let mut at = 0;
    let mut rest = mask;
    while rest != 0 {
        at += write_item(&mut out[at..], first_member(rest));
        rest = without_first(rest);
    }
    at
}

// The members as the last list of a line. No function for both lists: it would take a closure, and a clause on what that writes.
pub fn write_last_members(out: &mut [u8], mask: u64) -> usize
    requires { Room (last_numbers (members_of mask)) out.old }
    ensures { Writes (last_numbers (members_of mask)) out.old out.new result }
{
    let mut end = write_mark(out, b':');
    end += write_members(&mut out[end..], mask);
    out[end] = b'\n';
    end + 1
}
