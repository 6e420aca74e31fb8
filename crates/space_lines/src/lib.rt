// The section of a space as text: its `S` line and, for a property space, all `T`, all `M`, all `D`, all `X` and all `E` lines.
// Document 01, "Listing", and document 02, No. 2.
#![tactic(auto)]

ghost use Rattle.std.specs.Prelude.{length};
ghost use Rattle.masks.specs.Sets.{members_of};
ghost use Rattle.model.specs.Text.{text};
ghost use Rattle.properties.specs.Tables.{bags_in};
ghost use Rattle.text.specs.Kinds.{kind_says};
ghost use Rattle.text.specs.Room.{Room};
ghost use Rattle.text.specs.Written.{Writes};
ghost use Rattle.space_lines.specs.OwnLines.{invariant_lines, condition_lines, own_lines, Listable};

use sections::comparisons::write_comparisons;
use sections::limits::write_limits;
use sections::states::write_states;
use text::kinds::Kind;

// The invariants that the conditions in a table give, all `M`, all `D` and all `X` lines, and the `E` lines.
fn write_invariants(
    out: &mut [u8],
    table: &[u16],
    count: usize,
    own: &[usize],
    arities: &[u8],
) -> usize
    requires listable { Listable own.now arities.now table.now count }
    requires room { Room (text (invariant_lines arities.now own.now (bags_in (length own.now) count table.now))) out.old }
    ensures { Writes
        (text (invariant_lines arities.now own.now (bags_in (length own.now) count table.now)))
        out.old
        out.new
        result }
{
    let at = write_limits(out, table, count, own, arities);
    let n = write_comparisons(&mut out[at..], table, count, own.len());
    at + n
}

// The lines of the conditions in a table: all `T` lines, and their invariants.
fn write_conditions(
    out: &mut [u8],
    table: &[u16],
    count: usize,
    own: &[usize],
    arities: &[u8],
) -> usize
    requires listable { Listable own.now arities.now table.now count }
    requires room { Room (text (condition_lines arities.now own.now (bags_in (length own.now) count table.now))) out.old }
    ensures { Writes
        (text (condition_lines arities.now own.now (bags_in (length own.now) count table.now)))
        out.old
        out.new
        result }
{
    let at = write_states(out, table, count, own.len());
    let n = write_invariants(&mut out[at..], table, count, own, arities);
    at + n
}

// The section of a space: its number and kind, its own properties and its members, as a mask, and its conditions in the first rows of a
// table. The arities of all properties are given by number.
pub fn write_space(
    out: &mut [u8],
    number: usize,
    kind: Kind,
    own: &[usize],
    members: u64,
    table: &[u16],
    count: usize,
    arities: &[u8],
) -> usize
    requires listable { Listable own.now arities.now table.now count }
    requires room { Room
        (text
        (own_lines number (kind_says kind) own.now (members_of members) arities.now (bags_in (length own.now) count table.now)))
        out.old }
    ensures { Writes
        (text
        (own_lines
        number
        (kind_says kind)
        own.now
        (members_of members)
        arities.now
        (bags_in (length own.now) count table.now)))
        out.old
        out.new
        result }
{
    let at = text::lists::write_space(out, number, kind, own, members);
    let n = write_conditions(&mut out[at..], table, count, own, arities);
    at + n
}
