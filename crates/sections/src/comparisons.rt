// What comparing the conditions with each other gives: all `D`, all `X` and all `E` lines.
ghost use Rattle.std.specs.Prelude.{◌≡◌, true, ◌++◌, ◌≤◌, ltb, length};
ghost use Rattle.laws.specs.Lists.{all};
ghost use Rattle.model.specs.Text.{text};
ghost use Rattle.properties.specs.Tables.{bags_in, HasRows};
ghost use Rattle.sections.specs.Comparisons.{comparison_lines};
ghost use Rattle.sections.specs.Exclusions.{exclusions_by};
ghost use Rattle.sections.specs.Nestings.{nestings_by};
ghost use Rattle.text.specs.Room.{Room};
ghost use Rattle.text.specs.Written.{Writes};

use crate::minimal::{write_exclusions, write_memberships};
use crate::nestings::write_nestings;
use conditions::minimal::minimal_of;

// The lines that name two conditions: the `X` lines of some indices, and the `E` lines of the first conditions.
fn write_pairs(out: &mut [u8], containing: &[u64], indices: &[u8], count: usize) -> usize
    requires { (length containing.now ≡ 64)
        × (all (λ i. ltb i (length containing.now)) indices.now ≡ true)
        × (count ≤ 64)
        × Room (text (exclusions_by containing.now indices.now ++ nestings_by containing.now count)) out.old }
    ensures { Writes
        (text (exclusions_by containing.now indices.now ++ nestings_by containing.now count))
        out.old
        out.new
        result }
{
    let at = write_exclusions(out, containing, indices);
    let n = write_nestings(&mut out[at..], containing, count);
    at + n
}

// The `D`, the `X` and the `E` lines of the conditions in the first rows of a table.
pub fn write_comparisons(out: &mut [u8], table: &[u16], count: usize, size: usize) -> usize
    requires { HasRows size count table.now × (count ≤ 64) × Room (text (comparison_lines (bags_in size count table.now))) out.old }
    ensures { Writes (text (comparison_lines (bags_in size count table.now))) out.old out.new result }
{
    let found = minimal_of(table, count, size);
    let n = found.count;
    let indices = found.indices;
    let containing = found.containing;
    let at = write_memberships(out, &indices[0..n]);
    let m = write_pairs(&mut out[at..], &containing, &indices[0..n], count);
    at + m
}
