// Which conditions are strictly within which: an `E` line for each two.
ghost use Rattle.std.specs.Prelude.{◌≡◌, ◌≤◌, ◌<◌, length};
ghost use Rattle.model.specs.Text.{text};
ghost use Rattle.sections.specs.Nestings.{nestings_of, nestings_by};
ghost use Rattle.text.specs.Room.{Room};
ghost use Rattle.text.specs.Written.{Writes};

use masks::{first_member, is_member, without_first};
use text::lines::write_nesting;

// The `E` lines of condition i: of those that contain it, the ones that it does not contain.
fn write_nestings_of(out: &mut [u8], containing: &[u64], i: usize) -> usize
    requires { (length containing.now ≡ 64) × (i < 64) × Room (text (nestings_of containing.now i)) out.old }
    ensures { Writes (text (nestings_of containing.now i)) out.old out.new result }
{
    let mut rest = containing[i];
    let mut at = 0;
    while rest != 0 {
        let j = first_member(rest);
        rest = without_first(rest);
        if !is_member(containing[j], i) {
            let n = write_nesting(&mut out[at..], i, j);
            at += n;
        }
    }
    at
}

// The `E` lines of the first conditions, ascending, from the mask of those that contain each.
pub(crate) fn write_nestings(out: &mut [u8], containing: &[u64], count: usize) -> usize
    requires { (length containing.now ≡ 64) × (count ≤ 64) × Room (text (nestings_by containing.now count)) out.old }
    ensures { Writes (text (nestings_by containing.now count)) out.old out.new result }
{
    let mut at = 0;
    for i in 0..count {
        let n = write_nestings_of(&mut out[at..], containing, i);
        at += n;
    }
    at
}
