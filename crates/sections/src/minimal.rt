// The minimal conditions, those that strictly contain no other: a `D` line for each, and an `X` line for each two of which no condition
// contains both.
ghost use Rattle.std.specs.Prelude.{◌≡◌, true, map, ◌<◌, ltb, length};
ghost use Rattle.laws.specs.Lists.{all, keep};
ghost use Rattle.model.specs.Lines.{membership, exclusion};
ghost use Rattle.model.specs.Text.{text};
ghost use Rattle.sections.specs.Exclusions.{excluded_by, exclusions_by};
ghost use Rattle.text.specs.Room.{Room};
ghost use Rattle.text.specs.Written.{Writes};

use masks::common;
use text::lines::{write_exclusion, write_membership};

// The `D` lines of some indices.
pub(crate) fn write_memberships(out: &mut [u8], indices: &[u8]) -> usize
    requires { Room (text (map membership indices.now)) out.old }
    ensures { Writes (text (map membership indices.now)) out.old out.new result }
{
    let mut at = 0;
    for &i in indices {
        let n = write_membership(&mut out[at..], usize::from(i));
        at += n;
    }
    at
}

// The `X` lines of one index with later ones: two exclude each other if the masks of the conditions that contain them share no member.
fn write_exclusions_of(out: &mut [u8], containing: &[u64], i: usize, later: &[u8]) -> usize
    requires { (i < length containing.now)
        × (all (λ j. ltb j (length containing.now)) later.now ≡ true)
        × Room (text (map (exclusion i) (keep (excluded_by containing.now i) later.now))) out.old }
    ensures { Writes
        (text (map (exclusion i) (keep (excluded_by containing.now i) later.now)))
        out.old
        out.new
        result }
{
    let own = containing[i];
    let mut at = 0;
    for &index in later {
        let j = usize::from(index);
        if common(own, containing[j]) == 0 {
            let n = write_exclusion(&mut out[at..], i, j);
            at += n;
        }
    }
    at
}

// The `X` lines of some indices, ascending.
pub(crate) fn write_exclusions(out: &mut [u8], containing: &[u64], indices: &[u8]) -> usize
    requires { (all (λ i. ltb i (length containing.now)) indices.now ≡ true)
        × Room (text (exclusions_by containing.now indices.now)) out.old }
    ensures { Writes
        (text (exclusions_by containing.now indices.now))
        out.old
        out.new
        result }
{
    let mut at = 0;
    for (k, &index) in indices.iter().enumerate() {
        let i = usize::from(index);
        let n = write_exclusions_of(&mut out[at..], containing, i, &indices[k + 1..]);
        at += n;
    }
    at
}
