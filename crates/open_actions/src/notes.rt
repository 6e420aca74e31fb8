// What the search has found to be stuck, noted so that it is not searched again. Each object of each level has a place of seven bytes: a
// mask of culprits, then the objects of the parameters at the time. No culprits mean that nothing is noted, and so does a place past the
// end of the table, which may have any length.
ghost use Rattle.std.specs.Prelude.{◌⊎◌, ◌≡◌, ◌≤◌, length, IfSome};
ghost use Rattle.open_actions.specs.Notes.{Recalled, Noted};

use masks::{all_below, common, is_empty, is_member};

// The bytes of a place; those of all places, for 6 parameters and 64 objects.
const NOTE: usize = 7;

pub(crate) const NOTES: usize = 2688;

// The culprits that are noted at a place, if they are among the bound parameters and these have the objects of the note; or else nothing.
pub(crate) fn recall(notes: &[u8], place: usize, bound: u64, objects: &[u8]) -> Option<u64>
    requires { (place ≤ 383) × (length objects.now ≤ 6) }
    ensures { IfSome result (λ c. Recalled notes.now place bound objects.now c) }
{
    let first = NOTE * place;
    if notes.len() < first + NOTE {
        return None;
    }
    let culprits = u64::from(notes[first]);
    if is_empty(culprits) {
        return None;
    }
    if common(culprits, bound) != culprits {
        return None;
    }
    for (p, o) in objects.iter().enumerate() {
        if is_member(culprits, p) && *o != notes[first + 1 + p] {
            return None;
        }
    }
    Some(culprits)
}

// The culprits are noted at a place, with the objects, if the table reaches so far.
pub(crate) fn note(notes: &mut [u8], place: usize, culprits: u64, objects: &[u8])
    requires { (place ≤ 383) × (length objects.now ≤ 6) }
    ensures { (notes.new ≡ notes.old) ⊎ Noted notes.old notes.new place culprits objects.now }
{
    let first = NOTE * place;
    if notes.len() < first + NOTE {
        return;
    }
    // One by one, since they are few: copied as a slice they would be handed to memmove, which the C interface does without.
    for (p, &o) in objects.iter().enumerate() {
        notes[first + 1 + p] = o;
    }
    let few = common(culprits, all_below(6));
    notes[first] = few as u8;
}
