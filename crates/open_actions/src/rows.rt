// Whether a row of a state can be the fact that an atom of a schema becomes, as far as its parameters are bound.
ghost use Rattle.std.specs.Prelude.{◌≡◌, true, List, ℕ, ◌+◌, ◌*◌, ◌≤◌, ◌<◌, length, get_or};
ghost use Rattle.masks.specs.Sets.{is_member};
ghost use Rattle.open_actions.specs.Masked.{Agree};
ghost use Rattle.open_actions.specs.Supports.{RowShows, ParametersWithin, Ranges};

use card::Atom;
use masks::is_member;

// Numbers of rows, from the least one on and below the other one.
#[derive(Clone, Copy)]
pub(crate) struct Range {
    pub least: u32,
    pub past: u32,
}

// The rows that an atom can become: those of its predicate, or, where its first parameter is bound, those with that object.
pub(crate) fn range_of(a: Atom, arity: u8, bound: u64, objects: &[u8]) -> Range
    requires { ParametersWithin arity a objects.now }
    ensures { Ranges arity a bound objects.now result.least result.past }
{
    let least = u32::from(a.predicate) * 16777216;
    if !is_member(bound, usize::from(a.first)) {
        let past = least + 16777216;
        return Range { least, past };
    }
    let from = least + u32::from(objects[usize::from(a.first)]) * 65536;
    let past = from + 65536;
    Range { least: from, past }
}

// The byte at place k of a row is the object of the parameter there, if that is bound. Places past the arity do not count.
fn place_agrees(k: u8, arity: u8, byte: u8, parameter: u8, bound: u64, objects: &[u8]) -> bool
    requires { (k ≤ arity → parameter < length objects.now) × (length objects.now ≤ 64) }
    ensures { (k ≤ arity → is_member bound parameter ≡ true → byte ≡ get_or objects.now parameter 0) → result ≡ true }
{
    if arity < k {
        return true;
    }
    if !is_member(bound, usize::from(parameter)) {
        return true;
    }
    byte == objects[usize::from(parameter)]
}

// Where one parameter has two places, the row has one object at both. Places past the arity do not count.
fn repeat_agrees(k: u8, arity: u8, one: u8, other: u8, byte: u8, later: u8) -> bool
    ensures { (k ≤ arity → one ≡ other → byte ≡ later) → result ≡ true }
{
    if arity < k {
        return true;
    }
    if one == other { byte == later } else { true }
}

// Row i can be the fact that the atom becomes with a binding that has the bound objects.
pub(crate) fn row_agrees(
    state: &[u8],
    i: usize,
    a: Atom,
    arity: u8,
    bound: u64,
    objects: &[u8],
) -> bool
    requires { (4 * i + 4 ≤ length state.now) × ParametersWithin arity a objects.now }
    ensures { (y : List ℕ) → RowShows state.now i arity a y → Agree bound objects.now y → result ≡ true }
{
    let at = 4 * i;
    if state[at] != a.predicate {
        return false;
    }
    let first = state[at + 1];
    let second = state[at + 2];
    let third = state[at + 3];
    if !place_agrees(1, arity, first, a.first, bound, objects) {
        return false;
    }
    if !place_agrees(2, arity, second, a.second, bound, objects) {
        return false;
    }
    if !place_agrees(3, arity, third, a.third, bound, objects) {
        return false;
    }
    if !repeat_agrees(2, arity, a.first, a.second, first, second) {
        return false;
    }
    if !repeat_agrees(3, arity, a.first, a.third, first, third) {
        return false;
    }
    repeat_agrees(3, arity, a.second, a.third, second, third)
}
