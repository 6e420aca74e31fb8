// Which objects the state leaves to a parameter: those that some fact has where an atom of the schema has the parameter.
ghost use Rattle.std.specs.Prelude.{◌≡◌, IfSome};
ghost use Rattle.state.specs.Rows.{RowsAscend};
ghost use Rattle.open_actions.specs.Supports.{ParametersWithin, parameters_of, PlaceOf, Supported, AtomReady, AtomSupported};
ghost use Rattle.open_actions.specs.Supports.{ListReady, LeavesCandidates, LeavesSupports};

use crate::query::Query;
use crate::rows::{range_of, row_agrees};
use card::{Atom, AtomList};
use masks::{all_below, common, single, union};
use state::rows_below;

// The objects with which an atom can be in the state, and the bound parameters that this depends on.
#[derive(Clone, Copy)]
pub(crate) struct Support {
    pub mask: u64,
    pub linked: u64,
}

// The objects that are left to a parameter, and the bound parameters that took the others away.
#[derive(Clone, Copy)]
pub(crate) struct Candidates {
    pub mask: u64,
    pub culprits: u64,
}

// The first place of a parameter in an atom, 1 to 3.
fn place_of(a: Atom, arity: u8, parameter: usize) -> Option<usize>
    ensures { IfSome result (λ k. PlaceOf arity a parameter k) }
{
    if arity < 1 {
        return None;
    }
    if usize::from(a.first) == parameter {
        return Some(1);
    }
    if arity < 2 {
        return None;
    }
    if usize::from(a.second) == parameter {
        return Some(2);
    }
    if arity < 3 {
        return None;
    }
    if usize::from(a.third) == parameter {
        return Some(3);
    }
    None
}

// The parameters of an atom.
fn parameters_of(a: Atom, arity: u8, objects: &[u8]) -> u64
    requires { ParametersWithin arity a objects.now }
    ensures { result ≡ parameters_of arity a }
{
    let one = single(usize::from(a.first));
    if arity < 2 {
        return one;
    }
    let two = union(one, single(usize::from(a.second)));
    if arity < 3 {
        return two;
    }
    union(two, single(usize::from(a.third)))
}

// The objects with which a parameter can be bound so that the atom becomes a fact of the state; all where the atom does not have it.
fn rows_support(
    state: &[u8],
    count: usize,
    a: Atom,
    arity: u8,
    parameter: usize,
    bound: u64,
    objects: &[u8],
) -> u64
    requires { RowsAscend count state.now × ParametersWithin arity a objects.now }
    ensures { Supported state.now count a arity parameter bound objects.now result }
{
    let place = place_of(a, arity, parameter);
    let range = range_of(a, arity, bound, objects);
    let start = rows_below(state, count, range.least);
    let end = rows_below(state, count, range.past);
    let mut mask = 0u64;
    for i in start..end {
        if row_agrees(state, i, a, arity, bound, objects) {
            let Some(k) = place else {
                return all_below(64);
            };
            let o = usize::from(state[4 * i + k]);
            if o < 64 {
                mask = union(mask, single(o));
            }
        }
    }
    mask
}

impl Query<'_> {
    // What an atom leaves to a parameter. It depends on the atom's own parameters, as far as they are bound.
    fn atom_support(&self, a: Atom, parameter: usize, bound: u64, objects: &[u8]) -> Support
        requires { AtomReady self.now a objects.now }
        ensures { AtomSupported self.now a parameter bound objects.now result }
    {
        let arity = self.arities[usize::from(a.predicate)];
        let linked = common(bound, parameters_of(a, arity, objects));
        let mask = rows_support(self.state, self.count, a, arity, parameter, linked, objects);
        Support { mask, linked }
    }

    // The objects that every atom of a list, a schema's preconditions, leaves to a parameter.
    pub(crate) fn candidates_for(
        &self,
        list: AtomList,
        parameter: usize,
        bound: u64,
        objects: &[u8],
    ) -> Candidates
        requires { ListReady self.now list objects.now }
        ensures { LeavesCandidates self.now list list.count parameter bound objects.now result.mask result.culprits }
    {
        let mut mask = all_below(self.known);
        let mut culprits = 0u64;
        for a in &list.atoms[..list.count] {
            let one = self.atom_support(*a, parameter, bound, objects);
            let left = common(mask, one.mask);
            if left != mask {
                mask = left;
                culprits = union(culprits, one.linked);
            }
        }
        Candidates { mask, culprits }
    }

    // What each atom of a list, a schema's adds, leaves to a parameter.
    pub(crate) fn supports_for(
        &self,
        list: AtomList,
        parameter: usize,
        bound: u64,
        objects: &[u8],
    ) -> [Support; 8]
        requires { ListReady self.now list objects.now }
        ensures { LeavesSupports self.now list parameter bound objects.now result }
    {
        let blank = Support { mask: 0, linked: 0 };
        let mut items = [blank; 8];
        for i in 0..list.count {
            let a = list.atoms[i];
            items[i] = self.atom_support(a, parameter, bound, objects);
        }
        items
    }
}
