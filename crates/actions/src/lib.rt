// An action's ground facts as the numbers of their rows, and what is asked of its objects.
#![tactic(auto)]

ghost use Rattle.std.specs.Prelude.{◌≤◌, ◌<◌, true, ◌≡◌, map, ◌++◌, ltb, length, get_or, drop};
ghost use Rattle.laws.specs.Lists.{all, member, distinct, padded};
ghost use Rattle.model.specs.Card.{in_range};
ghost use Rattle.model.specs.Strips.{ground, taken_out, put_in};
ghost use Rattle.model.specs.Writer.{known};
ghost use Rattle.card.specs.Represents.{atom_of, atoms_of, facts_of, schema_of};
ghost use Rattle.state.specs.Rows.{fact_number, RowsAscend};
ghost use Rattle.actions.specs.Grounds.{place_byte, facts_kept, holds_in, missing_in, Bound, FactsRight};

use card::{Atom, AtomList, FactList, Schema};
use state::{FILLER, has_row, row_number};

// The most parameters of a schema (document 01, the card format).
pub const MOST_PARAMETERS: usize = 6;

// Facts as the numbers of their rows; entries past the count are 0.
#[derive(Clone, Copy)]
pub struct Facts {
    pub count: usize,
    pub numbers: [u32; 8],
}

// What stands at place k of a row, 1 to 3: the byte up to the arity, filler after it.
#[tactic(auto, unfolding(crate::specs::Grounds::place_byte))]
fn place_byte(arity: u8, k: u8, byte: u8) -> u8
    ensures { result ≡ place_byte arity k byte }
{
    if k <= arity { byte } else { FILLER }
}

// The number of a fact's row.
fn fact_number(f: Atom, arities: &[u8]) -> u32
    requires { (in_range arities.now ≡ true) × (f.predicate < length arities.now) }
    ensures { result ≡ fact_number (atom_of arities.now f) }
{
    let predicate = f.predicate;
    let arity = arities[usize::from(predicate)];
    let first = place_byte(arity, 1, f.first);
    let second = place_byte(arity, 2, f.second);
    let third = place_byte(arity, 3, f.third);
    row_number(predicate, first, second, third)
}

// The object for the parameter at place k of an atom, filler past the arity.
#[tactic(auto, unfolding(crate::specs::Grounds::place_byte))]
fn object(objects: &[u8], arity: u8, k: u8, parameter: u8) -> u8
    requires { k ≤ arity → parameter < length objects.now }
    ensures { result ≡ place_byte arity k (get_or objects.now parameter 0) }
{
    if k <= arity {
        objects[usize::from(parameter)]
    } else {
        FILLER
    }
}

// The number of the fact that an atom becomes with an action's objects.
fn ground(a: Atom, arities: &[u8], objects: &[u8]) -> u32
    requires { (in_range arities.now ≡ true) × (known arities.now (length objects.now) (atom_of arities.now a) ≡ true) }
    ensures { result ≡ fact_number (ground objects.now (atom_of arities.now a)) }
{
    let predicate = a.predicate;
    let arity = arities[usize::from(predicate)];
    let first = object(objects, arity, 1, a.first);
    let second = object(objects, arity, 2, a.second);
    let third = object(objects, arity, 3, a.third);
    row_number(predicate, first, second, third)
}

// The facts that a list of atoms becomes.
fn grounded(list: AtomList, arities: &[u8], objects: &[u8]) -> Facts
    requires { Bound arities.now objects.now list }
    ensures { result ≡ facts_kept (map (ground objects.now) (atoms_of arities.now list)) }
{
    let count = list.count;
    let mut numbers = [0u32; 8];
    for i in 0..count {
        numbers[i] = ground(list.atoms[i], arities, objects);
    }
    Facts { count, numbers }
}

// What an action takes out.
#[tactic(auto, unfolding(model::specs::Strips::taken_out, card::specs::Represents::schema_of))]
pub fn taken_out(schema: Schema, arities: &[u8], objects: &[u8]) -> Facts
    requires { Bound arities.now objects.now schema.deletes }
    ensures { result ≡ facts_kept (taken_out (schema_of arities.now schema) objects.now) }
{
    grounded(schema.deletes, arities, objects)
}

// What an action puts in.
#[tactic(auto, unfolding(model::specs::Strips::put_in, card::specs::Represents::schema_of))]
pub fn put_in(schema: Schema, arities: &[u8], objects: &[u8]) -> Facts
    requires { Bound arities.now objects.now schema.adds }
    ensures { result ≡ facts_kept (put_in (schema_of arities.now schema) objects.now) }
{
    grounded(schema.adds, arities, objects)
}

// The fact that an atom becomes is in the state.
#[tactic(auto, unfolding(crate::specs::Grounds::holds_in))]
fn holds(a: Atom, arities: &[u8], state: &[u8], count: usize, objects: &[u8]) -> bool
    requires { (in_range arities.now ≡ true) × (known arities.now (length objects.now) (atom_of arities.now a) ≡ true)
        × RowsAscend count state.now }
    ensures { result ≡ holds_in count state.now objects.now (atom_of arities.now a) }
{
    let n = ground(a, arities, objects);
    has_row(state, count, n)
}

// Every fact that a list of atoms becomes is in the state.
pub fn all_hold(list: AtomList, arities: &[u8], state: &[u8], count: usize, objects: &[u8]) -> bool
    requires { (Bound arities.now objects.now list) × (RowsAscend count state.now) }
    ensures { result ≡ all (holds_in count state.now objects.now) (atoms_of arities.now list) }
{
    for atom in &list.atoms[..list.count] {
        if !holds(*atom, arities, state, count, objects) {
            return false;
        }
    }
    true
}

// How many facts that a list of atoms becomes are not in the state.
pub fn missing_facts(
    list: AtomList,
    arities: &[u8],
    state: &[u8],
    count: usize,
    objects: &[u8],
) -> usize
    requires { (Bound arities.now objects.now list) × (RowsAscend count state.now) }
    ensures { result ≡ missing_in count state.now objects.now (atoms_of arities.now list) }
{
    let mut missing = 0;
    for a in &list.atoms[..list.count] {
        if !holds(*a, arities, state, count, objects) {
            missing += 1;
        }
    }
    missing
}

// Every object is below the bound.
pub fn all_known(objects: &[u8], bound: usize) -> bool
    ensures { result ≡ all (λ o. ltb o bound) objects.now }
{
    objects.iter().all(|o| usize::from(*o) < bound)
}

// The object is among the objects from a place on.
fn stands_from(objects: &[u8], at: usize, o: u8) -> bool
    requires { at ≤ length objects.now }
    ensures { result ≡ member o (drop at objects.now) }
{
    objects[at..].iter().any(|x| *x == o)
}

// No object stands twice.
pub fn all_different(objects: &[u8]) -> bool
    ensures { result ≡ distinct objects.now }
{
    for (i, object) in objects.iter().enumerate() {
        if stands_from(objects, i + 1, *object) {
            return false;
        }
    }
    true
}

// Objects at the front of an array, and 0 after them.
#[tactic(auto, unfolding(laws::specs::Lists::padded))]
pub fn in_front(objects: &[u8]) -> [u8; MOST_PARAMETERS]
    requires { length objects.now ≤ 6 }
    ensures { result ≡ padded 6 0 objects.now }
{
    let mut front = [0; MOST_PARAMETERS];
    front[..objects.len()].copy_from_slice(objects);
    front
}

// The numbers of a task's facts, at the front of an array.
pub fn fact_numbers(facts: FactList, arities: &[u8], numbers: &mut [u32])
    requires { FactsRight arities.now facts numbers.old }
    ensures { numbers.new ≡ map fact_number (facts_of arities.now facts) ++ drop facts.count numbers.old }
{
    for i in 0..facts.count {
        numbers[i] = fact_number(facts.facts[i], arities);
    }
}
