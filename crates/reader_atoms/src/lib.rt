// An atom of a schema and a fact, read from a card.
#![tactic(auto)]

ghost use Rattle.std.specs.Prelude.{◌≤◌, true, ◌≡◌, length};
ghost use Rattle.model.specs.Card.{in_range};
ghost use Rattle.card.specs.Fields.{field_refusal};
ghost use Rattle.laws.specs.Lists.{same, before};
ghost use Rattle.reader_atoms.specs.Atoms.{bytes_of, number_of};
ghost use Rattle.reader_atoms.specs.Atoms.{ArgumentsReadAt, AtomReadAt, SchemaAtomReadAt, FactReadAt, AtomsKept, PreviousKept};
ghost use Rattle.reader_atoms.specs.Atoms.{has_bytes, above_bytes, belongs_bytes};

use card::{Atom, AtomList, ListField, Refusal};
use reader_bytes::{Cursor, Read};

// The arguments of an atom, one byte each, below the bound. Places past the arity hold 0.
fn arguments(
    card: &[u8],
    c: Cursor,
    predicate: u8,
    arity: u8,
    bound: usize,
    refusal: Refusal,
) -> Read<Atom>
    requires { (1 ≤ arity) × (arity ≤ 3) }
    ensures { ArgumentsReadAt predicate arity bound refusal card.now c.at result }
{
    let (first, c) = reader_bytes::byte_below(card, c, bound, refusal)?;
    let one = Atom {
        predicate,
        first,
        second: 0,
        third: 0,
    };
    if arity == 1 {
        return Ok((one, c));
    }
    let (second, c) = reader_bytes::byte_below(card, c, bound, refusal)?;
    let two = Atom { second, ..one };
    if arity == 2 {
        return Ok((two, c));
    }
    let (third, c) = reader_bytes::byte_below(card, c, bound, refusal)?;
    Ok((Atom { third, ..two }, c))
}

// An atom: a predicate byte, and its arguments.
fn atom(card: &[u8], c: Cursor, arities: &[u8], bound: usize, refusal: Refusal) -> Read<Atom>
    requires { in_range arities.now ≡ true }
    ensures { AtomReadAt arities.now bound refusal card.now c.at result }
{
    let (predicate, c) = reader_bytes::byte_below(card, c, arities.len(), refusal)?;
    let arity = arities[usize::from(predicate)];
    arguments(card, c, predicate, arity, bound, refusal)
}

// The four bytes of an atom as one number, the predicate highest. Atoms are compared by it: by the derived operations, which look at one byte
// after the other, a card with many atoms is read a quarter slower.
fn number(a: Atom) -> u32
    ensures { result ≡ number_of a }
{
    u32::from_be_bytes([a.predicate, a.first, a.second, a.third])
}

// The first atom stands below the second, byte by byte.
fn is_below(a: Atom, b: Atom) -> bool
    ensures { result ≡ before (bytes_of a) (bytes_of b) }
{
    number(a) < number(b)
}

fn is_same(a: Atom, b: Atom) -> bool
    ensures { result ≡ same (bytes_of a) (bytes_of b) }
{
    number(a) == number(b)
}

// The atom is on the list.
fn has(list: AtomList, a: Atom) -> bool
    requires { (list.count ≤ 8) × (length list.atoms ≡ 8) }
    ensures { result ≡ has_bytes list a }
{
    // `contains` was tried: it makes reading a card slower by a tenth and more.
    for i in 0..list.count {
        if is_same(a, list.atoms[i]) {
            return true;
        }
    }
    false
}

// The atom stands above the one before it, if there is one.
fn is_above(previous: Option<Atom>, a: Atom) -> bool
    ensures { result ≡ above_bytes previous a }
{
    match previous {
        None => true,
        Some(b) => is_below(b, a),
    }
}

// The atom passes the check of its own list: a deleted atom is a precondition, an added one is none.
fn belongs(field: ListField, preconditions: AtomList, a: Atom) -> bool
    requires { (preconditions.count ≤ 8) × (length preconditions.atoms ≡ 8) }
    ensures { result ≡ belongs_bytes field preconditions a }
{
    match field {
        ListField::Preconditions => true,
        ListField::Deletes => has(preconditions, a),
        ListField::Adds => !has(preconditions, a),
    }
}

// The refusal of an atom that does not pass it.
fn refusal_of(field: ListField) -> Refusal
    ensures { result ≡ field_refusal field }
{
    match field {
        ListField::Preconditions => Refusal::AtomOrder,
        ListField::Deletes => Refusal::DeleteNotPrecondition,
        ListField::Adds => Refusal::AddIsPrecondition,
    }
}

// An atom of a list of a schema.
pub fn schema_atom(
    card: &[u8],
    c: Cursor,
    arities: &[u8],
    parameters: usize,
    field: ListField,
    preconditions: AtomList,
    previous: Option<Atom>,
) -> Read<Atom>
    requires { (in_range arities.now ≡ true) × AtomsKept arities.now preconditions × PreviousKept arities.now previous }
    ensures { SchemaAtomReadAt arities.now parameters field preconditions previous card.now c.at result }
{
    let read = atom(card, c, arities, parameters, Refusal::AtomUnknown);
    let Ok((a, _)) = read else {
        return read;
    };
    if !is_above(previous, a) {
        return Err(Refusal::AtomOrder);
    }
    if !belongs(field, preconditions, a) {
        return Err(refusal_of(field));
    }
    read
}

// A fact.
pub fn fact(
    card: &[u8],
    c: Cursor,
    arities: &[u8],
    objects: usize,
    previous: Option<Atom>,
) -> Read<Atom>
    requires { (in_range arities.now ≡ true) × PreviousKept arities.now previous }
    ensures { FactReadAt arities.now objects previous card.now c.at result }
{
    let read = atom(card, c, arities, objects, Refusal::FactUnknown);
    let Ok((a, _)) = read else {
        return read;
    };
    if is_above(previous, a) {
        read
    } else {
        Err(Refusal::FactOrder)
    }
}
