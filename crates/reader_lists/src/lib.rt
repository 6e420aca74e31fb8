// The lists of a card: arities, the atoms of a schema, facts.
#![tactic(auto)]

ghost use Rattle.std.specs.Prelude.{◌≤◌, true, ◌≡◌, length};
ghost use Rattle.model.specs.Card.{in_range};
ghost use Rattle.reader_atoms.specs.Atoms.{AtomsKept};
ghost use Rattle.reader_lists.specs.ListReads.{AtomsReadIn, ListReadAt, AritiesReadAt, FactsReadAt};

use card::{
    ArityList, Atom, AtomList, FactList, ListField, Refusal, no_arities, no_atoms, no_facts,
};
use reader_bytes::{Cursor, Read};

// `count` atoms of a list of a schema; `part` is the card from the first of them on.
fn atoms(
    part: &[u8],
    count: usize,
    arities: &[u8],
    parameters: usize,
    field: ListField,
    preconditions: AtomList,
) -> Read<AtomList>
    requires { (count ≤ 8) × (in_range arities.now ≡ true) × AtomsKept arities.now preconditions }
    ensures { AtomsReadIn arities.now parameters field preconditions count part.now result }
{
    let mut list = no_atoms();
    let mut previous: Option<Atom> = None;
    let mut c = Cursor { at: 0 };
    for i in 0..count {
        let (a, after) = reader_atoms::schema_atom(
            part,
            c,
            arities,
            parameters,
            field,
            preconditions,
            previous,
        )?;
        list.atoms[i] = a;
        previous = Some(a);
        c = after;
    }
    list.count = count;
    Ok((list, c))
}

// A list of a schema, where its bit stands: a count byte, and its atoms after it.
pub fn list(
    card: &[u8],
    c: Cursor,
    present: bool,
    arities: &[u8],
    parameters: usize,
    field: ListField,
    preconditions: AtomList,
) -> Read<AtomList>
    requires { (c.at ≤ length card.now) × (in_range arities.now ≡ true) × AtomsKept arities.now preconditions }
    ensures { ListReadAt arities.now parameters field preconditions present card.now c.at result }
{
    if !present {
        return Ok((no_atoms(), c));
    }
    let (count, after) = reader_bytes::byte_between(card, c, 1, 8, Refusal::ListRange)?;
    let at = after.at;
    let (items, end) = atoms(
        &card[at..],
        usize::from(count),
        arities,
        parameters,
        field,
        preconditions,
    )?;
    Ok((items, Cursor { at: at + end.at }))
}

// `count` arities, each 1 to 3.
pub fn arities(card: &[u8], c: Cursor, count: usize) -> Read<ArityList>
    requires { (count ≤ 20) × (c.at ≤ length card.now) }
    ensures { AritiesReadAt count card.now c.at result }
{
    let mut list = no_arities();
    let mut c = c;
    for i in 0..count {
        let (arity, after) = reader_bytes::byte_between(card, c, 1, 3, Refusal::PredicateRange)?;
        list.arities[i] = arity;
        c = after;
    }
    list.count = count;
    Ok((list, c))
}

// `count` facts.
pub fn facts(card: &[u8], c: Cursor, count: usize, arities: &[u8], objects: usize) -> Read<FactList>
    requires { (count ≤ 512) × (c.at ≤ length card.now) × (in_range arities.now ≡ true) }
    ensures { FactsReadAt arities.now objects count card.now c.at result }
{
    let mut list = no_facts();
    let mut previous: Option<Atom> = None;
    let mut c = c;
    for i in 0..count {
        let (f, after) = reader_atoms::fact(card, c, arities, objects, previous)?;
        list.facts[i] = f;
        previous = Some(f);
        c = after;
    }
    list.count = count;
    Ok((list, c))
}
