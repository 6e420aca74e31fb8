// A table is checked in card order, before a byte is written. Document 01, "Refusals in checking order", 2 to 13.
ghost use Rattle.std.specs.Prelude.{◌≡◌, ◌≤◌};
ghost use Rattle.std.proofs.Math.Option.{none};
ghost use Rattle.model.specs.Answer.{need};
ghost use Rattle.model.specs.Card as model;
ghost use Rattle.model.specs.Writer as writer;
ghost use Rattle.card.specs.Fields.{field_test, field_refusal};
ghost use Rattle.card.specs.Represents.{atom_of, atoms_of, schema_of, schemas_of, facts_of, task_of, refusal_number};
ghost use Rattle.writer_checks.specs.Checking.{checked_says, previous, check_ordered, check_rest};

use crate::atoms::{is_below, is_known, is_same};
use card::{Atom, AtomList, FactList, ListField, Refusal, Schema, SchemaList, Task};

// The atom is on the list.
fn has_atom(arities: &[u8], list: AtomList, a: Atom) -> bool
    requires { list.count ≤ 8 }
    ensures { result ≡ model.has (atoms_of arities.now list) (atom_of arities.now a) }
{
    list.atoms[..list.count]
        .iter()
        .any(|b| is_same(arities, a, *b))
}

// An atom after the one before it, if there is one. Inlined, since each atom and each fact of a table comes here.
#[inline(always)]
fn check_atom(
    arities: &[u8],
    bound: usize,
    unknown: Refusal,
    disorder: Refusal,
    before: Option<Atom>,
    a: Atom,
) -> Result<(), Refusal>
    ensures { checked_says result ≡ check_ordered arities.now bound (refusal_number unknown) (refusal_number disorder)
        (previous arities.now before) (atom_of arities.now a) }
{
    if !is_known(arities, bound, a) {
        return Err(unknown);
    }
    match before {
        Some(b) if !is_below(arities, b, a) => Err(disorder),
        _ => Ok(()),
    }
}

// 9 and 10: an atom beside the preconditions of its schema.
// A switch on the list, and no closure that tests the atom: each contract from here to check_list would have to say what the closure answers.
fn check_field(
    arities: &[u8],
    field: ListField,
    preconditions: AtomList,
    a: Atom,
) -> Result<(), Refusal>
    requires { preconditions.count ≤ 8 }
    ensures { checked_says result ≡ need
        (field_test field (atoms_of arities.now preconditions) (atom_of arities.now a))
        (refusal_number (field_refusal field)) }
{
    match field {
        ListField::Deletes if !has_atom(arities, preconditions, a) => {
            Err(Refusal::DeleteNotPrecondition)
        }
        ListField::Adds if has_atom(arities, preconditions, a) => Err(Refusal::AddIsPrecondition),
        _ => Ok(()),
    }
}

// 7 to 10: an atom of a schema, after the one before it on its list.
fn check_schema_atom(
    arities: &[u8],
    parameters: usize,
    field: ListField,
    preconditions: AtomList,
    before: Option<Atom>,
    a: Atom,
) -> Result<(), Refusal>
    requires { preconditions.count ≤ 8 }
    ensures { checked_says result ≡ writer.check_schema_atom arities.now parameters
        (field_test field (atoms_of arities.now preconditions)) (refusal_number (field_refusal field))
        (previous arities.now before) (atom_of arities.now a) }
{
    check_atom(
        arities,
        parameters,
        Refusal::AtomUnknown,
        Refusal::AtomOrder,
        before,
        a,
    )?;
    check_field(arities, field, preconditions, a)
}

// The atoms of one list of a schema.
fn check_atoms(
    arities: &[u8],
    parameters: usize,
    field: ListField,
    preconditions: AtomList,
    list: AtomList,
) -> Result<(), Refusal>
    requires { (preconditions.count ≤ 8) × (list.count ≤ 8) }
    ensures { checked_says result ≡ writer.each
        (writer.check_schema_atom arities.now parameters
        (field_test field (atoms_of arities.now preconditions)) (refusal_number (field_refusal field)))
        none (atoms_of arities.now list) }
{
    let mut before = None;
    for &a in &list.atoms[..list.count] {
        check_schema_atom(arities, parameters, field, preconditions, before, a)?;
        before = Some(a);
    }
    Ok(())
}

// 6: one list of a schema.
fn check_list(
    arities: &[u8],
    parameters: usize,
    field: ListField,
    preconditions: AtomList,
    list: AtomList,
) -> Result<(), Refusal>
    requires { list.count ≤ 8 → preconditions.count ≤ 8 }
    ensures { checked_says result ≡ writer.check_list
        (writer.check_schema_atom arities.now parameters
        (field_test field (atoms_of arities.now preconditions)) (refusal_number (field_refusal field)))
        (atoms_of arities.now list) }
{
    if list.count > 8 {
        return Err(Refusal::ListRange);
    }
    check_atoms(arities, parameters, field, preconditions, list)
}

// 5: a schema.
fn check_schema(arities: &[u8], s: Schema) -> Result<(), Refusal>
    ensures { checked_says result ≡ writer.check_schema arities.now (schema_of arities.now s) }
{
    if !(1..=6).contains(&s.parameters) {
        return Err(Refusal::HeaderRange);
    }
    check_list(
        arities,
        s.parameters,
        ListField::Preconditions,
        s.preconditions,
        s.preconditions,
    )?;
    check_list(
        arities,
        s.parameters,
        ListField::Deletes,
        s.preconditions,
        s.deletes,
    )?;
    check_list(
        arities,
        s.parameters,
        ListField::Adds,
        s.preconditions,
        s.adds,
    )
}

// The schemas, one after the other.
fn check_schemas(arities: &[u8], list: SchemaList) -> Result<(), Refusal>
    requires { list.count ≤ 32 }
    ensures { checked_says result ≡ writer.each (λ before. writer.check_schema arities.now) none
        (schemas_of arities.now list) }
{
    for &s in &list.schemas[..list.count] {
        check_schema(arities, s)?;
    }
    Ok(())
}

// 12 and 13.
// Its own loop beside check_atoms: with the check as a closure, the contract would have to say what the closure answers, for three lines less.
fn check_facts(arities: &[u8], objects: usize, list: FactList) -> Result<(), Refusal>
    requires { list.count ≤ 512 }
    ensures { checked_says result ≡ writer.each (writer.check_fact arities.now objects) none
        (facts_of arities.now list) }
{
    let mut before = None;
    for &f in &list.facts[..list.count] {
        check_atom(
            arities,
            objects,
            Refusal::FactUnknown,
            Refusal::FactOrder,
            before,
            f,
        )?;
        before = Some(f);
    }
    Ok(())
}

// Every arity is 1 to 3.
fn arities_within(arities: &[u8]) -> bool
    ensures { result ≡ model.in_range arities.now }
{
    arities.iter().all(|a| (1..=3).contains(a))
}

// 3, 4 and 11 to 13: what follows the arities.
fn check_rest(
    arities: &[u8],
    objects: usize,
    schemas: SchemaList,
    facts: FactList,
) -> Result<(), Refusal>
    ensures { checked_says result ≡ check_rest arities.now objects schemas facts }
{
    if !(1..=64).contains(&objects) {
        return Err(Refusal::ObjectRange);
    }
    if schemas.count > 32 {
        return Err(Refusal::SchemaRange);
    }
    check_schemas(arities, schemas)?;
    if facts.count > 512 {
        return Err(Refusal::FactRange);
    }
    check_facts(arities, objects, facts)
}

// A table that a card can carry, or the refusal that card order meets first.
pub fn check_task(task: Task) -> Result<(), Refusal>
    ensures { checked_says result ≡ writer.check_task (task_of task) }
{
    let predicates = task.predicates;
    if !(1..=20).contains(&predicates.count) {
        return Err(Refusal::PredicateRange);
    }
    let arities = &predicates.arities[..predicates.count];
    if !arities_within(arities) {
        return Err(Refusal::PredicateRange);
    }
    check_rest(arities, task.objects, task.schemas, task.facts)
}
