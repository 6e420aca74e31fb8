// The card of a table that was checked, written from byte 0 of the output buffer.
ghost use Rattle.std.specs.Prelude.{◌≡◌, ◌+◌, ◌*◌, ◌/◌, ◌%◌, ◌≤◌, true, length, map};
ghost use mathlib.Core.List.{[], ◌∷◌, ◌++◌, flat_map};
ghost use Rattle.laws.specs.Lists.{all};
ghost use Rattle.model.specs.Writer.{atom_bytes, list_bytes, role_bytes, schema_bytes, task_bytes};
ghost use Rattle.card.specs.Represents.{atom_of, atoms_of, schema_of, task_of};
ghost use Rattle.writer.specs.Bytes.{atom_room, list_room, schema_room, header_room, card_room, WritesAt, bit_where, map_of, schema_fits, Fits};

use card::{Atom, AtomList, Schema, Task};
use writer_checks::atoms::arity;

// Bytes, as many as their array has: a number that the compiler knows, so that nothing is called to copy them.
fn write_bytes<const N: usize>(out: &mut [u8], at: usize, bytes: [u8; N]) -> usize
    requires { at + N ≤ length out.old }
    ensures { WritesAt N at bytes.entry out.old out.new result }
{
    out[at..at + N].copy_from_slice(&bytes);
    at + N
}

// One byte.
fn write_byte(out: &mut [u8], at: usize, b: u8) -> usize
    requires { at + 1 ≤ length out.old }
    ensures { WritesAt 1 at (b ∷ []) out.old out.new result }
{
    out[at] = b;
    at + 1
}

// The predicate and as many arguments as its arity says.
fn write_atom(out: &mut [u8], at: usize, arities: &[u8], a: Atom) -> usize
    requires { at + atom_room ≤ length out.old }
    ensures { WritesAt atom_room at (atom_bytes (atom_of arities.now a)) out.old out.new result }
{
    match arity(arities, a.predicate) {
        0 => write_bytes(out, at, [a.predicate]),
        1 => write_bytes(out, at, [a.predicate, a.first]),
        2 => write_bytes(out, at, [a.predicate, a.first, a.second]),
        _ => write_bytes(out, at, [a.predicate, a.first, a.second, a.third]),
    }
}

// Atoms, one after the other.
fn write_atoms(out: &mut [u8], at: usize, arities: &[u8], atoms: &[Atom]) -> usize
    requires { at + atom_room * length atoms.now ≤ length out.old }
    ensures { WritesAt (atom_room * length atoms.now) at (flat_map atom_bytes (map (atom_of arities.now) atoms.now))
        out.old out.new result }
{
    let mut next = at;
    for &a in atoms {
        next = write_atom(out, next, arities, a);
    }
    next
}

// A list that is not empty: its count and its atoms.
fn write_list(out: &mut [u8], at: usize, arities: &[u8], list: AtomList) -> usize
    requires { (list.count ≤ 8) × (at + list_room ≤ length out.old) }
    ensures { WritesAt list_room at (list_bytes (atoms_of arities.now list)) out.old out.new result }
{
    let count = list.count;
    if count == 0 {
        return at;
    }
    let next = write_byte(out, at, count as u8);
    write_atoms(out, next, arities, &list.atoms[..count])
}

// The role count, where it is not 1.
fn write_roles(out: &mut [u8], at: usize, parameters: usize) -> usize
    requires { (parameters ≤ 6) × (at + 1 ≤ length out.old) }
    ensures { WritesAt 1 at (role_bytes parameters) out.old out.new result }
{
    if parameters == 1 {
        return at;
    }
    write_byte(out, at, parameters as u8)
}

// A bit's value, where it stands.
fn bit_where(stands: bool, value: u8) -> u8
    ensures { result ≡ bit_where stands value }
{
    if stands { value } else { 0 }
}

// The map: a bit for each field that has bytes.
fn map_of(s: Schema) -> u8
    ensures { result ≡ map_of s }
{
    bit_where(s.parameters != 1, 1)
        + bit_where(s.preconditions.count != 0, 2)
        + bit_where(s.deletes.count != 0, 4)
        + bit_where(s.adds.count != 0, 8)
}

// The map, then the fields that have bytes, in bit order.
fn write_schema(out: &mut [u8], at: usize, arities: &[u8], s: Schema) -> usize
    requires { (schema_fits s ≡ true) × (at + schema_room ≤ length out.old) }
    ensures { WritesAt schema_room at (schema_bytes (schema_of arities.now s)) out.old out.new result }
{
    let after_map = write_byte(out, at, map_of(s));
    let after_roles = write_roles(out, after_map, s.parameters);
    let after_preconditions = write_list(out, after_roles, arities, s.preconditions);
    let after_deletes = write_list(out, after_preconditions, arities, s.deletes);
    write_list(out, after_deletes, arities, s.adds)
}

// Schemas, one after the other.
// Its own loop beside write_atoms: with the writing as a closure, the contract would have to say what the closure writes, for three lines less.
fn write_schemas(out: &mut [u8], at: usize, arities: &[u8], schemas: &[Schema]) -> usize
    requires { (all schema_fits schemas.now ≡ true) × (at + schema_room * length schemas.now ≤ length out.old) }
    ensures { WritesAt (schema_room * length schemas.now) at (flat_map schema_bytes (map (schema_of arities.now) schemas.now))
        out.old out.new result }
{
    let mut next = at;
    for &s in schemas {
        next = write_schema(out, next, arities, s);
    }
    next
}

// The fact count, high byte first.
fn write_count(out: &mut [u8], at: usize, count: usize) -> usize
    requires { (count ≤ 512) × (at + 2 ≤ length out.old) }
    ensures { WritesAt 2 at (count / 256 ∷ count % 256 ∷ []) out.old out.new result }
{
    out[at..at + 2].copy_from_slice(&(count as u16).to_be_bytes());
    at + 2
}

// The arities, one byte each.
fn write_arities(out: &mut [u8], at: usize, arities: &[u8]) -> usize
    requires { at + length arities.now ≤ length out.old }
    ensures { WritesAt (length arities.now) at arities.now out.old out.new result }
{
    out[at..at + arities.len()].copy_from_slice(arities);
    at + arities.len()
}

// The predicates, the objects and how many schemas follow.
fn write_header(out: &mut [u8], arities: &[u8], objects: usize, schemas: usize) -> usize
    requires { (length arities.now ≤ 20) × (objects ≤ 64) × (schemas ≤ 32) × (header_room ≤ length out.old) }
    ensures { WritesAt header_room 0 (length arities.now ∷ arities.now ++ (objects ∷ schemas ∷ []))
        out.old out.new result }
{
    let first = write_byte(out, 0, arities.len() as u8);
    let after_arities = write_arities(out, first, arities);
    let after_objects = write_byte(out, after_arities, objects as u8);
    write_byte(out, after_objects, schemas as u8)
}

// The whole card.
pub fn write_task(out: &mut [u8], task: Task) -> usize
    requires { (Fits task) × (card_room ≤ length out.old) }
    ensures { WritesAt card_room 0 (task_bytes (task_of task)) out.old out.new result }
{
    let arities = &task.predicates.arities[..task.predicates.count];
    let after_header = write_header(out, arities, task.objects, task.schemas.count);
    let schemas = &task.schemas.schemas[..task.schemas.count];
    let after_schemas = write_schemas(out, after_header, arities, schemas);
    let after_count = write_count(out, after_schemas, task.facts.count);
    let facts = &task.facts.facts[..task.facts.count];
    write_atoms(out, after_count, arities, facts)
}
