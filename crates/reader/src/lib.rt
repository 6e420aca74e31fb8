// A card read as a planning task, front to back: the task, or the refusal that reading meets first.
#![tactic(auto)]

ghost use Rattle.std.specs.Prelude.{◌≤◌, true, [], ◌≡◌, ltb, length, drop};
ghost use Rattle.card.specs.Represents.{schemas_for, Decodes};
ghost use Rattle.model.specs.Card.{in_range, byte_that, role_count, schema_lists, schema, predicates};
ghost use Rattle.reader_bytes.specs.Reads.{ByteReads};
ghost use Rattle.reader_lists.specs.ListReads.{AritiesReads};
ghost use Rattle.reader.specs.TaskReads.{SchemaReadAt, FactsListReadAt, decoded_refused};

use card::{
    ArityList, Decoded, FactList, ListField, Refusal, Schema, SchemaList, Task, Verdict,
    blank_schema,
};
use reader_bytes::{Cursor, Read};

// The bit map of a schema: its high bits are 0.
fn map_byte(card: &[u8], c: Cursor) -> Read<u8>
    ensures { ByteReads card.now (byte_that (λ b. ltb b 16) 5 (drop c.at card.now)) result }
{
    let read = reader_bytes::byte(card, c);
    let Ok((map, _)) = read else {
        return read;
    };
    match map {
        0..=15 => read,
        _ => Err(Refusal::HeaderRange),
    }
}

// The role count of a schema, where its bit stands; else it is 1.
fn role_count(card: &[u8], c: Cursor, present: bool) -> Read<u8>
    requires { c.at ≤ length card.now }
    ensures { ByteReads card.now (role_count present (drop c.at card.now)) result }
{
    if !present {
        return Ok((1, c));
    }
    let read = reader_bytes::byte(card, c);
    let Ok((roles, _)) = read else {
        return read;
    };
    match roles {
        0 | 1 => Err(Refusal::HeaderRange),
        2..=6 => read,
        _ => Err(Refusal::HeaderRange),
    }
}

// The three lists of a schema, each where its bit stands.
fn lists(card: &[u8], c: Cursor, arities: &[u8], map: u8, parameters: usize) -> Read<Schema>
    requires { (c.at ≤ length card.now) × (in_range arities.now ≡ true) }
    ensures { SchemaReadAt arities.now (schema_lists arities.now map parameters) card.now c.at result }
{
    let (preconditions, c) = reader_lists::list(
        card,
        c,
        map / 2 % 2 == 1,
        arities,
        parameters,
        ListField::Preconditions,
        card::no_atoms(),
    )?;
    let (deletes, c) = reader_lists::list(
        card,
        c,
        map / 4 % 2 == 1,
        arities,
        parameters,
        ListField::Deletes,
        preconditions,
    )?;
    let (adds, c) = reader_lists::list(
        card,
        c,
        map / 8 % 2 == 1,
        arities,
        parameters,
        ListField::Adds,
        preconditions,
    )?;
    Ok((
        Schema {
            parameters,
            preconditions,
            deletes,
            adds,
        },
        c,
    ))
}

// A schema: its bit map, then only the fields whose bit stands.
fn schema(card: &[u8], c: Cursor, arities: &[u8]) -> Read<Schema>
    requires { in_range arities.now ≡ true }
    ensures { SchemaReadAt arities.now (schema arities.now) card.now c.at result }
{
    let (map, c) = map_byte(card, c)?;
    let (roles, c) = role_count(card, c, map % 2 == 1)?;
    lists(card, c, arities, map, usize::from(roles))
}

#[tactic(auto, unfolding(card::specs::Represents::schemas_for, laws::specs::Lists::padded))]
fn no_schemas() -> SchemaList
    ensures { result ≡ schemas_for [] }
{
    SchemaList {
        count: 0,
        schemas: [blank_schema(); 32],
    }
}

// The predicate count, then each arity.
fn predicates(card: &[u8]) -> Read<ArityList>
    ensures { AritiesReads card.now (predicates card.now) result }
{
    let (count, c) = reader_bytes::byte_between(
        card,
        Cursor { at: 0 },
        1,
        20,
        Refusal::PredicateRange,
    )?;
    reader_lists::arities(card, c, usize::from(count))
}

// The fact count, then each fact.
fn facts(card: &[u8], c: Cursor, arities: &[u8], objects: usize) -> Read<FactList>
    requires { in_range arities.now ≡ true }
    ensures { FactsListReadAt arities.now objects card.now c.at result }
{
    let (count, c) = reader_bytes::fact_count(card, c)?;
    reader_lists::facts(card, c, count, arities, objects)
}

#[tactic(auto, unfolding(card::specs::Represents::blank_task))]
fn refused(refusal: Refusal) -> Decoded
    ensures { result ≡ decoded_refused refusal }
{
    Decoded {
        verdict: Verdict::Refused(refusal),
        task: Task {
            predicates: card::no_arities(),
            objects: 0,
            schemas: no_schemas(),
            facts: card::no_facts(),
        },
    }
}

// The task that a card describes, or why it describes none: the predicates, the number of objects, the schemas, the facts, and nothing
// after them. The schemas are listed here: a function that answered their list, of 4 KB, would copy it once more.
// Each read is matched: a function with `?` below this one would copy the task once more, slower by half on a small card.
pub fn decode(card: &[u8]) -> Decoded
    ensures { Decodes card.now result }
{
    let (predicates, c) = match predicates(card) {
        Ok(read) => read,
        Err(refusal) => return refused(refusal),
    };
    let arities = &predicates.arities[..predicates.count];
    let (number, c) = match reader_bytes::byte_between(card, c, 1, 64, Refusal::ObjectRange) {
        Ok(read) => read,
        Err(refusal) => return refused(refusal),
    };
    let objects = usize::from(number);
    let (number, start) = match reader_bytes::byte_between(card, c, 0, 32, Refusal::SchemaRange) {
        Ok(read) => read,
        Err(refusal) => return refused(refusal),
    };
    let schema_count = usize::from(number);
    let mut schemas = no_schemas();
    let mut c = start;
    for i in 0..schema_count {
        let (s, after) = match schema(card, c, arities) {
            Ok(read) => read,
            Err(refusal) => return refused(refusal),
        };
        schemas.schemas[i] = s;
        c = after;
    }
    schemas.count = schema_count;
    let (facts, c) = match facts(card, c, arities, objects) {
        Ok(read) => read,
        Err(refusal) => return refused(refusal),
    };
    if c.at < card.len() {
        return refused(Refusal::BytesFollow);
    }
    Decoded {
        verdict: Verdict::Accepted,
        task: Task {
            predicates,
            objects,
            schemas,
            facts,
        },
    }
}
