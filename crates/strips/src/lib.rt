// The initial state and applying an action, on a state in a lent buffer.
#![tactic(auto)]

ghost use Rattle.std.specs.Prelude.{◌≡◌, ◌≤◌, length, take};
ghost use Rattle.model.specs.Strips.{state_bytes, facts_in, limited, progress, successor};
ghost use Rattle.model.specs.Open.{is_accepted};
ghost use Rattle.model.specs.Calls.{finish, initial_of, initial, press};
ghost use Rattle.card.specs.Represents.{schema_of, task_of, Represented};
ghost use Rattle.sets.specs.Numbers.{Becomes};
ghost use Rattle.strips.specs.Answers.{applied_says, Matches, Admits};
ghost use Rattle.strips.specs.Steps.{storing, storing_numbers, next_numbers, ActionReady, NextReady, StateKept, SchemaKept};
ghost use Rattle.strips.specs.declared.PressRefusal.TheVariants.{Card};
ghost use Rattle.strips.specs.Admission.{admit_schema, admission_of, admission};

use actions::{all_different, all_hold, all_known, fact_numbers, missing_facts, put_in, taken_out};
use card::{ArityList, Refusal, Schema, Task, Verdict};
use reader::decode;
use sets::{insert_all, remove_all};
use state::{MOST_FACTS, STATE_BYTES, load, store, well_formed};

// Why the opening call or an action is refused. A refusal of the card is handed through.
#[derive(Clone, Copy)]
pub enum PressRefusal {
    Card(Refusal),
    StateMalformed,
    SchemaUnknown,
    ObjectsWrong,
    ObjectsRepeated,
    PreconditionMissing,
    StateFull,
}

impl From<Refusal> for PressRefusal {
    ghost from_gives = { λ r e. e ≡ Card r };

    fn from(refusal: Refusal) -> PressRefusal {
        PressRefusal::Card(refusal)
    }
}

// Room for the facts of a state and the eight that an action puts in.
const NEXT_FACTS: usize = MOST_FACTS + 8;

// The numbers of the next state, from those of the state: what the action takes out goes, then what it puts in comes.
fn next_numbers(
    numbers: &mut [u32],
    count: usize,
    schema: Schema,
    arities: &[u8],
    objects: &[u8],
) -> usize
    requires { NextReady arities.now objects.now schema numbers.old count }
    ensures { Becomes (next_numbers (schema_of arities.now schema) objects.now (take count numbers.old))
        numbers.old numbers.new result }
{
    let out = taken_out(schema, arities, objects);
    let left = remove_all(numbers, count, &out.numbers[0..out.count]);
    let new = put_in(schema, arities, objects);
    insert_all(numbers, left, &new.numbers[0..new.count])
}

// 20, the last check; only then is the next state written.
fn store_next(state: &mut [u8], numbers: &[u32]) -> Result<usize, PressRefusal>
    requires { state_bytes ≤ length state.old }
    ensures { Matches (storing_numbers state.old numbers.now) state.new result }
{
    let count = numbers.len();
    if MOST_FACTS < count {
        return Err(PressRefusal::StateFull);
    }
    store(state, numbers);
    Ok(count)
}

// The next state of an action, stored: 20.
pub fn store_successor(
    schema: Schema,
    arities: &[u8],
    state: &mut [u8],
    count: usize,
    objects: &[u8],
) -> Result<usize, PressRefusal>
    requires { ActionReady arities.now objects.now schema state.old count }
    ensures { Matches (storing state.old (limited (successor (schema_of arities.now schema) objects.now
        (facts_in arities.now count state.old)))) state.new result }
{
    let mut numbers = [0u32; NEXT_FACTS];
    load(state, count, &mut numbers);
    let next = next_numbers(&mut numbers, count, schema, arities, objects);
    store_next(state, &numbers[0..next])
}

// The state allows the action: every precondition is in it (19), and it has room for the adds that are not (20). The deletes, which are in
// it, make room; only where the adds could be too many are they looked for.
pub fn allows(schema: Schema, arities: &[u8], state: &[u8], count: usize, objects: &[u8]) -> bool
    requires { ActionReady arities.now objects.now schema state.now count }
    ensures { result ≡ is_accepted (progress (schema_of arities.now schema) objects.now (facts_in arities.now count state.now)) }
{
    if !all_hold(schema.preconditions, arities, state, count, objects) {
        return false;
    }
    let room = MOST_FACTS + schema.deletes.count - count;
    schema.adds.count <= room || missing_facts(schema.adds, arities, state, count, objects) <= room
}

// An action that may be applied: the arities of its card's predicates, and its schema.
#[derive(Clone, Copy)]
pub struct Admitted {
    pub predicates: ArityList,
    pub schema: Schema,
}

// 17 to 19: the objects first, then the preconditions.
fn admit_schema(
    schema: Schema,
    arities: &[u8],
    known: usize,
    state: &[u8],
    count: usize,
    objects: &[u8],
) -> Result<(), PressRefusal>
    requires { (StateKept arities.now known state.now count) × (SchemaKept arities.now schema) }
    ensures { applied_says result ≡ admit_schema known (schema_of arities.now schema) objects.now (facts_in arities.now count state.now) }
{
    if objects.len() != schema.parameters {
        return Err(PressRefusal::ObjectsWrong);
    }
    if !all_known(objects, known) {
        return Err(PressRefusal::ObjectsWrong);
    }
    if !all_different(objects) {
        return Err(PressRefusal::ObjectsRepeated);
    }
    if !all_hold(schema.preconditions, arities, state, count, objects) {
        return Err(PressRefusal::PreconditionMissing);
    }
    Ok(())
}

// 15 to 19, for a task: the state first, then the schema.
fn admit_task(
    task: Task,
    state: &[u8],
    count: usize,
    number: usize,
    objects: &[u8],
) -> Result<Admitted, PressRefusal>
    requires { Represented task (task_of task) }
    ensures { Admits (admission_of (task_of task) state.now count (record { schema = number; objects = objects.now }))
        state.now count objects.now result }
{
    let predicates = task.predicates;
    let arities = &predicates.arities[0..predicates.count];
    if !well_formed(state, count, arities, task.objects) {
        return Err(PressRefusal::StateMalformed);
    }
    if task.schemas.count <= number {
        return Err(PressRefusal::SchemaUnknown);
    }
    let schema = task.schemas.schemas[number];
    admit_schema(schema, arities, task.objects, state, count, objects)?;
    Ok(Admitted { predicates, schema })
}

// The checks that applying, previewing and committing an action make alike, 1 to 19: the card, the state, the action, its preconditions.
pub fn admit(
    card: &[u8],
    state: &[u8],
    count: usize,
    schema: usize,
    objects: &[u8],
) -> Result<Admitted, PressRefusal>
    ensures { Admits (admission card.now state.now count (record { schema = schema; objects = objects.now }))
        state.now count objects.now result }
{
    let decoded = decode(card);
    match decoded.verdict {
        Verdict::Refused(refusal) => Err(PressRefusal::from(refusal)),
        Verdict::Accepted => admit_task(decoded.task, state, count, schema, objects),
    }
}

// The opening call for a task: its facts are stored.
fn open_task(task: Task, state: &mut [u8]) -> Result<usize, PressRefusal>
    requires { Represented task (task_of task) }
    ensures { Matches (finish state.old (initial_of (task_of task) state.old)) state.new result }
{
    if state.len() < STATE_BYTES {
        return Err(PressRefusal::StateMalformed);
    }
    let count = task.facts.count;
    let predicates = task.predicates;
    let mut numbers = [0u32; 512];
    fact_numbers(
        task.facts,
        &predicates.arities[0..predicates.count],
        &mut numbers,
    );
    store(state, &numbers[0..count]);
    Ok(count)
}

// The opening call: the initial state of a card's task is written to the buffer, and its count is answered.
pub fn initial(card: &[u8], state: &mut [u8]) -> Result<usize, PressRefusal>
    ensures { Matches (initial card.now state.old) state.new result }
{
    let decoded = decode(card);
    match decoded.verdict {
        Verdict::Refused(reason) => Err(PressRefusal::from(reason)),
        Verdict::Accepted => open_task(decoded.task, state),
    }
}

// An action is applied to the state in the buffer, and the next state's count is answered. A refusal alters no byte.
pub fn apply(
    card: &[u8],
    state: &mut [u8],
    count: usize,
    schema: usize,
    objects: &[u8],
) -> Result<usize, PressRefusal>
    ensures { Matches (press card.now state.old count (record { schema = schema; objects = objects.now })) state.new result }
{
    let admitted = admit(card, state, count, schema, objects)?;
    let predicates = admitted.predicates;
    store_successor(
        admitted.schema,
        &predicates.arities[0..predicates.count],
        state,
        count,
        objects,
    )
}
