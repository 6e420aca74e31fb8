// What an action would do to a state, and doing it if that is still so (document 02, No. 4: asking and committing).
#![tactic(auto)]

ghost use Rattle.std.specs.Prelude.{◌≤◌, not, [], ◌≡◌, length, take};
ghost use Rattle.laws.specs.Lists.{keep, member, same};
ghost use Rattle.model.specs.Strips.{facts_in, limited, successor};
ghost use Rattle.model.specs.Preview.{preview, same_rows, agree, ask, commit};
ghost use Rattle.card.specs.Represents.{schema_of};
ghost use Rattle.sets.specs.Numbers.{inserted_all};
ghost use Rattle.state.specs.Rows.{numbers_in, RowsAscend};
ghost use Rattle.strips.specs.Steps.{ActionReady};
ghost use Rattle.previews.specs.Represents.{numbers_kept, rows_kept, rows_of, changes_for, preview_of};
ghost use Rattle.previews.specs.Answers.{Asks, Commits};
ghost use Rattle.previews.specs.declared.CommitRefusal.TheVariants.{Press};
ghost use Rattle.previews.specs.Steps.{ask_admitted, store_agreed, commit_admitted, lent_count, Allowed, FactsHeld};

use actions::{Facts, MOST_PARAMETERS, in_front, put_in, taken_out};
use card::Schema;
use sets::insert_all;
use state::{MOST_FACTS, has_row, write_rows};
use strips::{PressRefusal, admit, store_successor};

// The most atoms of one of a schema's lists, and so of facts that go or come, and the bytes of as many rows.
const MOST_ATOMS: usize = 8;

const MOST_ROW_BYTES: usize = 32;

// Facts as rows of four bytes each, as a state has them: their number, and the rows one after the other. The places past them are 0.
// There is no heap, and the C interface has eight places for them: so they stand in an array, with their number beside it.
#[derive(Clone, Copy)]
pub struct Rows {
    pub count: usize,
    pub rows: [u8; MOST_ROW_BYTES],
}

// What an action does to a state: the action, which is its schema and its objects with their number, the facts that go, and those that
// newly come. What is handed in to be committed may hold anything. The number of objects stands beside their places as in the C interface.
#[derive(Clone, Copy)]
pub struct Changes {
    pub schema: usize,
    pub object_count: usize,
    pub objects: [u8; MOST_PARAMETERS],
    pub gone: Rows,
    pub come: Rows,
}

// What an action would do to a state: the number of facts that there would be then, and the changes.
#[derive(Clone, Copy)]
pub struct Foreseen {
    pub count: usize,
    pub changes: Changes,
}

// Why changes are not committed: as applying the action is refused, or since they are no longer those handed in (23).
#[derive(Clone, Copy)]
pub enum CommitRefusal {
    Press(PressRefusal),
    ChangesDiffer,
}

impl From<PressRefusal> for CommitRefusal {
    ghost from_gives = { λ r e. e ≡ Press r };

    fn from(refusal: PressRefusal) -> CommitRefusal {
        CommitRefusal::Press(refusal)
    }
}

// Of some facts those that are not in the state.
fn missing(facts: Facts, state: &[u8], count: usize) -> Facts
    requires { FactsHeld facts × RowsAscend count state.now }
    ensures { result ≡ numbers_kept (keep (λ n. not (member n (numbers_in count state.now))) (take facts.count facts.numbers)) }
{
    let mut numbers = [0u32; MOST_ATOMS];
    let mut new = 0;
    for n in &facts.numbers[0..facts.count] {
        if !has_row(state, count, *n) {
            numbers[new] = *n;
            new += 1;
        }
    }
    Facts {
        count: new,
        numbers,
    }
}

// Facts as rows, in the order of a state.
fn in_order(facts: Facts) -> Rows
    requires { FactsHeld facts }
    ensures { result ≡ rows_kept (inserted_all (take facts.count facts.numbers) []) }
{
    let mut ordered = [0u32; MOST_ATOMS];
    let count = insert_all(&mut ordered, 0, &facts.numbers[0..facts.count]);
    let mut rows = [0u8; MOST_ROW_BYTES];
    write_rows(&mut rows, &ordered[0..count]);
    Rows { count, rows }
}

// What an action that may be applied does to the state.
fn changes_of(
    schema: Schema,
    arities: &[u8],
    state: &[u8],
    count: usize,
    number: usize,
    objects: &[u8],
) -> Changes
    requires { Allowed arities.now objects.now schema state.now count }
    ensures { result ≡ changes_for (preview (schema_of arities.now schema) (record { schema = number; objects = objects.now })
        (facts_in arities.now count state.now)) }
{
    let deletes = taken_out(schema, arities, objects);
    let gone = in_order(deletes);
    let adds = put_in(schema, arities, objects);
    let new = missing(adds, state, count);
    let come = in_order(new);
    Changes {
        schema: number,
        object_count: objects.len(),
        objects: in_front(objects),
        gone,
        come,
    }
}

// 20, then the changes. The facts that go make room for those that come.
fn foresee(
    schema: Schema,
    arities: &[u8],
    state: &[u8],
    count: usize,
    number: usize,
    objects: &[u8],
) -> Result<Foreseen, PressRefusal>
    requires { Allowed arities.now objects.now schema state.now count }
    ensures { Asks (ask_admitted (schema_of arities.now schema) (record { schema = number; objects = objects.now })
        (facts_in arities.now count state.now)) result }
{
    let changes = changes_of(schema, arities, state, count, number, objects);
    let next = count + changes.come.count - changes.gone.count;
    if MOST_FACTS < next {
        return Err(PressRefusal::StateFull);
    }
    Ok(Foreseen {
        count: next,
        changes,
    })
}

// The rows that are given are as many as those found, and the same. A number of rows that no list has is another number.
fn same_rows(given: Rows, found: Rows) -> bool
    requires { found.count ≤ 8 }
    ensures { result ≡ same_rows (rows_of given) (rows_of found) }
{
    let end = 4 * found.count;
    given.count == found.count && given.rows[0..end] == found.rows[0..end]
}

// The same facts go, and the same come.
fn agree(given: Changes, found: Changes) -> bool
    requires { (found.gone.count ≤ 8) × (found.come.count ≤ 8) }
    ensures { result ≡ agree (preview_of given) (preview_of found) }
{
    same_rows(given.gone, found.gone) && same_rows(given.come, found.come)
}

// 23, the last check; only then is the next state stored.
fn store_agreed(
    agreed: bool,
    schema: Schema,
    arities: &[u8],
    state: &mut [u8],
    count: usize,
    objects: &[u8],
) -> Result<usize, CommitRefusal>
    requires { ActionReady arities.now objects.now schema state.old count }
    ensures { Commits (store_agreed state.old agreed (limited (successor (schema_of arities.now schema) objects.now
        (facts_in arities.now count state.old)))) state.new result }
{
    if !agreed {
        return Err(CommitRefusal::ChangesDiffer);
    }
    let stored = store_successor(schema, arities, state, count, objects)?;
    Ok(stored)
}

// 20, then 23.
fn commit_admitted(
    schema: Schema,
    arities: &[u8],
    state: &mut [u8],
    count: usize,
    objects: &[u8],
    changes: Changes,
) -> Result<usize, CommitRefusal>
    requires { Allowed arities.now objects.now schema state.old count }
    ensures { Commits (commit_admitted state.old (schema_of arities.now schema) objects.now
        (facts_in arities.now count state.old) (preview_of changes)) state.new result }
{
    let found = foresee(schema, arities, state, count, changes.schema, objects)?;
    let agreed = agree(changes, found.changes);
    store_agreed(agreed, schema, arities, state, count, objects)
}

// How many of the objects that are kept are lent on. A number past them stands for a list of that length, which no schema takes; neither does
// one take no object, so that 17 refuses both alike.
fn lent_count(count: usize) -> usize
    ensures { result ≡ lent_count count }
{
    if MOST_PARAMETERS < count { 0 } else { count }
}

// Asking: what applying the action would answer, and what it would do. What is lent is only read.
pub fn preview(
    card: &[u8],
    state: &[u8],
    count: usize,
    schema: usize,
    objects: &[u8],
) -> Result<Foreseen, PressRefusal>
    ensures { Asks (ask card.now state.now count (record { schema = schema; objects = objects.now })) result }
{
    let admitted = admit(card, state, count, schema, objects)?;
    let predicates = admitted.predicates;
    foresee(
        admitted.schema,
        &predicates.arities[0..predicates.count],
        state,
        count,
        schema,
        objects,
    )
}

// Committing: the action that the changes carry is applied, if on this state the same facts go and the same come. A refusal alters no byte.
pub fn commit(
    card: &[u8],
    state: &mut [u8],
    count: usize,
    changes: Changes,
) -> Result<usize, CommitRefusal>
    ensures { Commits (commit card.now state.old count (preview_of changes)) state.new result }
{
    let objects = &changes.objects[0..lent_count(changes.object_count)];
    let admitted = admit(card, state, count, changes.schema, objects)?;
    let predicates = admitted.predicates;
    commit_admitted(
        admitted.schema,
        &predicates.arities[0..predicates.count],
        state,
        count,
        objects,
        changes,
    )
}
