// The open actions of a state, one at a time: the next one after a given one, by schema number, then by the objects of the parameters in order.
#![tactic(auto)]

mod choices;
mod notes;
mod query;
mod room;
mod rows;
mod schemas;
mod search;
mod support;

ghost use Rattle.std.specs.Prelude.{◌≡◌};
ghost use Rattle.model.specs.Open.{next_open_of, next_open};
ghost use Rattle.card.specs.Represents.{task_of, Represented};
ghost use Rattle.open_actions.specs.Answers.{given_of, Says};
ghost use Rattle.open_actions.specs.Schemas.{AfterAnswered};
ghost use Rattle.open_actions.specs.declared.OpenRefusal.TheVariants.{Card};

use crate::query::Queries;
use actions::{MOST_PARAMETERS, all_different, all_known};
use card::{Refusal, Task, Verdict};
use reader::decode;
use state::well_formed;

// An open action: its schema, and as many objects as the schema has parameters. The places past them are 0.
#[derive(Clone, Copy)]
pub struct OpenAction {
    pub schema: usize,
    pub object_count: usize,
    pub objects: [u8; MOST_PARAMETERS],
}

// Why there is no answer. A refusal of the card is handed through.
#[derive(Clone, Copy)]
pub enum OpenRefusal {
    Card(Refusal),
    StateMalformed,
    SchemaUnknown,
    ObjectsWrong,
    ObjectsRepeated,
}

impl From<Refusal> for OpenRefusal {
    ghost from_gives = { λ refusal e. e ≡ Card refusal };

    fn from(refusal: Refusal) -> OpenRefusal {
        OpenRefusal::Card(refusal)
    }
}

impl Queries<'_> {
    // 16 to 18 of the given action, as at a press, then the next open action of its schema, or the end where its schema has none after it.
    fn after_given(&self, number: usize, objects: &[u8]) -> Result<Option<OpenAction>, OpenRefusal>
        ensures { AfterAnswered self.now (record { schema = number; objects = objects.now }) result }
    {
        if self.schemas.count <= number {
            return Err(OpenRefusal::SchemaUnknown);
        }
        let query = self.query(number);
        if objects.len() != query.schema.parameters || !all_known(objects, self.known) {
            return Err(OpenRefusal::ObjectsWrong);
        }
        if !all_different(objects) {
            return Err(OpenRefusal::ObjectsRepeated);
        }
        let rest = query.rest_of_schema(number, objects);
        Ok(rest)
    }
}

// 15 to 18, for a task: the state first, then the given action and the rest of its schema, then the later schemas; with none given all
// schemas.
fn next_open_of(
    task: Task,
    state: &[u8],
    count: usize,
    given: Option<usize>,
    objects: &[u8],
) -> Result<Option<OpenAction>, OpenRefusal>
    requires { Represented task (task_of task) }
    ensures { Says (next_open_of (task_of task) state.now count (given_of given objects.now)) result }
{
    let predicates = task.predicates;
    let arities = &predicates.arities[0..predicates.count];
    let known = task.objects;
    if !well_formed(state, count, arities, known) {
        return Err(OpenRefusal::StateMalformed);
    }
    let queries = Queries {
        schemas: &task.schemas,
        arities,
        known,
        state,
        count,
    };
    let Some(number) = given else {
        let all = queries.open_among(0);
        return Ok(all);
    };
    let next = queries.after_given(number, objects)?;
    if next.is_some() {
        return Ok(next);
    }
    let later = queries.open_among(number + 1);
    Ok(later)
}

// The next open action of a card's task in a state, after the one given by its schema and the objects lent beside it or, with none given,
// the first of all; none at the end. What is lent is only read, and the objects are not looked at with none given.
pub fn next_open(
    card: &[u8],
    state: &[u8],
    count: usize,
    given: Option<usize>,
    objects: &[u8],
) -> Result<Option<OpenAction>, OpenRefusal>
    ensures { Says (next_open card.now state.now count (given_of given objects.now)) result }
{
    let decoded = decode(card);
    let verdict = decoded.verdict;
    let task = decoded.task;
    match verdict {
        Verdict::Refused(refusal) => Err(OpenRefusal::from(refusal)),
        Verdict::Accepted => next_open_of(task, state, count, given, objects),
    }
}
