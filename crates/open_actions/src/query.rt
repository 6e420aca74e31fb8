// The bindings that are searched, on a state: those of one schema, or of each schema of a task.
ghost use Rattle.std.specs.Prelude.{◌≡◌, ◌<◌};
ghost use Rattle.open_actions.specs.Ready.{SchemaReady, SchemasReady};

use card::{Schema, SchemaList};

// A schema of a task, the arities of the task's predicates and the number of its objects, and the rows of a state.
#[derive(Clone, Copy)]
pub(crate) struct Query<'a> {
    pub schema: Schema,
    pub arities: &'a [u8],
    pub known: usize,
    pub state: &'a [u8],
    pub count: usize,
    ghost ready: { SchemaReady arities.now known schema state.now count },
}

// The same with all schemas of the task.
#[derive(Clone, Copy)]
pub(crate) struct Queries<'a> {
    pub schemas: &'a SchemaList,
    pub arities: &'a [u8],
    pub known: usize,
    pub state: &'a [u8],
    pub count: usize,
    ghost ready: { SchemasReady arities.now known schemas.now state.now count },
}

impl Queries<'_> {
    ghost use Rattle.open_actions.specs.Bindings.{query_in};
    ghost use Rattle.open_actions.specs.Schemas.{query_within};

    // The query of a schema.
    pub(crate) fn query(&self, number: usize) -> Query<'_>
        requires { number < self.now.schemas.now.count }
        ensures { query_in result ≡ query_within self.now number }
    {
        Query {
            schema: self.schemas.schemas[number],
            arities: self.arities,
            known: self.known,
            state: self.state,
            count: self.count,
        }
    }
}
