// The next open binding of a schema, and the next open action over the schemas of a task.
ghost use Rattle.std.specs.Prelude.{true, ◌≡◌, length};
ghost use Rattle.laws.specs.Lists.{before};
ghost use Rattle.open_actions.specs.Bindings.{query_in, Full};
ghost use Rattle.open_actions.specs.Notes.{Notes, KeepsNotes};
ghost use Rattle.open_actions.specs.Schemas.{NotesReady};
ghost use Rattle.open_actions.specs.Schemas.{FitTested, MayFit, Picks, BindingPicked, AmongAnswered, RestOfSchema};

use crate::OpenAction;
use crate::notes::NOTES;
use crate::query::{Queries, Query};
use actions::{MOST_PARAMETERS, in_front};
use masks::all_below;

// Where parameters times objects are no more than these the bindings are few: nothing is noted, and the last parameters are not tested
// before the search.
const FEW: usize = 24;

impl Query<'_> {
    // The last parameters alone: false if no objects for the parameters from some level on fit together, whatever the earlier ones are.
    // Then no binding is open. Levels 0 and 1 are left to the search itself.
    fn last_parameters_fit(&self, objects: &mut [u8], notes: &mut [u8]) -> bool
        requires { NotesReady self.now objects.old notes.old }
        ensures { FitTested (query_in self.now) objects.new result
            × KeepsNotes (query_in self.now) notes.old notes.new }
    {
        let parameters = objects.len();
        if parameters * self.known <= FEW {
            return true;
        }
        for first in (2..parameters).rev() {
            let bound = 0u64;
            let searched = self.search(false, bound, first, 0, objects, notes);
            if searched.is_err() {
                return false;
            }
        }
        true
    }

    // The same test on objects of its own, where those of a given binding are still needed.
    fn may_fit(&self, notes: &mut [u8]) -> bool
        requires { Notes (query_in self.now) notes.old }
        ensures { MayFit (query_in self.now) result
            × KeepsNotes (query_in self.now) notes.old notes.new }
    {
        let parameters = self.schema.parameters;
        let mut trial = [0; MOST_PARAMETERS];
        self.last_parameters_fit(&mut trial[..parameters], notes)
    }

    // The first open binding of a schema, left in the lent objects.
    fn first_binding(&self, objects: &mut [u8], notes: &mut [u8]) -> bool
        requires { NotesReady self.now objects.old notes.old }
        ensures { Picks (query_in self.now) (λ y. true) objects.new result
            × (length notes.new ≡ length notes.old) }
    {
        if !self.last_parameters_fit(objects, notes) {
            return false;
        }
        let from = 0usize;
        let searched = self.search(true, 0, 0, from, objects, notes);
        searched.is_ok()
    }

    // The first open binding after the one in the lent objects, left there. Where the last parameters fit, it is looked for by the last
    // one first: a binding that keeps more of the given objects comes before one that keeps fewer. A search leaves the objects below its
    // level as they are.
    fn next_binding(&self, objects: &mut [u8], notes: &mut [u8]) -> bool
        requires { NotesReady self.now objects.old notes.old }
        ensures { Picks (query_in self.now) (before objects.old) objects.new result
            × (length notes.new ≡ length notes.old) }
    {
        if !self.may_fit(notes) {
            return false;
        }
        for level in (0..objects.len()).rev() {
            let from = usize::from(objects[level]) + 1;
            let bound = all_below(level);
            let searched = self.search(true, bound, level, from, objects, notes);
            if searched.is_ok() {
                return true;
            }
        }
        false
    }

    // The first open binding of a schema. The places past the parameters are 0.
    // Kept beside `open_after`: one function of both would take the search as a closure of two lent slices, whose contract is longer than the two.
    fn first_open(&self) -> Option<[u8; MOST_PARAMETERS]>
        ensures { BindingPicked (query_in self.now) (λ y. true) result }
    {
        let parameters = self.schema.parameters;
        let mut objects = [0; MOST_PARAMETERS];
        let bound = &mut objects[..parameters];
        let found = if parameters * self.known <= FEW {
            self.first_binding(bound, &mut [])
        } else {
            let mut notes = [0u8; NOTES];
            self.first_binding(bound, &mut notes)
        };
        if found { Some(objects) } else { None }
    }

    // The first open binding of a schema after a given one.
    fn open_after(&self, given: &[u8]) -> Option<[u8; MOST_PARAMETERS]>
        requires { Full (query_in self.now) given.now }
        ensures { BindingPicked (query_in self.now) (before given.now) result }
    {
        let parameters = self.schema.parameters;
        let mut objects = in_front(given);
        let bound = &mut objects[..parameters];
        let found = if parameters * self.known <= FEW {
            self.next_binding(bound, &mut [])
        } else {
            let mut notes = [0u8; NOTES];
            self.next_binding(bound, &mut notes)
        };
        if found { Some(objects) } else { None }
    }

    // The next open action of a schema after a given binding of it, if the schema has one.
    pub(crate) fn rest_of_schema(&self, number: usize, given: &[u8]) -> Option<OpenAction>
        requires { Full (query_in self.now) given.now }
        ensures { RestOfSchema (query_in self.now) (record { schema = number; objects = given.now }) result }
    {
        let objects = self.open_after(given)?;
        Some(OpenAction {
            schema: number,
            object_count: self.schema.parameters,
            objects,
        })
    }
}

impl Queries<'_> {
    // The first open action of a schema of the task or of a later one, if there is one.
    pub(crate) fn open_among(&self, first: usize) -> Option<OpenAction>
        ensures { AmongAnswered self.now first result }
    {
        for number in first..self.schemas.count {
            let query = self.query(number);
            if let Some(objects) = query.first_open() {
                return Some(OpenAction {
                    schema: number,
                    object_count: query.schema.parameters,
                    objects,
                });
            }
        }
        None
    }
}
