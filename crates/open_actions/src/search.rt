// The search for the first open binding of a schema: parameter by parameter, each by the objects in their order.
ghost use Rattle.std.specs.Prelude.{◌≡◌, ◌+◌, ◌≤◌, ◌<◌, length, set, IfSome};
ghost use Rattle.masks.specs.Sets.{union_of, single_of};
ghost use Rattle.open_actions.specs.Bindings.{query_in, Taken, Searchable, SearchOutcome};
ghost use Rattle.open_actions.specs.Notes.{Descends, Searches, Concludes};

use crate::notes::{note, recall};
use crate::query::Query;
use actions::all_different;
use masks::{common, is_member, single, union};
use strips::allows;

// A binding is found, or there is none: the objects of the culprits, which are bound parameters, rule out every binding.
type Searched = Result<(), u64>;

// The parameter below a level that is bound to the object.
fn taken_by(objects: &[u8], bound: u64, level: usize, o: usize) -> Option<usize>
    requires { (level ≤ length objects.now) × (length objects.now ≤ 64) }
    ensures { IfSome result (λ j. Taken objects.now bound level o j) }
{
    for j in 0..level {
        if is_member(bound, j) && usize::from(objects[j]) == o {
            return Some(j);
        }
    }
    None
}

impl Query<'_> {
    // Every parameter has its object: what an exact search finds is open.
    fn complete(&self, exact: bool, bound: u64, objects: &[u8]) -> Searched
        requires { Searchable self.now exact bound (length objects.now) objects.now }
        ensures { SearchOutcome (query_in self.now) exact bound (length objects.now) 0
            objects.now objects.now result }
    {
        if !exact {
            return Ok(());
        }
        if !all_different(objects) {
            return Err(bound);
        }
        if allows(self.schema, self.arities, self.state, self.count, objects) {
            Ok(())
        } else {
            Err(bound)
        }
    }

    // The parameter of a level is bound to an object, and the search goes on with the next one, unless it is known to be stuck. Where an
    // earlier parameter has the object already nothing is found, but the search goes on all the same: what it is stuck at may be no fault of
    // the earlier parameter.
    #[cycle(descend_search)]
    fn descend(
        &self,
        exact: bool,
        bound: u64,
        level: usize,
        o: usize,
        objects: &mut [u8],
        notes: &mut [u8],
    ) -> Searched
        requires { Descends self.now exact bound level o objects.old notes.old }
        ensures { Concludes (query_in self.now) exact (union_of bound (single_of level)) (level + 1) 0
            (set objects.old level o) objects.new notes.old notes.new result }
    {
        objects[level] = o as u8;
        let this = single(level);
        let here = union(bound, this);
        let place = 64 * level + o;
        if let Some(culprits) = recall(notes, place, here, objects) {
            return Err(culprits);
        }
        let owner = taken_by(objects, bound, level, o);
        let free = exact && owner.is_none();
        let later = self.search(free, here, level + 1, 0, objects, notes);
        if let Err(culprits) = later {
            note(notes, place, union(culprits, this), objects);
            return later;
        }
        match owner {
            Some(earlier) => Err(union(single(earlier), this)),
            None => later,
        }
    }

    // The first open binding that begins with the objects below a level and has, at the level, an object from the given one on.
    #[cycle(descend_search)]
    pub(crate) fn search(
        &self,
        exact: bool,
        bound: u64,
        level: usize,
        from: usize,
        objects: &mut [u8],
        notes: &mut [u8],
    ) -> Searched
        requires { Searches self.now exact bound level objects.old notes.old }
        ensures { Concludes (query_in self.now) exact bound level from
            objects.old objects.new notes.old notes.new result }
    {
        if level == objects.len() {
            return self.complete(exact, bound, objects);
        }
        let left = self.choices_for(bound, level, objects);
        let mut culprits = left.culprits;
        for o in from..self.known {
            if is_member(left.mask, o) {
                let tried = self.descend(exact, bound, level, o, objects, notes);
                let Err(why) = tried else {
                    return tried;
                };
                if !is_member(why, level) {
                    return tried;
                }
                culprits = union(culprits, common(why, bound));
            }
        }
        Err(culprits)
    }
}
