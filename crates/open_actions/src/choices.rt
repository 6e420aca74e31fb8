// The objects that are left to a parameter of a schema: by the preconditions (19), and by the room for the adds (20).
ghost use Rattle.std.specs.Prelude.{false};
ghost use Rattle.open_actions.specs.Bindings.{query_in, Searchable, Leaves};

use crate::query::Query;
use crate::room::with_room;
use crate::support::Candidates;
use state::MOST_FACTS;

impl Query<'_> {
    // The candidates of the preconditions, or, where there may not be room for all adds, those of them that leave room.
    pub(crate) fn choices_for(&self, bound: u64, level: usize, objects: &[u8]) -> Candidates
        requires { Searchable self.now false bound level objects.now }
        ensures { Leaves (query_in self.now) bound level objects.now result.mask result.culprits }
    {
        let preconditions = self.schema.preconditions;
        let left = self.candidates_for(preconditions, level, bound, objects);
        let deletes = self.schema.deletes;
        let room = MOST_FACTS + deletes.count - self.count;
        let new = self.schema.adds;
        let adds = new.count;
        if adds <= room {
            return left;
        }
        let supports = self.supports_for(new, level, bound, objects);
        with_room(left, &supports[..adds], room, self.known)
    }
}
