// Spaces: which properties share one, and which objects are members, as masks.
#![tactic(auto)]

pub mod enabling;
mod grouping;
mod members;
pub mod own;

ghost use Rattle.std.specs.Prelude.{◌≡◌, ◌*◌, ◌≤◌, length};
ghost use Rattle.properties.specs.Parameters.{RoomForBags};
ghost use Rattle.spaces.specs.SpaceTable.{spaces_in};

// The spaces of a task: their number; for each property, by number, the lowest property of its space; for each space, in order,
// its lowest property and its members. Places past the number of properties or spaces are 0.
#[derive(Clone, Copy)]
pub struct Spaces {
    pub count: usize,
    pub groups: [u8; 60],
    pub lowest: [u8; 60],
    pub members: [u64; 60],
}

// The spaces by the bags P, D and A of so many `parameters`, over `size` properties, and the initial bags of the objects.
pub fn spaces_of(
    preconditions: &[u8],
    deletes: &[u8],
    adds: &[u8],
    counts: &[u16],
    parameters: usize,
    size: usize,
    objects: usize,
) -> Spaces
    requires size_bound { (size ≤ 60) × (objects ≤ 64) }
    requires room_for_bags { RoomForBags parameters preconditions.now deletes.now adds.now }
    requires objects_in_bounds { 60 * objects ≤ length counts.now }
    ensures { result
        ≡ spaces_in size parameters objects preconditions.now deletes.now adds.now counts.now }
{
    let groups = grouping::grouping(deletes, adds, parameters, size);
    let labels = grouping::labels_of(&groups, size);
    let count = labels.count;
    let lowest = labels.lowest;
    let initial = members::initial_members(&groups, counts, objects, size);
    // What an object gains depends on no other object, so that as many rounds as there are spaces are enough.
    let rounds = count;
    let closed = members::close(
        initial,
        &groups,
        preconditions,
        deletes,
        adds,
        parameters,
        size,
        objects,
        rounds,
    );
    let members = members::by_number(&closed, &lowest, count);
    Spaces {
        count,
        groups,
        lowest,
        members,
    }
}
