// Which objects are members of which space (document 01, "Spaces"). Until the last step a mask stands at the label of its space:
// the members of the space of a property c are at members[groups[c]].
ghost use Rattle.std.specs.Prelude.{◌≡◌, ℕ, ◌+◌, ◌*◌, ◌≤◌, ◌<◌, length, get_or, take};
ghost use mathlib.Core.List.{map, foldl};
ghost use Rattle.laws.specs.Lists.{same, padded};
ghost use Rattle.properties.specs.Parameters.{RoomForBags};
ghost use Rattle.properties.specs.Tables.{bag_at, HasRow};
ghost use Rattle.spaces.specs.Tabled.{Grouped};
ghost use Rattle.spaces.specs.Steps.{changed_by, join_at, open_at, open_masks, gain_row, round_in, rounds_in};

use crate::enabling::enabled;
use crate::grouping::{first_changed, has_start};

// Objects join the space of a property.
fn join(members: &mut [u64], groups: &[u8], c: usize, those: u64)
    requires c_in_bounds { c < length groups.now }
    requires c_in_bounds_2 { get_or groups.now c 0 < length members.old }
    ensures { members.new ≡ join_at groups.now those members.old c }
{
    let l = groups[c] as usize;
    members[l] = masks::union(members[l], those);
}

// The object joins the space of each property that it has at first.
fn open_object(members: &mut [u64], groups: &[u8], counts: &[u16], object: usize, size: usize)
    requires grouped { Grouped size groups.now }
    requires object_bound { object < 64 }
    requires has_row { HasRow size object counts.now }
    requires in_bounds { 60 ≤ length members.old }
    ensures { members.new ≡ open_at groups.now size counts.now object members.old }
{
    let at = 60 * object;
    let alone = masks::single(object);
    for c in 0..size {
        if 0 < counts[at + c] {
            join(members, groups, c, alone);
        }
    }
}

// The members that open in each space: the objects with a nonempty initial condition.
pub fn initial_members(groups: &[u8], counts: &[u16], objects: usize, size: usize) -> [u64; 60]
    requires grouped { Grouped size groups.now }
    requires objects_bound { objects ≤ 64 }
    requires objects_in_bounds { 60 * objects ≤ length counts.now }
    ensures { result ≡ open_masks groups.now size counts.now objects }
{
    let mut members = [0u64; 60];
    for object in 0..objects {
        open_object(&mut members, groups, counts, object, size);
    }
    members
}

// Objects join the space of each property that the parameter in a row changes.
fn join_changed(
    members: &mut [u64],
    groups: &[u8],
    deletes: &[u8],
    adds: &[u8],
    row: usize,
    size: usize,
    those: u64,
)
    requires grouped { Grouped size groups.now }
    requires has_row { HasRow size row deletes.now × HasRow size row adds.now }
    requires in_bounds { 60 ≤ length members.old }
    ensures { members.new
        ≡ foldl (join_at groups.now those) members.old
        (changed_by (bag_at size deletes.now row) (bag_at size adds.now row)) }
{
    let at = 60 * row;
    for c in 0..size {
        if deletes[at + c] != adds[at + c] {
            join(members, groups, c, those);
        }
    }
}

// What the parameter in a row brings into spaces: without a start its rules are increasing, and the space of each property that comes in gains the
// objects that the preconditions enable, by the members `before` the round.
fn gain(
    members: &mut [u64],
    before: &[u64],
    groups: &[u8],
    preconditions: &[u8],
    deletes: &[u8],
    adds: &[u8],
    row: usize,
    size: usize,
    objects: usize,
)
    requires grouped { Grouped size groups.now }
    requires objects_bound { objects ≤ 64 }
    requires has_row { HasRow size row preconditions.now × HasRow size row deletes.now × HasRow size row adds.now }
    requires in_bounds { (60 ≤ length before.now) × (60 ≤ length members.old) }
    ensures { members.new
        ≡ gain_row groups.now objects before.now members.old (bag_at size preconditions.now row)
        (bag_at size deletes.now row) (bag_at size adds.now row) }
{
    if has_start(deletes, adds, row, size) || first_changed(deletes, adds, row, size).is_none() {
        return;
    }
    let those = enabled(before, groups, preconditions, row, size, objects);
    join_changed(members, groups, deletes, adds, row, size, those);
}

// One round: each space gains every object that one of its own increasing rules admits.
fn round(
    members: [u64; 60],
    groups: &[u8],
    preconditions: &[u8],
    deletes: &[u8],
    adds: &[u8],
    count: usize,
    size: usize,
    objects: usize,
) -> [u64; 60]
    requires grouped { Grouped size groups.now }
    requires objects_bound { objects ≤ 64 }
    requires room_for_bags { RoomForBags count preconditions.now deletes.now adds.now }
    ensures { result
        ≡ round_in groups.now objects size count preconditions.now deletes.now adds.now members }
{
    let mut gained = members;
    for row in 0..count {
        gain(
            &mut gained,
            &members,
            groups,
            preconditions,
            deletes,
            adds,
            row,
            size,
            objects,
        );
    }
    gained
}

// So many rounds, fewer where one adds no member.
pub fn close(
    members: [u64; 60],
    groups: &[u8],
    preconditions: &[u8],
    deletes: &[u8],
    adds: &[u8],
    count: usize,
    size: usize,
    objects: usize,
    rounds: usize,
) -> [u64; 60]
    requires grouped { Grouped size groups.now }
    requires objects_bound { objects ≤ 64 }
    requires room_for_bags { RoomForBags count preconditions.now deletes.now adds.now }
    ensures { result
        ≡ rounds_in groups.now objects size count preconditions.now deletes.now adds.now rounds members }
{
    let mut closed = members;
    for _ in 0..rounds {
        let next = round(
            closed,
            groups,
            preconditions,
            deletes,
            adds,
            count,
            size,
            objects,
        );
        if closed == next {
            return closed;
        }
        closed = next;
    }
    closed
}

// The masks by the number of their space.
pub fn by_number(members: &[u64], lowest: &[u8], count: usize) -> [u64; 60]
    requires count_bound { (count ≤ 60) × (count ≤ length lowest.now) }
    requires in_bounds { 60 ≤ length members.now }
    requires by_index { (k : ℕ) → get_or lowest.now k 0 < 60 }
    ensures { result ≡ padded 60 0 (map (λ l. get_or members.now l 0) (take count lowest.now)) }
{
    let mut numbered = [0u64; 60];
    for k in 0..count {
        let l = lowest[k] as usize;
        numbered[k] = members[l];
    }
    numbered
}
