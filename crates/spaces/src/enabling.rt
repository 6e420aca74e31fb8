// Which objects a parameter's preconditions enable. Here a mask stands at the label of its space, as in `members`.
ghost use Rattle.std.specs.Prelude.{◌≡◌, ◌≤◌, length};
ghost use Rattle.properties.specs.Tables.{bag_at, HasRow};
ghost use Rattle.spaces.specs.Steps.{enabled_by};
ghost use Rattle.spaces.specs.Tabled.{Grouped};

// The objects that are members of the space of each property in a row; no property means every object.
pub fn enabled(
    members: &[u64],
    groups: &[u8],
    preconditions: &[u8],
    row: usize,
    size: usize,
    objects: usize,
) -> u64
    requires grouped { Grouped size groups.now }
    requires objects_bound { objects ≤ 64 }
    requires has_row { HasRow size row preconditions.now }
    requires in_bounds { 60 ≤ length members.now }
    ensures { result ≡ enabled_by groups.now objects members.now (bag_at size preconditions.now row) }
{
    let at = 60 * row;
    let mut those = masks::all_below(objects);
    for c in 0..size {
        if 0 < preconditions[at + c] {
            let l = groups[c] as usize;
            those = masks::common(those, members[l]);
        }
    }
    those
}
