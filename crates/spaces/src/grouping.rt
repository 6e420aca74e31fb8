// Which properties share a space (document 01, "Spaces"): the start and finish properties of each rule are brought into one group. Of the rules of
// a parameter only the one with the start D less X and the finish A less X has several: X is exchanged property by property, and without a start
// properties come in one by one. A grouping has 60 labels: for each property the lowest property of its group, and 0 past the properties.
ghost use Rattle.std.specs.Prelude.{◌≡◌, cond, map, ◌*◌, ◌≤◌, ◌<◌, eqb, length};
ghost use Rattle.laws.specs.Lists.{up_to, padded};
ghost use Rattle.model.specs.Spaces as model;
ghost use Rattle.properties.specs.Tables.{bag_at, HasRow};
ghost use Rattle.spaces.specs.Steps.{has_start, changed_by, united_by, first_of, groups_in, labelled};

// The parameter in a row has a rule with a start beside the exchanges: it deletes some property more often than it adds it.
pub fn has_start(deletes: &[u8], adds: &[u8], row: usize, size: usize) -> bool
    requires { HasRow size row deletes.now × HasRow size row adds.now }
    ensures { result ≡ has_start (bag_at size deletes.now row) (bag_at size adds.now row) }
{
    let at = 60 * row;
    for c in 0..size {
        if adds[at + c] < deletes[at + c] {
            return true;
        }
    }
    false
}

// The first property that the parameter in a row does not delete as often as it adds it.
pub fn first_changed(deletes: &[u8], adds: &[u8], row: usize, size: usize) -> Option<usize>
    requires { HasRow size row deletes.now × HasRow size row adds.now }
    ensures { result ≡ first_of (changed_by (bag_at size deletes.now row) (bag_at size adds.now row)) }
{
    let at = 60 * row;
    for c in 0..size {
        if deletes[at + c] != adds[at + c] {
            return Some(c);
        }
    }
    None
}

// One label gives way to another.
fn relabelled(groups: [u8; 60], from: u8, to: u8) -> [u8; 60]
    ensures { result ≡ map (λ l. cond (eqb l from) to l) groups }
{
    let mut labels = groups;
    for label in labels.iter_mut() {
        if *label == from {
            *label = to;
        }
    }
    labels
}

// Two properties are brought into one group: the higher of their labels gives way to the lower. Nothing to do where they share one.
fn unite(groups: [u8; 60], c: usize, d: usize) -> [u8; 60]
    requires { (c < 60) × (d < 60) }
    ensures { result ≡ model.unite c groups d }
{
    let g = groups[c];
    let h = groups[d];
    if g == h {
        return groups;
    }
    if g < h {
        return relabelled(groups, h, g);
    }
    relabelled(groups, g, h)
}

// All properties that the parameter in a row changes are brought together with the first of them.
fn unite_changed(groups: [u8; 60], deletes: &[u8], adds: &[u8], row: usize, size: usize) -> [u8; 60]
    requires size_bound { size ≤ 60 }
    requires has_row { HasRow size row deletes.now × HasRow size row adds.now }
    ensures { result ≡ model.unite_all groups (changed_by (bag_at size deletes.now row) (bag_at size adds.now row)) }
{
    let Some(first) = first_changed(deletes, adds, row, size) else {
        return groups;
    };
    let at = 60 * row;
    let mut united = groups;
    for c in 0..size {
        if deletes[at + c] != adds[at + c] {
            // Through `next`, as in `grouping`: the prover covers no call whose answer is put into the array that it is given.
            let next = unite(united, first, c);
            united = next;
        }
    }
    united
}

// The properties that one rule of the parameter in a row moves together share a group.
fn unite_row(groups: [u8; 60], deletes: &[u8], adds: &[u8], row: usize, size: usize) -> [u8; 60]
    requires size_bound { size ≤ 60 }
    requires has_row { HasRow size row deletes.now × HasRow size row adds.now }
    ensures { result ≡ model.unite_all groups (united_by (bag_at size deletes.now row) (bag_at size adds.now row)) }
{
    if has_start(deletes, adds, row, size) {
        return unite_changed(groups, deletes, adds, row, size);
    }
    groups
}

// Each property in a group of its own.
fn each_alone(size: usize) -> [u8; 60]
    requires { size ≤ 60 }
    ensures { result ≡ padded 60 0 (up_to size) }
{
    let mut groups = [0u8; 60];
    for c in 0..size {
        groups[c] = c as u8;
    }
    groups
}

// The grouping by the parameters in the first `count` rows of the tables.
pub fn grouping(deletes: &[u8], adds: &[u8], count: usize, size: usize) -> [u8; 60]
    requires size_bound { size ≤ 60 }
    requires count_in_bounds { 60 * count ≤ length deletes.now }
    requires count_in_bounds_2 { 60 * count ≤ length adds.now }
    ensures { result ≡ groups_in size count deletes.now adds.now }
{
    let mut groups = each_alone(size);
    for row in 0..count {
        let next = unite_row(groups, deletes, adds, row, size);
        groups = next;
    }
    groups
}

// The labels of a grouping, ascending: for each space its lowest property. Places past their number are 0.
#[derive(Clone, Copy)]
pub struct Labels {
    pub count: usize,
    pub lowest: [u8; 60],
}

// A property is the lowest of its space where it is its own label.
// `own::own_properties` keeps by another test, into an array of another type: one function for both would copy one of the two over.
pub fn labels_of(groups: &[u8], size: usize) -> Labels
    requires size_bound { size ≤ 60 }
    requires size_in_bounds { size ≤ length groups.now }
    ensures count_value { result.count ≡ length (labelled size groups.now) }
    ensures lowest_value { result.lowest ≡ padded 60 0 (labelled size groups.now) }
{
    let mut lowest = [0u8; 60];
    let mut count: usize = 0;
    for c in 0..size {
        if groups[c] as usize == c {
            lowest[count] = groups[c];
            count += 1;
        }
    }
    Labels { count, lowest }
}
