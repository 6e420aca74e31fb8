// Two conditions of a table compared.
ghost use Rattle.std.specs.Prelude.{◌≡◌, ◌≤◌, drop};
ghost use Rattle.laws.specs.Bags as laws;
ghost use Rattle.properties.specs.Tables.{bag_at, HasRow};
ghost use Rattle.conditions.specs.Comparing.{in_code, FirstDifference};

// How a condition stands to another (document 02, No. 2). One contains another if none of its counts is smaller (document 01).
#[derive(Clone, Copy)]
pub enum Comparison {
    // Each contains the other.
    Equal,
    // The other contains it, and the two differ.
    Within,
    // It contains the other, and the two differ.
    Around,
    // Neither contains the other.
    Apart,
}

// The first place at which rows i and j differ.
fn first_difference(table: &[u16], size: usize, i: usize, j: usize) -> Option<usize>
    requires { HasRow size i table.now × HasRow size j table.now }
    ensures { FirstDifference (bag_at size table.now i) (bag_at size table.now j) result }
{
    let first = 60 * i;
    let second = 60 * j;
    for k in 0..size {
        if table[first + k] != table[second + k] {
            return Some(k);
        }
    }
    None
}

// None of the counts of row i from a place on is smaller than that of row j.
fn covers_from(table: &[u16], size: usize, i: usize, j: usize, place: usize) -> bool
    requires { HasRow size i table.now × HasRow size j table.now × (place ≤ size) }
    ensures { result ≡ laws.contains (drop place (bag_at size table.now i)) (drop place (bag_at size table.now j)) }
{
    let first = 60 * i;
    let second = 60 * j;
    for k in place..size {
        if table[first + k] < table[second + k] {
            return false;
        }
    }
    true
}

// Row i compared with row j. The first place at which they differ leaves one direction in which one may contain the other.
pub fn compare(table: &[u16], size: usize, i: usize, j: usize) -> Comparison
    requires { HasRow size i table.now × HasRow size j table.now }
    ensures { result ≡ in_code (laws.compare (bag_at size table.now i) (bag_at size table.now j)) }
{
    let Some(place) = first_difference(table, size, i, j) else {
        return Comparison::Equal;
    };
    if table[60 * i + place] < table[60 * j + place] {
        if covers_from(table, size, j, i, place) {
            return Comparison::Within;
        }
        return Comparison::Apart;
    }
    if covers_from(table, size, i, j, place) {
        return Comparison::Around;
    }
    Comparison::Apart
}
