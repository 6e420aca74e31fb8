// Which conditions contain which, as masks, and the conditions that strictly contain no other.
ghost use Rattle.std.specs.Prelude.{◌≡◌, ◌+◌, ◌≤◌, ◌<◌, eqb};
ghost use Rattle.masks.specs.Sets.{common_of};
ghost use Rattle.properties.specs.Tables.{bag_at, bags_in, HasRow, HasRows};
ghost use Rattle.conditions.specs.Minimal.{entered_at, masks_by, PairEntered, AllEntered, MinimalOf};

use crate::bags::{Comparison, compare};
use masks::{common, single, union};

// The minimal conditions by their indices, ascending, with their number; and for each condition the mask of those that contain it.
#[derive(Clone, Copy)]
pub struct Minimal {
    pub count: usize,
    pub indices: [u8; 64],
    pub containing: [u64; 64],
}

// Condition k contains condition i: k is entered into the mask of those that contain i, and i into that of those that k contains.
fn enter(containing: &mut [u64; 64], contained: &mut [u64; 64], k: usize, i: usize)
    requires { (k < 64) × (i < 64) }
    ensures { (containing.new ≡ entered_at i k containing.old) × (contained.new ≡ entered_at k i contained.old) }
{
    containing[i] = union(containing[i], single(k));
    contained[k] = union(contained[k], single(i));
}

// Conditions i and k compared once, for both directions.
fn compare_pair(
    table: &[u16],
    size: usize,
    i: usize,
    k: usize,
    containing: &mut [u64; 64],
    contained: &mut [u64; 64],
)
    requires { HasRow size i table.now × HasRow size k table.now × (i < 64) × (k < 64) }
    ensures { PairEntered
        (bag_at size table.now i)
        (bag_at size table.now k)
        i
        k
        (masks_by containing.old contained.old)
        (masks_by containing.new contained.new) }
{
    match compare(table, size, i, k) {
        Comparison::Equal => {
            enter(containing, contained, k, i);
            enter(containing, contained, i, k);
        }
        Comparison::Within => enter(containing, contained, k, i),
        Comparison::Around => enter(containing, contained, i, k),
        Comparison::Apart => {}
    }
}

// Condition i compared with each before it. It contains itself.
fn compare_earlier(
    table: &[u16],
    size: usize,
    i: usize,
    containing: &mut [u64; 64],
    contained: &mut [u64; 64],
)
    requires has_rows { HasRows size (i + 1) table.now × (i < 64) }
    requires all_entered { AllEntered size table.now i (masks_by containing.old contained.old) }
    ensures { AllEntered size table.now (i + 1) (masks_by containing.new contained.new) }
{
    for k in 0..i {
        compare_pair(table, size, i, k, containing, contained);
    }
    enter(containing, contained, i, i);
}

// Each two of the conditions compared: which contain which, from empty masks.
fn compare_all(
    table: &[u16],
    count: usize,
    size: usize,
    containing: &mut [u64; 64],
    contained: &mut [u64; 64],
)
    requires has_rows { HasRows size count table.now × (count ≤ 64) }
    requires all_entered { AllEntered size table.now 0 (masks_by containing.old contained.old) }
    ensures { AllEntered size table.now count (masks_by containing.new contained.new) }
{
    for i in 0..count {
        compare_earlier(table, size, i, containing, contained);
    }
}

// A condition strictly contains none: whatever it contains contains it.
fn is_minimal(containing: u64, contained: u64) -> bool
    ensures { result ≡ eqb (common_of contained containing) contained }
{
    common(contained, containing) == contained
}

// The indices of the conditions that strictly contain no other, and for each condition the mask of those that contain it.
pub fn minimal_of(table: &[u16], count: usize, size: usize) -> Minimal
    requires { HasRows size count table.now × (count ≤ 64) }
    ensures { MinimalOf (bags_in size count table.now) result }
{
    let mut containing = [0u64; 64];
    let mut contained = [0u64; 64];
    compare_all(table, count, size, &mut containing, &mut contained);
    let mut indices = [0u8; 64];
    let mut n = 0;
    for i in 0..count {
        if is_minimal(containing[i], contained[i]) {
            indices[n] = i as u8;
            n += 1;
        }
    }
    Minimal {
        count: n,
        indices,
        containing,
    }
}
