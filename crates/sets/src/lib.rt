// Sets of numbers, kept as ascending lists at the front of an array, with 0 behind them.
#![tactic(auto)]

ghost use Rattle.std.specs.Prelude.{◌+◌, ◌≤◌, ◌<◌, true, ◌≡◌, length, take};
ghost use Rattle.sets.specs.Numbers.{rising, found, without, inserted, without_all, inserted_all, gap_closed, room_made, SetKept, Becomes};

// Where n stands on an ascending list, or else where it would stand.
pub fn find(numbers: &[u32], n: u32) -> Result<usize, usize>
    requires { rising 0 numbers.now ≡ true }
    ensures { result ≡ found n numbers.now }
{
    numbers.binary_search(&n)
}

// The number at a place goes, those after it move down, and 0 comes behind them.
fn close_gap(numbers: &mut [u32], at: usize, count: usize)
    requires { (at < count) × (count ≤ length numbers.old) }
    ensures { numbers.new ≡ gap_closed at count numbers.old }
{
    numbers.copy_within(at + 1..count, at);
    numbers[count - 1] = 0;
}

// A number comes to a place, and those from there on move up.
fn make_room(numbers: &mut [u32], at: usize, count: usize, n: u32)
    requires { (at ≤ count) × (count < length numbers.old) }
    ensures { numbers.new ≡ room_made at count n numbers.old }
{
    numbers.copy_within(at..count, at + 1);
    numbers[at] = n;
}

// Takes a number out of the first `count`.
fn remove(numbers: &mut [u32], count: usize, n: u32) -> usize
    requires { SetKept count numbers.old }
    ensures { Becomes (without n (take count numbers.old)) numbers.old numbers.new result }
{
    let Ok(at) = find(&numbers[..count], n) else {
        return count;
    };
    close_gap(numbers, at, count);
    count - 1
}

// Puts a number into its place among the first `count`; nothing changes if it is there.
fn insert(numbers: &mut [u32], count: usize, n: u32) -> usize
    requires { (count < length numbers.old) × SetKept count numbers.old }
    ensures { Becomes (inserted n (take count numbers.old)) numbers.old numbers.new result }
{
    let Err(at) = find(&numbers[..count], n) else {
        return count;
    };
    make_room(numbers, at, count, n);
    count + 1
}

// Takes numbers out, one after the other.
pub fn remove_all(numbers: &mut [u32], count: usize, out: &[u32]) -> usize
    requires { SetKept count numbers.old }
    ensures { Becomes (without_all out.now (take count numbers.old)) numbers.old numbers.new result }
{
    let mut left = count;
    for &n in out {
        left = remove(numbers, left, n);
    }
    left
}

// Puts numbers in, one after the other.
pub fn insert_all(numbers: &mut [u32], count: usize, new: &[u32]) -> usize
    requires { (count + length new.now ≤ length numbers.old) × SetKept count numbers.old }
    ensures { Becomes (inserted_all new.now (take count numbers.old)) numbers.old numbers.new result }
{
    let mut held = count;
    for &n in new {
        held = insert(numbers, held, n);
    }
    held
}
