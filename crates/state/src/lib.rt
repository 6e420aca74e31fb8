// The rows of a state as ascending numbers: well-formedness, loading from a buffer and storing to it.
#![tactic(auto)]

ghost use Rattle.std.specs.Prelude.{◌+◌, ◌-◌, ◌*◌, ◌≤◌, true, ◌≡◌, length, take, drop, replicate};
ghost use mathlib.Core.List.{◌++◌, ◌∷◌, [], flat_map};
ghost use Rattle.std.specs.Simd.{first_chunks};
ghost use Rattle.laws.specs.Lists.{member};
ghost use Rattle.model.specs.Card.{in_range};
ghost use Rattle.model.specs.Strips.{state_bytes, most_facts, row_right, well_formed};
ghost use Rattle.sets.specs.Numbers.{place};
ghost use Rattle.state.specs.Rows.{row_number, row_bytes, numbers_in, stored, place_right, places_right, rows_in, RowsAscend};

// How many bytes of its buffer a state takes, how many facts it has at most, and the byte that stands for a missing argument.
// Document 01, "Pressing".
pub const STATE_BYTES: usize = 4096;

pub const MOST_FACTS: usize = 1024;

pub const FILLER: u8 = 255;

// The first `count` rows of a state, four bytes each.
fn rows(state: &[u8], count: usize) -> &[[u8; 4]]
    requires { 4 * count ≤ length state.now }
    ensures { result.now ≡ first_chunks 4 count state.now }
{
    let (rows, _) = state.as_chunks::<4>();
    &rows[..count]
}

// A row as one number, its first byte highest.
fn number(row: [u8; 4]) -> u32
    ensures { result ≡ row_number row }
{
    u32::from_be_bytes(row)
}

// Four bytes as one number, the first of them highest. Added up: by `number` the rows of many facts are made more than twice as slowly.
pub fn row_number(a: u8, b: u8, c: u8, d: u8) -> u32
    ensures { result ≡ row_number (a ∷ b ∷ c ∷ d ∷ []) }
{
    u32::from(a) * 16777216 + u32::from(b) * 65536 + u32::from(c) * 256 + u32::from(d)
}

// Writes the four bytes of a number as row i.
fn write_row(state: &mut [u8], i: usize, n: u32)
    requires { 4 * i + 4 ≤ length state.old }
    ensures { state.new ≡ take (4 * i) state.old ++ row_bytes n ++ drop (4 * i + 4) state.old }
{
    let at = 4 * i;
    state[at..at + 4].copy_from_slice(&n.to_be_bytes());
}

// The byte at place k of a row, 1 to 3, is right: a known object up to the arity, filler after it.
fn place_right(byte: u8, k: u8, arity: u8, objects: usize) -> bool
    ensures { result ≡ place_right objects arity k byte }
{
    if k <= arity {
        usize::from(byte) < objects
    } else {
        byte == FILLER
    }
}

// The bytes after a row's predicate are right. It is called with an arity that the compiler knows, so that what each byte has to be is decided
// once for the row: with the arity as a number a full state takes twice as long to check.
#[inline(always)]
fn places_right(row: [u8; 4], arity: u8, objects: usize) -> bool
    ensures { result ≡ places_right objects arity row }
{
    let [_, first, second, third] = row;
    place_right(first, 1, arity, objects)
        && place_right(second, 2, arity, objects)
        && place_right(third, 3, arity, objects)
}

// A row is right: its predicate and objects are known, and filler stands after them.
fn row_right(row: [u8; 4], arities: &[u8], objects: usize) -> bool
    requires { in_range arities.now ≡ true }
    ensures { result ≡ row_right arities.now objects row }
{
    let Some(&arity) = arities.get(usize::from(row[0])) else {
        return false;
    };
    match arity {
        1 => places_right(row, 1, objects),
        2 => places_right(row, 2, objects),
        _ => places_right(row, 3, objects),
    }
}

// The first `count` rows are right, and each stands above the one before it: at or above `least`, which may be 2 ^ 32.
fn rows_right(state: &[u8], count: usize, arities: &[u8], objects: usize) -> bool
    requires { (4 * count ≤ length state.now) × (in_range arities.now ≡ true) }
    ensures { result ≡ rows_in arities.now objects 0 count state.now }
{
    let mut least: u64 = 0;
    for &row in rows(state, count) {
        if !row_right(row, arities, objects) {
            return false;
        }
        let n = u64::from(number(row));
        if n < least {
            return false;
        }
        least = n + 1;
    }
    true
}

// The buffer and the count hold a state.
pub fn well_formed(state: &[u8], count: usize, arities: &[u8], objects: usize) -> bool
    requires { in_range arities.now ≡ true }
    ensures { result ≡ well_formed arities.now objects state.now count }
{
    if state.len() < STATE_BYTES {
        return false;
    }
    if MOST_FACTS < count {
        return false;
    }
    rows_right(state, count, arities, objects)
}

// How many of the first `count` rows have a number below n.
pub fn rows_below(state: &[u8], count: usize, n: u32) -> usize
    requires { RowsAscend count state.now }
    ensures { result ≡ place n (numbers_in count state.now) }
{
    // A loop, and not the library's `partition_point`: that one goes on in halves of one size whatever a row says, so that the processor does not
    // learn which comes next, and the open actions of a state, asked for again, take up to 1.7 times as long.
    let rows = rows(state, count);
    let mut low = 0;
    let mut high = count;
    while low < high {
        let middle = low + (high - low) / 2;
        if number(rows[middle]) < n {
            low = middle + 1;
        } else {
            high = middle;
        }
    }
    low
}

// One of the first `count` rows has the number.
pub fn has_row(state: &[u8], count: usize, n: u32) -> bool
    requires { RowsAscend count state.now }
    ensures { result ≡ member n (numbers_in count state.now) }
{
    let i = rows_below(state, count, n);
    match rows(state, count).get(i) {
        Some(row) => number(*row) == n,
        None => false,
    }
}

// The numbers of the first `count` rows, at the front of an array of 0.
pub fn load(state: &[u8], count: usize, numbers: &mut [u32])
    requires { (4 * count ≤ length state.now) × (count ≤ length numbers.old) }
    ensures { numbers.new ≡ numbers_in count state.now ++ drop count numbers.old }
{
    for (i, &row) in rows(state, count).iter().enumerate() {
        numbers[i] = number(row);
    }
}

// Writes numbers as rows from the front of the buffer on.
pub fn write_rows(state: &mut [u8], numbers: &[u32])
    requires { 4 * length numbers.now ≤ length state.old }
    ensures { state.new ≡ flat_map row_bytes numbers.now ++ drop (4 * length numbers.now) state.old }
{
    for (i, &n) in numbers.iter().enumerate() {
        write_row(state, i, n);
    }
}

// 0 from a byte on, up to byte 4,096.
fn clear(state: &mut [u8], at: usize)
    requires { (at ≤ state_bytes) × (state_bytes ≤ length state.old) }
    ensures { state.new ≡ take at state.old ++ replicate (state_bytes - at) 0 ++ drop state_bytes state.old }
{
    state[at..STATE_BYTES].fill(0);
}

// Stores a state: its rows, then 0 up to byte 4,096.
pub fn store(state: &mut [u8], numbers: &[u32])
    requires { (length numbers.now ≤ most_facts) × (state_bytes ≤ length state.old) }
    ensures { state.new ≡ stored numbers.now state.old }
{
    write_rows(state, numbers);
    clear(state, 4 * numbers.len());
}
