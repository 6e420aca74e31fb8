// The listing call: one section per call, written as text.
#![tactic(auto)]

ghost use Rattle.std.specs.Prelude.{◌≡◌, List, ℕ, ◌*◌, ◌≤◌, length};
ghost use Rattle.model.specs.Card as model;
ghost use Rattle.model.specs.Calls.{output_bytes};
ghost use Rattle.card.specs.Represents.{task_of, Represented};
ghost use Rattle.properties.specs.Tables.{stride};
ghost use Rattle.properties.specs.Parameters.{parameters_in, RoomForBags};
ghost use Rattle.closing.specs.Fixed.{fixed_table};
ghost use Rattle.prepared.specs.Prepared.{rows_at_most, RoomForMoves, Given};
ghost use Rattle.listing.specs.declared.ListingRefusal.TheVariants.{Card};
ghost use Rattle.listing.specs.Answers.{Lists};
ghost use Rattle.listing.specs.Sections.{TaskLists};
ghost use Rattle.listing.specs.Lent.{AllAnalysable};

use card::{OUTPUT_BYTES, Refusal, Task, Verdict};
use closing::write_closing;
use prepared::{Prepared, analyse_space, enter_space, prepare, rows_at_most, write_space_section};
use reader::decode;

// Why the listing call writes no section.
#[derive(Clone, Copy)]
pub enum ListingRefusal {
    Card(Refusal),
    OutputShort,
    SectionUnknown,
}

impl From<Refusal> for ListingRefusal {
    ghost from_gives = { λ r e. e ≡ Card r };

    fn from(refusal: Refusal) -> ListingRefusal {
        ListingRefusal::Card(refusal)
    }
}

// The totals of all spaces of a task, each at the number of its property.
fn fixed_totals(
    prepared: Prepared,
    deletes: &[u8],
    adds: &[u8],
    counts: &[u16],
    starts: &mut [u8],
    finishes: &mut [u8],
    conditions: &mut [u16],
) -> [u32; 60]
    requires { AllAnalysable prepared deletes.now adds.now counts.now starts.old finishes.old conditions.old }
    ensures { (t : model.Task) (preconditions : List ℕ)
        → Given t prepared preconditions deletes.now adds.now counts.now
        → result ≡ fixed_table t }
{
    let spaces = prepared.spaces;
    let count = spaces.count;
    let mut fixed = [0u32; 60];
    for number in 0..count {
        let found = analyse_space(
            number, prepared, deletes, adds, counts, starts, finishes, conditions,
        );
        enter_space(&mut fixed, number, prepared, found, conditions);
    }
    fixed
}

// One section of a task, with tables lent to it: three for the bags of its parameters, one for those of its objects, two for the moves of
// a space and one for its conditions.
fn list_with(
    task: Task,
    number: usize,
    out: &mut [u8],
    preconditions: &mut [u8],
    deletes: &mut [u8],
    adds: &mut [u8],
    counts: &mut [u16],
    starts: &mut [u8],
    finishes: &mut [u8],
    conditions: &mut [u16],
) -> Result<usize, ListingRefusal>
    requires represented { Represented task (task_of task) }
    requires output_bytes_in_bounds { output_bytes ≤ length out.old }
    requires room_for_bags { RoomForBags (parameters_in (task_of task).schemas) preconditions.old deletes.old adds.old }
    requires in_bounds { 3840 ≤ length counts.old }
    requires room_for_moves { RoomForMoves (rows_at_most (task_of task)) starts.old finishes.old conditions.old }
    ensures { TaskLists (task_of task) number out.old out.new result }
{
    let prepared = prepare(task, preconditions, deletes, adds, counts);
    let spaces = prepared.spaces;
    if spaces.count < number {
        return Err(ListingRefusal::SectionUnknown);
    }
    if number < spaces.count {
        let found = analyse_space(
            number, prepared, deletes, adds, counts, starts, finishes, conditions,
        );
        let length = write_space_section(
            out, number, prepared, found, deletes, adds, counts, starts, finishes, conditions,
        );
        return Ok(length);
    }
    let fixed = fixed_totals(
        prepared, deletes, adds, counts, starts, finishes, conditions,
    );
    let length = write_closing(out, task, spaces, &fixed, preconditions);
    Ok(length)
}

// One section of a task, with tables of these sizes: BAGS counts for the bags of its parameters, MOVES counts for the moves of a space.
fn list_in<const BAGS: usize, const MOVES: usize>(
    task: Task,
    number: usize,
    out: &mut [u8],
) -> Result<usize, ListingRefusal>
    requires represented { Represented task (task_of task) }
    requires output_bytes_in_bounds { output_bytes ≤ length out.old }
    requires bags_fit { (stride * parameters_in (task_of task).schemas ≤ BAGS) × (BAGS ≤ 11520) }
    requires moves_fit { (stride * rows_at_most (task_of task) ≤ MOVES) × (MOVES ≤ 15120) }
    ensures { TaskLists (task_of task) number out.old out.new result }
{
    let mut preconditions = [0u8; BAGS];
    let mut deletes = [0u8; BAGS];
    let mut adds = [0u8; BAGS];
    let mut counts = [0u16; 3840];
    let mut starts = [0u8; MOVES];
    let mut finishes = [0u8; MOVES];
    let mut conditions = [0u16; 3840];
    list_with(
        task,
        number,
        out,
        &mut preconditions,
        &mut deletes,
        &mut adds,
        &mut counts,
        &mut starts,
        &mut finishes,
        &mut conditions,
    )
}

// One section of a task. A task whose parameters and properties are at most 32 together, and so the moves of a space too, does not pay for
// clearing the tables of the largest: 192 parameters, and 252 moves.
fn list_task(task: Task, number: usize, out: &mut [u8]) -> Result<usize, ListingRefusal>
    requires { Represented task (task_of task) }
    ensures { TaskLists (task_of task) number out.old out.new result }
{
    if out.len() < OUTPUT_BYTES {
        return Err(ListingRefusal::OutputShort);
    }
    if rows_at_most(task.predicates, task.schemas) <= 32 {
        return list_in::<1920, 1920>(task, number, out);
    }
    list_in::<11520, 15120>(task, number, out)
}

// The section of a card's listing with this number, written from byte 0 of `out`, and its length; the bytes after it are left. A refusal
// changes no byte.
pub fn section(card: &[u8], number: usize, out: &mut [u8]) -> Result<usize, ListingRefusal>
    ensures { Lists card.now number out.old out.new result }
{
    let decoded = decode(card);
    let verdict = decoded.verdict;
    let task = decoded.task;
    match verdict {
        Verdict::Refused(refusal) => Err(refusal.into()),
        Verdict::Accepted => list_task(task, number, out),
    }
}
