// An accepted card's listing, section after section, from tables that are filled once. Each space is analysed once: its section is written
// and its totals are entered for the closing one. Printing ends at the first write that fails, so that a listing with a hole in it is never
// printed.
ghost use Rattle.std.specs.Prelude.{◌≡◌, [], ◌∷◌, ◌*◌, ◌≤◌, length, take, true};
ghost use Rattle.std.specs.Io.KnownBytes.{Appends};
ghost use Rattle.model.specs.Calls.{output_bytes};
ghost use Rattle.model.specs.Analysis.{analysis};
ghost use Rattle.model.specs.Lines.{closing_lines, sections};
ghost use Rattle.model.specs.Text.{text};
ghost use Rattle.card.specs.Represents.{task_of, Represented};
ghost use Rattle.properties.specs.Tables.{stride};
ghost use Rattle.properties.specs.Parameters.{parameters_in, RoomForBags};
ghost use Rattle.spaces.specs.SpaceTable.{SpacesOf};
ghost use Rattle.closing.specs.Fixed.{fixed_table};
ghost use Rattle.closing.specs.Typing.{PreconditionRows};
ghost use Rattle.prepared.specs.Prepared.{rows_at_most, RoomForMoves};
ghost use Rattle.prepared.specs.Found.{SpaceReady};
ghost use Rattle.printer.specs.Ready.{Ready};
ghost use Rattle.printer.specs.Leaves.{in_turn, SpacePrinted, SpaceDelivered, ListingDelivered, Reaches, Filled, sections_made};

use card::{OUTPUT_BYTES, Task};
use closing::write_closing;
use prepared::{Prepared, analyse_space, enter_space, prepare, rows_at_most, write_space_section};
use spaces::Spaces;
use std::io::Write;

// A listing that stopped at a write that failed: how many of its sections were made.
#[derive(Clone, Copy)]
pub struct Stopped {
    pub sections: usize,
}

// Analyses a space, enters its totals, writes its section from byte 0 of `out`, prints it from there, and answers whether it was written
// whole.
fn print_space<W: Write>(
    number: usize,
    prepared: Prepared,
    deletes: &[u8],
    adds: &[u8],
    counts: &[u16],
    starts: &mut [u8],
    finishes: &mut [u8],
    conditions: &mut [u16],
    fixed: &mut [u32],
    out: &mut [u8],
    listing: &mut W,
) -> bool
    requires space_ready { SpaceReady number prepared deletes.now adds.now counts.now starts.old finishes.old conditions.old }
    requires fixed_len { length fixed.old ≡ 60 }
    requires output_bytes_in_bounds { output_bytes ≤ length out.old }
    ensures printed { SpacePrinted
        number
        prepared
        deletes.now
        adds.now
        counts.now
        fixed.old
        fixed.new
        out.old
        out.new }
    ensures delivered { SpaceDelivered
        number
        prepared
        deletes.now
        adds.now
        counts.now
        result
        (W.contents listing.old)
        (W.contents listing.new) }
{
    let found = analyse_space(
        number, prepared, deletes, adds, counts, starts, finishes, conditions,
    );
    enter_space(fixed, number, prepared, found, conditions);
    let length = write_space_section(
        out, number, prepared, found, deletes, adds, counts, starts, finishes, conditions,
    );
    listing.write_all(&out[0..length]).is_ok()
}

// Writes the closing section and prints it, in the same way.
fn print_closing<W: Write>(
    task: Task,
    spaces: Spaces,
    preconditions: &[u8],
    fixed: &[u32],
    out: &mut [u8],
    listing: &mut W,
) -> bool
    requires represented { Represented task (task_of task) }
    requires spaces_of { SpacesOf (task_of task) spaces }
    requires fixed_value { fixed.now ≡ fixed_table (task_of task) }
    requires precondition_rows { PreconditionRows (task_of task) preconditions.now }
    requires output_bytes_in_bounds { output_bytes ≤ length out.old }
    ensures out_after { out.new ≡ in_turn (closing_lines (task_of task) (analysis (task_of task)) ∷ []) out.old }
    ensures delivered { result ≡ true → Appends
        (W.contents listing.old)
        (W.contents listing.new)
        (text (closing_lines (task_of task) (analysis (task_of task)))) }
{
    let length = write_closing(out, task, spaces, fixed, preconditions);
    listing.write_all(&out[0..length]).is_ok()
}

// The sections of the spaces, and the closing one behind them, each written over the one before, until a write fails.
fn print_sections<W: Write>(
    task: Task,
    prepared: Prepared,
    preconditions: &[u8],
    deletes: &[u8],
    adds: &[u8],
    counts: &[u16],
    starts: &mut [u8],
    finishes: &mut [u8],
    conditions: &mut [u16],
    out: &mut [u8],
    listing: &mut W,
) -> Result<(), Stopped>
    requires ready { Ready task prepared preconditions.now deletes.now adds.now counts.now }
    requires room_for_moves { RoomForMoves (rows_at_most (task_of task)) starts.old finishes.old conditions.old }
    requires output_bytes_in_bounds { output_bytes ≤ length out.old }
    ensures reaches { Reaches (sections (task_of task)) result }
    ensures out_after { out.new ≡ in_turn (take (sections_made (sections (task_of task)) result) (sections (task_of task))) out.old }
    ensures delivered { ListingDelivered (task_of task) result (W.contents listing.old) (W.contents listing.new) }
{
    let spaces = prepared.spaces;
    let last = spaces.count;
    let mut fixed = [0u32; 60];
    for number in 0..last {
        let written = print_space(
            number, prepared, deletes, adds, counts, starts, finishes, conditions, &mut fixed, out,
            listing,
        );
        if !written {
            return Err(Stopped {
                sections: number + 1,
            });
        }
    }
    let written = print_closing(task, spaces, preconditions, &fixed, out, listing);
    if !written {
        return Err(Stopped { sections: last + 1 });
    }
    Ok(())
}

// The listing of a task, with tables lent to it.
fn print_with<W: Write>(
    task: Task,
    preconditions: &mut [u8],
    deletes: &mut [u8],
    adds: &mut [u8],
    counts: &mut [u16],
    starts: &mut [u8],
    finishes: &mut [u8],
    conditions: &mut [u16],
    out: &mut [u8],
    listing: &mut W,
) -> Result<(), Stopped>
    requires represented { Represented task (task_of task) }
    requires output_bytes_in_bounds { output_bytes ≤ length out.old }
    requires room_for_bags { RoomForBags (parameters_in (task_of task).schemas) preconditions.old deletes.old adds.old }
    requires in_bounds { 3840 ≤ length counts.old }
    requires room_for_moves { RoomForMoves (rows_at_most (task_of task)) starts.old finishes.old conditions.old }
    ensures filled { Filled
        (task_of task)
        preconditions.old
        deletes.old
        adds.old
        counts.old
        preconditions.new
        deletes.new
        adds.new
        counts.new }
    ensures reaches { Reaches (sections (task_of task)) result }
    ensures out_after { out.new ≡ in_turn (take (sections_made (sections (task_of task)) result) (sections (task_of task))) out.old }
    ensures delivered { ListingDelivered (task_of task) result (W.contents listing.old) (W.contents listing.new) }
{
    let prepared = prepare(task, preconditions, deletes, adds, counts);
    print_sections(
        task,
        prepared,
        preconditions,
        deletes,
        adds,
        counts,
        starts,
        finishes,
        conditions,
        out,
        listing,
    )
}

// The listing of a task, with tables of these sizes: BAGS counts for the bags of its parameters, MOVES counts for the moves of a space.
fn print_in<const BAGS: usize, const MOVES: usize, W: Write>(
    task: Task,
    out: &mut [u8],
    listing: &mut W,
) -> Result<(), Stopped>
    requires represented { Represented task (task_of task) }
    requires output_bytes_in_bounds { output_bytes ≤ length out.old }
    requires bags_fit { (stride * parameters_in (task_of task).schemas ≤ BAGS) × (BAGS ≤ 11520) }
    requires moves_fit { (stride * rows_at_most (task_of task) ≤ MOVES) × (MOVES ≤ 15120) }
    ensures reaches { Reaches (sections (task_of task)) result }
    ensures out_after { out.new ≡ in_turn (take (sections_made (sections (task_of task)) result) (sections (task_of task))) out.old }
    ensures delivered { ListingDelivered (task_of task) result (W.contents listing.old) (W.contents listing.new) }
{
    let mut preconditions = [0u8; BAGS];
    let mut deletes = [0u8; BAGS];
    let mut adds = [0u8; BAGS];
    let mut counts = [0u16; 3840];
    let mut starts = [0u8; MOVES];
    let mut finishes = [0u8; MOVES];
    let mut conditions = [0u16; 3840];
    print_with(
        task,
        &mut preconditions,
        &mut deletes,
        &mut adds,
        &mut counts,
        &mut starts,
        &mut finishes,
        &mut conditions,
        out,
        listing,
    )
}

// Each section is written to `out` from byte 0 on and printed from there. A task whose parameters and properties are at most 32 together does
// not pay for clearing the tables of the largest: 192 parameters, and 252 moves.
pub fn print_listing<W: Write>(
    task: Task,
    out: &mut [u8; OUTPUT_BYTES],
    listing: &mut W,
) -> Result<(), Stopped>
    requires { Represented task (task_of task) }
    ensures reaches { Reaches (sections (task_of task)) result }
    ensures out_after { out.new ≡ in_turn (take (sections_made (sections (task_of task)) result) (sections (task_of task))) out.old }
    ensures delivered { ListingDelivered (task_of task) result (W.contents listing.old) (W.contents listing.new) }
{
    if rows_at_most(task.predicates, task.schemas) <= 32 {
        return print_in::<1920, 1920, W>(task, out, listing);
    }
    print_in::<11520, 15120, W>(task, out, listing)
}
