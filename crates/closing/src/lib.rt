// The closing section of a listing: all `F`, all `C` and all `R` lines. Document 01, "Listing".
#![tactic(auto)]

mod ceilings;
mod fixed;
mod typing;

ghost use Rattle.std.specs.Prelude.{◌≡◌, ◌≤◌, length};
ghost use Rattle.model.specs.Analysis.{analysis};
ghost use Rattle.model.specs.Lines.{closing_lines};
ghost use Rattle.model.specs.Text.{text};
ghost use Rattle.card.specs.Represents.{task_of, Represented};
ghost use Rattle.spaces.specs.SpaceTable.{SpacesOf};
ghost use Rattle.closing.specs.Fixed.{fixed_table};
ghost use Rattle.closing.specs.Front.{front_lines};
ghost use Rattle.closing.specs.Typing.{PreconditionRows};
ghost use Rattle.text.specs.Room.{Room};
ghost use Rattle.text.specs.Written.{Writes};

use card::Task;
use ceilings::write_ceilings;
use fixed::write_totals;
use spaces::Spaces;
use typing::write_type_lines;

// The `F` and the `C` lines.
fn write_front(out: &mut [u8], task: Task, fixed: &[u32]) -> usize
    requires represented { Represented task (task_of task) }
    requires fixed_value { fixed.now ≡ fixed_table (task_of task) }
    requires room { Room (text (front_lines (task_of task))) out.old }
    ensures { Writes (text (front_lines (task_of task))) out.old out.new result }
{
    let at = write_totals(out, task, fixed);
    let n = write_ceilings(&mut out[at..], task);
    at + n
}

// The closing section, given the spaces of the task, the totals that its properties give, and the bags P of its parameters.
pub fn write_closing(
    out: &mut [u8],
    task: Task,
    spaces: Spaces,
    fixed: &[u32],
    preconditions: &[u8],
) -> usize
    requires represented { Represented task (task_of task) }
    requires spaces_of { SpacesOf (task_of task) spaces }
    requires fixed_value { fixed.now ≡ fixed_table (task_of task) }
    requires precondition_rows { PreconditionRows (task_of task) preconditions.now }
    requires in_bounds { 65536 ≤ length out.old }
    ensures { Writes (text (closing_lines (task_of task) (analysis (task_of task)))) out.old out.new result }
{
    let front = write_front(out, task, fixed);
    let types = write_type_lines(&mut out[front..], task, spaces, preconditions);
    front + types
}
