// The predicates whose number of facts never changes: the `F` lines, from a table of the totals that properties give.
ghost use Rattle.std.specs.Prelude.{◌≡◌, ◌+◌, ◌≤◌, length, take, drop};
ghost use mathlib.Core.List.{flat_map};
ghost use Rattle.laws.specs.Lists.{up_to};
ghost use Rattle.model.specs.Analysis.{analysis};
ghost use Rattle.model.specs.Lines.{totals};
ghost use Rattle.model.specs.Text.{text};
ghost use Rattle.card.specs.Represents.{task_of, Represented};
ghost use Rattle.closing.specs.Fixed.{fixed_table, first_some};
ghost use Rattle.text.specs.Room.{Room};
ghost use Rattle.text.specs.Written.{Writes};

use card::Task;
use text::lines::write_total;

// The entry of the lowest position that gives a total, among `arity` positions from `first` on; 0 if none does.
fn total_of(fixed: &[u32], first: usize, arity: usize) -> u32
    requires { first + arity ≤ length fixed.now }
    ensures { result ≡ first_some (take arity (drop first fixed.now)) }
{
    for n in &fixed[first..first + arity] {
        if *n != 0 {
            return *n;
        }
    }
    0
}

// `F` lines, predicate by predicate.
pub fn write_totals(out: &mut [u8], task: Task, fixed: &[u32]) -> usize
    requires represented { Represented task (task_of task) }
    requires fixed_value { fixed.now ≡ fixed_table (task_of task) }
    requires room { Room (text (flat_map (totals (task_of task) (analysis (task_of task))) (up_to (length (task_of task).arities)))) out.old }
    ensures { Writes
        (text (flat_map (totals (task_of task) (analysis (task_of task))) (up_to (length (task_of task).arities))))
        out.old
        out.new
        result }
{
    let predicates = task.predicates;
    let mut at = 0;
    let mut first = 0;
    for p in 0..predicates.count {
        let arity = usize::from(predicates.arities[p]);
        let entry = total_of(fixed, first, arity);
        first += arity;
        if entry != 0 {
            at += write_total(&mut out[at..], p, (entry - 1) as usize);
        }
    }
    at
}
