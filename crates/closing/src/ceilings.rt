// The predicates of which no schema adds more than it deletes: the `C` lines.
ghost use Rattle.std.specs.Prelude.{◌≡◌, false, ◌&&◌, ℕ, ◌≤◌, ◌<◌, leb, length, get_or};
ghost use mathlib.Core.List.{List, flat_map};
ghost use Rattle.laws.specs.Lists.{all, up_to};
ghost use Rattle.model.specs.Lines.{of_predicate, ceilings};
ghost use Rattle.model.specs.Text.{text};
ghost use Rattle.card.specs.Represents.{atoms_of, facts_of, schemas_of, task_of, Represented};
ghost use Rattle.closing.specs.Fitting.{SchemasFit, FactsFit};
ghost use Rattle.text.specs.Room.{Room};
ghost use Rattle.text.specs.Written.{Writes};

use card::{AtomList, FactList, SchemaList, Task};
use text::lines::write_ceiling;

// The number of atoms of a predicate on a list; their arities play no part.
fn count_of(list: AtomList, p: u8) -> usize
    requires { list.count ≤ 8 }
    ensures { (arities : List ℕ) → result ≡ of_predicate p (atoms_of arities list) }
{
    let mut n = 0;
    for a in &list.atoms[..list.count] {
        if a.predicate == p {
            n += 1;
        }
    }
    n
}

// The number of facts of each predicate.
fn fact_counts(list: FactList) -> [u16; 20]
    requires { FactsFit list }
    ensures { (p : ℕ) → p < 20 → (arities : List ℕ) → get_or result p 0 ≡ of_predicate p (facts_of arities list) }
{
    let mut counts = [0u16; 20];
    for fact in &list.facts[..list.count] {
        counts[usize::from(fact.predicate)] += 1;
    }
    counts
}

// Of the first `predicates`, those that were capped before and of which a schema with these lists adds no more than it deletes.
fn still_capped(
    capped: [bool; 20],
    predicates: usize,
    deletes: AtomList,
    adds: AtomList,
) -> [bool; 20]
    requires { (predicates ≤ 20) × ((deletes.count ≤ 8) × (adds.count ≤ 8)) }
    ensures { (p : ℕ)
        → p < predicates
        → (arities : List ℕ)
        → get_or result p false ≡ (leb (of_predicate p (atoms_of arities adds)) (of_predicate p (atoms_of arities deletes)) && get_or capped p false) }
{
    let mut still = capped;
    for p in 0..predicates {
        if count_of(adds, p as u8) > count_of(deletes, p as u8) {
            still[p] = false;
        }
    }
    still
}

// Whether, in every schema, adds of a predicate are at most deletes of it: for each of the first `predicates`.
fn capped_predicates(list: SchemaList, predicates: usize) -> [bool; 20]
    requires schemas_fit { SchemasFit list }
    requires predicates_bound { predicates ≤ 20 }
    ensures { (p : ℕ)
        → p < predicates
        → (arities : List ℕ)
        → get_or result p false ≡ all (λ s. leb (of_predicate p s.adds) (of_predicate p s.deletes)) (schemas_of arities list) }
{
    let mut capped = [true; 20];
    for s in &list.schemas[..list.count] {
        let still = still_capped(capped, predicates, s.deletes, s.adds);
        capped = still;
    }
    capped
}

// `C` lines, predicate by predicate.
pub fn write_ceilings(out: &mut [u8], task: Task) -> usize
    requires { Represented task (task_of task)
        × Room (text (flat_map (ceilings (task_of task)) (up_to (length (task_of task).arities)))) out.old }
    ensures { Writes
        (text (flat_map (ceilings (task_of task)) (up_to (length (task_of task).arities))))
        out.old
        out.new
        result }
{
    let capped = capped_predicates(task.schemas, task.predicates.count);
    let counts = fact_counts(task.facts);
    let mut at = 0;
    for p in 0..task.predicates.count {
        if capped[p] {
            at += write_ceiling(&mut out[at..], p, usize::from(counts[p]));
        }
    }
    at
}
