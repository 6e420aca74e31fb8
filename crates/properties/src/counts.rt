// Bags counted atom by atom, in a table of rows.
ghost use Rattle.std.specs.Prelude.{[], ◌∷◌, ◌++◌, ◌≡◌, ℕ, true, ◌+◌, ◌*◌, ◌≤◌, ◌<◌, length, get_or, map, take, drop, replicate};
ghost use Rattle.laws.specs.Lists.{all, padded};
ghost use Rattle.model.specs.Transitions.{properties_from};
ghost use Rattle.model.specs.Writer.{known};
ghost use Rattle.card.specs.Represents.{arities_of, atom_of};
ghost use Rattle.properties.specs.Represented.{AritiesRight, first_properties};
ghost use Rattle.properties.specs.Parameters.{bags_over};
ghost use Rattle.properties.specs.Tables.{rows_before};
ghost use Rattle.properties.specs.Tallies.{raised, tallied_rows, Talliable};

use card::{ArityList, Atom};

// A count of a bag: a byte over the atoms of a schema, 16 bits over the facts of a task.
pub(crate) trait Count: Copy {
    ghost number: { Self → ℕ };

    ghost most: { ℕ };

    fn one_more(self) -> Self
        requires { number self < most }
        ensures { number result ≡ number self + 1 };
}

impl Count for u8 {
    ghost number = { λ n. n };

    ghost most = { 255 };

    fn one_more(self) -> u8 {
        self + 1
    }
}

impl Count for u16 {
    ghost number = { λ n. n };

    ghost most = { 65535 };

    fn one_more(self) -> u16 {
        self + 1
    }
}

// Counts a property of an object, or of a parameter, in its row.
fn enter_argument<C: Count>(table: &mut [C], row: u8, property: usize)
    requires property_in_bounds { 60 * row + property < length table.old }
    requires property_bound { get_or (map C.number table.old) (60 * row + property) 0 < C.most }
    ensures { map C.number table.new ≡ raised (map C.number table.old) (60 * row + property) }
{
    let place = 60 * usize::from(row) + property;
    table[place] = table[place].one_more();
}

// Counts an atom for each of its arguments: the properties of its predicate begin at `first`, and it has `arity` arguments.
fn enter_atom<C: Count>(table: &mut [C], first: usize, atom: Atom, arity: usize)
    requires le_arity { (1 ≤ arity) × (arity ≤ 3) }
    requires talliable { Talliable C.most first (take arity (atom.first ∷ atom.second ∷ atom.third ∷ [])) (map C.number table.old) }
    ensures { map C.number table.new
        ≡ tallied_rows first (take arity (atom.first ∷ atom.second ∷ atom.third ∷ [])) (map C.number table.old) }
{
    enter_argument(table, atom.first, first);
    if arity < 2 {
        return;
    }
    enter_argument(table, atom.second, first + 1);
    if arity < 3 {
        return;
    }
    enter_argument(table, atom.third, first + 2);
}

// The bags of so many objects, or parameters, over some atoms, in the first rows of the table, which hold 0.
pub(crate) fn enter_atoms<C: Count>(
    table: &mut [C],
    rows: usize,
    atoms: &[Atom],
    predicates: ArityList,
    firsts: [usize; 20],
)
    requires arities_right { AritiesRight predicates }
    requires atoms_known { all (known (arities_of predicates) rows) (map (atom_of (arities_of predicates)) atoms.now) ≡ true }
    requires few { length atoms.now ≤ C.most }
    requires firsts_value { firsts ≡ padded 20 0 (first_properties (arities_of predicates)) }
    requires rows_in_bounds { 60 * rows ≤ length table.old }
    requires cleared { map C.number table.old ≡ replicate (60 * rows) 0 ++ drop (60 * rows) (map C.number table.old) }
    ensures { map C.number table.new
        ≡ rows_before
        (bags_over (properties_from 0 (arities_of predicates)) (map (atom_of (arities_of predicates)) atoms.now) rows)
        (map C.number table.old) }
{
    for atom in atoms {
        let p = usize::from(atom.predicate);
        enter_atom(table, firsts[p], *atom, usize::from(predicates.arities[p]));
    }
}
