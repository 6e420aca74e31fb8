// Properties, and the bags of parameters and objects, in tables of rows.
#![tactic(auto)]

pub mod arities;
mod counts;
pub mod parameters;

ghost use Rattle.std.specs.Prelude.{[], ◌∷◌, ◌++◌, ◌≡◌, ◌+◌, ◌*◌, ◌≤◌, ◌<◌, length, get_or, take, drop, replicate};
ghost use Rattle.model.specs.Transitions.{properties_from};
ghost use Rattle.card.specs.Represents.{arities_of, facts_of};
ghost use Rattle.properties.specs.Represented.{AritiesRight, FactsKnown, Numbers};
ghost use Rattle.properties.specs.Parameters.{bags_over};
ghost use Rattle.properties.specs.Tables.{rows_before};
ghost use Rattle.properties.specs.Tallies.{raised, tallied_rows, Talliable};

use card::{ArityList, FactList};
use counts::enter_atoms;

// How properties are numbered: how many there are, and the number of each predicate's first one.
#[derive(Clone, Copy)]
pub struct Numbering {
    pub count: usize,
    pub firsts: [usize; 20],
}

// The numbers of the properties of a task's predicates.
pub fn numbered(predicates: ArityList) -> Numbering
    requires { predicates.count ≤ 20 }
    ensures { Numbers (arities_of predicates) result }
{
    let mut firsts = [0usize; 20];
    let mut count: usize = 0;
    for p in 0..predicates.count {
        firsts[p] = count;
        count += usize::from(predicates.arities[p]);
    }
    Numbering { count, firsts }
}

// The bags of all objects of a task over its facts: one row an object.
pub fn object_bags(predicates: ArityList, objects: usize, facts: FactList, counts: &mut [u16])
    requires arities_right { AritiesRight predicates }
    requires facts_known { FactsKnown (arities_of predicates) objects facts }
    requires in_bounds { 3840 ≤ length counts.old }
    ensures { counts.new
        ≡ rows_before (bags_over (properties_from 0 (arities_of predicates)) (facts_of (arities_of predicates) facts) objects) counts.old }
{
    let numbers = numbered(predicates);
    counts[..60 * objects].fill(0);
    enter_atoms(
        counts,
        objects,
        &facts.facts[..facts.count],
        predicates,
        numbers.firsts,
    );
}
