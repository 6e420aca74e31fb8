// The arities of properties, by number.
ghost use Rattle.std.specs.Prelude.{◌++◌, ◌≡◌, ◌+◌, ◌≤◌, length, take, drop, replicate};
ghost use Rattle.laws.specs.Lists.{padded};
ghost use Rattle.card.specs.Represents.{arities_of};
ghost use Rattle.properties.specs.Represented.{AritiesRight, property_arities};

use card::ArityList;

// The arity of each property's predicate, at the property's number; 0 past the properties.
pub fn property_arities(predicates: ArityList) -> [u8; 60]
    requires { AritiesRight predicates }
    ensures { result ≡ padded 60 0 (property_arities (arities_of predicates)) }
{
    let mut table = [0u8; 60];
    let mut first: usize = 0;
    for p in 0..predicates.count {
        let arity = predicates.arities[p];
        let n = usize::from(arity);
        table[first..first + n].fill(arity);
        first += n;
    }
    table
}
