// Atoms compared as far as the arity of their predicates goes. Arguments past the arity are no part of an atom.
ghost use Rattle.std.specs.Prelude.{◌≡◌, [], ◌∷◌, get_or};
ghost use Rattle.model.specs.Card as model;
ghost use Rattle.model.specs.Writer.{known};
ghost use Rattle.card.specs.Represents.{atom_of};

use card::Atom;

// The arity of a predicate; 0 where there is no such predicate.
pub fn arity(arities: &[u8], predicate: u8) -> usize
    ensures { result ≡ get_or arities.now predicate 0 }
{
    match arities.get(usize::from(predicate)) {
        Some(&n) => usize::from(n),
        None => 0,
    }
}

// The arguments of an atom of arity 3; an atom of a smaller arity has the first of them.
fn arguments(a: Atom) -> [u8; 3]
    ensures { result ≡ a.first ∷ a.second ∷ a.third ∷ [] }
{
    [a.first, a.second, a.third]
}

// The predicate is known, of an arity up to 3, and each argument is below `bound`.
pub(crate) fn is_known(arities: &[u8], bound: usize, a: Atom) -> bool
    ensures { result ≡ known arities.now bound (atom_of arities.now a) }
{
    let n = arity(arities, a.predicate);
    if usize::from(a.predicate) >= arities.len() || n > 3 {
        return false;
    }
    arguments(a)[..n].iter().all(|x| usize::from(*x) < bound)
}

// The two atoms are the same.
pub(crate) fn is_same(arities: &[u8], a: Atom, b: Atom) -> bool
    ensures { result ≡ model.same_atom (atom_of arities.now a) (atom_of arities.now b) }
{
    let n = arity(arities, a.predicate).min(3);
    a.predicate == b.predicate && arguments(a)[..n] == arguments(b)[..n]
}

// The first atom stands below the second.
pub(crate) fn is_below(arities: &[u8], a: Atom, b: Atom) -> bool
    ensures { result ≡ model.below (atom_of arities.now a) (atom_of arities.now b) }
{
    if a.predicate != b.predicate {
        return a.predicate < b.predicate;
    }
    match arity(arities, a.predicate) {
        0 => false,
        1 => [a.first] < [b.first],
        2 => [a.first, a.second] < [b.first, b.second],
        _ => arguments(a) < arguments(b),
    }
}
