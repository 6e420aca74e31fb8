// A planning task as a card describes it, and the reader's refusals. What each stands for is in specs/Represents.antt.
#![tactic(auto)]

ghost use Rattle.std.specs.Prelude.{[], ◌≡◌};
ghost use Rattle.card.specs.Represents.{refusal_number, blank_atom, atoms_for, blank_schema, arities_for, facts_for};

// How many bytes the card writer and the listing call ask of their output buffer. Document 01, refusal 21.
pub const OUTPUT_BYTES: usize = 65536;

// A predicate with up to three arguments; those past the predicate's arity are no part of it. Atoms are ordered by their four bytes.
#[derive(Clone, Copy, PartialEq, Eq, PartialOrd, Ord)]
pub struct Atom {
    pub predicate: u8,
    pub first: u8,
    pub second: u8,
    pub third: u8,
}

// Each list has its count beside it; entries past the count are no part of the list.
#[derive(Clone, Copy)]
pub struct AtomList {
    pub count: usize,
    pub atoms: [Atom; 8],
}

#[derive(Clone, Copy)]
pub struct ArityList {
    pub count: usize,
    pub arities: [u8; 20],
}

#[derive(Clone, Copy)]
pub struct SchemaList {
    pub count: usize,
    pub schemas: [Schema; 32],
}

#[derive(Clone, Copy)]
pub struct FactList {
    pub count: usize,
    pub facts: [Atom; 512],
}

// An action schema.
#[derive(Clone, Copy)]
pub struct Schema {
    pub parameters: usize,
    pub preconditions: AtomList,
    pub deletes: AtomList,
    pub adds: AtomList,
}

// The three lists of a schema.
#[derive(Clone, Copy)]
pub enum ListField {
    Preconditions,
    Deletes,
    Adds,
}

// A task (document 01: a table).
#[derive(Clone, Copy)]
pub struct Task {
    pub predicates: ArityList,
    pub objects: usize,
    pub schemas: SchemaList,
    pub facts: FactList,
}

// Why a card or a table is refused: document 01's 1 to 14, in order.
#[derive(Clone, Copy)]
pub enum Refusal {
    CardEnds,
    PredicateRange,
    ObjectRange,
    SchemaRange,
    HeaderRange,
    ListRange,
    AtomUnknown,
    AtomOrder,
    DeleteNotPrecondition,
    AddIsPrecondition,
    FactRange,
    FactUnknown,
    FactOrder,
    BytesFollow,
}

// Document 01's number of a refusal.
#[tactic(auto, unfolding(crate::specs::Represents::refusal_number))]
pub fn refusal_number(refusal: Refusal) -> u8
    ensures { result ≡ refusal_number refusal }
{
    match refusal {
        Refusal::CardEnds => 1,
        Refusal::PredicateRange => 2,
        Refusal::ObjectRange => 3,
        Refusal::SchemaRange => 4,
        Refusal::HeaderRange => 5,
        Refusal::ListRange => 6,
        Refusal::AtomUnknown => 7,
        Refusal::AtomOrder => 8,
        Refusal::DeleteNotPrecondition => 9,
        Refusal::AddIsPrecondition => 10,
        Refusal::FactRange => 11,
        Refusal::FactUnknown => 12,
        Refusal::FactOrder => 13,
        Refusal::BytesFollow => 14,
    }
}

// What reading a card answers: the verdict, and the task beside it. Beside a refusal the task is blank.
// `Result<Task, Refusal>` was tried: reading a small card is slower by a tenth, and takes 6 KB more of stack.
#[derive(Clone, Copy)]
pub enum Verdict {
    Accepted,
    Refused(Refusal),
}

#[derive(Clone, Copy)]
pub struct Decoded {
    pub verdict: Verdict,
    pub task: Task,
}

// The blank atom, and blank lists: a count of 0, and every entry 0. They stand beside a refusal, where an answer is due whole.
#[tactic(auto, unfolding(crate::specs::Represents::blank_atom))]
fn no_atom() -> Atom
    ensures { result ≡ blank_atom }
{
    Atom {
        predicate: 0,
        first: 0,
        second: 0,
        third: 0,
    }
}

#[tactic(auto, unfolding(crate::specs::Represents::atoms_for, laws::specs::Lists::padded))]
pub fn no_atoms() -> AtomList
    ensures { result ≡ atoms_for [] }
{
    let blank = no_atom();
    AtomList {
        count: 0,
        atoms: [blank; 8],
    }
}

#[tactic(auto, unfolding(crate::specs::Represents::arities_for, laws::specs::Lists::padded))]
pub fn no_arities() -> ArityList
    ensures { result ≡ arities_for [] }
{
    ArityList {
        count: 0,
        arities: [0; 20],
    }
}

#[tactic(auto, unfolding(crate::specs::Represents::facts_for, laws::specs::Lists::padded))]
pub fn no_facts() -> FactList
    ensures { result ≡ facts_for [] }
{
    let blank = no_atom();
    FactList {
        count: 0,
        facts: [blank; 512],
    }
}

// The blank schema: no parameter, and blank lists.
#[tactic(auto, unfolding(crate::specs::Represents::blank_schema))]
pub fn blank_schema() -> Schema
    ensures { result ≡ blank_schema }
{
    Schema {
        parameters: 0,
        preconditions: no_atoms(),
        deletes: no_atoms(),
        adds: no_atoms(),
    }
}
