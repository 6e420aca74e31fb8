// The C interface of include/stakestalk.h: each call answers a number, document 01's value or minus the refusal's number.
#![tactic(auto)]

ghost use Rattle.std.specs.Prelude.{◌∷◌, ◌++◌, ◌≡◌, ◌+◌, ◌≤◌, ◌<◌, pos, length, take, drop, IfOk};
ghost use Rattle.model.specs.Answer.{refused};
ghost use Rattle.model.specs.Calls.{initial, press, section};
ghost use Rattle.model.specs.Open.{next_open};
ghost use Rattle.model.specs.Preview.{ask, commit};
ghost use Rattle.card.specs.Represents.{refusal_number};
ghost use Rattle.listing.specs.Answers.{listed_says};
ghost use Rattle.strips.specs.Answers.{press_number, applied_says};
ghost use Rattle.writer.specs.Answers.{writing_says};
ghost use Rattle.open_actions.specs.Answers.{given_of};
ghost use Rattle.previews.specs.Represents.{preview_of};
ghost use Rattle.previews.specs.Answers.{committed_says};
ghost use Rattle.capi.specs.Numbers.{signed, checks, rewrites, Small, version_number};
ghost use Rattle.capi.specs.Asking.{given_as, count_said, bytes_said, object_count, shown_in, SmallAction};
ghost use Rattle.capi.specs.Previewing.{rows_shown, rows_held, changes_held, changes_shown, SmallChanges};
ghost use Rattle.capi.specs.Previewing.{asked_count, asked_shown, foreseen_count, shown_beside};

use card::{OUTPUT_BYTES, Refusal, Verdict, refusal_number};
use listing::{ListingRefusal, section};
use open_actions::{OpenAction, OpenRefusal, next_open};
use previews::{Changes, CommitRefusal, Foreseen, Rows, commit, preview};
use reader::decode;
use strips::{PressRefusal, apply, initial};
use writer::{WriterRefusal, encode};

// The version of these calls, 0.3.0, as include/stakestalk.h has it: two decimal digits each for minor and patch.
const VERSION: i32 = 300;

// The bytes of changes, and where in them the number of rows that go and of rows that come stands.
const CHANGES_BYTES: usize = 74;

const GONE: usize = 8;

const COME: usize = 41;

fn refusal_code(refusal: Refusal) -> i32
    ensures { result ≡ signed (refused (refusal_number refusal)) }
{
    let number = refusal_number(refusal) as i32;
    0 - number
}

fn press_refusal_code(refusal: PressRefusal) -> i32
    ensures { result ≡ signed (refused (press_number refusal)) }
{
    match refusal {
        PressRefusal::Card(refusal) => refusal_code(refusal),
        PressRefusal::StateMalformed => -15,
        PressRefusal::SchemaUnknown => -16,
        PressRefusal::ObjectsWrong => -17,
        PressRefusal::ObjectsRepeated => -18,
        PressRefusal::PreconditionMissing => -19,
        PressRefusal::StateFull => -20,
    }
}

fn applied_code(applied: Result<usize, PressRefusal>) -> i32
    requires { Small (applied_says applied) }
    ensures { result ≡ signed (applied_says applied) }
{
    match applied {
        Ok(count) => count as i32,
        Err(refusal) => press_refusal_code(refusal),
    }
}

fn writing_code(writing: Result<usize, WriterRefusal>) -> i32
    requires { Small (writing_says writing) }
    ensures { result ≡ signed (writing_says writing) }
{
    match writing {
        Ok(length) => length as i32,
        Err(WriterRefusal::Table(refusal)) => refusal_code(refusal),
        Err(WriterRefusal::OutputShort) => -21,
    }
}

fn listed_code(listed: Result<usize, ListingRefusal>) -> i32
    requires { Small (listed_says listed) }
    ensures { result ≡ signed (listed_says listed) }
{
    match listed {
        Ok(length) => length as i32,
        Err(ListingRefusal::Card(refusal)) => refusal_code(refusal),
        Err(ListingRefusal::OutputShort) => -21,
        Err(ListingRefusal::SectionUnknown) => -22,
    }
}

// The given action, or none if the number is 0.
fn given_action(given: i32, schema: usize) -> Option<usize>
    ensures { result ≡ given_as given schema }
{
    if given == 0 {
        return None;
    }
    Some(schema)
}

// An action in seven bytes: the schema, then the objects.
fn action_bytes(schema: usize, objects: [u8; 6]) -> [u8; 7]
    requires { schema < 256 }
    ensures { result ≡ schema ∷ objects }
{
    [
        schema as u8,
        objects[0],
        objects[1],
        objects[2],
        objects[3],
        objects[4],
        objects[5],
    ]
}

// The bytes of an action that is found are written; nothing is where none is.
fn next_open_code(next: Result<Option<OpenAction>, OpenRefusal>, found: &mut [u8; 7]) -> i32
    requires { SmallAction next }
    ensures value { result ≡ signed (count_said next) }
    ensures found_after { found.new ≡ bytes_said next found.old }
{
    match next {
        Ok(Some(action)) => {
            *found = action_bytes(action.schema, action.objects);
            action.object_count as i32
        }
        Ok(None) => 0,
        Err(OpenRefusal::Card(refusal)) => refusal_code(refusal),
        Err(OpenRefusal::StateMalformed) => -15,
        Err(OpenRefusal::SchemaUnknown) => -16,
        Err(OpenRefusal::ObjectsWrong) => -17,
        Err(OpenRefusal::ObjectsRepeated) => -18,
    }
}

fn committed_code(committed: Result<usize, CommitRefusal>) -> i32
    requires { Small (committed_says committed) }
    ensures { result ≡ signed (committed_says committed) }
{
    match committed {
        Ok(count) => count as i32,
        Err(CommitRefusal::Press(refusal)) => press_refusal_code(refusal),
        Err(CommitRefusal::ChangesDiffer) => -23,
    }
}

// Writes rows to a place: their number, then eight places of four bytes.
fn write_rows(bytes: &mut [u8], at: usize, rows: Rows)
    requires { (at + 33 ≤ length bytes.old) × (rows.count < 256) }
    ensures { bytes.new ≡ take at bytes.old ++ rows_shown rows ++ drop (at + 33) bytes.old }
{
    bytes[at] = rows.count as u8;
    bytes[at + 1..at + 33].copy_from_slice(&rows.rows);
}

// Writes changes: the schema, the number of objects and six places for them, the rows that go, and those that come.
fn write_changes(bytes: &mut [u8], changes: Changes)
    requires { (length bytes.old ≡ 74) × SmallChanges changes }
    ensures { bytes.new ≡ changes_shown changes }
{
    bytes[0] = changes.schema as u8;
    bytes[1] = changes.object_count as u8;
    bytes[2..GONE].copy_from_slice(&changes.objects);
    write_rows(bytes, GONE, changes.gone);
    write_rows(bytes, COME, changes.come);
}

// The rows whose number stands at a place of such bytes.
fn rows_at(bytes: &[u8], at: usize) -> Rows
    requires { at + 33 ≤ length bytes.now }
    ensures { result ≡ rows_held at bytes.now }
{
    let count = usize::from(bytes[at]);
    let mut rows = [0u8; 32];
    rows.copy_from_slice(&bytes[at + 1..at + 33]);
    Rows { count, rows }
}

// The changes that such bytes hold.
fn changes_from(bytes: &[u8]) -> Changes
    requires { length bytes.now ≡ 74 }
    ensures { result ≡ changes_held bytes.now }
{
    let schema = usize::from(bytes[0]);
    let object_count = usize::from(bytes[1]);
    let mut objects = [0u8; 6];
    objects.copy_from_slice(&bytes[2..GONE]);
    let gone = rows_at(bytes, GONE);
    let come = rows_at(bytes, COME);
    Changes {
        schema,
        object_count,
        objects,
        gone,
        come,
    }
}

// The bytes of changes that are foreseen are written; nothing is where the action would be refused.
fn previewed_code(
    previewed: Result<Foreseen, PressRefusal>,
    changes: &mut [u8; CHANGES_BYTES],
) -> i32
    requires { Small (foreseen_count previewed) × IfOk previewed (λ f. SmallChanges f.changes) }
    ensures value { result ≡ signed (foreseen_count previewed) }
    ensures changes_after { changes.new ≡ shown_beside previewed changes.old }
{
    match previewed {
        Ok(foreseen) => {
            write_changes(changes, foreseen.changes);
            foreseen.count as i32
        }
        Err(reason) => press_refusal_code(reason),
    }
}

// The version of these calls, a larger number for a later one.
#[unsafe(no_mangle)]
pub extern "C" fn stakestalk_version() -> i32
    ensures { result ≡ pos version_number }
{
    VERSION
}

// Reads a card: 0 if it is accepted.
#[unsafe(no_mangle)]
pub extern "C" fn stakestalk_check(card: &[u8]) -> i32
    ensures { result ≡ signed (checks card.now) }
{
    match decode(card).verdict {
        Verdict::Accepted => 0,
        Verdict::Refused(refusal) => refusal_code(refusal),
    }
}

// Writes the opening state of a card: the number of its facts.
#[unsafe(no_mangle)]
pub extern "C" fn stakestalk_initial(card: &[u8], state: &mut [u8]) -> i32
    ensures value { result ≡ signed (initial card.now state.old).answer }
    ensures state_after { state.new ≡ (initial card.now state.old).buffer }
{
    applied_code(initial(card, state))
}

// Applies a schema to objects in the state of `count` facts: the next state's number of facts.
#[unsafe(no_mangle)]
pub extern "C" fn stakestalk_press(
    card: &[u8],
    state: &mut [u8],
    count: usize,
    schema: usize,
    objects: &[u8],
) -> i32
    ensures value { result ≡ signed (press card.now state.old count (record { schema = schema; objects = objects.now })).answer }
    ensures state_after { state.new ≡ (press card.now state.old count (record { schema = schema; objects = objects.now })).buffer }
{
    applied_code(apply(card, state, count, schema, objects))
}

// Finds the next open action after a given one, or the first with none given (0): the number of its objects, or 0 at the end. Only where one
// is found `found` is written: its schema, its objects, and 0 in the places past them.
#[unsafe(no_mangle)]
pub extern "C" fn stakestalk_next_open(
    card: &[u8],
    state: &[u8],
    count: usize,
    given: i32,
    schema: usize,
    objects: &[u8],
    found: &mut [u8; 7],
) -> i32
    ensures value { result ≡ signed (object_count (next_open card.now state.now count (given_of (given_as given schema) objects.now))) }
    ensures found_after { found.new
        ≡ shown_in (next_open card.now state.now count (given_of (given_as given schema) objects.now)) found.old }
{
    let after = given_action(given, schema);
    next_open_code(next_open(card, state, count, after, objects), found)
}

// Asks what applying a schema to objects would do in the state of `count` facts: the number of facts that there would be then. Only where it
// would be accepted `changes` is written: the action, the facts that would go, and those that would newly come, with 0 in unused places.
#[unsafe(no_mangle)]
pub extern "C" fn stakestalk_preview(
    card: &[u8],
    state: &[u8],
    count: usize,
    schema: usize,
    objects: &[u8],
    changes: &mut [u8; CHANGES_BYTES],
) -> i32
    ensures value { result ≡ signed (asked_count (ask card.now state.now count (record { schema = schema; objects = objects.now }))) }
    ensures changes_after { changes.new
        ≡ asked_shown (ask card.now state.now count (record { schema = schema; objects = objects.now })) changes.old }
{
    previewed_code(preview(card, state, count, schema, objects), changes)
}

// Applies the action that `changes` carries, if in the state of `count` facts it still does what they say: the next state's number of facts.
#[unsafe(no_mangle)]
pub extern "C" fn stakestalk_commit(
    card: &[u8],
    state: &mut [u8],
    count: usize,
    changes: &[u8; CHANGES_BYTES],
) -> i32
    ensures value { result ≡ signed (commit card.now state.old count (preview_of (changes_held changes.now))).answer }
    ensures state_after { state.new ≡ (commit card.now state.old count (preview_of (changes_held changes.now))).buffer }
{
    let given = changes_from(changes);
    committed_code(commit(card, state, count, given))
}

// Reads a card and writes what was read as a card again: its length.
#[unsafe(no_mangle)]
pub extern "C" fn stakestalk_rewrite(card: &[u8], out: &mut [u8]) -> i32
    ensures value { result ≡ signed (rewrites card.now out.old).answer }
    ensures out_after { out.new ≡ (rewrites card.now out.old).buffer }
{
    let decoded = decode(card);
    if let Verdict::Refused(refusal) = decoded.verdict {
        return refusal_code(refusal);
    }
    writing_code(encode(decoded.task, out))
}

// Writes one section of a card's listing: its length. Only the bytes that are asked for are lent on, so that the length is within them.
#[unsafe(no_mangle)]
pub extern "C" fn stakestalk_section(card: &[u8], number: usize, out: &mut [u8]) -> i32
    ensures value { result ≡ signed (section card.now number out.old).answer }
    ensures out_after { out.new ≡ (section card.now number out.old).buffer }
{
    if out.len() < OUTPUT_BYTES {
        return listed_code(section(card, number, out));
    }
    listed_code(section(card, number, &mut out[0..OUTPUT_BYTES]))
}
