// A test program: tables in flat form on standard input, one after the other, and for each on standard output what the card writer answers
// and the buffer that it was lent, as it leaves it. No card is read, so that the writer meets tables that no card can carry.
//
// A table is 5,276 bytes: predicate count, 20 arities, object count, schema count; 32 schemas of a role count and three lists, each a count and
// eight atoms of four bytes; the fact count, high byte first, and 512 facts of four bytes; then how many bytes of the buffer are lent, high
// byte first. An answer is the number of the refusal, or 0, and the length, high byte first; then come the buffer's 65,600 bytes.
#![tactic(auto)]

ghost use Rattle.std.specs.Prelude.{◌≡◌, ◌%◌, ◌≤◌, length};
ghost use Rattle.writer.specs.Answers.{writing_says};
ghost use Rattle.tables.specs.Flat.{byte_at, atom_from, atoms_from, schema_from, arities_from, schemas_from, facts_from, table_from, lent_from};
ghost use Rattle.tables.specs.Front.{number_of, length_of, head_of, EncodesFront, Answers};

use card::{ArityList, Atom, AtomList, FactList, Schema, SchemaList, Task, refusal_number};
use std::array;
use std::io::{Read, Write};
use writer::{WriterRefusal, encode};

// The byte at a place; past the end there is 0.
fn byte_at(bytes: &[u8], at: usize) -> u8
    ensures { result ≡ byte_at bytes.now at }
{
    bytes.get(at).copied().unwrap_or(0)
}

// The same as a number that fits a byte.
fn number_at(bytes: &[u8], at: usize) -> usize
    ensures { (result ≡ byte_at bytes.now at) × (result ≤ 255) }
{
    usize::from(byte_at(bytes, at))
}

fn atom_from(bytes: &[u8], at: usize) -> Atom
    requires { at ≤ 6000 }
    ensures { result ≡ atom_from bytes.now at }
{
    Atom {
        predicate: byte_at(bytes, at),
        first: byte_at(bytes, at + 1),
        second: byte_at(bytes, at + 2),
        third: byte_at(bytes, at + 3),
    }
}

fn atoms_from(bytes: &[u8], at: usize) -> AtomList
    requires { at ≤ 5000 }
    ensures { result ≡ atoms_from bytes.now at }
{
    AtomList {
        count: number_at(bytes, at),
        atoms: array::from_fn(|i| atom_from(bytes, at + 1 + 4 * i)),
    }
}

fn schema_from(bytes: &[u8], at: usize) -> Schema
    requires { at ≤ 4000 }
    ensures { result ≡ schema_from bytes.now at }
{
    Schema {
        parameters: number_at(bytes, at),
        preconditions: atoms_from(bytes, at + 1),
        deletes: atoms_from(bytes, at + 34),
        adds: atoms_from(bytes, at + 67),
    }
}

fn arities_from(bytes: &[u8]) -> ArityList
    ensures { result ≡ arities_from bytes.now }
{
    ArityList {
        count: number_at(bytes, 0),
        arities: array::from_fn(|i| byte_at(bytes, 1 + i)),
    }
}

fn schemas_from(bytes: &[u8]) -> SchemaList
    ensures { result ≡ schemas_from bytes.now }
{
    SchemaList {
        count: number_at(bytes, 22),
        schemas: array::from_fn(|i| schema_from(bytes, 23 + 100 * i)),
    }
}

fn facts_from(bytes: &[u8]) -> FactList
    ensures { result ≡ facts_from bytes.now }
{
    let count = [byte_at(bytes, 3223), byte_at(bytes, 3224)];
    FactList {
        count: usize::from(u16::from_be_bytes(count)),
        facts: array::from_fn(|i| atom_from(bytes, 3225 + 4 * i)),
    }
}

fn table_from(bytes: &[u8]) -> Task
    ensures { result ≡ table_from bytes.now }
{
    Task {
        predicates: arities_from(bytes),
        objects: number_at(bytes, 21),
        schemas: schemas_from(bytes),
        facts: facts_from(bytes),
    }
}

// How many bytes of a buffer are lent: no more than it has.
// Three bytes added up: no integer type has three bytes, and from_be_bytes of four would need a 0 before them and a cast after them.
fn lent_from(bytes: &[u8], most: usize) -> usize
    ensures { result ≡ lent_from bytes.now most }
{
    let high = number_at(bytes, 5273);
    let middle = number_at(bytes, 5274);
    let low = number_at(bytes, 5275);
    (high * 65536 + middle * 256 + low).min(most)
}

// A number's low byte.
fn low_byte(number: usize) -> u8
    ensures { result ≡ number % 256 }
{
    (number % 256) as u8
}

fn number_of(writing: Result<usize, WriterRefusal>) -> u8
    ensures { result ≡ number_of (writing_says writing) }
{
    match writing {
        Ok(_) => 0,
        Err(WriterRefusal::Table(refusal)) => refusal_number(refusal),
        Err(WriterRefusal::OutputShort) => 21,
    }
}

fn length_of(writing: Result<usize, WriterRefusal>) -> usize
    ensures { result ≡ length_of (writing_says writing) }
{
    writing.unwrap_or(0)
}

// The answer in three bytes: the number of the refusal, or 0, and the length, high byte first.
fn head_of(writing: Result<usize, WriterRefusal>) -> [u8; 3]
    ensures { result ≡ head_of (writing_says writing) }
{
    let length = length_of(writing);
    [number_of(writing), low_byte(length / 256), low_byte(length)]
}

// The writer is lent the front of a buffer.
fn write_to_front(table: Task, lent: usize, out: &mut [u8]) -> Result<usize, WriterRefusal>
    requires { lent ≤ length out.old }
    ensures { EncodesFront table lent out.old out.new result }
{
    encode(table, &mut out[..lent])
}

// The writer's answer to a table in flat form, in three bytes; what it writes is left in the buffer.
fn answer(flat: &[u8], out: &mut [u8]) -> [u8; 3]
    ensures { Answers flat.now out.old out.new result }
{
    let table = table_from(flat);
    let lent = lent_from(flat, out.len());
    head_of(write_to_front(table, lent, out))
}

// Reads, answers and prints. It answers nothing and is lent nothing, so that it has no contract; what reached the output none could say.
// A proved loop has to end, and nothing says that the input does: the turns are counted up to a number that no run reaches.
fn main(rt: HostRuntime) {
    let mut input = rt.stdin();
    let mut output = rt.stdout();
    let mut flat = [0u8; 5276];
    for _ in 0..u64::MAX {
        if input.read_exact(&mut flat).is_err() {
            return;
        }
        let mut out = [170u8; 65600];
        let head = answer(&flat, &mut out);
        let _ = output.write_all(&head);
        let _ = output.write_all(&out);
    }
}
