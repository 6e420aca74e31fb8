// A card's bytes from front to back: one byte, a byte in a range, a count of two bytes.
#![tactic(auto)]

ghost use Rattle.std.specs.Prelude.{◌≡◌, ltb, drop};
ghost use Rattle.card.specs.Represents.{refusal_number};
ghost use Rattle.model.specs.Card.{byte, byte_that, between, fact_count};
ghost use Rattle.reader_bytes.specs.Reads.{ByteReads, CountReads};

use card::Refusal;

// A place on the card.
#[derive(Clone, Copy)]
pub struct Cursor {
    pub at: usize,
}

// What a read answers: a value with the cursor after it, or the refusal.
pub type Read<T> = Result<(T, Cursor), Refusal>;

pub fn byte(card: &[u8], c: Cursor) -> Read<u8>
    ensures { ByteReads card.now (byte (drop c.at card.now)) result }
{
    let at = c.at;
    if at < card.len() {
        Ok((card[at], Cursor { at: at + 1 }))
    } else {
        Err(Refusal::CardEnds)
    }
}

// A byte below the bound.
pub fn byte_below(card: &[u8], c: Cursor, bound: usize, refusal: Refusal) -> Read<u8>
    ensures { ByteReads card.now (byte_that (λ b. ltb b bound) (refusal_number refusal) (drop c.at card.now)) result }
{
    let read = byte(card, c);
    let Ok((b, _)) = read else {
        return read;
    };
    if usize::from(b) < bound {
        read
    } else {
        Err(refusal)
    }
}

// A byte from `low` to `high`.
pub fn byte_between(card: &[u8], c: Cursor, low: u8, high: u8, refusal: Refusal) -> Read<u8>
    ensures { ByteReads card.now (byte_that (between low high) (refusal_number refusal) (drop c.at card.now)) result }
{
    let read = byte(card, c);
    let Ok((b, _)) = read else {
        return read;
    };
    if b < low {
        return Err(refusal);
    }
    if b <= high { read } else { Err(refusal) }
}

// The number of facts: two bytes, the high one first.
pub fn fact_count(card: &[u8], c: Cursor) -> Read<usize>
    ensures { CountReads card.now (fact_count (drop c.at card.now)) result }
{
    let (high, c) = byte(card, c)?;
    let (low, c) = byte(card, c)?;
    let count = usize::from(high) * 256 + usize::from(low);
    if count <= 512 {
        Ok((count, c))
    } else {
        Err(Refusal::FactRange)
    }
}
