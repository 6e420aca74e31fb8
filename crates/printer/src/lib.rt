// One card from an open input, of any length, and its listing to a writer, or the line that refuses it. What fails is said to a second
// writer: a read that fails is not a card that ends, and a listing that is cut off is not to pass for a listing.
#![tactic(auto)]

mod printing;
mod refusals;

ghost use Rattle.std.specs.Prelude.{OnOk};
ghost use Rattle.std.specs.Io.KnownBytes.{Appends};
ghost use Rattle.model.specs.Card.{decode};
ghost use Rattle.model.specs.Calls.{printed};
ghost use Rattle.printer.specs.Leaves.{left_by_printing, Prints, PrintsFrom, Delivers, DeliversProgram};

use card::{OUTPUT_BYTES, Verdict};
use input::read_front;
use printing::{Stopped, print_listing};
use reader::decode;
use refusals::refused_line;
use std::io::{Read, Write};

// Why an input's card was not printed whole: it could not be read; or the card at the front of the window, of so many bytes, was cut off
// after so many of its sections were made.
#[derive(Clone, Copy)]
pub enum Unprinted {
    Unread,
    CutOff(usize, usize),
}

// Prints a card's listing, section by section from `out`, or the line that refuses it. A refused card has no section.
fn print_card<W: Write>(
    card: &[u8],
    out: &mut [u8; OUTPUT_BYTES],
    listing: &mut W,
) -> Result<(), Stopped>
    ensures leaves { Prints (decode card.now) result out.old out.new }
    ensures delivered { OnOk
        result
        (Appends (W.contents listing.old) (W.contents listing.new) (printed (decode card.now))) }
{
    let decoded = decode(card);
    let verdict = decoded.verdict;
    let task = decoded.task;
    match verdict {
        Verdict::Refused(refusal) => {
            let line = refused_line(refusal);
            let written = listing.write_all(line.text()).is_ok();
            if !written {
                return Err(Stopped { sections: 0 });
            }
            Ok(())
        }
        Verdict::Accepted => print_listing(task, out, listing),
    }
}

// Prints the card that an input brings to the front of `window`: how many bytes it has. The first 5,306 bytes decide (theorem `decode_window`).
pub fn print_from<R: Read, W: Write, E: Write>(
    input: &mut R,
    listing: &mut W,
    complaints: &mut E,
    window: &mut [u8; 5306],
    out: &mut [u8; OUTPUT_BYTES],
) -> Result<usize, Unprinted>
    ensures leaves { PrintsFrom result window.new out.old out.new }
    ensures delivered { Delivers result window.new (W.contents listing.old) (W.contents listing.new) }
    ensures program { DeliversProgram
        result
        (R.remaining input.old)
        (W.contents listing.old)
        (W.contents listing.new) }
{
    let Ok(n) = read_front(input, window) else {
        let _ = complaints.write_all(b"stakestalk: the card cannot be read\n");
        return Err(Unprinted::Unread);
    };
    let bytes = &window[..];
    let Err(stopped) = print_card(&bytes[0..n], out, listing) else {
        return Ok(n);
    };
    let _ = complaints.write_all(b"stakestalk: the listing cannot be written\n");
    Err(Unprinted::CutOff(n, stopped.sections))
}
