// The card writer: a table by value, whatever bytes it holds, written as a card.
#![tactic(auto)]

mod output;

ghost use Rattle.std.specs.Prelude.{◌≡◌};
ghost use Rattle.writer.specs.Answers.{Encodes};
ghost use Rattle.writer.specs.declared.WriterRefusal.TheVariants as writer_refusal;

use card::{OUTPUT_BYTES, Refusal, Task};
use output::write_task;
use writer_checks::checking::check_task;

// Why the writer refuses: no card can carry the table, or the output buffer is short.
#[derive(Clone, Copy)]
pub enum WriterRefusal {
    Table(Refusal),
    OutputShort,
}

impl From<Refusal> for WriterRefusal {
    ghost from_gives = { λ refusal made. made ≡ writer_refusal.Table refusal };

    fn from(refusal: Refusal) -> WriterRefusal {
        WriterRefusal::Table(refusal)
    }
}

// The card of a table, written from byte 0 of `out`, and its length; the bytes after it are left. A refusal changes no byte.
pub fn encode(task: Task, out: &mut [u8]) -> Result<usize, WriterRefusal>
    ensures { Encodes task out.old out.new result }
{
    check_task(task)?;
    if out.len() < OUTPUT_BYTES {
        return Err(WriterRefusal::OutputShort);
    }
    Ok(write_task(out, task))
}
