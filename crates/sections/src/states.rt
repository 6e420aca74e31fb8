// The `T` lines.
ghost use Rattle.std.specs.Prelude.{map};
ghost use Rattle.model.specs.Lines.{state};
ghost use Rattle.model.specs.Text.{text};
ghost use Rattle.properties.specs.Tables.{bags_in, HasRows};
ghost use Rattle.text.specs.Room.{Room};
ghost use Rattle.text.specs.Written.{Writes};

use text::lists::write_state;

// One line for each of the first rows of a table.
pub fn write_states(out: &mut [u8], table: &[u16], count: usize, size: usize) -> usize
    requires { HasRows size count table.now × Room (text (map state (bags_in size count table.now))) out.old }
    ensures { Writes (text (map state (bags_in size count table.now))) out.old out.new result }
{
    let mut at = 0;
    for i in 0..count {
        let row = 60 * i;
        let end = row + size;
        let n = write_state(&mut out[at..], &table[row..end]);
        at += n;
    }
    at
}
