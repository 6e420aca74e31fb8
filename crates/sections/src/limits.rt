// The largest count of each property of arity 2 or 3: the `M` lines.
ghost use Rattle.std.specs.Prelude.{◌≡◌, cond, true, [], ◌*◌, ◌≤◌, ◌<◌, leb, ltb, length};
ghost use Rattle.laws.specs.Lists.{all, distinct};
ghost use Rattle.model.specs.Lines.{limit, largest};
ghost use Rattle.model.specs.Text.{line_text, text};
ghost use Rattle.sections.specs.Limits.{limits_by, column_of};
ghost use Rattle.properties.specs.Tables.{bags_in, HasRows};
ghost use Rattle.text.specs.Room.{Room};
ghost use Rattle.text.specs.Written.{Writes};

use text::lines::write_limit;

// The largest count of a column.
fn largest_in(table: &[u16], count: usize, column: usize) -> u16
    requires { (60 * count ≤ length table.now) × (column < 60) }
    ensures { result ≡ largest (column_of table.now count column) }
{
    let mut most = 0;
    for i in 0..count {
        most = most.max(table[60 * i + column]);
    }
    most
}

// The `M` line of a property whose counts stand in a column, if its arity is 2 or 3.
fn write_limit_of(
    out: &mut [u8],
    c: usize,
    arity: u8,
    table: &[u16],
    count: usize,
    column: usize,
) -> usize
    requires { (60 * count ≤ length table.now)
        × (column < 60)
        × Room (cond (leb 2 arity) (line_text (limit c (largest (column_of table.now count column)))) []) out.old }
    ensures { Writes
        (cond (leb 2 arity) (line_text (limit c (largest (column_of table.now count column)))) [])
        out.old
        out.new
        result }
{
    if arity < 2 {
        return 0;
    }
    let most = usize::from(largest_in(table, count, column));
    write_limit(out, c, most)
}

// The `M` lines of a space, whose own properties are given: the first counts of each row are theirs. No condition: no line.
pub fn write_limits(
    out: &mut [u8],
    table: &[u16],
    count: usize,
    own: &[usize],
    arities: &[u8],
) -> usize
    requires { HasRows (length own.now) count table.now
        × (distinct own.now ≡ true)
        × (all (λ c. ltb c (length arities.now)) own.now ≡ true)
        × Room (text (limits_by arities.now own.now (bags_in (length own.now) count table.now))) out.old }
    ensures { Writes
        (text (limits_by arities.now own.now (bags_in (length own.now) count table.now)))
        out.old
        out.new
        result }
{
    if count == 0 {
        return 0;
    }
    let mut at = 0;
    for (column, &c) in own.iter().enumerate() {
        let n = write_limit_of(&mut out[at..], c, arities[c], table, count, column);
        at += n;
    }
    at
}
