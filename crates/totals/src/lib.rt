// The totals that the properties of a space give (document 01, "Listing", `F`): where all conditions have one count of a property,
// that many times the members.
#![tactic(auto)]

ghost use Rattle.std.specs.Prelude.{◌≡◌, ◌*◌, ◌≤◌, ◌<◌, length};
ghost use Rattle.sections.specs.Limits.{column_of};
ghost use Rattle.properties.specs.Tables.{bags_in};
ghost use Rattle.totals.specs.Totals.{given_by, entered, TotalsEnterable};

// One more than the total of a property whose counts are in a column, if they are all the same; 0 if not.
fn total_by(table: &[u16], count: usize, column: usize, members: u32) -> u32
    requires { (60 * count ≤ length table.now) × (column < 60) × (members ≤ 64) }
    ensures { result ≡ given_by members (column_of table.now count column) }
{
    if count == 0 {
        return 0;
    }
    let n = table[column];
    for i in 1..count {
        if table[60 * i + column] != n {
            return 0;
        }
    }
    u32::from(n) * members + 1
}

// Enters the totals of a space, each at the number of its property. The conditions are in a table, a row each, the own properties in
// their order.
pub fn enter_totals(fixed: &mut [u32], own: &[usize], table: &[u16], count: usize, members: u32)
    requires { TotalsEnterable own.now count members table.now fixed.old }
    ensures { fixed.new
        ≡ entered
        own.now
        (bags_in (length own.now) count table.now)
        members
        fixed.old }
{
    for (column, c) in own.iter().enumerate() {
        fixed[*c] = total_by(table, count, column, members);
    }
}
