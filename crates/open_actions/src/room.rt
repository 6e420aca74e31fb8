// 20 as a test of a single object: with it, more adds are no facts of the state than there is room for.
ghost use Rattle.std.specs.Prelude.{◌≤◌, ◌<◌, IfSome};
ghost use Rattle.open_actions.specs.Supports.{Crowds, LeavesRoom};

use crate::support::{Candidates, Support};
use masks::{is_member, single, union};

// Where the object leaves too little room: the bound parameters that this depends on, which are those of the first adds that are no facts
// with the object, one more of them than there is room for.
fn crowds(supports: &[Support], room: usize, o: usize) -> Option<u64>
    requires { o < 64 }
    ensures { IfSome result (λ c. Crowds supports.now room o c) }
{
    let mut left = room;
    let mut culprits = 0u64;
    for add in supports {
        if !is_member(add.mask, o) {
            culprits = union(culprits, add.linked);
            if left == 0 {
                return Some(culprits);
            }
            left -= 1;
        }
    }
    None
}

// The candidates that leave room. The parameters on which it depends that others do not are culprits too.
pub(crate) fn with_room(
    left: Candidates,
    supports: &[Support],
    room: usize,
    known: usize,
) -> Candidates
    requires { known ≤ 64 }
    ensures { LeavesRoom left.mask left.culprits supports.now room known result.mask result.culprits }
{
    let mut mask = 0u64;
    let mut culprits = left.culprits;
    for o in 0..known {
        if is_member(left.mask, o) {
            match crowds(supports, room, o) {
                Some(crowd) => culprits = union(culprits, crowd),
                None => mask = union(mask, single(o)),
            }
        }
    }
    Candidates { mask, culprits }
}
