// The own properties of a space: those of its group.
ghost use Rattle.std.specs.Prelude.{◌≤◌, length};
ghost use Rattle.spaces.specs.Own.{own_of, Owns};

// The properties of a space, ascending, and their number. Places past it are 0.
#[derive(Clone, Copy)]
pub struct Own {
    pub count: usize,
    pub properties: [usize; 60],
}

// The properties of the group whose lowest property is `lowest`, by the labels of `size` properties.
pub fn own_properties(groups: &[u8], size: usize, lowest: u8) -> Own
    requires { (size ≤ 60) × (size ≤ length groups.now) }
    ensures { Owns (own_of groups.now size lowest) result }
{
    let mut properties = [0usize; 60];
    let mut count: usize = 0;
    for c in 0..size {
        if groups[c] == lowest {
            properties[count] = c;
            count += 1;
        }
    }
    Own { count, properties }
}
