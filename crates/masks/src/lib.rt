// Sets of numbers below 64 in masks of 64 bits: objects of a task, or places of a table. The members are listed in ascending order.
#![tactic(auto)]

ghost use Rattle.std.specs.Prelude.{◌≡◌, ◌<◌, ◌≤◌, eqb, length};
ghost use Rattle.masks.specs.Sets.{is_member, members_of, first_member, without_first, single_of, all_below, union_of, common_of};

// The number of members.
pub fn size(mask: u64) -> u32
    ensures { result ≡ length (members_of mask) }
{
    mask.count_ones()
}

// No number is a member.
pub fn is_empty(mask: u64) -> bool
    ensures { result ≡ eqb mask 0 }
{
    mask == 0
}

pub fn is_member(mask: u64, o: usize) -> bool
    requires { o < 64 }
    ensures { result ≡ is_member mask o }
{
    (mask >> o) & 1 == 1
}

// The lowest member of a mask that has one.
pub fn first_member(mask: u64) -> usize
    requires { 0 < mask }
    ensures { result ≡ first_member mask }
{
    mask.trailing_zeros() as usize
}

// The mask without its lowest member.
pub fn without_first(mask: u64) -> u64
    requires { 0 < mask }
    ensures { result ≡ without_first mask }
{
    mask & (mask - 1)
}

// The mask of one number.
pub fn single(o: usize) -> u64
    requires { o < 64 }
    ensures { result ≡ single_of o }
{
    1u64 << o
}

// The mask of all numbers below n; 64 of them fill it.
pub fn all_below(n: usize) -> u64
    requires { n ≤ 64 }
    ensures { result ≡ all_below n }
{
    if n == 64 {
        return u64::MAX;
    }
    (1u64 << n) - 1
}

// The members of either mask.
pub fn union(a: u64, b: u64) -> u64
    ensures { result ≡ union_of a b }
{
    a | b
}

// The members of both masks.
pub fn common(a: u64, b: u64) -> u64
    ensures { result ≡ common_of a b }
{
    a & b
}
