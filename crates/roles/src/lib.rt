// Sets of roles. A set is a number of 32 bits: the role r is in it where bit r is 1.
#![tactic(auto)]

ghost use Rattle.std.specs.Prelude.{◌≡◌};
ghost use Rattle.roles.specs.Roles.{in_set, with_role, without_role};

// How many roles a set has room for: the width of its number in bits. No set has a role from there on.
pub const WIDTH: u16 = 32;

// Whether the role is in the set.
#[tactic(auto, using(crate::proofs::Laws::beyond))]
pub fn holds(set: u32, role: u16) -> bool
    ensures { result ≡ in_set set role }
{
    if role < WIDTH {
        (set >> role) % 2 == 1
    } else {
        false
    }
}

// The set with the role.
#[tactic(auto, using(crate::proofs::Laws::shifted), unfolding(crate::specs::Roles::with_role))]
pub fn with_role(set: u32, role: u16) -> u32
    ensures { result ≡ with_role set role }
{
    if role < WIDTH {
        set | 1u32 << role
    } else {
        set
    }
}

// The set without the role.
#[tactic(auto, using(crate::proofs::Laws::shifted), unfolding(crate::specs::Roles::without_role))]
pub fn without_role(set: u32, role: u16) -> u32
    ensures { result ≡ without_role set role }
{
    if role < WIDTH {
        let one = 1u32 << role;
        (set | one) ^ one
    } else {
        set
    }
}
