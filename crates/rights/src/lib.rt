// Sets of rights as 32-bit numbers, and a command's effect on one cell or two, by value. Meets the definitions of
// `model`'s Rights and Forms under the same names. Inner functions: whatever reads or changes cells calls them, and
// none is offered outside.
#![tactic(auto)]

ghost use Rattle.std.specs.Prelude.{◌≡◌, ◌<◌, ◌≤◌};
ghost use Rattle.model.specs.Rights.{has, within, without, with_those, common, meets, fits_rights};

use model::Command;

// Every right of x is in s.
#[tactic(auto, unfolding(model::specs::Rights::within))]
pub fn within(x: u32, s: u32) -> bool
    ensures { result ≡ within x s }
{
    x & s == x
}

// The rights of s that are not in y: what a command takes.
#[tactic(auto, unfolding(model::specs::Rights::without))]
pub fn without(s: u32, y: u32) -> u32
    ensures { result ≡ without s y }
{
    // Stays: for `s & !y` the proof did not close, and the difference is the definition's own form.
    s - (s & y)
}

// The rights of s with those of z: what a command enters.
#[tactic(auto, unfolding(model::specs::Rights::with_those))]
pub fn with_those(s: u32, z: u32) -> u32
    ensures { result ≡ with_those s z }
{
    s | z
}

// The rights that are in both sets.
#[tactic(auto, unfolding(model::specs::Rights::common))]
pub fn common(s: u32, t: u32) -> u32
    ensures { result ≡ common s t }
{
    s & t
}

// The two sets share a right.
#[tactic(auto, unfolding(model::specs::Rights::meets))]
pub fn meets(s: u32, t: u32) -> bool
    ensures { result ≡ meets s t }
{
    common(s, t) != 0
}

// The set holds the right with this number.
#[tactic(auto, unfolding(model::specs::Rights::has, model::specs::Rights::bit))]
pub fn has(s: u32, right: usize) -> bool
    requires { right < 32 }
    ensures { result ≡ has s right }
{
    (s >> right) % 2 == 1
}

// The set holds only rights below a scheme's count of them. All 32 rights want a bit more than a set has: so 64 bits.
#[tactic(auto, unfolding(model::specs::Rights::fits_rights))]
pub fn fits_rights(s: u32, rights: usize) -> bool
    requires { rights ≤ 32 }
    ensures { result ≡ fits_rights rights s }
{
    u64::from(s) < 1u64 << rights
}

// The source cell of a grant after it lost Y.
pub fn after_loss(c: Command, cell: u32) -> u32
    ensures { result ≡ without cell c.y }
{
    without(cell, c.y)
}

// The destination cell of a grant after it gained Z.
pub fn after_gain(c: Command, cell: u32) -> u32
    ensures { result ≡ with_those cell c.z }
{
    with_those(cell, c.z)
}

// The one cell of an internal, or of a grant to oneself: the loss comes first, then the gain.
pub fn stepped(c: Command, cell: u32) -> u32
    ensures { result ≡ with_those (without cell c.y) c.z }
{
    after_gain(c, after_loss(c, cell))
}
