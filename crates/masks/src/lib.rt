// One set of parts as a mask: its size, whether it has a part of a group, what is left of it without a group, and the checks of a group.
#![tactic(auto)]

ghost use Rattle.std.specs.Prelude.{◌≡◌};
ghost use Rattle.answer.specs.Checks.{group_refusal};
ghost use Rattle.theory_sets.specs.Masks.{size as size_of};
ghost use Rattle.masks.specs.Groups.{meets, squeezed};

use answer::{Reason, Refusal};

// The number of parts in a set.
pub fn size(mask: usize) -> usize
    ensures { result ≡ size_of mask }
{
    mask.count_ones() as usize
}

// Whether a set has some part of a group.
#[tactic(auto, unfolding(crate::specs::Groups::meets))]
pub fn meets(set: u16, group: usize) -> bool
    ensures { result ≡ meets group set }
{
    set as usize & group != 0
}

// A set without the positions of a group: the others move together.
#[tactic(auto, using(crate::proofs::Squeezing::kept_on, crate::proofs::Squeezing::end, crate::proofs::Squeezing::unit_small, crate::proofs::Groups::squeezed_le))]
pub fn squeezed(set: u16, group: usize) -> u16
    ensures { result ≡ squeezed 16 group set }
{
    let mut kept = 0;
    let mut unit = 1;
    let mut rest = set as usize;
    let mut skipped = group;
    while skipped != 0 {
        if skipped % 2 == 0 {
            kept += rest % 2 * unit;
            unit *= 2;
        }
        rest /= 2;
        skipped /= 2;
    }
    (kept + rest * unit) as u16
}

// The verdict on a group of n parts.
pub fn group_verdict(n: usize, group: usize) -> Result<(), Refusal>
    ensures { result ≡ group_refusal n group (Ok tt) }
{
    if group == 0 {
        return Err(Reason::EmptyGroup.at(0));
    }
    if n < 64 && 0 < group >> n {
        return Err(Reason::UnknownGroupPart.at(0));
    }
    Ok(())
}
