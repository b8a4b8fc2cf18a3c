// The owners of entries, and the next entry of an owner.

ghost use Rattle.std.specs.Prelude.{◌≡◌, ◌-◌, ℕ, Bool, None, slice_index_or};
ghost use Rattle.asm_unit.specs.Held.{AreUnique};
ghost use Rattle.asm_unit.specs.OwnerWalk.{TellsOwner, next_where};

use crate::held_list::HeldList;

/// The number, from 1, of the function in whose code the entry of this serial stands, or 0.
pub fn owner_of(owners: &[usize], serial: u32) -> usize
    ensures { result ≡ slice_index_or owners.now (serial - 1) 0 }
{
    let place = (serial as usize).saturating_sub(1);
    if place < owners.len() {
        owners[place]
    } else {
        0
    }
}

/// The serial of the first entry behind this one that the function of a number owns, which owns none behind `end`.
pub fn next_owned(
    held: &HeldList,
    owners: &[usize],
    number: usize,
    end: usize,
    serial: u32,
) -> Option<u32>
    requires { AreUnique held.now.held }
    ensures { (test : ℕ → Bool) → TellsOwner test held.now.held owners.now number → next_where test held.now.held end ≡ None
        → result ≡ next_where test held.now.held serial }
{
    let mut at = serial;
    while at as usize != end {
        let Some(next) = held.next(at) else {
            return None;
        };
        if owner_of(owners, next) == number {
            return Some(next);
        }
        at = next;
    }
    None
}
