// Layout: jumps grow until all of them reach their targets.

ghost use Rattle.std.specs.Prelude.{◌≡◌, ◌<◌, ℕ, Contains, Option, Some, None, All, IfOk, length, if◌then◌else◌};
ghost use Rattle.relaxer.specs.Sizes.{AreItems};
ghost use Rattle.relaxer.specs.Layout.{fits, grown, sizes_of, next_round, HasLayout};
ghost use Rattle.relaxer.specs.walks.Growth.{IsUnfit, HasUnfit};

use crate::resize::{alignments, resize};
use crate::{Item, Offsets, is_in_reach, sizes};
use std::alloc::{AllocError, Global};

/// The layout of a code: which of its jumps are near, and how many bytes each entry takes.
#[derive(Drop, Debug)]
pub struct Solved {
    /// The entries, with each jump as it is in the layout.
    pub items: Vec<Item>,
    /// Their sizes, of which it gives the offsets.
    pub offsets: Offsets,
}

// What becomes of the jump at entry `i` where it is short and doesn't reach its target.
fn near_form(item: Item, offsets: &Offsets, i: usize) -> Option<Item>
    requires { i < length offsets.now }
    ensures { result ≡ (if fits offsets.now i item then None else Some (grown offsets.now i item)) }
{
    let Item::Short { near, target, .. } = item else {
        return None;
    };
    if is_in_reach(offsets.displacement(i, target.min(offsets.len()))) {
        None
    } else {
        Some(Item::Near { size: near, target })
    }
}

// Makes each of the suspects near that is short and doesn't reach its target, and gives these.
fn grow(
    alloc: Global,
    items: &mut [Item],
    offsets: &Offsets,
    suspects: &[usize],
) -> Result<Vec<usize>, AllocError>
    requires sizes { offsets.now ≡ sizes_of items.old }
    requires all { HasUnfit items.old suspects.now }
    requires there { All (λ i. i < length items.old) suspects.now }
    ensures next { IfOk result (λ grown. items.new ≡ next_round items.old) }
    ensures grown { IfOk result (λ grown. HasUnfit items.old grown.items) }
    ensures unfit { IfOk result (λ grown. All (IsUnfit items.old) grown.items) }
{
    let mut grown = Vec::new(alloc);
    for &i in suspects {
        if let Some(near) = near_form(items[i], offsets, i) {
            items[i] = near;
            grown.push(i)?;
        }
    }
    Ok(grown)
}

// The numbers of all entries.
fn all_places(alloc: Global, count: usize) -> Result<Vec<usize>, AllocError>
    ensures all { IfOk result (λ places. (i : ℕ) → i < count → Contains places.items i) }
    ensures there { IfOk result (λ places. All (λ i. i < count) places.items) }
{
    let mut places = Vec::with_capacity(alloc, count)?;
    for i in 0..count {
        places.push(i)?;
    }
    Ok(places)
}

/// The layout of a code of fewer than 2^32 entries: jumps that don't reach their targets grow, in rounds, until all of them do. A target
/// past the last entry is the end.
pub fn solve(alloc: Global, items: &[Item]) -> Result<Solved, AllocError>
    requires { AreItems items.now }
    ensures { IfOk result (λ solved. HasLayout items.now solved.items.items solved.offsets) }
{
    let mut items = Vec::from_slice(alloc, items)?;
    let alignments = alignments(alloc, items.as_slice())?;
    let suspects = all_places(alloc, items.len())?;
    let mut offsets = Offsets::build(alloc, sizes(alloc, items.as_slice())?.as_slice())?;
    loop {
        let grown = grow(alloc, items.as_mut_slice(), &offsets, suspects.as_slice())?;
        if grown.is_empty() {
            return Ok(Solved { items, offsets });
        }
        resize(&mut offsets, items.as_slice(), alignments.as_slice(), grown)?;
    }
}
