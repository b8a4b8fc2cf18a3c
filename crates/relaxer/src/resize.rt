// Sizes of a round, from those of the round before.

ghost use Rattle.std.specs.Prelude.{◌≡◌, ◌<◌, ℕ, All, Contains, IfOk, length};
ghost use Rattle.relaxer.specs.Sizes.{AreItems};
ghost use Rattle.relaxer.specs.Layout.{sizes_of};
ghost use Rattle.relaxer.specs.walks.Resizing.{AreAlignments, AreRightBut, IsNextOf, IsSetAt, StaysBut};

use crate::{Item, Offsets};
use std::alloc::{AllocError, Global};

/// The places of the alignments, in order.
pub(crate) fn alignments(alloc: Global, items: &[Item]) -> Result<Vec<usize>, AllocError>
    ensures { IfOk result (λ places. AreAlignments items.now places.items) }
{
    let mut places = Vec::new(alloc);
    for (i, item) in items.iter().enumerate() {
        if let Item::Align { .. } = item {
            places.push(i)?;
        }
    }
    Ok(places)
}

// Gives these entries, which are no alignments, their sizes.
fn set_grown(offsets: &mut Offsets, items: &[Item], grown: &[usize])
    requires are { AreItems items.now }
    requires long { length offsets.old ≡ length items.now }
    requires there { All (λ i. i < length items.now) grown.now }
    ensures { IsSetAt items.now grown.now offsets.old offsets.new }
{
    for &i in grown {
        offsets.set(i, items[i].size_at(0));
    }
}

// Gives each alignment its size at its offset, in order, and adds those whose size changes to `changed`.
fn set_paddings(
    offsets: &mut Offsets,
    items: &[Item],
    alignments: &[usize],
    changed: Vec<usize>,
) -> Result<Vec<usize>, AllocError>
    requires are { AreItems items.now }
    requires alignments { AreAlignments items.now alignments.now }
    requires right { AreRightBut items.now offsets.old }
    requires there { All (λ i. i < length items.now) changed.items }
    ensures sizes { IfOk result (λ all. offsets.new ≡ sizes_of items.now) }
    ensures others { IfOk result (λ all. StaysBut all.items offsets.old offsets.new) }
    ensures kept { IfOk result (λ all. (i : ℕ) → Contains changed.items i → Contains all.items i) }
    ensures there { IfOk result (λ all. All (λ i. i < length items.now) all.items) }
{
    let mut changed = changed;
    for &i in alignments {
        let size = items[i].size_at(offsets.offset(i));
        if size != offsets.size(i) {
            offsets.set(i, size);
            changed.push(i)?;
        }
    }
    Ok(changed)
}

/// Makes the sizes of the round before those of this one, and gives the places whose size changes. `grown`: the jumps that grew.
pub(crate) fn resize(
    offsets: &mut Offsets,
    items: &[Item],
    alignments: &[usize],
    grown: Vec<usize>,
) -> Result<Vec<usize>, AllocError>
    requires are { AreItems items.now }
    requires alignments { AreAlignments items.now alignments.now }
    requires next { IsNextOf offsets.old items.now grown.items }
    ensures sizes { IfOk result (λ changed. offsets.new ≡ sizes_of items.now) }
    ensures others { IfOk result (λ changed. StaysBut changed.items offsets.old offsets.new) }
    ensures there { IfOk result (λ changed. All (λ i. i < length items.now) changed.items) }
{
    set_grown(offsets, items, grown.as_slice());
    set_paddings(offsets, items, alignments, grown)
}
