// What layout looks at in an entry of a code.

ghost use Rattle.std.specs.Prelude.{◌≡◌, ◌≤◌, IfOk};
ghost use Rattle.relaxer.specs.Layout.{padding, size_at, sizes_of, is_in_reach};
ghost use Rattle.relaxer.specs.Sizes.{IsItem, AreItems};

use std::alloc::{AllocError, Global};

/// What layout looks at in an entry of a code. Sizes are in bytes; entries count from 0 at the label of the function.
#[derive(Clone, Copy, PartialEq, Eq, Debug)]
pub enum Item {
    /// An instruction that is no direct jump to a local label; a direct jump to a symbol that the file doesn't define, which is near;
    /// or, with size 0, a label or another entry that takes no bytes.
    Fixed { size: u32 },
    /// A direct jump to the local label at entry `target` that is short. `near` is its size once it is near.
    Short { size: u32, near: u32, target: usize },
    /// One that is near.
    Near { size: u32, target: usize },
    /// An alignment to a multiple of 2^`power`, which skips at most `max` bytes.
    Align { power: u8, max: Option<u32> },
}

/// The bytes that an alignment skips at the offset `at`: up to the next multiple of 2^`power`, and none where that are more than `max`
/// (GNU as manual, `.p2align`).
pub fn padding(at: u64, power: u8, max: Option<u32>) -> u32
    requires { power ≤ 12 }
    ensures { result ≡ padding at power max }
{
    let unit = 1u64 << power;
    let gap = ((unit - at % unit) % unit) as u32;
    match max {
        Some(max) if max < gap => 0,
        _ => gap,
    }
}

impl Item {
    /// The size of the entry where it stands at the offset `at`.
    pub fn size_at(&self, at: u64) -> u32
        requires { IsItem self.now }
        ensures { result ≡ size_at at self.now }
    {
        match *self {
            Item::Fixed { size } | Item::Short { size, .. } | Item::Near { size, .. } => size,
            Item::Align { power, max } => padding(at, power, max),
        }
    }
}

/// Whether a displacement fits in the 8 bits of a short jump (SDM volume 2, JMP and Jcc, rel8).
pub fn is_in_reach(displacement: i64) -> bool
    ensures { result ≡ is_in_reach displacement }
{
    (-128..=127).contains(&displacement)
}

/// The size of each entry, where the first stands at offset 0.
pub fn sizes(alloc: Global, items: &[Item]) -> Result<Vec<u32>, AllocError>
    requires { AreItems items.now }
    ensures { IfOk result (λ sizes. sizes.items ≡ sizes_of items.now) }
{
    let mut sizes = Vec::with_capacity(alloc, items.len())?;
    let mut at = 0;
    for item in items {
        let size = item.size_at(at);
        sizes.push(size)?;
        at += u64::from(size);
    }
    Ok(sizes)
}
