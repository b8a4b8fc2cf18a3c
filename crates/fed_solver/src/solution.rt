// Least sets by a work list.

ghost use Rattle.std.specs.Prelude.{◌≡◌, ◌+◌, ◌<◌, ◌≤◌, length, slice_index, IfOk};
ghost use Rattle.fed_solver.specs.Graph.{IsGraph, AreLeast, fed_by};
ghost use Rattle.fed_solver.specs.walks.Walk.{walk_of, IsBegun};

use crate::places::{First, all_places};
use crate::work::Work;
use std::alloc::{AllocError, Global};

// The places that one feeds.
fn fed<'a>(starts: &[u32], targets: &'a [u32], place: usize) -> &'a [u32]
    requires there { place + 1 < length starts.now }
    requires rises { slice_index starts.now place ≤ slice_index starts.now (place + 1) }
    requires within { slice_index starts.now (place + 1) ≤ length targets.now }
    ensures { result.now ≡ fed_by starts.now targets.now place }
{
    &targets[starts[place] as usize..starts[place + 1] as usize]
}

// What places begin with and what they emit.
fn begin(
    alloc: Global,
    starts: &[u32],
    targets: &[u32],
    begins: &[u64],
    emits: &[u64],
    first: First,
) -> Result<Work, AllocError>
    requires graph { IsGraph (length begins.now) starts.now targets.now }
    requires emits { length emits.now ≡ length begins.now }
    ensures { IfOk result (λ work. IsBegun (length begins.now) starts.now targets.now begins.now emits.now (length begins.now) (walk_of work)) }
{
    let mut work = Work {
        rows: Vec::from_slice(alloc, begins)?,
        listed: vec![in alloc; true; begins.len()]?,
        list: all_places(alloc, begins.len(), first)?,
    };
    for place in 0..begins.len() {
        work.hand_each(fed(starts, targets, place), emits[place])?;
    }
    Ok(work)
}

/// The least sets of 64 systems over one graph, in a row of 64 bits for each place: bit `b` of the row of a place is set exactly where
/// the place has it in system `b`, from the beginning or because some place that feeds it emits it, or has it and passes it on.
///
/// Place `q` feeds the places of `targets` from index `starts[q]` on and before `starts[q + 1]`; `begins`, `emits` and `passes` have a row
/// for each place. A place is taken again only after one of its bits was set, so the time is linear in the number of places and targets, for
/// a bounded number of bits.
pub fn solve(
    alloc: Global,
    starts: &[u32],
    targets: &[u32],
    begins: &[u64],
    emits: &[u64],
    passes: &[u64],
    first: First,
) -> Result<Vec<u64>, AllocError>
    requires graph { IsGraph (length begins.now) starts.now targets.now }
    requires emits { length emits.now ≡ length begins.now }
    requires passes { length passes.now ≡ length begins.now }
    ensures rows { IfOk result (λ rows. length rows.items ≡ length begins.now) }
    ensures least { IfOk result (λ rows. AreLeast starts.now targets.now begins.now emits.now passes.now rows.items) }
{
    let mut work = begin(alloc, starts, targets, begins, emits, first)?;
    while let Some(place) = work.take() {
        let row = work.rows[place];
        work.hand_each(fed(starts, targets, place), row & passes[place])?;
    }
    Ok(work.rows)
}
