// The places in the order in which they are first taken.

ghost use Rattle.std.specs.Prelude.{IfOk};
ghost use Rattle.fed_solver.specs.walks.Walk.{HasAll};

use std::alloc::{AllocError, Global};

/// Which places a solution takes first. The answer is the same with either; each place is passed once, but for loops, where
/// what feeds a place is taken before it.
#[derive(Clone, Copy, PartialEq, Eq, Debug)]
pub enum First {
    /// Place 0: for what flows with the places, as facts do.
    Least,
    /// The last place: for what flows against them, as liveness does.
    Last,
}

// With the last place last.
fn ascending(alloc: Global, count: usize) -> Result<Vec<usize>, AllocError>
    ensures { IfOk result (λ places. HasAll count places.items) }
{
    let mut places = Vec::with_capacity(alloc, count)?;
    for place in 0..count {
        places.push(place)?;
    }
    Ok(places)
}

// With place 0 last.
fn descending(alloc: Global, count: usize) -> Result<Vec<usize>, AllocError>
    ensures { IfOk result (λ places. HasAll count places.items) }
{
    let mut places = Vec::with_capacity(alloc, count)?;
    for above in 0..count {
        places.push(count - 1 - above)?;
    }
    Ok(places)
}

/// All places below `count`, with the one to be taken first as the last.
pub(crate) fn all_places(
    alloc: Global,
    count: usize,
    first: First,
) -> Result<Vec<usize>, AllocError>
    ensures { IfOk result (λ places. HasAll count places.items) }
{
    match first {
        First::Least => descending(alloc, count),
        First::Last => ascending(alloc, count),
    }
}
