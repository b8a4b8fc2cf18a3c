// Sizes whose sums are at hand.

ghost use Rattle.std.specs.Prelude.{◌≡◌, ◌≤◌, ◌<◌, ◌^◌, ℕ, List, IfOk, length, sum, take, slice_index, slice_set};
ghost use Rattle.relaxer.specs.Sizes.{AreSizes};
ghost use Rattle.relaxer.specs.Layout.{displacement};
ghost use Rattle.relaxer.specs.Chunks.{HasSmallChunks, HasSums};

use std::alloc::{AllocError, Global};
use std::marker::Model;

/// How many sizes a chunk has.
const CHUNK: usize = 64;

/// Sizes in bytes, each at most 4,095, of fewer than 2^32 entries. The sum of each chunk of 64 sizes is kept, and that of each
/// 64 chunks, so an offset takes few steps. Contracts see the list of the sizes.
#[derive(Drop, Debug)]
pub struct Offsets {
    sizes: Vec<u32>,
    chunks: Vec<u32>,
    groups: Vec<u32>,
}

impl Model for Offsets {
    ghost Value = { List ℕ };

    ghost view = { λ o. o.sizes.items };

    ghost invariant = { λ o. AreSizes o.sizes.items × HasSums o.sizes.items o.chunks.items × HasSums o.chunks.items o.groups.items };
}

fn total(numbers: &[u32]) -> u64
    requires { sum numbers.now < 2 ^ 64 }
    ensures { result ≡ sum numbers.now }
{
    numbers.iter().map(|n| u64::from(*n)).sum()
}

// The sum of each chunk.
fn chunk_sums(alloc: Global, numbers: &[u32]) -> Result<Vec<u32>, AllocError>
    requires { HasSmallChunks numbers.now }
    ensures { IfOk result (λ sums. HasSums numbers.now sums.items) }
{
    let mut sums = Vec::with_capacity(alloc, numbers.len().div_ceil(CHUNK))?;
    let mut rest = numbers;
    while !rest.is_empty() {
        let (chunk, later) = rest.split_at(CHUNK.min(rest.len()));
        sums.push(total(chunk) as u32)?;
        rest = later;
    }
    Ok(sums)
}

impl Offsets {
    /// Keeps these sizes.
    pub fn build(alloc: Global, sizes: &[u32]) -> Result<Offsets, AllocError>
        requires { AreSizes sizes.now }
        ensures { IfOk result (λ offsets. offsets ≡ sizes.now) }
    {
        let chunks = chunk_sums(alloc, sizes)?;
        Ok(Offsets {
            groups: chunk_sums(alloc, chunks.as_slice())?,
            chunks,
            sizes: Vec::from_slice(alloc, sizes)?,
        })
    }

    /// How many sizes.
    pub fn len(&self) -> usize
        ensures { result ≡ length self.now }
    {
        self.sizes.len()
    }

    /// The size of entry `i`.
    pub fn size(&self, i: usize) -> u32
        requires { i < length self.now }
        ensures { result ≡ slice_index self.now i }
    {
        self.sizes[i]
    }

    /// The sum of the first `i` sizes: the offset of entry `i`, or of the end.
    pub fn offset(&self, i: usize) -> u64
        requires { i ≤ length self.now }
        ensures { result ≡ sum (take i self.now) }
    {
        let chunk = i / CHUNK;
        let group = chunk / CHUNK;
        total(&self.groups[..group])
            + total(&self.chunks[CHUNK * group..chunk])
            + total(&self.sizes[CHUNK * chunk..i])
    }

    /// From the end of the jump at entry `i` to its target, in bytes.
    pub fn displacement(&self, i: usize, target: usize) -> i64
        requires from { i < length self.now }
        requires to { target ≤ length self.now }
        ensures { result ≡ displacement self.now i target }
    {
        // the invariant bounds what follows
        let _ = &self.sizes;
        self.offset(target) as i64 - self.offset(i + 1) as i64
    }

    /// Makes `size` the size of entry `i`.
    pub fn set(&mut self, i: usize, size: u32)
        requires there { i < length self.old }
        requires small { size ≤ 4095 }
        ensures { self.new ≡ slice_set self.old i size }
    {
        let chunk = i / CHUNK;
        let group = chunk / CHUNK;
        let old = self.sizes[i];
        let chunk_sum = self.chunks[chunk] - old + size;
        let group_sum = self.groups[group] - old + size;
        self.sizes[i] = size;
        self.chunks[chunk] = chunk_sum;
        self.groups[group] = group_sum;
    }
}
