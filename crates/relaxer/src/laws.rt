// Laws of rounds, each the contract of a function that does nothing.

ghost use Rattle.std.specs.Prelude.{◌≡◌, ◌<◌, ◌≤◌, ◌+ℤ◌, ℕ, pos, List, Some, length, option_map, slice_get, slice_index, slice_set, IsTrue};
ghost use Rattle.relaxer.specs.declared.item.Item.{Item};
ghost use Rattle.relaxer.specs.declared.item.Item.TheVariants.{Short};
ghost use Rattle.relaxer.specs.Layout.{size_at, sizes_of, offset_of, displacement, is_in_reach, fits, AllFit, grown, next_round, IsLayout, short_count, Spans, KeepsSize, IsNearby};

/// Rounds end: a round that isn't the last makes a jump near, so there are at most as many rounds as short jumps, and one more. There
/// is one layout, and a round after it would change nothing.
pub fn rounds_end()
    ensures grows { (items : List Item) → (AllFit items → ⊥) → short_count (next_round items) < short_count items }
    ensures ends { (items : List Item) → (last : ℕ) × (last ≤ short_count items) × IsLayout items last }
    ensures one { (items : List Item) (m n : ℕ) → IsLayout items m → IsLayout items n → m ≡ n }
    ensures last { (items : List Item) → AllFit items → next_round items ≡ items }
{}

/// Each entry has its size at its offset, the sum of the sizes before it, and no other list of sizes has this. A round keeps the number of entries, and makes of each what
/// grows of it by the offsets of the round before.
pub fn entries_have_their_sizes()
    ensures sizes { (items : List Item) (i : ℕ) (item : Item) → slice_get items i ≡ Some item
        → slice_index (sizes_of items) i ≡ size_at (offset_of (sizes_of items) i) item }
    ensures all { (items : List Item) → length (sizes_of items) ≡ length items }
    ensures only { (items : List Item) (sizes : List ℕ) → length sizes ≡ length items
        → ((i : ℕ) (item : Item) → slice_get items i ≡ Some item → slice_index sizes i ≡ size_at (offset_of sizes i) item)
        → sizes ≡ sizes_of items }
    ensures next { (items : List Item) (i : ℕ) → slice_get (next_round items) i ≡ option_map (grown (sizes_of items) i) (slice_get items i) }
{}

/// A displacement depends on the sizes that the jump spans alone: it stays where these stay, and moves by the change of one of them, up
/// for a jump forward and down for a jump back.
pub fn displacements_are_of_spans()
    ensures stay { (before after : List ℕ) (i target : ℕ) → ((k : ℕ) → Spans i target k → slice_index before k ≡ slice_index after k)
        → displacement before i target ≡ displacement after i target }
    ensures ahead { (sizes : List ℕ) (k size i target : ℕ) → k < length sizes → i < k → k < target
        → displacement (slice_set sizes k size) i target +ℤ pos (slice_index sizes k) ≡ displacement sizes i target +ℤ pos size }
    ensures back { (sizes : List ℕ) (k size i target : ℕ) → k < length sizes → target ≤ k → k ≤ i
        → displacement (slice_set sizes k size) i target +ℤ pos size ≡ displacement sizes i target +ℤ pos (slice_index sizes k) }
{}

/// What a round may change. `sizes`: the size of an entry stays, but for a short jump that doesn't reach its target, and an alignment whose
/// offset moves by no multiple of its power of 2. `behind`: from an entry on whose offset stays, with no jump that grows there or later,
/// all sizes stay. `jumps`: a jump that is still short and spans no entry whose size has changed reaches its target, so only jumps that
/// span a changed entry are to be tested again. `nearby`: these end at most 128 bytes from it, in the offsets of the round before.
pub fn rounds_change_little()
    ensures sizes { (items : List Item) (i : ℕ) (item : Item) → slice_get items i ≡ Some item → KeepsSize items i item
        → slice_index (sizes_of (next_round items)) i ≡ slice_index (sizes_of items) i }
    ensures behind { (items : List Item) (k : ℕ) → offset_of (sizes_of (next_round items)) k ≡ offset_of (sizes_of items) k
        → ((i : ℕ) (item : Item) → k ≤ i → slice_get items i ≡ Some item → IsTrue (fits (sizes_of items) i item))
        → (i : ℕ) → k ≤ i → slice_index (sizes_of (next_round items)) i ≡ slice_index (sizes_of items) i }
    ensures jumps { (items : List Item) (i size near target : ℕ) → slice_get (next_round items) i ≡ Some (Short size near target)
        → ((k : ℕ) → Spans i target k → slice_index (sizes_of (next_round items)) k ≡ slice_index (sizes_of items) k)
        → IsTrue (is_in_reach (displacement (sizes_of (next_round items)) i target)) }
    ensures nearby { (items : List Item) (i size near target : ℕ) → slice_get (next_round items) i ≡ Some (Short size near target)
        → ((k : ℕ) → IsNearby (sizes_of items) i k → slice_index (sizes_of (next_round items)) k ≡ slice_index (sizes_of items) k)
        → IsTrue (is_in_reach (displacement (sizes_of (next_round items)) i target)) }
{}
