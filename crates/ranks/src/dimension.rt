// The rank word of a leaf array: fifteen ranks of four bits each, and the bits for retired and frozen.
//
// Ported from `Dimension` in `tree_index/leaf.rs` of scc 3.8.8 (Apache-2.0), and changed: for words of 64 bits alone, over plain
// numbers in place of atomics; `with_rank`, `raise_above` and `cleared` name steps that are written out there, and `raise_above` is a pass of
// its own.
// A word is a plain number, as in the record that holds it, so its functions take it as one and are no methods of a type around it.
ghost use Rattle.std.specs.Prelude.{◌≡◌, ℕ, ◌+◌, ◌*◌, ◌%◌, ◌^◌, ◌<◌, slice_index, slice_set};
ghost use Rattle.ranks.specs.Dimensions.{leaf_length, slot_pos};
ghost use Rattle.ranks.specs.Words.{ranks_of, flags_of, Reads, is_empty, is_retired, is_frozen, lifted, cleared_flags};

// The number of slots of a leaf.
pub const LEN: usize = 15;

// The number of bits of a rank.
pub const BITS: usize = 4;

// The number of values of a rank.
pub const BASE: u64 = 1 << BITS;

// One more than the greatest word that has ranks alone.
pub const FLAGS: u64 = 1 << (LEN * BITS);

// The word of an array that is retired and not frozen.
pub const RETIRED: u64 = 1 << 62;

// The bit for frozen.
const FROZEN: u64 = 1 << 63;

// The slot that use `bitmap_pos` takes.
pub fn slot_pos(bitmap_pos: usize) -> usize
    requires { bitmap_pos < leaf_length }
    ensures value { result ≡ slot_pos bitmap_pos }
    ensures inside { result < leaf_length }
{
    if bitmap_pos < LEN - LEN % 4 {
        bitmap_pos - bitmap_pos % 4 + (bitmap_pos + 1) % 4
    } else {
        bitmap_pos
    }
}

// The rank of slot `pos`. Slots and ranks are plain numbers: types for those below 15 and 16 would be wrapped at each turn of a loop. Casts to
// `u8` lose nothing, which is proved; a `TryFrom` would bring an error that cannot happen.
pub fn rank_at(metadata: u64, pos: usize) -> u8
    requires { pos < leaf_length }
    ensures value { result ≡ slice_index (ranks_of metadata) pos }
    ensures bound { result < 16 }
{
    (metadata >> (BITS * pos) & (BASE - 1)) as u8
}

// `rank` as it stands in a word at slot `pos`.
fn field(rank: u8, pos: usize) -> u64
    requires { (rank < 16) × (pos < leaf_length) }
    ensures { result ≡ rank * 2 ^ (4 * pos) }
{
    u64::from(rank) << (BITS * pos)
}

// The word with `rank` at slot `pos`.
pub fn with_rank(metadata: u64, pos: usize, rank: u8) -> u64
    requires { (rank < 16) × (pos < leaf_length) }
    ensures { Reads result (slice_set (ranks_of metadata) pos rank) (flags_of metadata) }
{
    metadata - field(rank_at(metadata, pos), pos) + field(rank, pos)
}

// The word with each rank above `low` raised by one.
pub fn raise_above(metadata: u64, low: u8) -> u64
    requires { (p : ℕ) → slice_index (ranks_of metadata) p < leaf_length }
    ensures { Reads result (lifted low (ranks_of metadata)) (flags_of metadata) }
{
    let mut raised = metadata;
    let ranks = metadata % FLAGS;
    for pos in 0..LEN {
        if ranks >> (BITS * pos) == 0 {
            // No rank is left.
            break;
        }
        if rank_at(ranks, pos) > low {
            raised += field(1, pos);
        }
    }
    raised
}

// The word once slot `pos` is not live any more: where that leaves no rank and no flag, it says retired.
pub fn cleared(metadata: u64, pos: usize) -> u64
    requires { pos < leaf_length }
    ensures { Reads result (slice_set (ranks_of metadata) pos 0) (cleared_flags (slice_set (ranks_of metadata) pos 0) (flags_of metadata)) }
{
    let left = with_rank(metadata, pos, 0);
    if left == 0 { RETIRED } else { left }
}

// Whether a word has no rank.
pub fn is_empty(metadata: u64) -> bool
    ensures { result ≡ is_empty (ranks_of metadata) }
{
    metadata % FLAGS == 0
}

// This and the next are one line each, under the names of the original: one function over the bit would be no plainer.
pub fn is_retired(metadata: u64) -> bool
    ensures { result ≡ is_retired (flags_of metadata) }
{
    metadata / RETIRED % 2 == 1
}

pub fn is_frozen(metadata: u64) -> bool
    ensures { result ≡ is_frozen (flags_of metadata) }
{
    metadata / FROZEN == 1
}

// The word with the frozen bit set.
pub fn freeze(metadata: u64) -> u64
    ensures { Reads result (ranks_of metadata) (flags_of metadata % 8 + 8) }
{
    FROZEN + metadata % FROZEN
}

// The word with the frozen bit cleared.
pub fn unfreeze(metadata: u64) -> u64
    ensures { Reads result (ranks_of metadata) (flags_of metadata % 8) }
{
    metadata % FROZEN
}
