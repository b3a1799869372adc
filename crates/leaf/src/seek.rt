// The pass over the ranks of a leaf array that looks for a key.
//
// Ported from the passes of `insert`, `insert_dry`, `min_greater_equal` and `search_slot` in `tree_index/leaf.rs` of scc 3.8.8
// (Apache-2.0), and changed: one pass serves them all, and a second one raises the ranks.
// Words, slots and ranks are plain numbers, as in `ranks`; slots are lent, and may hold anything.
ghost use Rattle.std.specs.Prelude.{◌≡◌, ℕ, ◌<◌, length, slice_index};
ghost use Rattle.ranks.specs.Dimensions.{leaf_length};
ghost use Rattle.ranks.specs.Words.{ranks_of, flags_of, Reads};
ghost use Rattle.leaf.specs.Slots.{sides, Sorted};
ghost use Rattle.leaf.specs.Seeks.{Inside, taken, Sought};

use crate::array::Array;
use crate::data_block::Slot;
use keys::equivalent::{Comparable, Equivalent};
use ranks::dimension::{BITS, FLAGS, raise_above, rank_at, with_rank};
use std::cmp::Ordering;

// Where a key that has no live slot lies among the live ranks.
#[derive(Clone, Copy)]
pub(crate) struct Gap {
    // the greatest rank before the key; as in the word, 0 is no rank
    pub(crate) low: u8,
    // the slot of the least rank after it
    pub(crate) next: Option<usize>,
}

// The word once a key that was sought takes the slot `free`.
pub(crate) fn word_with(metadata: u64, spot: Result<usize, Gap>, free: usize) -> u64
    requires inside { Inside (ranks_of metadata) spot }
    requires room { (p : ℕ) → slice_index (ranks_of metadata) p < leaf_length }
    requires free { free < leaf_length }
    ensures { Reads result (taken (ranks_of metadata) spot free) (flags_of metadata) }
{
    match spot {
        Ok(pos) => {
            let rank = rank_at(metadata, pos);
            with_rank(with_rank(metadata, pos, 0), free, rank)
        }
        Err(Gap { low, .. }) => with_rank(raise_above(metadata, low), free, low + 1),
    }
}

impl Array {
    // The live slot at the place of `key`, or the gap where it lies.
    pub(crate) fn seek<K: Equivalent<K>, V, Q: Comparable<K>>(
        &self,
        slots: &[Slot<K, V>],
        key: &Q,
    ) -> Result<usize, Gap>
        requires { length slots.now ≡ leaf_length }
        ensures inside { Inside (ranks_of self.now.metadata) result }
        ensures sought { Sorted K.Equivalent.order (ranks_of self.now.metadata) slots.now → Sought (ranks_of self.now.metadata) (sides K.Equivalent.order (Q.Equivalent.spells key.now) slots.now) result }
    {
        // 0 and `u8::MAX` lie outside all ranks: the bounds need no `Option`, which would make each test a match.
        let mut max_min_rank = 0;
        let mut min_max_rank = u8::MAX;
        let mut min_max_pos = None;
        let ranks = self.metadata % FLAGS;
        for (pos, slot) in slots.iter().enumerate() {
            if ranks >> (BITS * pos) == 0 {
                // No rank is left.
                break;
            }
            let rank = rank_at(ranks, pos);
            if rank < min_max_rank && rank > max_min_rank {
                match key.compare(&slot.key) {
                    Ordering::Less => {
                        min_max_rank = rank;
                        min_max_pos = Some(pos);
                    }
                    Ordering::Equal => return Ok(pos),
                    Ordering::Greater => max_min_rank = rank,
                }
            }
        }
        Err(Gap {
            low: max_min_rank,
            next: min_max_pos,
        })
    }
}
