// A cursor over the live slots of a leaf array, in order of rank.
//
// Ported from `ArrayIter`, `ArrayRevIter` and `Array::build_index` in `tree_index/leaf.rs` of scc 3.8.8 (Apache-2.0), and changed: a
// cursor keeps no copy of the word, and the one that goes down holds one that goes up.
// Words, slots and ranks are plain numbers, and casts to `u8` lose nothing, as in `dimension`.
ghost use Rattle.std.specs.Prelude.{◌≡◌, ℕ, ◌+◌, ◌<◌, ◌≤◌, ◌≢◌, reverse, None, slice_index, slice_set, IfSome, unwrap_or};
ghost use Rattle.std.specs.Iterator.{item_count};
ghost use Rattle.ranks.specs.Dimensions.{leaf_length};
ghost use Rattle.ranks.specs.Words.{ranks_of};
ghost use Rattle.ranks.specs.Indexes.{no_slot, Indexed, ahead, behind, given, Gives, InOrder, Apart};

use crate::dimension::{BITS, FLAGS, LEN, rank_at};

// In the place of a slot, for a rank that no live slot has.
const NO_SLOT: u8 = u8::MAX;

#[derive(Clone, Copy)]
pub struct ArrayIter {
    // Rank to slot, `NO_SLOT` for none; at 0 the rank of the slot last given, 0 before the first. A cursor keeps the original's layout of
    // sixteen plain numbers, so there are no `Option`s here.
    pos: [u8; LEN + 1],
    ghost slot: { (r : ℕ) → 0 < r → r ≤ leaf_length → slice_index pos r ≢ no_slot → slice_index pos r < leaf_length },
    ghost last: { slice_index pos 0 ≤ leaf_length },
    ghost here: { 0 < slice_index pos 0 → slice_index pos (slice_index pos 0) < leaf_length },
}

// The same cursor, going down.
#[derive(Clone, Copy)]
pub struct ArrayRevIter(ArrayIter);

// The slot of each rank, from 1 on.
fn build_index(metadata: u64) -> [u8; LEN + 1]
    ensures { Indexed (ranks_of metadata) leaf_length result }
{
    let mut index = [NO_SLOT; LEN + 1];
    index[0] = 0;
    let ranks = metadata % FLAGS;
    for pos in 0..LEN {
        if ranks >> (BITS * pos) == 0 {
            // No rank is left.
            break;
        }
        let rank = usize::from(rank_at(ranks, pos));
        if rank != 0 {
            index[rank] = pos as u8;
        }
    }
    index
}

impl ArrayIter {
    // A cursor over the live slots of a word, before the first.
    pub fn with_metadata(metadata: u64) -> ArrayIter
        ensures given { given result.pos ≡ None }
        ensures forward { Apart (ranks_of metadata) → InOrder (ranks_of metadata) (ahead result.pos) }
        ensures backward { Apart (ranks_of metadata) → InOrder (ranks_of metadata) (reverse (behind result.pos)) }
    {
        ArrayIter {
            pos: build_index(metadata),
        }
    }

    // The same cursor, going down.
    pub fn rev(self) -> ArrayRevIter
        ensures { result.0 ≡ self }
    {
        ArrayRevIter(self)
    }

    // The slot last given.
    pub fn get(&self) -> Option<u8>
        ensures { result ≡ given self.now.pos }
    {
        let rank = usize::from(self.pos[0]);
        (rank != 0).then(|| self.pos[rank])
    }

    // Back to before the first.
    pub fn rewind(&mut self)
        ensures { self.new.pos ≡ slice_set self.old.pos 0 0 }
    {
        self.pos[0] = 0;
    }

    // The least rank that has a slot, from `first` on. This and the next are two searches, and none over any iterator of ranks, whose contract
    // would have to speak of that iterator's run.
    fn rank_from(&self, first: usize) -> Option<usize>
        ensures found { IfSome result (λ rank. (first ≤ rank) × (rank ≤ leaf_length) × (slice_index self.now.pos rank ≢ no_slot)) }
        ensures skipped { (r : ℕ) → first ≤ r → r < unwrap_or result (leaf_length + 1) → slice_index self.now.pos r ≡ no_slot }
    {
        (first..LEN + 1).find(|&rank| self.pos[rank] != NO_SLOT)
    }

    // The greatest rank that has a slot, up to `last`.
    fn rank_to(&self, last: usize) -> Option<usize>
        requires { last ≤ leaf_length }
        ensures found { IfSome result (λ rank. (0 < rank) × (rank ≤ last) × (slice_index self.now.pos rank ≢ no_slot)) }
        ensures skipped { (r : ℕ) → unwrap_or result 0 < r → r ≤ last → slice_index self.now.pos r ≡ no_slot }
    {
        (1..last + 1).rev().find(|&rank| self.pos[rank] != NO_SLOT)
    }

    // The slot of `rank`, which is then the slot last given.
    fn give(&mut self, rank: usize) -> u8
        requires { (0 < rank) × (rank ≤ leaf_length) × (slice_index self.old.pos rank ≢ no_slot) }
        ensures { (self.new.pos ≡ slice_set self.old.pos 0 rank) × (result ≡ slice_index self.old.pos rank) }
    {
        self.pos[0] = rank as u8;
        self.pos[rank]
    }
}

impl ArrayRevIter {
    // The same cursor, going up.
    pub fn rev(self) -> ArrayIter
        ensures { result ≡ self.0 }
    {
        let ArrayRevIter(iter) = self;
        iter
    }

    // The slot last given.
    pub fn get(&self) -> Option<u8>
        ensures { result ≡ given self.now.0.pos }
    {
        self.0.get()
    }

    // Back to before the first.
    pub fn rewind(&mut self)
        ensures { self.new.0.pos ≡ slice_set self.old.0.pos 0 0 }
    {
        self.0.rewind();
    }
}

impl Iterator for ArrayIter {
    type Item = u8;

    ghost next_gives = { λ s r t. Gives ahead s.pos r t.pos };

    ghost remaining = { item_count (λ s. ahead s.pos) };

    // The slot of the next rank.
    fn next(&mut self) -> Option<u8> {
        let rank = self.rank_from(usize::from(self.pos[0]) + 1)?;
        Some(self.give(rank))
    }
}

impl Iterator for ArrayRevIter {
    type Item = u8;

    ghost next_gives = { λ s r t. Gives behind s.0.pos r t.0.pos };

    ghost remaining = { item_count (λ s. behind s.0.pos) };

    // The slot of the next rank, going down.
    fn next(&mut self) -> Option<u8> {
        let last = usize::from(self.0.pos[0]).checked_sub(1).unwrap_or(LEN);
        let rank = self.0.rank_to(last)?;
        Some(self.0.give(rank))
    }
}
