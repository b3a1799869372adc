// Where a leaf splits.
//
// Ported from `Array::optimal_boundary` in `tree_index/leaf.rs` of scc 3.8.8 (Apache-2.0), and changed: the pass over the uses is a
// function of its own.
// Words and ranks are plain numbers, and casts to `u8` lose nothing, as in `dimension`.
ghost use Rattle.std.specs.Prelude.{◌≡◌, ◌+◌, ◌*◌, ◌≤◌, count_ones};
ghost use Rattle.ranks.specs.Dimensions.{leaf_length};
ghost use Rattle.ranks.specs.Words.{ranks_of};
ghost use Rattle.ranks.specs.Boundaries.{by_use, live_count, rises, boundary_of};

use crate::dimension::{LEN, rank_at, slot_pos};

// One more than twice the rises of the live ranks in order of use, and how many are live.
fn score(metadata: u64, uses: usize) -> (u8, u8)
    requires { uses ≤ leaf_length }
    ensures rises { result.0 ≡ 2 * rises 0 (by_use (ranks_of metadata) 0 uses) + 1 }
    ensures live { result.1 ≡ live_count (by_use (ranks_of metadata) 0 uses) }
    ensures bounds { (result.0 ≤ 31) × (result.1 ≤ leaf_length) }
{
    let mut doubled = 1;
    let mut len = 0;
    // As in the word, 0 is no rank.
    let mut prev_rank = 0;
    for bitmap_pos in 0..uses {
        let rank = rank_at(metadata, slot_pos(bitmap_pos));
        if rank != 0 {
            len += 1;
            if prev_rank != 0 && prev_rank < rank {
                doubled += 2;
            }
            prev_rank = rank;
        }
    }
    (doubled, len)
}

// The boundary, the live count, and whether all the slots of a full leaf ascend in order of use: a triple, as the original answers it.
pub fn optimal_boundary(metadata: u64, bitmap: u32) -> (u8, u8, bool)
    requires { count_ones bitmap ≤ leaf_length }
    ensures { result ≡ boundary_of (live_count (by_use (ranks_of metadata) 0 (count_ones bitmap))) (rises 0 (by_use (ranks_of metadata) 0 (count_ones bitmap))) }
{
    // There is no `From<u32>` for `usize`.
    let (doubled, len) = score(metadata, bitmap.count_ones() as usize);
    if usize::from(len) <= 3 * LEN / 4 {
        // Expect the caller to make the leaf anew.
        return (LEN as u8, len, false);
    }
    let boundary = if doubled < len {
        doubled.div_ceil(2)
    } else {
        doubled / 2
    };
    (boundary, len, usize::from(doubled) == 2 * LEN - 1)
}
