// The record of a node.
//
// Ported from `LeafNode` in `tree_index/leaf_node.rs` of scc 3.8.8 (Apache-2.0), and changed: plain numbers in place of atomic pointers,
// all leaves in one table, and the slots are lent at each call.
ghost use Rattle.leaf_table.specs.Records.{Sound};

use leaf::array::Array;

// How many leaves a table has: one for each child place, the unbounded one and the spare.
pub const LEAVES: usize = 17;

#[derive(Clone, Copy)]
pub struct Table {
    // The ranks and uses of the child places, over the bounds.
    pub children: Array,
    // The leaf of each place: 0 to 14 the child places, 15 the unbounded leaf, 16 the spare. Indices into fixed arrays, since the store has no
    // heap.
    pub seats: [u8; LEAVES],
    pub leaves: [Array; LEAVES],
    // The unbounded leaf is gone too. A flag, and no `Option` around the leaf: its array stays in the table.
    pub gone: bool,
    ghost sound: { ∥ Sound children seats leaves ∥₁ },
}
