// One thing of a node's record changed.
ghost use Rattle.std.specs.Prelude.{◌≡◌, ℕ, ◌<◌, true, length, slice_set};
ghost use Rattle.std.specs.List.{swap};
ghost use Rattle.leaf.specs.Rules.{state_of};
ghost use Rattle.leaf_table.specs.Records.{leaf_count, state_no, Marked};

use crate::table::{LEAVES, Table};
use leaf::array::Array;

// Leaves and places count in plain numbers, as the tables do. `Marked` is asked where an array is set, since it is a part of the table's own
// invariant and holds of no array by itself.
impl Table {
    // Another table of leaves.
    pub fn set_leaves(&mut self, leaves: [Array; LEAVES])
        requires table { length leaves ≡ leaf_count }
        requires marked { (n : ℕ) → n < leaf_count → Marked (state_no leaves n) }
        ensures { (h : _) × (self.new ≡ record self.old { leaves = leaves; sound = h }) }
    {
        self.leaves = leaves;
    }

    // Another array for leaf n.
    pub fn set_leaf(&mut self, n: usize, array: Array)
        requires inside { n < leaf_count }
        requires marked { Marked (state_of array) }
        ensures { (h : _) × (self.new ≡ record self.old { leaves = slice_set self.old.leaves n array; sound = h }) }
    {
        self.leaves[n] = array;
    }

    // Places s and t change leaves.
    pub fn swap(&mut self, s: usize, t: usize)
        requires { (s < leaf_count) × (t < leaf_count) }
        ensures { (h : _) × (self.new ≡ record self.old { seats = swap self.old.seats s t; sound = h }) }
    {
        self.seats.swap(s, t);
    }

    // Another array of the children.
    pub fn set_children(&mut self, children: Array)
        requires { Marked (state_of children) }
        ensures { (h : _) × (self.new ≡ record self.old { children = children; sound = h }) }
    {
        self.children = children;
    }

    // The unbounded leaf is gone too.
    pub fn retire(&mut self)
        ensures { self.new ≡ record self.old { gone = true } }
    {
        self.gone = true;
    }
}
