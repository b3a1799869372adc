// The places of a node: which leaf a key goes to, and steps in the leaf of one place.
//
// Ported from `tree_index/leaf_node.rs` of scc 3.8.8 (Apache-2.0), and changed: one owner, a table of leaves in place of pointers, slots
// that are lent at each call, and a flag in place of `UPSERT`.
ghost use Rattle.std.specs.Prelude.{◌≡◌, ℕ, ◌<◌, ◌≤◌, false, ◌≢◌, List, length, IfOk, IfErr, OnOk, OnErr, ◌==◌, slice_index};
ghost use Rattle.ranks.specs.Dimensions.{leaf_length};
ghost use Rattle.lists.specs.Leaves.{lives, lookup};
ghost use Rattle.lists.specs.Nodes.{fresh, told, held, find};
ghost use Rattle.lists.specs.Rows as rows;
ghost use Rattle.leaf.specs.Calls.{fresh as blank, Filled, Struck, Inserted, Removed, FilingRefusal, StrikeRefusal};
ghost use Rattle.leaf.specs.Rules.{state_of};
ghost use Rattle.leaf.specs.Slots.{sides, Sorted};
ghost use Rattle.leaf.specs.declared.data_block.Slot as slot;
ghost use Rattle.leaf_lists.specs.Stands.{entry_of, found_in};
ghost use Rattle.leaf_table.specs.Records.{state_no};
ghost use Rattle.leaf_table.specs.States.{node_length, part, state_at, slots_at, leaf_at, row_of, node_of, TableSorted, Kept, Aimed};
ghost use Rattle.leaf_table.specs.Changes.{OnlyLeaf, FiledAt, StruckAt, asked};

use crate::table::{LEAVES, Table};
use keys::condition::Condition;
use keys::equivalent::{Comparable, Equivalent};
use keys::refusal::Refusal;
use leaf::array::Array;
use leaf::data_block::Slot;
use leaf::result::RemoveOutcome;
use ranks::dimension::LEN;

// Slots are lent at each call, and may hold anything: so each function asks for itself that they are 270, and says what it does where ranks
// order their keys. Places, leaves and parts are indices: plain numbers, their kinds with names, and no type or enum that each step would turn
// into its index. Refusals are one enum with one number each, so a clause says which of them a call gives.

// The place of the unbounded leaf.
pub const UNBOUNDED: usize = 15;

// The place of the spare leaf.
pub const SPARE: usize = 16;

// The part that has the bounds.
pub const BOUNDS: usize = 17;

// The slots of leaf n.
pub fn part<K, V>(slots: &[Slot<K, V>], n: usize) -> &[Slot<K, V>]
    requires { (length slots.now ≡ node_length) × (n < 18) }
    ensures part { result.now ≡ part n slots.now }
    ensures long { length result.now ≡ leaf_length }
{
    &slots[LEN * n..LEN * n + LEN]
}

// Files `entry` in the array of leaf n.
#[tactic(auto, using(crate::proofs::Parts::part_other, crate::proofs::Sounds::kept_in, crate::proofs::Sounds::unchanged_in))]
pub fn insert_in<K: Comparable<K> + Copy, V: Copy>(
    array: &mut Array,
    slots: &mut [Slot<K, V>],
    n: usize,
    entry: Slot<K, V>,
    upsert: bool,
) -> Result<(), Refusal>
    requires size { length slots.old ≡ node_length }
    requires inside { n < 17 }
    ensures others { (m : ℕ) → m < 18 → m ≢ n → part m slots.new ≡ part m slots.old }
    ensures refused { IfErr result FilingRefusal }
    ensures unchanged { OnErr result ((array.new ≡ array.old) × (slots.new ≡ slots.old)) }
    ensures filled { OnOk result (Filled (state_of array.old) (state_of array.new)) }
    ensures inserted { Sorted K.Equivalent.order (state_of array.old).ranks (part n slots.old) → Inserted K.Equivalent.order array.old (part n slots.old) entry upsert array.new (part n slots.new) result }
{
    array.insert(&mut slots[LEN * n..LEN * n + LEN], entry, upsert)
}

// Strikes the place of `key` in the array of leaf n, if the condition says yes to its value.
fn remove_in<K: Equivalent<K>, V, Q: Comparable<K>, C: Condition<V>>(
    array: &mut Array,
    slots: &[Slot<K, V>],
    n: usize,
    key: &Q,
    condition: &mut C,
) -> Result<RemoveOutcome, Refusal>
    requires size { length slots.now ≡ node_length }
    requires inside { n < 17 }
    ensures refused { IfErr result StrikeRefusal }
    ensures unchanged { OnErr result (state_of array.new ≡ state_of array.old) }
    ensures struck { IfOk result (Struck (state_of array.old) (state_of array.new)) }
    ensures removed { Sorted K.Equivalent.order (state_of array.old).ranks (part n slots.now) → Removed K.Equivalent.order C.Condition.verdict C.Condition.after array.old condition.old (Q.Equivalent.spells key.now) (part n slots.now) array.new condition.new result }
{
    array.remove_if(part(slots, n), key, condition)
}

impl Table {
    // A node with nothing in it, whatever the slots hold.
    pub fn new<K: Equivalent<K>, V>() -> Table
        ensures fresh { (slots : List (slot.Slot K V)) → (node_of result slots ≡ fresh) × Kept K.Equivalent.order result slots }
        ensures blank { (n : ℕ) → state_no result.leaves n ≡ blank }
    {
        Table {
            children: Array::new(),
            seats: [0, 1, 2, 3, 4, 5, 6, 7, 8, 9, 10, 11, 12, 13, 14, 15, 16],
            leaves: [Array::new(); LEAVES],
            gone: false,
        }
    }

    // The leaf of place t.
    pub fn seat(&self, t: usize) -> usize
        requires { t < 17 }
        ensures value { result ≡ slice_index self.now.seats t }
        ensures inside { result < 17 }
    {
        usize::from(self.seats[t])
    }

    // The place of the leaf that `key` goes to.
    pub fn target<K: Equivalent<K>, V, Q: Comparable<K>>(
        &self,
        slots: &[Slot<K, V>],
        key: &Q,
    ) -> usize
        requires { length slots.now ≡ node_length }
        ensures inside { result ≤ 15 }
        ensures live { result < 15 → 0 < slice_index (state_of self.now.children).ranks result }
        ensures aimed { TableSorted K.Equivalent.order self.now slots.now → Aimed (state_of self.now.children).ranks (sides K.Equivalent.order (Q.Equivalent.spells key.now) (part 17 slots.now)) result }
        ensures leaf { TableSorted K.Equivalent.order self.now slots.now → rows.target K.Equivalent.order (K.Equivalent.order.place (Q.Equivalent.spells key.now)) (row_of self.now slots.now) ≡ leaf_at self.now slots.now result }
        ensures last { TableSorted K.Equivalent.order self.now slots.now → rows.at_edge K.Equivalent.order (K.Equivalent.order.place (Q.Equivalent.spells key.now)) (row_of self.now slots.now) ≡ (result == 15) }
    {
        self.children
            .min_greater_equal(part(slots, BOUNDS), key)
            .unwrap_or(UNBOUNDED)
    }

    // The live entry at the place of `key`.
    pub fn search_entry<K: Equivalent<K> + Copy, V: Copy, Q: Comparable<K>>(
        &self,
        slots: &[Slot<K, V>],
        key: &Q,
    ) -> Option<Slot<K, V>>
        requires { length slots.now ≡ node_length }
        ensures answer { TableSorted K.Equivalent.order self.now slots.now → told K.Equivalent.order (found_in result) ≡ find K.Equivalent.order (K.Equivalent.order.place (Q.Equivalent.spells key.now)) (node_of self.now slots.now) }
        ensures entry { TableSorted K.Equivalent.order self.now slots.now → self.now.gone ≡ false → found_in result ≡ held K.Equivalent.order (K.Equivalent.order.place (Q.Equivalent.spells key.now)) (row_of self.now slots.now) }
    {
        if self.gone {
            return None;
        }
        let n = self.seat(self.target(slots, key));
        self.leaves[n].search_entry(part(slots, n), key)
    }

    // Files `entry` in the leaf of place t, if that has room.
    pub fn insert_at<K: Comparable<K> + Copy, V: Copy>(
        &mut self,
        slots: &mut [Slot<K, V>],
        t: usize,
        entry: Slot<K, V>,
        upsert: bool,
    ) -> Result<(), Refusal>
        requires size { length slots.old ≡ node_length }
        requires inside { t ≤ 15 }
        ensures only { OnlyLeaf self.old slots.old (slice_index self.old.seats t) self.new slots.new }
        ensures refused { IfErr result FilingRefusal }
        ensures unchanged { OnErr result ((self.new ≡ self.old) × (slots.new ≡ slots.old)) }
        ensures filled { OnOk result (Filled (state_at self.old t) (state_at self.new t)) }
        ensures filed { Sorted K.Equivalent.order (state_at self.old t).ranks (slots_at self.old slots.old t) → FiledAt K.Equivalent.order self.old slots.old t (entry_of entry) upsert self.new slots.new result }
    {
        let n = self.seat(t);
        // the whole field is borrowed: in a record with a ghost field `self.leaves[n]` itself cannot be lent to a call
        let leaves = &mut self.leaves;
        insert_in(&mut leaves[n], slots, n, entry, upsert)
    }

    // Strikes the place of `key` in the leaf of place t, if the condition says yes to its value.
    pub fn remove_at<K: Equivalent<K>, V, Q: Comparable<K>, C: Condition<V>>(
        &mut self,
        slots: &[Slot<K, V>],
        t: usize,
        key: &Q,
        condition: &mut C,
    ) -> Result<RemoveOutcome, Refusal>
        requires size { length slots.now ≡ node_length }
        requires inside { t ≤ 15 }
        ensures only { OnlyLeaf self.old slots.now (slice_index self.old.seats t) self.new slots.now }
        ensures refused { IfErr result StrikeRefusal }
        ensures unchanged { OnErr result (self.new ≡ self.old) }
        ensures off { IfOk result (Struck (state_at self.old t) (state_at self.new t)) }
        ensures struck { Sorted K.Equivalent.order (state_at self.old t).ranks (slots_at self.old slots.now t) → StruckAt K.Equivalent.order (C.Condition.verdict condition.old) self.old slots.now t (K.Equivalent.order.place (Q.Equivalent.spells key.now)) self.new result }
        ensures asked { Sorted K.Equivalent.order (state_at self.old t).ranks (slots_at self.old slots.now t) → condition.new ≡ asked C.Condition.after condition.old (lookup K.Equivalent.order (K.Equivalent.order.place (Q.Equivalent.spells key.now)) (lives (leaf_at self.old slots.now t))) }
    {
        let n = self.seat(t);
        // borrowed as in `insert_at`
        let leaves = &mut self.leaves;
        remove_in(&mut leaves[n], slots, n, key, condition)
    }
}
