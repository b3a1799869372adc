// A node and its calls.
//
// Ported from `LeafNode` in `tree_index/leaf_node.rs` of scc 3.8.8 (Apache-2.0), and changed: one owner, a table of leaves in place of
// pointers, slots that are lent at each call, and a flag in place of `UPSERT`.
ghost use Rattle.std.specs.Prelude.{◌≡◌, false, List, length, IfErr, OnErr};
ghost use Rattle.lists.specs.Nodes.{fresh, told, held, find};
ghost use Rattle.leaf.specs.Calls.{FilingRefusal, StrikeRefusal};
ghost use Rattle.leaf.specs.declared.data_block.Slot as slot;
ghost use Rattle.leaf_lists.specs.Stands.{entry_of, found_in};
ghost use Rattle.leaf_table.specs.States.{node_length, row_of, node_of};
ghost use Rattle.leaf_table.specs.Changes.{asked};
ghost use Rattle.leaf_table.specs.Strikes.{held_in};
ghost use Rattle.leaf_node.specs.States.{Kept};
ghost use Rattle.leaf_node.specs.Steps.{Unchanged, Appended};
ghost use Rattle.leaf_node.specs.Strikes.{StruckAt};

use keys::condition::Condition;
use keys::equivalent::{Comparable, Equivalent};
use keys::refusal::Refusal;
use leaf::data_block::Slot;
use leaf::result::RemoveOutcome;
use leaf_table::table::Table;

// The node over a table, whose steps are in the leaf of one place.
#[derive(Clone, Copy)]
pub struct LeafNode {
    pub table: Table,
}

// Slots are lent at each call, and may hold anything, and a clause says which refusals a call gives: as in the table.
impl LeafNode {
    // A node with nothing in it, whatever the slots hold.
    pub fn new<K: Equivalent<K>, V>() -> LeafNode
        ensures { (slots : List (slot.Slot K V)) → (node_of result.table slots ≡ fresh) × Kept K.Equivalent.order result.table slots }
    {
        let table = Table::new::<K, V>();
        LeafNode { table }
    }

    // The live entry at the place of `key`.
    pub fn search_entry<K: Equivalent<K> + Copy, V: Copy, Q: Comparable<K>>(
        &self,
        slots: &[Slot<K, V>],
        key: &Q,
    ) -> Option<Slot<K, V>>
        requires { length slots.now ≡ node_length }
        ensures answer { Kept K.Equivalent.order self.now.table slots.now → told K.Equivalent.order (found_in result) ≡ find K.Equivalent.order (K.Equivalent.order.place (Q.Equivalent.spells key.now)) (node_of self.now.table slots.now) }
        ensures entry { Kept K.Equivalent.order self.now.table slots.now → self.now.table.gone ≡ false → found_in result ≡ held K.Equivalent.order (K.Equivalent.order.place (Q.Equivalent.spells key.now)) (row_of self.now.table slots.now) }
    {
        self.table.search_entry(slots, key)
    }

    // Files `entry` in its target, if that has room. Where `upsert` is set, a live slot at the place of its key hands its rank over.
    pub fn append<K: Comparable<K> + Copy, V: Copy>(
        &mut self,
        slots: &mut [Slot<K, V>],
        entry: Slot<K, V>,
        upsert: bool,
    ) -> Result<(), Refusal>
        requires { length slots.old ≡ node_length }
        ensures refused { IfErr result FilingRefusal }
        ensures unchanged { Unchanged self.old.table slots.old self.new.table slots.new result }
        ensures gone { self.new.table.gone ≡ self.old.table.gone }
        ensures appended { Kept K.Equivalent.order self.old.table slots.old → Appended K.Equivalent.order self.old.table slots.old (entry_of entry) upsert self.new.table slots.new result }
    {
        if self.table.gone {
            return Err(Refusal::Full);
        }
        let t = self.table.target(slots, &entry.key);
        self.table.insert_at(slots, t, entry, upsert)
    }

    // Strikes the place of `key` in its target, if the condition says yes to its value. A leaf with no live slot left is still in the row.
    pub fn strike_target<K: Equivalent<K>, V, Q: Comparable<K>, C: Condition<V>>(
        &mut self,
        slots: &[Slot<K, V>],
        key: &Q,
        condition: &mut C,
    ) -> Result<RemoveOutcome, Refusal>
        requires { length slots.now ≡ node_length }
        ensures refused { IfErr result StrikeRefusal }
        ensures unchanged { OnErr result (self.new ≡ self.old) }
        ensures gone { self.new.table.gone ≡ self.old.table.gone }
        ensures struck { Kept K.Equivalent.order self.old.table slots.now → StruckAt K.Equivalent.order (C.Condition.verdict condition.old) self.old.table slots.now (K.Equivalent.order.place (Q.Equivalent.spells key.now)) self.new.table result }
        ensures asked { Kept K.Equivalent.order self.old.table slots.now → condition.new ≡ asked C.Condition.after condition.old (held_in K.Equivalent.order (K.Equivalent.order.place (Q.Equivalent.spells key.now)) (node_of self.old.table slots.now)) }
        ensures kept { Kept K.Equivalent.order self.old.table slots.now → Kept K.Equivalent.order self.new.table slots.now }
    {
        if self.table.gone {
            return Err(Refusal::NotStruck);
        }
        let t = self.table.target(slots, key);
        self.table.remove_at(slots, t, key, condition)
    }
}
