// The calls of a leaf array.
//
// Ported from `tree_index/leaf.rs` of scc 3.8.8 (Apache-2.0), and changed: one owner, plain numbers in place of atomics, slots that
// are lent at each call, a flag in place of `UPSERT`, a condition in place of a closure, and a refusal as the error of a `Result`.
ghost use Rattle.std.specs.Prelude.{◌≡◌, ℕ, ◌+◌, ◌*◌, ◌<◌, true, false, reverse, length, set, Some, None, Err, IfOk, OnOk, IfErr, OnErr, slice_index};
ghost use Rattle.ranks.specs.Dimensions.{leaf_length, slot_pos};
ghost use Rattle.ranks.specs.Words.{is_frozen};
ghost use Rattle.ranks.specs.Indexes.{ahead, behind, given, InOrder};
ghost use Rattle.ranks.specs.Boundaries.{by_use, live_count, rises, boundary_of};
ghost use Rattle.leaf.specs.Slots.{sides, Sorted};
ghost use Rattle.leaf.specs.Rules.{state_of, holder, used, Spare, frozen, thawed, filed, struck, Live, LeastFrom};
ghost use Rattle.leaf.specs.Calls.{FilingRefusal, StrikeRefusal, fresh, is_full, entry_at, insertion, Unchanged, Inserted, Filled, Fits, pushed, outcome, Struck, Removed};

use crate::array::Array;
use crate::data_block::Slot;
use crate::exit_guard::{ExitGuard, GiveBack};
use crate::result::RemoveOutcome;
use crate::seek::word_with;
use keys::condition::Condition;
use keys::equivalent::{Comparable, Equivalent};
use keys::refusal::Refusal;
use ranks::array_iter::ArrayIter;
use ranks::dimension::{FLAGS, LEN, RETIRED, cleared, is_frozen, is_retired, slot_pos, with_rank};
use ranks::{boundary, dimension};

// Slots are lent at each call, and may hold anything: so each call that looks at them asks for itself that they are fifteen, and says
// what it does where ranks order their keys. Refusals are one enum with one number each, so a clause says which of them a call gives.
impl Array {
    pub fn new() -> Array
        ensures { state_of result ≡ fresh }
    {
        Array {
            metadata: 0,
            bitmap: 0,
        }
    }

    pub fn new_frozen() -> Array
        ensures { state_of result ≡ frozen fresh }
    {
        let mut array = Array::new();
        array.freeze();
        array
    }

    // The number of uses.
    pub fn uses(&self) -> usize
        ensures { result ≡ (state_of self.now).uses }
    {
        // There is no `From<u32>` for `usize`.
        self.bitmap.count_ones() as usize
    }

    // Takes the next use.
    fn take_use(&mut self)
        requires { (state_of self.old).uses < leaf_length }
        ensures bitmap { self.new.bitmap ≡ 2 * self.old.bitmap + 1 }
        ensures state { state_of self.new ≡ used (state_of self.old) }
    {
        self.bitmap = 2 * self.bitmap + 1;
    }

    // Takes the next use, for a guard to give back.
    fn hold_use(&mut self) -> ExitGuard<'_, GiveBack>
        requires { (state_of self.old).uses < leaf_length }
        ensures same_array { result.array.ghost_name ≡ self.entry.ghost_name }
        ensures held { state_of result.array.now ≡ used (state_of self.old) }
        ensures spare { Spare (state_of result.array.now) }
        ensures room { (p : ℕ) → slice_index (state_of result.array.now).ranks p < leaf_length }
    {
        self.take_use();
        ExitGuard::new(self)
    }

    // No use is left, or the array is retired.
    pub fn is_full(&self) -> bool
        ensures { result ≡ is_full (state_of self.now) }
    {
        self.uses() == LEN || is_retired(self.metadata)
    }

    pub fn freeze(&mut self)
        ensures { state_of self.new ≡ frozen (state_of self.old) }
    {
        self.metadata = dimension::freeze(self.metadata);
    }

    pub fn unfreeze(&mut self)
        ensures { state_of self.new ≡ thawed (state_of self.old) }
    {
        self.metadata = dimension::unfreeze(self.metadata);
    }

    // The boundary of a split, the live count, and whether all the slots of a full leaf ascend in order of use, together as in the original.
    pub fn optimal_boundary(&self) -> (u8, u8, bool)
        ensures { result ≡ boundary_of (live_count (by_use (state_of self.now).ranks 0 (state_of self.now).uses)) (rises 0 (by_use (state_of self.now).ranks 0 (state_of self.now).uses)) }
    {
        boundary::optimal_boundary(self.metadata, self.bitmap)
    }

    // The live slot at the place of `key`.
    pub fn search_slot<K: Equivalent<K>, V, Q: Comparable<K>>(
        &self,
        slots: &[Slot<K, V>],
        key: &Q,
    ) -> Option<usize>
        requires { length slots.now ≡ leaf_length }
        ensures live { Live (state_of self.now).ranks result }
        ensures found { Sorted K.Equivalent.order (state_of self.now).ranks slots.now → result ≡ holder (state_of self.now).ranks (sides K.Equivalent.order (Q.Equivalent.spells key.now) slots.now) }
    {
        self.seek(slots, key).ok()
    }

    // The live entry at the place of `key`.
    pub fn search_entry<K: Equivalent<K> + Copy, V: Copy, Q: Comparable<K>>(
        &self,
        slots: &[Slot<K, V>],
        key: &Q,
    ) -> Option<Slot<K, V>>
        requires { length slots.now ≡ leaf_length }
        ensures { Sorted K.Equivalent.order (state_of self.now).ranks slots.now → result ≡ entry_at (holder (state_of self.now).ranks (sides K.Equivalent.order (Q.Equivalent.spells key.now) slots.now)) slots.now }
    {
        self.search_slot(slots, key).map(|pos| slots[pos])
    }

    // The live slot of the least rank that is not before the place of `key`.
    pub fn min_greater_equal<K: Equivalent<K>, V, Q: Comparable<K>>(
        &self,
        slots: &[Slot<K, V>],
        key: &Q,
    ) -> Option<usize>
        requires { length slots.now ≡ leaf_length }
        ensures live { Live (state_of self.now).ranks result }
        ensures least { Sorted K.Equivalent.order (state_of self.now).ranks slots.now → LeastFrom (state_of self.now).ranks (sides K.Equivalent.order (Q.Equivalent.spells key.now) slots.now) result }
    {
        self.seek(slots, key).map_or_else(|gap| gap.next, Some)
    }

    // Why filing is refused where no use is left.
    fn full_or_duplicate<K: Comparable<K>, V>(
        &self,
        slots: &[Slot<K, V>],
        key: &K,
        upsert: bool,
    ) -> Refusal
        requires size { length slots.now ≡ leaf_length }
        requires full { (state_of self.now).uses ≡ leaf_length }
        ensures refused { FilingRefusal result }
        ensures answer { Sorted K.Equivalent.order (state_of self.now).ranks slots.now → Err result ≡ insertion (state_of self.now) (sides K.Equivalent.order key.now slots.now) upsert }
    {
        if !upsert && self.metadata < FLAGS && self.search_slot(slots, key).is_some() {
            Refusal::Duplicate
        } else {
            Refusal::Full
        }
    }

    // Files `entry` at the next use. Where the flag `upsert` is set, which stands for `UPSERT`, a live slot at the place of its key hands its rank over.
    pub fn insert<K: Comparable<K> + Copy, V: Copy>(
        &mut self,
        slots: &mut [Slot<K, V>],
        entry: Slot<K, V>,
        upsert: bool,
    ) -> Result<(), Refusal>
        requires { length slots.old ≡ leaf_length }
        ensures refused { IfErr result FilingRefusal }
        ensures unchanged { Unchanged K.Equivalent.order self.old slots.old entry upsert self.new slots.new result }
        ensures filled { OnOk result (Filled (state_of self.old) (state_of self.new)) }
        ensures inserted { Sorted K.Equivalent.order (state_of self.old).ranks slots.old → Inserted K.Equivalent.order self.old slots.old entry upsert self.new slots.new result }
    {
        let bitmap_pos = self.uses();
        if bitmap_pos == LEN {
            return Err(self.full_or_duplicate(slots, &entry.key, upsert));
        }
        let guard = self.hold_use();
        if guard.array.metadata >= FLAGS {
            return Err(Refusal::Full);
        }
        let spot = guard.array.seek(slots, &entry.key);
        if !upsert && spot.is_ok() {
            return Err(Refusal::Duplicate);
        }
        let pos = slot_pos(bitmap_pos);
        guard.array.metadata = word_with(guard.array.metadata, spot, pos);
        slots[pos] = entry;
        guard.forget();
        Ok(())
    }

    // The next use, and the word once `key` takes it: a pair, as the original answers it.
    pub fn insert_dry<K: Equivalent<K>, V, Q: Comparable<K>>(
        &self,
        slots: &[Slot<K, V>],
        key: &Q,
    ) -> (usize, u64)
        requires size { length slots.now ≡ leaf_length }
        requires room { is_full (state_of self.now) ≡ false }
        ensures next { result.0 ≡ (state_of self.now).uses }
        ensures fits { Fits self.now (Some result.1) }
        ensures word { Sorted K.Equivalent.order (state_of self.now).ranks slots.now → pushed (Some result.1) (state_of self.now) ≡ filed (sides K.Equivalent.order (Q.Equivalent.spells key.now) slots.now) (state_of self.now) }
    {
        let bitmap_pos = self.uses();
        let spot = self.seek(slots, key);
        (
            bitmap_pos,
            word_with(self.metadata, spot, slot_pos(bitmap_pos)),
        )
    }

    // Files `entry` at the next use, `bitmap_pos`, with no look at the other slots: with the word that is given, or else with the
    // greatest rank. Answers the slot. The use and the word are those of `insert_dry`, apart as in the original.
    pub fn insert_unchecked<K: Copy, V: Copy>(
        &mut self,
        slots: &mut [Slot<K, V>],
        entry: Slot<K, V>,
        bitmap_pos: usize,
        metadata: Option<u64>,
    ) -> usize
        requires size { length slots.old ≡ leaf_length }
        requires room { is_full (state_of self.old) ≡ false }
        requires next { bitmap_pos ≡ (state_of self.old).uses }
        requires fits { Fits self.old metadata }
        ensures pos { result ≡ slot_pos bitmap_pos }
        ensures state { state_of self.new ≡ pushed metadata (state_of self.old) }
        ensures written { slots.new ≡ set slots.old result entry }
    {
        let pos = slot_pos(bitmap_pos);
        slots[pos] = entry;
        // The cast loses nothing, which is proved.
        let word = metadata.unwrap_or_else(|| with_rank(
            self.metadata,
            pos,
            (bitmap_pos + 1) as u8,
        ));
        self.take_use();
        self.metadata = word;
        pos
    }

    // Strikes the slot at `pos`, with no look at its key.
    pub fn remove_unchecked(&mut self, pos: usize) -> RemoveOutcome
        requires { pos < leaf_length }
        ensures answer { result ≡ outcome (struck pos (state_of self.old)) }
        ensures state { state_of self.new ≡ struck pos (state_of self.old) }
    {
        self.metadata = cleared(self.metadata, pos);
        if self.metadata == RETIRED {
            RemoveOutcome::Retired
        } else {
            RemoveOutcome::Success
        }
    }

    // Strikes the live slot at the place of `key`, if the condition says yes to its value.
    pub fn remove_if<K: Equivalent<K>, V, Q: Comparable<K>, C: Condition<V>>(
        &mut self,
        slots: &[Slot<K, V>],
        key: &Q,
        condition: &mut C,
    ) -> Result<RemoveOutcome, Refusal>
        requires { length slots.now ≡ leaf_length }
        ensures refused { IfErr result StrikeRefusal }
        ensures unchanged { OnErr result (state_of self.new ≡ state_of self.old) }
        ensures struck { IfOk result (Struck (state_of self.old) (state_of self.new)) }
        ensures frozen { is_frozen (state_of self.old).flags ≡ true → Removed K.Equivalent.order C.Condition.verdict C.Condition.after self.old condition.old (Q.Equivalent.spells key.now) slots.now self.new condition.new result }
        ensures removed { Sorted K.Equivalent.order (state_of self.old).ranks slots.now → Removed K.Equivalent.order C.Condition.verdict C.Condition.after self.old condition.old (Q.Equivalent.spells key.now) slots.now self.new condition.new result }
        ensures sorted { Sorted K.Equivalent.order (state_of self.old).ranks slots.now → Sorted K.Equivalent.order (state_of self.new).ranks slots.now }
    {
        if is_frozen(self.metadata) {
            return Err(Refusal::Frozen);
        }
        let pos = self.search_slot(slots, key).ok_or(Refusal::NotStruck)?;
        if condition.asks(&slots[pos].val) {
            Ok(self.remove_unchecked(pos))
        } else {
            Err(Refusal::NotStruck)
        }
    }

    // A cursor over the live slots, before the first.
    pub fn iter(&self) -> ArrayIter
        ensures given { given result.pos ≡ None }
        ensures forward { InOrder (state_of self.now).ranks (ahead result.pos) }
        ensures backward { InOrder (state_of self.now).ranks (reverse (behind result.pos)) }
    {
        ArrayIter::with_metadata(self.metadata)
    }
}
