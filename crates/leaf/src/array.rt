// The record of a leaf array.
//
// Ported from `Array` in `tree_index/leaf.rs` of scc 3.8.8 (Apache-2.0), and changed: plain numbers in place of atomics, and the
// slots are lent at each call.
ghost use Rattle.leaf.specs.Records.{Whole};

// Callers read the word and the bitmap themselves, so this is a record with a ghost field, and no `impl Model`: `state_of` (specs/Rules) says
// what it stands for.
#[derive(Clone, Copy)]
pub struct Array {
    // The rank word.
    pub metadata: u64,
    // Bit b marks use b.
    pub bitmap: u32,
    ghost whole: { ∥ Whole metadata bitmap ∥₁ },
}
