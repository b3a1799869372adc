// The slots of a leaf array.
//
// Ported from `data_block.rs` of scc 3.8.8 (Apache-2.0), and changed: plain keys and values, copied, in slots that the caller lends.

#[derive(Clone, Copy)]
pub struct Slot<K, V> {
    pub key: K,
    pub val: V,
}
