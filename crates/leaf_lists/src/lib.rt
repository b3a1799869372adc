// The bridge from leaf arrays to leaf lists: an array and its slots stand for a leaf, and each call of the array does what the leaf
// lists' function of it says.
#![tactic(auto)]

ghost use Rattle.leaf_lists.specs.Stands.{Stands};

use keys::equivalent::Comparable;

// For every order of keys, every kind of value, every array and whatever its slots hold.
pub fn stands<K: Comparable<K>, V>()
    ensures { Stands V K.Equivalent.order }
{}
