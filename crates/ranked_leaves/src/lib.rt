// Leaves with their ranks: an array and its slots stand for one, and each call of the array changes its ranks by the rules said here in
// order of use.
#![tactic(auto)]

ghost use Rattle.ranked_leaves.specs.RanksStand.{RanksStand};

use keys::equivalent::Comparable;

// For every order of keys, every kind of value, every array and whatever its slots hold.
pub fn ranks_stand<K: Comparable<K>, V>()
    ensures { RanksStand V K.Equivalent.order }
{}
