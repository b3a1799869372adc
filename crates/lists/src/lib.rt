// Leaf lists: what a node of the store is and does, in plain lists, and the law over every history of its calls.
#![tactic(auto)]

ghost use Rattle.lists.specs.Bench.{Cases};
ghost use Rattle.lists.specs.Law.{Law};

use keys::equivalent::Comparable;

// The law: for every order of keys, every kind of value and whatever stands for a node and a walk.
pub fn law<K: Comparable<K>, V, S>()
    ensures { Law V K.Equivalent.order S }
{}

// The law's definitions on plain numbers.
pub fn bench()
    ensures { Cases }
{}
