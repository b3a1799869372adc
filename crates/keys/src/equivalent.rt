// Ported from `equivalent.rs` of scc 3.8.8 (Apache-2.0) and changed: each trait states the order that its answers come from, with its
// law, and there are no blanket impls for `Eq` and `Ord`, so each key and each query has impls of its own: blanket ones would take
// order and law from a further trait of the keys, which would say again what `Equivalent` says.
ghost use Rattle.std.specs.Prelude.{◌≡◌};
ghost use Rattle.keys.specs.Orders.{Order, Ordered, is_before, is_same, stands, answered, Agree, Own};

use std::cmp::Ordering;

// A query against keys of K: the order of the keys, with their places and its law, and the key whose place the query has.
pub trait Equivalent<K> {
    ghost order: { Order K };

    ghost spells: { Self → K };

    fn equivalent(&self, key: &K) -> bool
        ensures { result ≡ is_same (stands order (spells self.now) key.now) };

    ghost lawful: { Ordered order };
}

// A query that is compared with keys of K, in the order that K has itself.
pub trait Comparable<K: Equivalent<K>>: Equivalent<K> {
    fn compare(&self, key: &K) -> Ordering
        ensures { result ≡ answered (stands Self.Equivalent.order (Self.Equivalent.spells self.now) key.now) };

    // as a query, a key has its own place
    ghost own: { Own K.Equivalent.order K.Equivalent.spells };

    // the query's order of the keys is the keys' own
    ghost agree: { Agree Self.Equivalent.order K.Equivalent.order };
}

// One key is before another.
pub fn is_before<K: Comparable<K>>(one: &K, other: &K) -> bool
    ensures { result ≡ is_before (stands K.Equivalent.order one.now other.now) }
{
    one.compare(other).is_lt()
}
