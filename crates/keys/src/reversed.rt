// The same keys and queries in the opposite order.
ghost use Rattle.keys.specs.Orders.{reversed, turned};
ghost use Rattle.std.proofs.Common.{ap};
ghost use Rattle.keys.specs.Places.{reversed_ordered};

use crate::equivalent::{Comparable, Equivalent};
use std::cmp::Ordering;

// Its order is that of any query, turned, which no derive gives.
#[derive(Clone, Copy)]
pub struct Reversed<K> {
    pub key: K,
}

impl<K, Q: Equivalent<K>> Equivalent<Reversed<K>> for Reversed<Q> {
    ghost order = { reversed (λ r. r.key) Q.Equivalent.order };

    ghost spells = { λ q. record { key = Q.Equivalent.spells q.key } };

    ghost lawful = { reversed_ordered (λ r. r.key) Q.Equivalent.order Q.Equivalent.lawful };

    fn equivalent(&self, key: &Reversed<K>) -> bool {
        self.key.equivalent(&key.key)
    }
}

impl<K: Equivalent<K>, Q: Comparable<K>> Comparable<Reversed<K>> for Reversed<Q> {
    ghost own = { λ k. Q.Comparable.own k.key };

    ghost agree = { λ x y. ap turned (Q.Comparable.agree x.key y.key) };

    fn compare(&self, key: &Reversed<K>) -> Ordering {
        self.key.compare(&key.key).reverse()
    }
}
