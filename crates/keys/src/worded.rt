// Orders of keys in plain words.
ghost use Rattle.std.specs.Prelude.{Decides};
ghost use Rattle.keys.specs.Orders.{stands, InWords};

use crate::equivalent::{Comparable, Equivalent, is_before};

// A key whose own order is said in plain words too: when one key is before another, and when two have one place.
pub trait Worded: Comparable<Self> + Sized {
    ghost Before: { Self → Self → Type 0 };

    ghost Alike: { Self → Self → Type 0 };

    ghost said: { (x y : Self) → InWords (stands Self.Equivalent.order x y) (Before x y) (Alike x y) };
}

// One key is before another, in its own words.
pub fn precedes<K: Worded>(one: &K, other: &K) -> bool
    ensures { Decides result (K.Worded.Before one.now other.now) }
{
    is_before(one, other)
}

// Two keys have one place, in their own words.
pub fn is_alike<K: Worded>(one: &K, other: &K) -> bool
    ensures { Decides result (K.Worded.Alike one.now other.now) }
{
    one.equivalent(other)
}
