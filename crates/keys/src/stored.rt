// Keys as they are stored: four bytes, the high one first.
ghost use Rattle.std.specs.Prelude.{◌≡◌, ℕ, List, refl};
ghost use Rattle.keys.specs.Refusals.{IfFour};

use crate::equivalent::{Comparable, Equivalent};
use crate::refusal::Refusal;
use crate::reversed::Reversed;
use std::cmp::Ordering;

// A key that four bytes spell: the key that is made from them.
pub trait Spelled: From<[u8; 4]> {
    ghost of: { List ℕ → Self };

    ghost spelled: { (b : List ℕ) (k : Self) → Self.From.from_gives b k → k ≡ of b };
}

// A reversed key is spelled as the key is.
impl<K: Spelled> From<[u8; 4]> for Reversed<K> {
    ghost from_gives = { λ b r. r ≡ record { key = K.Spelled.of b } };

    fn from(bytes: [u8; 4]) -> Reversed<K> {
        Reversed {
            key: K::from(bytes),
        }
    }
}

impl<K: Spelled> Spelled for Reversed<K> {
    ghost of = { λ b. record { key = K.Spelled.of b } };

    ghost spelled = { λ _ _ h. h };
}

// What lends four bytes.
pub trait Lends {
    ghost four: { Self → List ℕ };

    fn four(&self) -> &[u8; 4]
        ensures { result.now ≡ four self.now };
}

impl<'a> Lends for &'a [u8; 4] {
    ghost four = { λ b. b.now };

    fn four(&self) -> &[u8; 4] {
        *self
    }
}

// A stored key as a query: it has the place of the key that its bytes spell, in the keys' own order. It is generic in what lends it the bytes,
// so it may own them.
#[derive(Clone, Copy)]
pub struct Stored<B> {
    pub bytes: B,
}

// It answers as that key does, so there is nothing to derive.
impl<K: Comparable<K> + Spelled + Copy, B: Lends> Equivalent<K> for Stored<B> {
    ghost order = { K.Equivalent.order };

    ghost spells = { λ q. K.Spelled.of (B.Lends.four q.bytes) };

    ghost lawful = { K.Equivalent.lawful };

    fn equivalent(&self, key: &K) -> bool {
        let bytes = self.bytes.four();
        K::from(*bytes).equivalent(key)
    }
}

impl<K: Comparable<K> + Spelled + Copy, B: Lends> Comparable<K> for Stored<B> {
    ghost own = { K.Comparable.own };

    ghost agree = { λ _ _. refl };

    fn compare(&self, key: &K) -> Ordering {
        let bytes = self.bytes.four();
        K::from(*bytes).compare(key)
    }
}

impl<'a> TryFrom<&'a [u8]> for Stored<&'a [u8; 4]> {
    type Error = Refusal;

    ghost try_from_gives = { λ b r. IfFour b.now (λ s. s.bytes.now ≡ b.now) r };

    // Refuses, before it looks at any byte, what is not four bytes.
    fn try_from(bytes: &'a [u8]) -> Result<Stored<&'a [u8; 4]>, Refusal> {
        let bytes: &[u8; 4] = bytes.try_into().map_err(|_| Refusal::StoredLength)?;
        Ok(Stored { bytes })
    }
}
