// Samples, by event, then signed time, then channel.
ghost use Rattle.std.specs.Prelude.{◌≡◌, refl};
ghost use Rattle.keys.specs.Samples.{samples, sample_of, Sooner};
ghost use Rattle.keys.specs.Orders.{numbers, integers};
ghost use Rattle.keys.specs.Places.{numbers_ordered, integers_ordered, by_ordered, then_ordered, sooner_said};

use crate::equivalent::{Comparable, Equivalent};
use crate::stored::Spelled;
use crate::worded::Worded;
use std::cmp::Ordering;

#[derive(Clone, Copy, Debug, PartialEq, Eq, PartialOrd, Ord)]
pub struct Sample {
    pub event: u8,
    // in milliseconds
    pub time: i16,
    pub channel: u8,
}

// These two impls are written for each key, since each gives its own order with its law.
impl Equivalent<Sample> for Sample {
    ghost order = { samples };

    ghost spells = { λ s. s };

    ghost lawful = { then_ordered _ _ (by_ordered _ numbers numbers_ordered) (then_ordered _ _ (by_ordered _ integers integers_ordered) (by_ordered _ numbers numbers_ordered)) };

    fn equivalent(&self, key: &Sample) -> bool {
        self == key
    }
}

impl Comparable<Sample> for Sample {
    ghost own = { λ _. refl };

    ghost agree = { λ _ _. refl };

    fn compare(&self, key: &Sample) -> Ordering {
        self.cmp(key)
    }
}

impl From<[u8; 4]> for Sample {
    ghost from_gives = { λ b s. s ≡ sample_of b };

    fn from([event, high, low, channel]: [u8; 4]) -> Sample {
        Sample {
            event,
            time: i16::from_be_bytes([high, low]),
            channel,
        }
    }
}

impl Spelled for Sample {
    ghost of = { sample_of };

    ghost spelled = { λ _ _ h. h };
}

impl Worded for Sample {
    ghost Before = { Sooner };

    ghost Alike = { λ x y. x ≡ y };

    ghost said = { sooner_said };
}
