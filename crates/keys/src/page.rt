// Pages, by address.
ghost use Rattle.std.specs.Prelude.{◌≡◌, ◌<◌, refl};
ghost use Rattle.keys.specs.Pages.{pages, page_of};
ghost use Rattle.keys.specs.Orders.{numbers};
ghost use Rattle.keys.specs.Places.{numbers_ordered, by_ordered, lower_said};

use crate::equivalent::{Comparable, Equivalent};
use crate::stored::Spelled;
use crate::worded::Worded;
use std::cmp::Ordering;

#[derive(Clone, Copy, Debug, PartialEq, Eq, PartialOrd, Ord)]
pub struct Page {
    pub address: u32,
}

// As for samples, and in impls of its own, since the order and its law are its own.
impl Equivalent<Page> for Page {
    ghost order = { pages };

    ghost spells = { λ p. p };

    ghost lawful = { by_ordered _ numbers numbers_ordered };

    fn equivalent(&self, key: &Page) -> bool {
        self == key
    }
}

impl Comparable<Page> for Page {
    ghost own = { λ _. refl };

    ghost agree = { λ _ _. refl };

    fn compare(&self, key: &Page) -> Ordering {
        self.cmp(key)
    }
}

impl From<[u8; 4]> for Page {
    ghost from_gives = { λ b p. p ≡ page_of b };

    fn from(bytes: [u8; 4]) -> Page {
        Page {
            address: u32::from_be_bytes(bytes),
        }
    }
}

impl Spelled for Page {
    ghost of = { page_of };

    ghost spelled = { λ _ _ h. h };
}

impl Worded for Page {
    ghost Before = { λ x y. x.address < y.address };

    ghost Alike = { λ x y. x.address ≡ y.address };

    ghost said = { lower_said };
}
