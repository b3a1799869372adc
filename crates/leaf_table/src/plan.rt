// What is to become of a leaf that has no room for a key.
//
// Ported from `split_insert` in `tree_index/leaf_node.rs` and `distribute` in `tree_index/leaf.rs` of scc 3.8.8 (Apache-2.0), and changed: the
// closure that decides is a function that answers a plan, since steps have names here.
ghost use Rattle.std.specs.Prelude.{◌≡◌};
ghost use Rattle.leaf.specs.Rules.{state_of};
ghost use Rattle.leaf_table.specs.Plans.{planned, Held};

use leaf::array::Array;
use leaf::exit_guard::{ExitGuard, Unfreeze};

#[derive(Clone, Copy)]
pub(crate) enum Plan {
    // The leaf is made anew from its live entries.
    Remake,
    // It stays as it is, for want of a child place.
    Full,
    // It becomes a child as it is, and a new unbounded leaf follows it.
    Downgrade,
    // So many of its live entries form the low leaf of a split.
    Split(u8),
}

// Freezes the array, and unfreezes it where its entries stay.
pub(crate) fn prepare(array: &mut Array, full: bool, beyond: bool) -> Plan
    ensures plan { result ≡ planned (state_of array.old) full beyond }
    ensures held { Held (state_of array.old) result (state_of array.new) }
{
    array.freeze();
    let guard = ExitGuard::<Unfreeze>::new(array);
    let (boundary, len, ordered) = guard.array.optimal_boundary();
    if boundary < len && full {
        return Plan::Full;
    }
    if ordered && beyond {
        return Plan::Downgrade;
    }
    guard.forget();
    if boundary < len {
        Plan::Split(boundary)
    } else {
        Plan::Remake
    }
}
