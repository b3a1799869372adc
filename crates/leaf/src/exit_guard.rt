// A guard on the record of a leaf array: a step that it takes at the end of its scope, on every way out.
//
// Ported from `exit_guard.rs` of scc 3.8.8 (Apache-2.0), and changed: what is captured is always a leaf array, and what runs at the end
// is a named step in place of a closure.
ghost use Rattle.std.specs.Prelude.{◌≡◌};
ghost use Rattle.leaf.specs.Rules.{State, state_of, given, Spare, thawed};

use crate::array::Array;
use std::marker::PhantomData;

// What a guard does at its end.
pub trait OnExit {
    // when it may be done
    ghost May: { State → Type 0 };

    // what it leaves
    ghost left: { State → State };

    fn exit(array: &mut Array)
        requires { May (state_of array.old) }
        ensures { state_of array.new ≡ left (state_of array.old) };
}

// Gives the use back that was taken last.
pub struct GiveBack;

impl OnExit for GiveBack {
    ghost May = { Spare };

    ghost left = { given };

    fn exit(array: &mut Array) {
        array.bitmap /= 2;
    }
}

// Unfreezes the array.
pub struct Unfreeze;

impl OnExit for Unfreeze {
    ghost May = { λ _. Unit {0} };

    ghost left = { thawed };

    fn exit(array: &mut Array) {
        array.unfreeze();
    }
}

// Holds an array, and takes the step E at its end.
pub struct ExitGuard<'a, E: OnExit> {
    pub array: &'a mut Array,
    pub step: PhantomData<E>,
}

impl<'a, E: OnExit> Drop for ExitGuard<'a, E> {
    fn drop(self)
        requires { E.OnExit.May (state_of self.array.now) }
        ensures { state_of self.exit.0.now ≡ E.OnExit.left (state_of self.entry.array.now) }
    {
        let ExitGuard { array, step: _ } = self;
        E::exit(array);
    }
}

impl<'a, E: OnExit> ExitGuard<'a, E> {
    pub fn new(array: &'a mut Array) -> ExitGuard<'a, E>
        ensures same_array { result.array.ghost_name ≡ array.entry.ghost_name }
        ensures kept { result.array.now ≡ array.old }
    {
        ExitGuard {
            array,
            step: PhantomData,
        }
    }

    // The step is not taken.
    pub fn forget(self)
        ensures { self.exit.0.now ≡ self.entry.array.now }
    {
        let ExitGuard { array: _, step: _ } = self;
    }
}
