// Conditions on values, which may count what they were asked.
ghost use Rattle.std.specs.Prelude.{◌≡◌, min, Bool, true, length, fold, nat_lt};
ghost use Rattle.keys.specs.Conditions.{is_unavailable, countdown, yeses};

use crate::value::{HasStatus, NOT_AVAILABLE};

// A condition: what it says of a value, and what it is after it was asked. A trait and no closure, since contracts name both.
pub trait Condition<V> {
    ghost verdict: { Self → V → Bool };

    ghost after: { Self → V → Self };

    fn asks(&mut self, value: &V) -> bool
        ensures says { result ≡ verdict self.old value.now }
        ensures then { self.new ≡ after self.old value.now };
}

// Yes to every value.
#[derive(Clone, Copy)]
pub struct Always;

impl<V> Condition<V> for Always {
    ghost verdict = { λ _ _. true };

    ghost after = { λ c _. c };

    fn asks(&mut self, _value: &V) -> bool {
        true
    }
}

// Yes to a value that is not available.
#[derive(Clone, Copy)]
pub struct NotAvailable;

impl<V: HasStatus> Condition<V> for NotAvailable {
    ghost verdict = { λ _ v. is_unavailable (V.HasStatus.code v) };

    ghost after = { λ c _. c };

    fn asks(&mut self, value: &V) -> bool {
        value.status() == NOT_AVAILABLE
    }
}

// Yes to the first values that it is asked of, as many as are left.
#[derive(Clone, Copy)]
pub struct FirstN {
    pub left: u32,
}

impl<V> Condition<V> for FirstN {
    ghost verdict = { λ c _. nat_lt 0 c.left };

    ghost after = { λ c _. countdown c };

    fn asks(&mut self, _value: &V) -> bool {
        let left = self.left;
        self.left = left.saturating_sub(1);
        left > 0
    }
}

// Asks of each value in turn, and counts the yeses.
pub fn count_if<V, C: Condition<V>>(condition: &mut C, values: &[V]) -> usize
    ensures says { result ≡ yeses C.Condition.verdict C.Condition.after condition.old values.now }
    ensures then { condition.new ≡ fold C.Condition.after condition.old values.now }
{
    let mut n = 0;
    for value in values {
        n += usize::from(condition.asks(value));
    }
    n
}

// A condition that says yes n times: of values asked in turn it says yes to n, or to all if they are fewer.
pub fn count_first<V>(n: u32, values: &[V]) -> usize
    ensures { result ≡ min n (length values.now) }
{
    count_if(&mut FirstN { left: n }, values)
}
