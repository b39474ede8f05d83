//! The waiting list, and what can wait in it.

ghost use Rattle.std.specs.Prelude.{◌≡◌, ◌-◌, ◌<◌, ◌≤◌, Bool, false, [], length, take, IfNone, IfSome, Some, slice_get, ◌==◌};
ghost use Rattle.std.specs.Cmp.{IsStrictWeakOrder};
ghost use Rattle.std.specs.List.{IsFirstBest};
ghost use Rattle.waiting.specs.Lists.{Put, Taken, room, waits};

use tables::Refusal;

/// What can wait: values of a kind that has a total order, in which different ones never tie.
///
/// The order is told by the ghost member `before`. Whoever adds a kind shows that `before` is an order (`ranks`), that
/// two values of which neither is before the other are the same value (`apart`), and that `precedes` answers it.
// No `Ord` is asked: a kind may have none, or one that is not the order in which it waits.
pub trait Queued: Copy {
    ghost before: { Self → Self → Bool };

    /// Whether this one is before the other.
    fn precedes(&self, other: &Self) -> bool
        ensures { result ≡ before self.now other.now };

    ghost ranks: { IsStrictWeakOrder before };

    ghost apart: { (x y : Self) → before x y ≡ false → before y x ≡ false → x ≡ y };
}

/// A waiting list over slots that are lent to it. It can hold as many as there are slots.
///
/// What waits stands in the first `len` slots, or in all of them where there are fewer: so each value of this type is a
/// list, and none of the calls asks anything. What the slots past them hold says nothing.
// The length stands beside the slots, which are lent, so that a list needs no heap.
#[derive(Drop)]
pub struct Waiting<'a, T> {
    slots: &'a mut [T],
    len: usize,
}

/// The least and its place, the first where several hold it, if there is one.
fn least<T: Queued>(slots: &[T]) -> Option<(usize, T)>
    ensures none { IfNone result (slots.now ≡ []) }
    ensures first { IfSome result (λ p. IsFirstBest T.before slots.now (length slots.now) p.0) }
    ensures there { IfSome result (λ p. slice_get slots.now p.0 ≡ Some p.1) }
{
    let mut best = 0;
    for i in 1..slots.len() {
        if slots[i].precedes(&slots[best]) {
            best = i;
        }
    }
    slots.get(best).map(|&x| (best, x))
}

/// Takes the least of the first `n` out, if there is one. The last of them goes to its place, so that the others are the
/// first `n - 1`.
// The number goes along, since the prover loses what is written to a part of slots that are lent in a field.
fn take_least<T: Queued>(slots: &mut [T], n: usize) -> Option<T>
    requires { n ≤ length slots.old }
    ensures { Taken T.before (take n slots.old) (take (n - 1) slots.new) result }
{
    let (place, x) = least(&slots[..n])?;
    slots[place] = slots[n - 1];
    Some(x)
}

impl<'a, T: Queued> Waiting<'a, T> {
    /// A list in which nothing waits, with a place for each of the slots, whatever they hold.
    pub fn over(slots: &'a mut [T]) -> Waiting<'a, T>
        ensures empty { waits result ≡ [] }
        ensures size { room result ≡ length slots.old }
        ensures same { result.slots.ghost_name ≡ slots.entry.ghost_name }
    {
        Waiting { slots, len: 0 }
    }

    /// How many wait, which is never more than there are slots.
    pub fn len(&self) -> usize
        ensures value { result ≡ length (waits self.now) }
        ensures within { result ≤ room self.now }
    {
        self.len.min(self.slots.len())
    }

    /// Whether nothing waits.
    pub fn is_empty(&self) -> bool
        ensures { result ≡ (length (waits self.now) == 0) }
    {
        self.len() == 0
    }

    /// Puts one more in. It is refused, with the number of slots, exactly where all of them are in use, and then
    /// whatever waits stays as it is.
    pub fn put(&mut self, x: T) -> Result<(), Refusal>
        ensures value { Put (room self.old) (waits self.old) (waits self.new) x result }
        ensures size { room self.new ≡ room self.old }
        ensures same { self.new.slots.ghost_name ≡ self.old.slots.ghost_name }
    {
        let used = self.len();
        if used == self.slots.len() {
            return Err(Refusal::ListFull(used));
        }
        self.slots[used] = x;
        self.len = used + 1;
        Ok(())
    }

    /// Takes the least out and leaves all the others, or takes nothing, exactly where nothing waits.
    pub fn take(&mut self) -> Option<T>
        ensures value { Taken T.before (waits self.old) (waits self.new) result }
        ensures size { room self.new ≡ room self.old }
        ensures same { self.new.slots.ghost_name ≡ self.old.slots.ghost_name }
    {
        let n = self.len();
        let least = take_least(self.slots, n)?;
        self.len = n - 1;
        Some(least)
    }
}
