//! In which order the tokens of the other side come, by their sequence numbers (RFC 2743, 1.2.3).

ghost use Rattle.std.specs.Prelude.{◌≡◌, ◌≤◌, ◌%◌, ℕ, false, Some, length, slice_set};
ghost use Rattle.krb_gss_per_message.specs.Sequence.{Becomes, IsLate, IsOrder, Takes, Window, has, has_in, next};

use std::marker::Model;

/// How many numbers up to the highest one are told from each other.
const WINDOW: u64 = 64;

/// What a token is to those that came before it (RFC 2743, 1.2.3).
#[derive(Clone, Copy, PartialEq, Eq)]
pub enum Order {
    /// The next one.
    InOrder,
    /// Later than the next one: those between are missing yet (GSS_S_GAP_TOKEN).
    Gap,
    /// One that was missing, after a later one came (GSS_S_UNSEQ_TOKEN).
    OutOfOrder,
    /// One that came before (GSS_S_DUPLICATE_TOKEN).
    Replayed,
    /// Of a number before the first, or so old that it is not known whether it came before (GSS_S_OLD_TOKEN).
    Old,
}

/// Which sequence numbers of the other side's tokens came (RFC 2743, 1.2.3).
#[derive(Drop)]
pub struct SequenceWindow {
    first: u64,
    last: Option<u64>,
    slots: [Option<u64>; 64],
}

impl Model for SequenceWindow {
    ghost use Rattle.std.specs.Prelude.{◌≡◌, length};
    ghost use Rattle.krb_gss_per_message.specs.Sequence.{Window};

    ghost Value = { Window };

    ghost view = { λ w. record { first = w.first; last = w.last; slots = w.slots } };

    ghost invariant = { λ w. length w.slots ≡ 64 };
}

/// Whether a number stands in its slot.
fn has_in(slots: &[Option<u64>; 64], number: u64) -> bool
    ensures { result ≡ has_in slots.now number }
{
    match slots[(number % WINDOW) as usize] {
        Some(found) => found == number,
        None => false,
    }
}

impl SequenceWindow {
    /// A window of which no number was taken, of a context whose other side begins with this one (RFC 4120, 5.5.1, seq-number; 0
    /// where the other side names none).
    pub fn new(first: u64) -> Self
        ensures first { result.first ≡ first }
        ensures none { result.last ≡ None }
        ensures empty { (n : ℕ) → has result n ≡ false }
    {
        SequenceWindow {
            first,
            last: None,
            slots: [None; 64],
        }
    }

    /// What a number up to the highest is.
    fn late_order(&self, last: u64, number: u64) -> Order
        requires is_last { self.now.last ≡ Some last }
        requires below { number ≤ last }
        ensures { IsOrder self.now number result }
    {
        if number < self.first || last - number >= WINDOW {
            return Order::Old;
        }
        if has_in(&self.slots, number) {
            Order::Replayed
        } else {
            Order::OutOfOrder
        }
    }

    /// What a number is before one is taken.
    fn first_order(&self, number: u64) -> Order
        requires { self.now.last ≡ None }
        ensures { IsOrder self.now number result }
    {
        if number == self.first {
            Order::InOrder
        } else if number > self.first {
            Order::Gap
        } else {
            Order::Old
        }
    }

    /// What a number is.
    fn order_of(&self, number: u64) -> Order
        ensures { IsOrder self.now number result }
    {
        match self.last {
            None => self.first_order(number),
            Some(last) => {
                if number <= last {
                    return self.late_order(last, number);
                }
                if number - last == 1 {
                    Order::InOrder
                } else {
                    Order::Gap
                }
            }
        }
    }

    /// Notes that a number was taken.
    fn mark(&mut self, number: u64)
        ensures first { self.new.first ≡ self.old.first }
        ensures last { self.new.last ≡ self.old.last }
        ensures size { length self.old.slots ≡ 64 }
        ensures marked { self.new.slots ≡ slice_set self.old.slots (number % 64) (Some number) }
    {
        self.slots[(number % WINDOW) as usize] = Some(number);
    }

    /// Takes the next number, or a later one.
    fn raise(&mut self, number: u64)
        requires { next self.old ≤ number }
        ensures { Takes self.old number self.new }
    {
        self.mark(number);
        self.last = Some(number);
    }

    /// Takes a number that was missing.
    fn fill(&mut self, number: u64)
        requires { IsLate self.old number }
        ensures { Takes self.old number self.new }
    {
        self.mark(number);
    }

    /// Takes the number of a token, and says what it is to those that came before (RFC 2743, 1.2.3). A token that is replayed or
    /// old changes nothing. The caller decides which of these it refuses: where replays are to be detected `Replayed` and `Old`,
    /// where an order is to be kept `Gap` and `OutOfOrder` too. It is asked after the token's checksum holds.
    pub fn take(&mut self, number: u64) -> Order
        ensures order { IsOrder self.old number result }
        ensures becomes { Becomes result self.old number self.new }
    {
        let order = self.order_of(number);
        match order {
            Order::InOrder | Order::Gap => self.raise(number),
            Order::OutOfOrder => self.fill(number),
            Order::Replayed | Order::Old => {}
        }
        order
    }
}
