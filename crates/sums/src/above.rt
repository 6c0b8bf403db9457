//! The first of a list of numbers that is above a bound.
ghost use Rattle.std.specs.Prelude.{◌≡◌, ℕ, nat_lt, position};
ghost use Rattle.sums.specs.Above.{FirstAbove};

/// A number, whatever its width: deposits have 32 bits and increments 16.
pub trait Number {
    ghost value: { Self → ℕ };

    /// The number in the widest form.
    fn value(&self) -> u64
        ensures { result ≡ value self.now };

    /// Whether it is above the most.
    fn is_above(&self, most: u64) -> bool
        ensures { result ≡ nat_lt most (value self.now) }
    {
        self.value() > most
    }
}

impl Number for u16 {
    ghost value = { λ n. n };

    fn value(&self) -> u64 {
        u64::from(*self)
    }
}

impl Number for u32 {
    ghost value = { λ n. n };

    fn value(&self) -> u64 {
        *self as u64
    }
}

// Where the first number above the most stands.
fn find_above<N: Number>(numbers: &[N], most: u64) -> Option<usize>
    ensures { result ≡ position (λ n. nat_lt most (N.Number.value n)) numbers.now }
{
    numbers.iter().position(|number| number.is_above(most))
}

/// The place of the first number above the most, or none where each is within it.
pub fn first_above<N: Number>(numbers: &[N], most: u64) -> Option<usize>
    ensures { FirstAbove N.Number.value most numbers.now result }
{
    find_above(numbers, most)
}
