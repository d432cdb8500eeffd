//! A divisor that divides many numbers.

ghost use Rattle.std.specs.Prelude.{◌≡◌, ◌+◌, ◌*◌, ◌/◌, ◌^◌, ◌<◌, ◌≤◌};
ghost use Rattle.std.specs.Int.{div_ceil};
ghost use Rattle.unit_rules.specs.Quotients.{floor_div};

use std::marker::Model;

/// A whole number above 0 that divides many numbers. A product with its inverse guesses a quotient,
/// or 1 less, and what the guess leaves tells which: that is sooner than a division.
#[derive(Drop)]
pub struct Divisor {
    number: u64,
    inverse: u64,
}

impl Model for Divisor {
    ghost use Rattle.std.specs.Prelude.{ℕ, ◌*◌, ◌^◌, ◌<◌};
    ghost use Rattle.unit_rules.specs.Divisors.{IsDivisor};

    ghost Value = { ℕ };

    ghost view = { λ d. d.number };

    ghost invariant = { λ d. IsDivisor d.number d.inverse };
}

impl Divisor {
    /// The divisor `number`.
    pub fn new(number: u64) -> Divisor
        requires { 0 < number }
        ensures { result ≡ number }
    {
        Divisor {
            number,
            inverse: u64::MAX / number,
        }
    }

    /// Its value.
    pub fn number(&self) -> u64
        ensures number { result ≡ self.now }
        ensures some { 0 < self.now }
    {
        self.number
    }

    /// The quotient `n / self`, rounded down.
    pub fn quotient(&self, n: u64) -> u64
        ensures quotient { result ≡ n / self.now }
        ensures some { 0 < self.now }
    {
        let guess = self.guess(n);
        if n - guess * self.number < self.number {
            guess
        } else {
            guess + 1
        }
    }

    /// The quotient `n / self`, rounded up.
    pub fn quotient_up(&self, n: u64) -> u64
        ensures { result ≡ div_ceil n self.now }
    {
        let whole = self.quotient(n);
        if whole * self.number == n {
            whole
        } else {
            whole + 1
        }
    }

    /// The quotient `a / self`, rounded down.
    pub fn floor(&self, a: i64) -> i64
        ensures { result ≡ floor_div a self.now }
    {
        if a >= 0 {
            self.quotient(a as u64) as i64
        } else {
            -1 - self.quotient((-1 - a) as u64) as i64
        }
    }

    // The quotient, or 1 less.
    fn guess(&self, n: u64) -> u64
        ensures at_most { result * self.now ≤ n }
        ensures next { n < result * self.now + 2 * self.now }
    {
        upper_half(n, self.inverse)
    }
}

// The upper half of a product.
fn upper_half(a: u64, b: u64) -> u64
    ensures { result ≡ a * b / 2 ^ 64 }
{
    ((u128::from(a) * u128::from(b)) >> 64) as u64
}

#[cfg(test)]
mod tests {
    use super::*;

    #[test]
    fn quotients_at_the_edges(rt: HostRuntime) {
        let one = Divisor::new(1);
        assert!(rt; one.quotient(0) == 0 && one.quotient(u64::MAX) == u64::MAX);
        let seven = Divisor::new(7);
        assert!(rt; seven.quotient(6) == 0 && seven.quotient(7) == 1);
        assert!(rt; seven.quotient(u64::MAX) == 2635249153387078802);
        assert!(rt; seven.quotient_up(7) == 1 && seven.quotient_up(8) == 2);
        assert!(rt; Divisor::new(u64::MAX).quotient(u64::MAX) == 1);
    }

    #[test]
    fn floors_below_zero(rt: HostRuntime) {
        let effort = Divisor::new(259200);
        assert!(rt; effort.floor(-1406813184) == -5428 && effort.floor(1406813184) == 5427);
        assert!(rt; effort.floor(-259200) == -1 && effort.floor(-1) == -1 && effort.floor(0) == 0);
        assert!(rt; Divisor::new(1).floor(i64::MIN) == i64::MIN);
    }
}
