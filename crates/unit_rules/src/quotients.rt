//! Exact quotients, rounded to a whole number.

ghost use Rattle.std.specs.Prelude.{◌≡◌, ◌^◌, pos, neg_ℤ, ◌≤ℤ◌, ◌<ℤ◌, unsigned_abs};
ghost use Rattle.unit_rules.specs.Quotients.{floor_div, ceil_div, IsFloorOf, IsCeilingOf};

/// The quotient `a / b` rounded down: the greatest whole number whose product with `b` is at most
/// `a`.
pub fn div_floor(a: i128, b: i128) -> i128
    requires divisor { pos 0 <ℤ b }
    requires least { neg_ℤ (pos (2 ^ 126)) ≤ℤ a }
    requires most { a ≤ℤ pos (2 ^ 126) }
    ensures quotient { result ≡ floor_div a (unsigned_abs b) }
    ensures floor { IsFloorOf a b result }
{
    a.div_euclid(b)
}

/// The quotient `a / b` rounded up: the least whole number whose product with `b` is at least `a`.
pub fn div_ceil(a: i128, b: i128) -> i128
    requires divisor { pos 0 <ℤ b }
    requires least { neg_ℤ (pos (2 ^ 126)) ≤ℤ a }
    requires most { a ≤ℤ pos (2 ^ 126) }
    ensures quotient { result ≡ ceil_div a (unsigned_abs b) }
    ensures ceiling { IsCeilingOf a b result }
{
    -div_floor(-a, b)
}

#[cfg(test)]
mod tests {
    use super::*;
    use std::test::Fail;

    #[test]
    fn quotients_round_down_and_up(rt: HostRuntime) -> Result<(), Fail> {
        assert!(rt; div_floor(-1406813184, 259200) == -5428);
        assert!(rt; div_ceil(-1406813184, 259200) == -5427);
        assert!(rt; div_floor(7, 7) == 1);
        assert!(rt; div_ceil(7, 7) == 1);
        Ok(())
    }
}
