//! Canonical numerals: `0`, or digits without a zero in front, after a minus where the number is
//! below 0.

ghost use Rattle.std.specs.Prelude.{IsTrue, ◌↔◌, slice_index, ◌-◌, pos, negsuc, ◌⊎◌, ◌≤◌, ◌≤ℤ◌, ◌≡◌, ◌≢◌, ℕ, ◌+◌, ◌*◌, ◌^◌, ◌<◌, ℤ, IfSome, IfNone, FitsSigned};
ghost use Rattle.std.specs.Fmt.{decimal, signed_decimal};
ghost use Rattle.std.specs.Char.{digit_value};
ghost use Rattle.std.specs.Int.{IsInRange, w64};
ghost use Rattle.unit_rules.specs.Numeral.{number_in, signed_within, whole_of, within};

/// The number that the text is the canonical numeral of, if it is one of an `i64`.
pub fn read_whole(text: &[u8]) -> Option<i64>
    ensures whole { result ≡ whole_of text.now }
    ensures value { IfSome result (λ z. text.now ≡ signed_decimal z) }
    ensures none { IfNone result ((z : ℤ) → FitsSigned w64 z → text.now ≢ signed_decimal z) }
{
    read_numeral(text)
}

/// The number, where it is from `low` to `high`.
pub fn within(low: u32, high: u32, number: i64) -> Option<u32>
    ensures value { result ≡ within low high number }
    ensures bounds { IfSome result (λ n. (low ≤ n) × (n ≤ high)) }
{
    match u32::try_from(number) {
        Ok(number) if low <= number && number <= high => Some(number),
        _ => None,
    }
}

/// The signed number, where it is from `low` to `high`.
pub fn signed_within(low: i32, high: i32, number: i64) -> Option<i32>
    ensures value { result ≡ signed_within low high number }
    ensures bounds { IfSome result (λ z. (low ≤ℤ z) × (z ≤ℤ high)) }
{
    match i32::try_from(number) {
        Ok(number) if low <= number && number <= high => Some(number),
        _ => None,
    }
}

/// The number from `low` to `high` that the text is the canonical numeral of.
pub fn number_in(low: u32, high: u32, text: &[u8]) -> Option<u32>
    ensures value { result ≡ number_in low high text.now }
    ensures bounds { IfSome result (λ n. (low ≤ n) × (n ≤ high)) }
{
    within(low, high, read_whole(text)?)
}

// The number that the text is the digits of, with no zero in front.
fn read_digits(text: &[u8]) -> Option<u64>
    ensures value { IfSome result (λ n. text.now ≡ decimal n) }
    ensures none { IfNone result ((n : ℕ) → n < 2 ^ 64 → text.now ≢ decimal n) }
{
    let Some(first) = text.first() else {
        return None;
    };
    if *first == b'0' && text.len() != 1 {
        return None;
    }
    let mut number = 0;
    for byte in text {
        let Some(more) = with_digit(number, *byte) else {
            return None;
        };
        number = more;
    }
    Some(number)
}

// The number whose digits are those of a number, and one more.
fn with_digit(number: u64, digit: u8) -> Option<u64>
    ensures value { IfSome result (λ n. IsInRange 48 57 digit
        × (n ≡ number * 10 + digit_value digit)) }
    ensures fits { IfSome result (λ n. n < 2 ^ 64) }
    ensures none { IfNone result (IsInRange 48 57 digit
        → 2 ^ 64 ≤ number * 10 + digit_value digit) }
{
    if !digit.is_ascii_digit() {
        return None;
    }
    let Some(tens) = number.checked_mul(10) else {
        return None;
    };
    tens.checked_add(u64::from(digit - b'0'))
}

// The number of that size below 0.
fn below_zero(size: u64) -> Option<i64>
    ensures value { IfSome result (λ z. (0 < size) × (z ≡ negsuc (size - 1))) }
    ensures none { IfNone result ((size ≡ 0) ⊎ (2 ^ 63 < size)) }
{
    if size == 0 || size > 1 << 63 {
        return None;
    }
    let before = (size - 1) as i64;
    Some(-1 - before)
}

// The number of that size from 0 on.
fn from_zero(size: u64) -> Option<i64>
    ensures value { IfSome result (λ z. z ≡ pos size) }
    ensures none { IfNone result (2 ^ 63 ≤ size) }
{
    if size >= 1 << 63 {
        return None;
    }
    Some(size as i64)
}

fn begins_with_minus(text: &[u8]) -> bool
    ensures { IsTrue result ↔ (slice_index text.now 0 ≡ 45) }
{
    !text.is_empty() && text[0] == b'-'
}

// The number that the text is the numeral of, sign and digits read apart: the digits of the least
// number are those of no positive one.
fn read_numeral(text: &[u8]) -> Option<i64>
    ensures value { IfSome result (λ z. text.now ≡ signed_decimal z) }
    ensures fits { IfSome result (λ z. FitsSigned w64 z) }
    ensures none { IfNone result ((z : ℤ) → FitsSigned w64 z → text.now ≢ signed_decimal z) }
{
    if begins_with_minus(text) {
        match read_digits(&text[1..]) {
            Some(size) => below_zero(size),
            None => None,
        }
    } else {
        match read_digits(text) {
            Some(number) => from_zero(number),
            None => None,
        }
    }
}

#[cfg(test)]
mod tests {
    use super::*;
    use std::test::Fail;

    // The number that a text is read as, where it is read.
    fn reads(text: &[u8], number: i64) -> bool {
        read_whole(text) == Some(number)
    }

    #[test]
    fn numerals(rt: HostRuntime) -> Result<(), Fail> {
        assert!(rt; reads(b"0", 0));
        assert!(rt; reads(b"-5", -5));
        assert!(rt; reads(b"9223372036854775807", i64::MAX));
        assert!(rt; reads(b"-9223372036854775808", i64::MIN));
        let refused = [
            b"".as_slice(),
            b"-",
            b"-0",
            b"007",
            b"+5",
            b" 1",
            b"1 ",
            b"9223372036854775808",
            b"-9223372036854775809",
            b"99999999999999999999",
        ];
        for text in refused {
            assert!(rt; read_whole(text).is_none());
        }
        assert!(rt; number_in(1, 500, b"500") == Some(500));
        assert!(rt; number_in(1, 500, b"501").is_none());
        assert!(rt; number_in(0, 500, b"-1").is_none());
        assert!(rt; signed_within(-1000, 1000, -1000) == Some(-1000));
        assert!(rt; signed_within(-1000, 1000, -1001).is_none());
        Ok(())
    }
}
