//! Square roots, rounded to a whole number.

ghost use Rattle.std.specs.Prelude.{◌≡◌, ◌^◌, ◌<◌, ◌≤◌, ◌↔◌, IsTrue};
ghost use Rattle.unit_rules.specs.Roots.{IsCeilingOfRoot, IsFloorOfRoot, root_ceil, root_floor};

// Roots of the numbers from 0 to 255 and a half, in sixteenths: the first eight binary digits of a root.
const FIRST_DIGITS: [u8; 256] = [
    11, 20, 25, 30, 34, 38, 41, 44, 47, 49, 52, 54, 57, 59, 61, 63, 65, 67, 69, 71, 72, 74, 76, 78,
    79, 81, 82, 84, 85, 87, 88, 90, 91, 93, 94, 95, 97, 98, 99, 101, 102, 103, 104, 106, 107, 108,
    109, 110, 111, 113, 114, 115, 116, 117, 118, 119, 120, 121, 122, 123, 124, 125, 126, 127, 128,
    129, 130, 131, 132, 133, 134, 135, 136, 137, 138, 139, 140, 141, 142, 143, 144, 144, 145, 146,
    147, 148, 149, 150, 151, 151, 152, 153, 154, 155, 156, 156, 157, 158, 159, 160, 160, 161, 162,
    163, 164, 164, 165, 166, 167, 167, 168, 169, 170, 170, 171, 172, 173, 173, 174, 175, 176, 176,
    177, 178, 179, 179, 180, 181, 181, 182, 183, 183, 184, 185, 186, 186, 187, 188, 188, 189, 190,
    190, 191, 192, 192, 193, 194, 194, 195, 196, 196, 197, 198, 198, 199, 200, 200, 201, 201, 202,
    203, 203, 204, 205, 205, 206, 206, 207, 208, 208, 209, 210, 210, 211, 211, 212, 213, 213, 214,
    214, 215, 216, 216, 217, 217, 218, 219, 219, 220, 220, 221, 221, 222, 223, 223, 224, 224, 225,
    225, 226, 227, 227, 228, 228, 229, 229, 230, 230, 231, 232, 232, 233, 233, 234, 234, 235, 235,
    236, 237, 237, 238, 238, 239, 239, 240, 240, 241, 241, 242, 242, 243, 243, 244, 244, 245, 246,
    246, 247, 247, 248, 248, 249, 249, 250, 250, 251, 251, 252, 252, 253, 253, 254, 254, 255, 255,
    255,
];

/// The square root of `n` rounded down: the greatest whole number whose square is at most `n`.
pub fn root_floor(n: u64) -> u64
    ensures root { result ≡ root_floor n }
    ensures greatest { IsFloorOfRoot n result }
    ensures fits { result < 2 ^ 32 }
{
    root_near(n, guessed_root(n))
}

/// The square root of `n` rounded up: the least whole number whose square is at least `n`.
pub fn root_ceil(n: u64) -> u64
    ensures root { result ≡ root_ceil n }
    ensures least { IsCeilingOfRoot n result }
{
    let (_floor, ceiling) = both_roots(n);
    ceiling
}

/// The square root of `n` rounded down and rounded up, for the price of one.
pub fn both_roots(n: u64) -> (u64, u64)
    ensures floor { result.0 ≡ root_floor n }
    ensures ceiling { result.1 ≡ root_ceil n }
    ensures fits { result.1 ≤ 2 ^ 32 }
{
    let floor = root_floor(n);
    let ceiling = if floor * floor == n { floor } else { floor + 1 };
    (floor, ceiling)
}

// The root rounded down, which is soon found where it is `guess` or one less.
fn root_near(n: u64, guess: u64) -> u64
    ensures root { result ≡ root_floor n }
    ensures fits { result < 2 ^ 32 }
{
    if is_root_floor(n, guess) {
        return guess;
    }
    if guess > 0 && is_root_floor(n, guess - 1) {
        return guess - 1;
    }
    n.isqrt()
}

// Whether `guess` is the root rounded down: its square leaves no more than twice as much as it is.
fn is_root_floor(n: u64, guess: u64) -> bool
    ensures root { IsTrue result ↔ (guess ≡ root_floor n) }
    ensures fits { IsTrue result → guess < 2 ^ 32 }
{
    if guess >= 1 << 32 || guess * guess > n {
        return false;
    }
    n - guess * guess <= 2 * guess
}

// A number near the root, mostly the root or one more: eight binary digits by a table, and twice as
// many by each mean of a guess and what it leaves as the other factor.
fn guessed_root(n: u64) -> u64 {
    let pairs = (n | 1).leading_zeros() / 2;
    let scaled = n << (2 * pairs);
    let short = u32::from(FIRST_DIGITS[(scaled >> 56) as usize]) + 1;
    let middle = u64::from(short * 128 + (scaled >> 41) as u32 / short);
    let long = middle * 32768 + (scaled >> 17) / middle;
    long >> pairs
}

#[cfg(test)]
mod tests {
    use super::*;
    use std::test::Fail;

    #[test]
    fn roots_round_down_and_up(rt: HostRuntime) -> Result<(), Fail> {
        let rows = [
            (0, 0, 0),
            (1, 1, 1),
            (2, 1, 2),
            (20000000000, 141421, 141422),
            (2500000000000000, 50000000, 50000000),
            (u64::MAX, 4294967295, 4294967296),
        ];
        for (n, floor, ceiling) in rows {
            assert!(rt; root_floor(n) == floor);
            assert!(rt; root_ceil(n) == ceiling);
        }
        Ok(())
    }
}
