//! Draws and cases against the numbers of a program apart from this crate.

use crate::draws::Draws;
use crate::make_case;
use std::test::Fail;

#[test]
fn first_draws(rt: HostRuntime) -> Result<(), Fail> {
    let mut draws = Draws::from(1);
    for (number, state) in [
        (8, 7_806_831_264_735_756_412),
        (45, 9_396_908_728_118_811_419),
    ] {
        assert_eq!(rt; draws.draw(201), number);
        assert_eq!(rt; draws.state, state);
    }
    Ok(())
}

// The length of a text in bytes and its sum by FNV-1a, which tell it from other texts.
fn marks(text: &[u8]) -> (usize, u64) {
    let mut sum: u64 = 14_695_981_039_346_656_037;
    for &byte in text {
        sum = (sum ^ u64::from(byte)).wrapping_mul(1_099_511_628_211);
    }
    (text.len(), sum)
}

#[test]
fn whole_cases(rt: HostRuntime) -> Result<(), Fail> {
    let rows = [
        (
            1,
            (3687, 1_759_870_364_953_107_580),
            (34_521, 14_794_957_171_764_155_608),
        ),
        (
            1_000_000,
            (3685, 13_080_925_013_524_052_541),
            (34_501, 551_845_878_091_477_327),
        ),
    ];
    for (n, line, commands) in rows {
        let Ok(made) = make_case(rt.alloc(), n) else {
            return Err(Fail::from("no memory"));
        };
        assert!(rt; marks(&made.line) == line);
        assert!(rt; marks(&made.stock) == (283, 877_962_820_603_370_238));
        assert!(rt; marks(&made.plan) == (90, 14_905_880_256_536_803_350));
        assert!(rt; marks(&made.commands) == commands);
    }
    Ok(())
}

// How many of the lines of a text begin with a word.
fn lines_with(word: &[u8], text: &[u8]) -> usize {
    let mut count: usize = 0;
    for line in text.split(|&byte| byte == b'\n') {
        if line.starts_with(word) {
            count = count.wrapping_add(1);
        }
    }
    count
}

#[test]
fn first_case(rt: HostRuntime) -> Result<(), Fail> {
    let Ok(made) = make_case(rt.alloc(), 1) else {
        return Err(Fail::from("no memory"));
    };
    let front = b"line,Gen,120000\ngradient,0,1000,-92\ngradient,1000,2000,-55\n";
    assert!(rt; made.line.starts_with(front));
    let counts = [
        (b"put g".as_slice(), 970),
        (b"take g", 930),
        (b"time P3", 100),
        // What is behind the last line end is counted too.
        (b"", 2001),
    ];
    for (word, count) in counts {
        assert_eq!(rt; lines_with(word, &made.commands), count);
    }
    Ok(())
}
