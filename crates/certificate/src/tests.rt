//! Texts of certificates, as they are read and written.

use crate::{Cert, CertText, read_cert, write_cert};
use run_io::MemSink;
use std::alloc::{AllocError, Global};
use std::test::Fail;
use unit_rules::Reach;

// The line and the rule that a text is refused for; no line and no rule where memory is wanted, and
// `None` where it is read.
fn refused(alloc: Global, bytes: &[u8]) -> Option<(u64, u32)> {
    match read_cert(alloc, bytes) {
        Ok(_) => None,
        Err(CertText::Bad { place, rule }) => Some((place, rule)),
        Err(CertText::Memory) => Some((0, 0)),
    }
}

// The bytes that a text is written as, where there is room for so many.
fn written(alloc: Global, cert: &Cert, room: usize) -> Option<Vec<u8>> {
    let mut sink = MemSink::new(alloc, room, 1 + room / 20, Vec::new(alloc)).ok()?;
    if cert.e.len() > cert.c.len() {
        return None;
    }
    write_cert(&cert.c, &cert.e, cert.verdict, &mut sink).ok()?;
    Vec::from_slice(alloc, sink.written()).ok()
}

// Whether a text is read as these numbers and this verdict, and they are written as that text.
fn reads(alloc: Global, bytes: &[u8], c: &[u32], e: &[u32], verdict: Reach) -> bool {
    let Ok(cert) = read_cert(alloc, bytes) else {
        return false;
    };
    let Some(text) = written(alloc, &cert, bytes.len()) else {
        return false;
    };
    cert.c.as_slice() == c
        && cert.e.as_slice() == e
        && cert.verdict == verdict
        && text.as_slice() == bytes
}

#[test]
fn certificates(rt: HostRuntime) -> Result<(), Fail> {
    let alloc = rt.alloc();
    let stalled = |k| Reach::Stalled { k };
    assert!(rt; reads(alloc, b"whole\n", &[], &[], Reach::Whole));
    assert!(rt; reads(alloc, b"stalled 0\n", &[], &[], stalled(0)));
    assert!(rt; reads(alloc, b"stalled 4294967295\n", &[], &[], stalled(u32::MAX)));
    let two = b"0 0\n25920 20000\n0 0\nwhole\n";
    assert!(rt; reads(alloc, two, &[0, 25920, 0], &[0, 20000, 0], Reach::Whole));
    let alike = b"7 5\n7 5\n7 50\nwhole\n";
    assert!(rt; reads(alloc, alike, &[7, 7, 7], &[5, 5, 50], Reach::Whole));
    let most = b"4294967295 4294967295\n4294967295 -\nwhole\n";
    assert!(rt;
        reads(
            alloc,
            most,
            &[u32::MAX, u32::MAX],
            &[u32::MAX],
            Reach::Whole
        )
    );
    let dashed = b"7 -\n0 -\nstalled 1\n";
    assert!(rt; reads(alloc, dashed, &[7, 0], &[], stalled(1)));
    Ok(())
}

#[test]
fn certificates_of_ten_metres(rt: HostRuntime) -> Result<(), Fail> {
    let alloc = rt.alloc();
    let whole = b"0 0\n233280 20000\n207360 40000\n181440 60000\n155520 80000\n129600 100000\n\
        103680 103680\n77760 77760\n51840 51840\n25920 25920\n0 0\nwhole\n";
    let c = [
        0, 233280, 207360, 181440, 155520, 129600, 103680, 77760, 51840, 25920, 0,
    ];
    let e = [
        0, 20000, 40000, 60000, 80000, 100000, 103680, 77760, 51840, 25920, 0,
    ];
    assert!(rt; reads(alloc, whole, &c, &e, Reach::Whole));
    let stalled = b"0 0\n103680 20000\n77760 40000\n51840 51840\n25920 25920\n0 0\n\
        0 -\n77760 -\n51840 -\n25920 -\n0 -\nstalled 6\n";
    let c = [0, 103680, 77760, 51840, 25920, 0, 0, 77760, 51840, 25920, 0];
    let e = [0, 20000, 40000, 51840, 25920, 0];
    assert!(rt; reads(alloc, stalled, &c, &e, Reach::Stalled { k: 6 }));
    Ok(())
}

#[test]
fn texts_that_are_refused(rt: HostRuntime) -> Result<(), Fail> {
    let rows = [
        (b"".as_slice(), (1, 4)),
        (b"0 0\n", (2, 4)),
        (b"whole", (1, 4)),
        (b"who", (1, 2)),
        (b"0 00\nwhole\n", (1, 2)),
        (b"0 -\n0 0\nwhole\n", (2, 3)),
        (b"whole\nwhole\n", (2, 1)),
        (b"4294967296 0\nwhole\n", (1, 2)),
        (b"0 0\n25920 20000\n0 0\n", (4, 4)),
        (b"0 0\n18446744073709551616 20000\n0 0\nwhole\n", (2, 2)),
        (b"whole\r\n", (1, 2)),
        (b"0 0\r\nwhole\n", (1, 2)),
        (b"\nwhole\n", (1, 2)),
        (b"whole\n\n", (2, 1)),
        (b"whole\nx", (2, 1)),
        (b"stalled", (1, 2)),
        (b"stalled \n", (1, 2)),
        (b"stalled 4294967296\n", (1, 2)),
        (b"stalled 00\n", (1, 2)),
        (b"stalled -\n", (1, 2)),
        (b"stalled  1\n", (1, 2)),
        (b"stalled 1", (1, 4)),
        (b"0 -\nstalled 1", (2, 4)),
    ];
    for (bytes, fault) in rows {
        assert!(rt; refused(rt.alloc(), bytes) == Some(fault));
    }
    Ok(())
}

#[test]
fn rows_that_are_refused(rt: HostRuntime) -> Result<(), Fail> {
    let rows = [
        (b"0".as_slice(), (1, 2)),
        (b"0 ", (1, 2)),
        (b"0 0 ", (1, 2)),
        (b" 0 0", (1, 2)),
        (b"0  0", (1, 2)),
        (b"0 0 0\n", (1, 2)),
        (b"0\t0\n", (1, 2)),
        (b"- -\n", (1, 2)),
        (b"- 0\n", (1, 2)),
        (b"0 --\n", (1, 2)),
        (b"0 -1\n", (1, 2)),
        (b"+0 0\n", (1, 2)),
        (b"0 -\n0 -\n0 0", (3, 3)),
        (b"0 -\nx\n0 0\n", (2, 2)),
        (b"0 -\n0 00\n", (2, 2)),
        (b"0 -\n0 -", (2, 4)),
        (b"0 0\n0 0", (2, 4)),
        (b"0 0\nwhole\n0 0", (3, 1)),
    ];
    for (bytes, fault) in rows {
        assert!(rt; refused(rt.alloc(), bytes) == Some(fault));
    }
    Ok(())
}

// A piece so many times.
fn repeated(alloc: Global, piece: &[u8], count: u32) -> Result<Vec<u8>, AllocError> {
    let mut text = Vec::new(alloc);
    for _ in 0..count {
        text.extend_from_slice(piece)?;
    }
    Ok(text)
}

#[test]
fn texts_of_many_rows(rt: HostRuntime) -> Result<(), Fail> {
    let alloc = rt.alloc();
    let mut text = repeated(alloc, b"4294967295 10\n", 500_002)?;
    text.extend_from_slice(b"stalled 7\n")?;
    let cert = read_cert(alloc, &text).ok().ok_or("a certificate")?;
    assert!(rt; cert.c.len() == 500_002 && cert.e.len() == 500_002);
    assert!(rt; cert.verdict == Reach::Stalled { k: 7 });
    assert!(rt; written(alloc, &cert, text.len()).is_some_and(|bytes| bytes == text));
    let mut dashed = repeated(alloc, b"4294967295 -\n", 500_002)?;
    dashed.extend_from_slice(b"stalled 7\n")?;
    let none = Cert {
        e: Vec::new(alloc),
        ..cert
    };
    assert!(rt; written(alloc, &none, dashed.len()).is_some_and(|bytes| bytes == dashed));
    Ok(())
}

#[test]
fn texts_of_long_lines(rt: HostRuntime) -> Result<(), Fail> {
    let alloc = rt.alloc();
    let mut text = Vec::new(alloc);
    text.resize(10_000_000, b'1')?;
    assert!(rt; refused(alloc, &text) == Some((1, 2)));
    text.extend_from_slice(b" 0\nwhole\n")?;
    assert!(rt; refused(alloc, &text) == Some((1, 2)));
    Ok(())
}

#[test]
fn a_write_that_fails(rt: HostRuntime) -> Result<(), Fail> {
    let alloc = rt.alloc();
    let failing = Vec::from_slice(alloc, &[2])?;
    let mut sink = MemSink::new(alloc, 14, 5, failing).ok().ok_or("a sink")?;
    assert!(rt; write_cert(&[1, 2], &[1], Reach::Whole, &mut sink).is_err());
    assert_eq!(rt; sink.written(), b"1 1\n2".as_slice());
    Ok(())
}
