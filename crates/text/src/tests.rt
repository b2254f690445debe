// Numbers, bytes and words at their edges.
use crate::lines::{Words, command_part, is_word, shown_text, word};
use crate::numbers::{bytes, decimal, hexadecimal};
use crate::outcomes::Unread;
use crate::printing::{HexBytes, Hexadecimal, put_bytes, put_decimal, put_hexadecimal, put_shown};
use std::test::Fail;

#[test]
fn decimal_numbers(rt: HostRuntime) {
    assert_eq!(rt; decimal(b"0"), Some(0));
    assert_eq!(rt; decimal(b"000000000000000000000000000000512"), Some(512));
    assert_eq!(rt; decimal(b"18446744073709551615"), Some(u64::MAX));
    let refused: [&[u8]; 8] = [
        b"",
        b"18446744073709551616",
        b"99999999999999999999",
        b"+1",
        b"-1",
        b"1_0",
        b"0x1",
        b"1A",
    ];
    for text in refused {
        assert_eq!(rt; decimal(text), None);
    }
}

#[test]
fn hexadecimal_numbers(rt: HostRuntime) {
    assert_eq!(rt; hexadecimal(b"2a"), Some(0x2a));
    assert_eq!(rt; hexadecimal(b"fF"), Some(255));
    assert_eq!(rt;
        hexadecimal(b"00000000000000000FFFFFFFFFFFFFFFF"),
        Some(u64::MAX)
    );
    let refused: [&[u8]; 5] = [b"", b"10000000000000000", b"0x1", b"1G", b"-"];
    for text in refused {
        assert_eq!(rt; hexadecimal(text), None);
    }
}

#[test]
fn runs_of_bytes(rt: HostRuntime) -> Result<(), Fail> {
    let heap = rt.alloc();
    assert!(rt; bytes(heap, b"0f01D8")?.as_slice() == [0x0f, 0x01, 0xd8].as_slice());
    assert!(rt; bytes(heap, b"-")?.is_empty());
    let refused: [&[u8]; 5] = [b"", b"0", b"0F0", b"0G", b"--"];
    for text in refused {
        assert!(rt; matches!(bytes(heap, text), Err(Unread::Unreadable)));
    }
    Ok(())
}

#[test]
fn words_of_lines(rt: HostRuntime) {
    let line = b" \tscan  0F# 22\t\r\n";
    assert!(rt; command_part(line) == b" \tscan  0F".as_slice());
    assert!(rt; is_word(command_part(line), 0, b"scan"));
    assert!(rt; word(command_part(line), 1) == b"0F".as_slice());
    assert!(rt; word(command_part(line), 2).is_empty());
    assert!(rt; shown_text(line) == b"scan  0F# 22".as_slice());
    assert!(rt; shown_text(b"\r\r\n") == b"\r".as_slice());
    assert!(rt; shown_text(b" \t").is_empty());
}

#[test]
fn words_in_turn(rt: HostRuntime) {
    let mut words = Words::new(b" \tscan  0F ");
    assert!(rt; words.next().unwrap_or(b"") == b"scan".as_slice());
    assert!(rt; words.next().unwrap_or(b"") == b"0F".as_slice());
    assert!(rt; words.next().is_none());
    assert!(rt; words.next().is_none());
}

#[test]
fn texts_put_behind(rt: HostRuntime) -> Result<(), Fail> {
    let mut out = Vec::new(rt.alloc());
    put_decimal(&mut out, 512)?;
    put_hexadecimal(&mut out, 0x2a0)?;
    put_bytes(&mut out, b"\x0f\x01\xd8")?;
    put_shown(&mut out, HexBytes(b""))?;
    put_shown(&mut out, Hexadecimal(0))?;
    put_shown(&mut out, Hexadecimal(u64::MAX))?;
    assert!(rt; out.as_slice() == b"5122A00F01D8-0FFFFFFFFFFFFFFFF".as_slice());
    Ok(())
}
