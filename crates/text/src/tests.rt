// What the sheet's rules say at their borders.
use crate::writing::{Hex, Hex4, HexDigit};
use crate::{bytes, count, number, signed, words};
use std::fmt;
use std::fmt::Write;
use std::test::Fail;

// A writer that counts how often it is called.
#[derive(Drop)]
struct Calls {
    count: u32,
}

impl fmt::Write for Calls {
    fn write_str(&mut self, _text: &str) -> fmt::Result {
        self.count = self.count.saturating_add(1);
        Ok(())
    }
}

// A writer with little room keeps all of a number or nothing.
#[test]
fn in_one_piece(rt: HostRuntime) {
    let mut calls = Calls { count: 0 };
    assert!(rt; write!(&mut calls, "{}", Hex4(0x5a)).is_ok());
    assert_eq!(rt; calls.count, 1);
}

#[test]
fn numbers(rt: HostRuntime) {
    assert_eq!(rt; number(b"18446744073709551615"), Some(u64::MAX));
    assert_eq!(rt; number(b"18446744073709551616"), None);
    assert_eq!(rt; number(b"00000000000000000000007"), Some(7));
    assert_eq!(rt; count(b"65536"), None);
    assert_eq!(rt; signed(b"-2147483648"), Some(i32::MIN));
    assert_eq!(rt; signed(b"2147483648"), None);
}

#[test]
fn words_and_bytes(rt: HostRuntime) -> Result<(), Fail> {
    let words = words(rt.alloc(), b" a\t bc\r")?;
    assert_eq!(rt; words.len(), 2);
    assert!(rt; bytes(rt.alloc(), b"0")?.is_none());
    let text = format!(in rt.alloc();
        "{} {} {} {}",
        Hex(b"\x00\xfa"),
        Hex(b""),
        Hex4(0x5a),
        HexDigit(26)
    )?;
    assert_eq!(rt; text.as_str(), "00fa - 005a A");
    Ok(())
}
