//! Words and numbers, each with its line and place.
use std::process::Abort;
use std::test::Fail;
use words::carrier::Carrier;
use words::cursor::Cursor;
use words::fault::{Fault, Layer, Wrong};
use words::hex::digit;
use words::word::Word;

/// Passes where a call refuses with this fault.
fn refused<T: Drop>(
    rt: &impl Abort,
    outcome: Result<T, Fault>,
    number: u8,
    line: usize,
    place: usize,
) -> Result<(), Fail> {
    match outcome {
        Ok(_) => Err(Fail::new("not refused")),
        Err(fault) => {
            assert_eq!(rt;
                (u8::from(fault.wrong), fault.line, fault.place),
                (number, line, place)
            );
            Ok(())
        },
    }
}

#[test]
fn words_in_a_row(rt: HostRuntime) -> Result<(), Fail> {
    let mut cursor = Cursor::new(b"gates 2\n3ff\n");
    assert!(rt; matches!(cursor.word(), Ok(Word::Keyword(_))));
    assert!(rt; cursor.separator(b' ').is_ok());
    assert!(rt; matches!(cursor.word(), Ok(Word::Number(_))));
    assert!(rt; cursor.separator(b'\n').is_ok());
    assert_eq!(rt; (cursor.line(), cursor.place()), (2, 8));
    assert!(rt; !cursor.at_end());
    refused(&rt, cursor.end(), 24, 2, 8)
}

#[test]
fn keywords(rt: HostRuntime) -> Result<(), Fail> {
    assert!(rt; Cursor::new(b"gates 2").keyword(b"gates").is_ok());
    assert!(rt; Cursor::new(b"12").keyword(b"12").is_ok());
    refused(&rt, Cursor::new(b"12").keyword(b"gates"), 21, 1, 0)?;
    refused(&rt, Cursor::new(b"gate 2").keyword(b"gates"), 21, 1, 0)?;
    refused(&rt, Cursor::new(b"\ngates").keyword(b"gates"), 21, 1, 0)?;
    refused(&rt, Cursor::new(b"").keyword(b"gates"), 23, 1, 0)
}

#[test]
fn digits(rt: HostRuntime) {
    assert_eq!(rt; (digit(b'9'), digit(b'f')), (Some(9), Some(15)));
    assert_eq!(rt; (digit(b'F'), digit(b'g')), (None, None));
}

#[test]
fn numbers(rt: HostRuntime) -> Result<(), Fail> {
    assert!(rt; matches!(Cursor::new(b"ff ").number(Carrier::Bits8), Ok(0xff)));
    assert!(rt;
        matches!(
            Cursor::new(b"ffffffffffffffff").number(Carrier::Bits64),
            Ok(0xffff_ffff_ffff_ffff)
        )
    );
    refused(&rt, Cursor::new(b"100").number(Carrier::Bits8), 22, 1, 0)?;
    refused(&rt, Cursor::new(b"400").number(Carrier::Bits10), 22, 1, 0)?;
    refused(
        &rt,
        Cursor::new(b"00000000000000000").number(Carrier::Bits64),
        22,
        1,
        0,
    )?;
    refused(
        &rt,
        Cursor::new(b"0000000000000000g").number(Carrier::Bits8),
        21,
        1,
        0,
    )
}

/// The carriers of a line of two numbers.
const TWO: [Carrier; 2] = [Carrier::Bits64, Carrier::Bits8];

#[test]
fn lines(rt: HostRuntime) -> Result<(), Fail> {
    assert_eq!(rt;
        Cursor::new(b"cafe 1\n").numbers(&TWO).ok(),
        Some([0xcafe, 1])
    );
    assert_eq!(rt;
        Cursor::new(b"at cafe 1\n").headed(b"at", &TWO).ok(),
        Some([0xcafe, 1])
    );
    refused(&rt, Cursor::new(b"cafe 1 \n").numbers(&TWO), 21, 1, 6)?;
    refused(&rt, Cursor::new(b"cafe  1\n").numbers(&TWO), 21, 1, 5)?;
    refused(&rt, Cursor::new(b"cafe\n").numbers(&TWO), 21, 1, 4)?;
    refused(&rt, Cursor::new(b"cafe 1").numbers(&TWO), 23, 1, 6)?;
    refused(
        &rt,
        Cursor::new(b"at\ncafe 1\n").headed(b"at", &TWO),
        21,
        1,
        2,
    )
}

#[test]
fn layers(rt: HostRuntime) {
    assert_eq!(rt; Wrong::TooLarge.layer(), Layer::Words);
    assert_eq!(rt; Wrong::EndsEarly.layer(), Layer::Sections);
    assert_eq!(rt; u8::from(Wrong::Trailing), 24);
}
