//! Bad lists, and what the user is told of them.
use listing::item::Item;
use listing::read::read_items;
use listing::refusal::{ListFault, Refusal};
use std::process::Abort;
use std::test::Fail;
use words::fault::{Fault, Wrong};

// As in the tests of `explain`, of another reader.
/// Passes where the list is refused with these words.
fn refuses(rt: &(impl Abort + AllocGlobal), list: &[u8], words: &str) -> Result<(), Fail> {
    match read_items(rt.alloc(), list) {
        Ok(_) => Err(Fail::new("not refused")),
        Err(fault) => {
            assert_eq!(rt; fault.to_string(rt.alloc())?.as_str(), words);
            Ok(())
        },
    }
}

/// Passes where the list is refused at this line and byte.
fn refuses_at(rt: &(impl Abort + AllocGlobal), list: &[u8], start: &str) -> Result<(), Fail> {
    match read_items(rt.alloc(), list) {
        Ok(_) => Err(Fail::new("not refused")),
        Err(fault) => {
            assert!(rt; fault.to_string(rt.alloc())?.as_str().starts_with(start));
            Ok(())
        },
    }
}

#[test]
fn bad_words(rt: HostRuntime) -> Result<(), Fail> {
    let rt = &rt;
    refuses_at(rt, b"", "line 1, byte 0: the input ends too early; ")?;
    refuses_at(rt, b"brigde 8 4 0\n", "line 1, byte 0: not the due word ")?;
    refuses_at(rt, b"1 600 0 2 1 0 0 0\n", "line 1, byte 0: not the due ")?;
    refuses_at(rt, b"bridge 8 4 0 \n", "line 1, byte 12: not the due ")?;
    refuses_at(
        rt,
        b"bridge 8 4 0\n1 600 0 2 1 0 0\n",
        "line 2, byte 28: not the due ",
    )?;
    refuses_at(
        rt,
        b"bridge 8 4 0\n1 600 0 2 1 0 0 0\n1  600 0 2 1 0 0 0\n",
        "line 3, byte 33: not the due ",
    )?;
    refuses_at(
        rt,
        b"bridge 8 4 0\n1 600 3F 2 1 0 0 0\n",
        "line 2, byte 19: not the due ",
    )?;
    refuses_at(
        rt,
        b"bridge 8 4 0\n10000 600 0 2 1 0 0 0\n",
        "line 2, byte 13: the number is too large; ",
    )?;
    refuses_at(
        rt,
        b"bridge 8 4 0\n1 600 0 2 1 0 0 0",
        "line 2, byte 30: the input ends too early; ",
    )
}

#[test]
fn bad_values(rt: HostRuntime) -> Result<(), Fail> {
    let rt = &rt;
    refuses(
        rt,
        b"bridge 8 4 0\nbridge 4 8 0\n",
        "line 2: refusal 2, the lower bus is wider than the upper one; expected L at most U",
    )?;
    refuses(
        rt,
        b"bridge 8 4 0\n1000 600 0 2 1 0 0 0\n",
        "line 2: refusal 4, a field is too large; expected at most ID fff, SIZE 7, BURST 3, LOCK 1, CACHE f, PROT 7",
    )
}

/// Passes where a fault of this kind is told so.
fn told(rt: &(impl Abort + AllocGlobal), wrong: Wrong, words: &str) -> Result<(), Fail> {
    let line = 3;
    let place = 17;
    let fault = ListFault::from(Refusal::from(Fault { wrong, line, place }));
    assert_eq!(rt; fault.to_string(rt.alloc())?.as_str(), words);
    Ok(())
}

#[test]
fn faults_of_whole_scripts(rt: HostRuntime) -> Result<(), Fail> {
    let words = "line 3, byte 17: the input is refused";
    told(&rt, Wrong::TooLong, words)?;
    told(&rt, Wrong::Trailing, words)
}

#[test]
fn what_a_list_expects(rt: HostRuntime) -> Result<(), Fail> {
    told(
        &rt,
        Wrong::NotDue,
        "line 3, byte 17: not the due word or separator; expected 'bridge U L level', or after that 'ID ADDR LEN SIZE BURST LOCK CACHE PROT', with digits 0-9 a-f and one space between words",
    )?;
    told(
        &rt,
        Wrong::TooLarge,
        "line 3, byte 17: the number is too large; expected at most ffff for ID, ffffffff for ADDR, ff for any other",
    )?;
    told(
        &rt,
        Wrong::EndsEarly,
        "line 3, byte 17: the input ends too early; expected a plan and whole lines, each ended by byte 0a",
    )
}

// As the test of this name in `explain`, which has a reader of its own.
#[test]
fn fields_in_their_order(rt: HostRuntime) -> Result<(), Fail> {
    let Ok(items) = read_items(rt.alloc(), b"bridge 8 4 1\nabc 1234 fe 5 2 1 d 6\n") else {
        return Err(Fail::new("refused"));
    };
    assert!(rt; items.len() == 2);
    let Item::Burst(plan, burst) = items[1] else {
        return Err(Fail::new("no burst"));
    };
    assert_eq!(rt;
        (plan.upper(), plan.lower(), u8::from(plan.level)),
        (8, 4, 1)
    );
    assert_eq!(rt;
        (burst.id, burst.addr, burst.len, burst.size),
        (0xabc, 0x1234, 0xfe, 5)
    );
    assert_eq!(rt;
        (burst.burst, burst.lock, burst.cache, burst.prot),
        (2, 1, 0xd, 6)
    );
    Ok(())
}
