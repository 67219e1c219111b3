//! Bad input, and what the user is told of it.
use crate::parse::read_items;
use listing::item::Item;
use std::alloc::AllocGlobal;
use std::process::Abort;
use std::test::*;

// As in the tests of lists, of another reader.
/// Passes where the input is refused with these words.
fn refuses(rt: &(impl Abort + AllocGlobal), text: &[u8], words: &str) -> Result<(), Fail> {
    match read_items(rt.alloc(), text) {
        Ok(_) => Err(Fail::new("not refused")),
        Err(fault) => {
            assert_eq!(rt; fault.to_string(rt.alloc())?.as_str(), words);
            Ok(())
        },
    }
}

#[test]
fn empty_input(rt: HostRuntime) -> Result<(), Fail> {
    refuses(
        &rt,
        b"",
        "line 1: there is no plan yet; expected 'bridge U L level'",
    )
}

#[test]
fn wrong_keyword(rt: HostRuntime) -> Result<(), Fail> {
    refuses(
        &rt,
        b"brigde 8 4 0\n",
        "line 1: there is no plan yet; expected 'bridge U L level'",
    )
}

#[test]
fn missing_word(rt: HostRuntime) -> Result<(), Fail> {
    refuses(
        &rt,
        b"bridge 8 4 0\n1 600 0 2 1 0 0\n",
        "line 2: PROT is missing; expected 'ID ADDR LEN SIZE BURST LOCK CACHE PROT'",
    )
}

#[test]
fn space_at_the_end(rt: HostRuntime) -> Result<(), Fail> {
    refuses(
        &rt,
        b"bridge 8 4 0 \n",
        "line 1: the line goes on after its last word; expected 'bridge U L level'",
    )
}

#[test]
fn double_space(rt: HostRuntime) -> Result<(), Fail> {
    refuses(
        &rt,
        b"bridge 8 4 0\n1 600 0 2 1 0 0 0\n1  600 0 2 1 0 0 0\n",
        "line 3: ADDR has no digit; expected words parted by exactly one space",
    )
}

#[test]
fn upper_case_digit(rt: HostRuntime) -> Result<(), Fail> {
    refuses(
        &rt,
        b"bridge 8 4 0\n1 600 3F 2 1 0 0 0\n",
        "line 2: LEN has 'F'; expected hexadecimal digits 0-9 a-f",
    )
}

#[test]
fn past_the_carrier(rt: HostRuntime) -> Result<(), Fail> {
    refuses(
        &rt,
        b"bridge 8 4 0\n10000 600 0 2 1 0 0 0\n",
        "line 2: ID is too large; expected at most ffff",
    )
}

#[test]
fn past_the_wires(rt: HostRuntime) -> Result<(), Fail> {
    refuses(
        &rt,
        b"bridge 8 4 0\n1000 600 0 2 1 0 0 0\n",
        "line 2: refusal 4, a field is too large; expected at most ID fff, SIZE 7, BURST 3, LOCK 1, CACHE f, PROT 7",
    )
}

#[test]
fn no_such_plan(rt: HostRuntime) -> Result<(), Fail> {
    refuses(
        &rt,
        b"bridge 8 4 0\nbridge 4 8 0\n",
        "line 2: refusal 2, the lower bus is wider than the upper one; expected L at most U",
    )
}

#[test]
fn no_final_newline(rt: HostRuntime) -> Result<(), Fail> {
    refuses(
        &rt,
        b"bridge 8 4 0\n1 600 0 2 1 0 0 0",
        "line 2: the line is not ended; expected byte 0a at its end",
    )
}

// As the test of this name of lists, of another reader.
#[test]
fn fields_in_their_order(rt: HostRuntime) -> Result<(), Fail> {
    let Ok(items) = read_items(rt.alloc(), b"bridge 8 4 1\nabc 1234 fe 5 2 1 d 6\n") else {
        return Err(Fail::new("refused"));
    };
    assert!(rt; items.len() == 2);
    let Item::Burst(plan, burst) = items[1] else {
        return Err(Fail::new("no burst"));
    };
    assert_eq!(rt;
        (plan.upper(), plan.lower(), u8::from(plan.level)),
        (8, 4, 1)
    );
    assert_eq!(rt;
        (burst.id, burst.addr, burst.len, burst.size),
        (0xabc, 0x1234, 0xfe, 5)
    );
    assert_eq!(rt;
        (burst.burst, burst.lock, burst.cache, burst.prot),
        (2, 1, 0xd, 6)
    );
    Ok(())
}
