//! Each refusal with its line and place, and what a script holds.
use axi::plan::{Level, Plan, PlanRefusal, Widths};
use script::script::Script;
use sections::line::Settings;
use sections::section::{Gate, Section};
use std::process::Abort;
use std::test::Fail;
use words::fault::{Fault, Layer, Wrong};

/// Passes where the script is refused with this fault.
fn refused(rt: &impl Abort, bytes: &[u8], wrong: Wrong, line: usize, place: usize) {
    assert_eq!(rt;
        Script::read(bytes).err(),
        Some(Fault { wrong, line, place })
    );
}

#[test]
fn too_long(rt: HostRuntime) {
    refused(&rt, &[b'a'; 16_385], Wrong::TooLong, 1, 0);
    refused(&rt, &[b'a'; 16_384], Wrong::NotDue, 1, 0);
}

#[test]
fn not_due(rt: HostRuntime) {
    refused(&rt, b"brigde 8 4 0\n", Wrong::NotDue, 1, 0);
    refused(&rt, b"bridges 8 4 0\n", Wrong::NotDue, 1, 0);
    refused(&rt, b"bridge 8  4 0\n", Wrong::NotDue, 1, 9);
    refused(&rt, b"bridge 8 4\n", Wrong::NotDue, 1, 10);
    refused(&rt, b"bridge 8 4 0\r\n", Wrong::NotDue, 1, 11);
    refused(&rt, b"bridge 8 4 0\n\nwrites 0\n", Wrong::NotDue, 2, 13);
    refused(&rt, b"bridge 8 4 0\nwrites 1 \n", Wrong::NotDue, 2, 21);
    refused(&rt, b"bridge 8 4 FC\n", Wrong::NotDue, 1, 11);
    refused(&rt, b"bridge 8 4 0000000000000000g\n", Wrong::NotDue, 1, 11);
}

#[test]
fn too_large(rt: HostRuntime) {
    refused(&rt, b"bridge 100 4 0\n", Wrong::TooLarge, 1, 7);
    refused(
        &rt,
        b"bridge 8 4 00000000000000000\n",
        Wrong::TooLarge,
        1,
        11,
    );
    refused(&rt, b"bridge 8 4 0\nwrites 10000\n", Wrong::TooLarge, 2, 20);
    refused(
        &rt,
        b"bridge 8 4 0\nwrites 1\n10000 0\n",
        Wrong::TooLarge,
        3,
        22,
    );
    refused(
        &rt,
        b"bridge 8 4 0\nwrites 0\nbeats 0\nreads 0\nwcodes 0\nrparts 0\ngates 1\n400\n",
        Wrong::TooLarge,
        8,
        64,
    );
}

#[test]
fn ends_early(rt: HostRuntime) {
    refused(&rt, b"", Wrong::EndsEarly, 1, 0);
    refused(&rt, b"bridge", Wrong::EndsEarly, 1, 6);
    refused(&rt, b"bridge 8 4 0", Wrong::EndsEarly, 1, 12);
    refused(&rt, b"bridge 8 4 0\n", Wrong::EndsEarly, 2, 13);
}

#[test]
fn trailing(rt: HostRuntime) {
    refused(
        &rt,
        b"bridge 8 4 0\nwrites 0\nbeats 0\nreads 0\nwcodes 0\nrparts 0\ngates 0\n\n",
        Wrong::Trailing,
        8,
        64,
    );
}

// As the test of this name among the cursors: a test that landed stays.
#[test]
fn layers(rt: HostRuntime) {
    assert_eq!(rt; Wrong::TooLarge.layer(), Layer::Words);
    assert_eq!(rt; Wrong::EndsEarly.layer(), Layer::Sections);
    assert_eq!(rt; u8::from(Wrong::Trailing), 24);
}

// What the tests of each section ask too: a test that landed stays.
#[test]
fn entries(rt: HostRuntime) -> Result<(), Fail> {
    held(&rt, FULL)
}

/// Passes where these bytes hold one entry in each section but `reads`, two write responses and two gates.
fn held(rt: &impl Abort, bytes: &[u8]) -> Result<(), Fail> {
    let mut script = Script::read(bytes)?;
    assert_eq!(rt; script.settings.upper, 8);
    let burst = script.master.writes.next().ok_or("no burst")?;
    assert_eq!(rt; burst.addr, 0x1002);
    assert!(rt; script.master.writes.next().is_none());
    let beat = script.master.beats.next().ok_or("no beat")?;
    assert_eq!(rt; beat.wdata, 0x1122_3344_5566_7788);
    assert_eq!(rt; script.block.wcodes.next(), Some(3));
    assert_eq!(rt; script.block.wcodes.next(), Some(2));
    assert_eq!(rt; script.block.wcodes.next(), None);
    let part = script.block.rparts.next().ok_or("no part")?;
    assert_eq!(rt; part.lrresp, 1);
    let _ = script.gates.next();
    let gate = script.gates.next().ok_or("no gate")?;
    assert_eq!(rt; gate.bits, 1);
    assert_eq!(rt; gate.at.line(), 14);
    assert_eq!(rt; gate.at.place(), 119);
    Ok(())
}

/// One entry in each section but `reads`, two write responses and two gates.
const FULL: &[u8] =
    b"bridge 8 4 0\nwrites 1\n5 1002 0 3 1 0 0 2\nbeats 1\n1122334455667788 fc\nreads 0\nwcodes 2\n3\n02\nrparts 1\ncafe 1\ngates 2\n3ff\n1\n";

/// What the script that has them all holds.
fn full() -> Result<Script<'static>, Fail> {
    Script::read(FULL).map_err(|_| Fail::new("refused"))
}

#[test]
fn bursts_and_beats(rt: HostRuntime) -> Result<(), Fail> {
    let mut script = full()?;
    let burst = script.master.writes.next().ok_or("no burst")?;
    assert_eq!(rt; burst.addr, 0x1002);
    assert!(rt; script.master.writes.next().is_none());
    let beat = script.master.beats.next().ok_or("no beat")?;
    assert_eq!(rt; beat.wdata, 0x1122_3344_5566_7788);
    Ok(())
}

#[test]
fn answers_of_the_block(rt: HostRuntime) -> Result<(), Fail> {
    let mut script = full()?;
    assert_eq!(rt; script.block.wcodes.next(), Some(3));
    assert_eq!(rt; script.block.wcodes.next(), Some(2));
    assert_eq!(rt; script.block.wcodes.next(), None);
    let part = script.block.rparts.next().ok_or("no part")?;
    assert_eq!(rt; part.lrresp, 1);
    Ok(())
}

#[test]
fn gates(rt: HostRuntime) -> Result<(), Fail> {
    let mut script = full()?;
    let _ = script.gates.next();
    let gate = script.gates.next().ok_or("no gate")?;
    assert_eq!(rt;
        (
            gate.bits,
            gate.at.line(),
            gate.at.place(),
            script.settings.upper
        ),
        (1, 14, 119, 8)
    );
    Ok(())
}

/// Passes where the gates are 3ff and 1.
fn in_order<'a>(rt: &impl Abort, gates: Section<'a, Gate<'a>>) {
    for (edge, gate) in gates.enumerate() {
        assert_eq!(rt; gate.bits, if edge == 0 { 0x3ff } else { 1 });
    }
}

#[test]
fn one_after_the_other(rt: HostRuntime) -> Result<(), Fail> {
    let script = full()?;
    in_order(&rt, script.gates);
    assert_eq!(rt; script.block.wcodes.count(), 2);
    assert_eq!(rt; script.master.reads.count(), 0);
    Ok(())
}

#[test]
fn plan_of_the_first_line(rt: HostRuntime) -> Result<(), Fail> {
    let settings = full()?.settings;
    let plan = Plan {
        widths: Widths::EightOverFour,
        level: Level::FullConversion,
    };
    assert_eq!(rt; Plan::try_from(settings), Ok(plan));
    let swapped = Settings {
        upper: settings.lower,
        lower: settings.upper,
        ..settings
    };
    assert_eq!(rt; Plan::try_from(swapped), Err(PlanRefusal::LowerAboveUpper));
    Ok(())
}
