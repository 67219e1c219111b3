//! Every refusal, and damaged scripts.
use bridge::bridge::Owed;
use playback::play::play;
use std::process::Abort;
use std::test::Fail;
use transcript::ending::print_ending;

/// A script that owes nothing at its end.
const EMPTY: &[u8] = b"bridge 8 4 0\nwrites 0\nbeats 0\nreads 0\nwcodes 0\nrparts 0\ngates 0\n";

/// A write burst of one beat in two parts.
const WRITE: &[u8] =
    b"bridge 8 4 0\nwrites 1\n5 1002 0 3 1 0 0 2\nbeats 1\n1122334455667788 fc\nreads 0\nwcodes 2\n3\n2\nrparts 0\ngates 9\n3ff\n3ff\n3ff\n3ff\n3ff\n3ff\n3ff\n3ff\n3ff\n";

/// The script's transcript is this one.
fn shows(rt: &(impl Abort + AllocGlobal), script: &[u8], transcript: &[u8]) -> Result<(), Fail> {
    let played = play(rt.alloc(), script)?;
    assert!(rt; played.bytes.as_slice() == transcript);
    Ok(())
}

#[test]
fn plays(rt: HostRuntime) -> Result<(), Fail> {
    shows(&rt, EMPTY, b"owed 0 0\n")?;
    shows(
        &rt,
        WRITE,
        b"0 AW 5 0\n0 W 1122334455667788 fc\n3 LAW 1002 2\n3 LW 55667788 c\n4 LB 3\n5 LAW 1004 2\n5 LW 11223344 f\n6 LB 2\n8 B 5 3\nowed 0 0\n",
    )
}

#[test]
fn refuses_words(rt: HostRuntime) -> Result<(), Fail> {
    shows(&rt, b"brigde 8 4 0\n", b"fault words 21 1 0\n")?;
    shows(&rt, b"bridge 8  4 0\n", b"fault words 21 1 9\n")?;
    shows(&rt, b"bridge 8 4\n", b"fault words 21 1 10\n")?;
    shows(&rt, b"bridge 8 4 100\n", b"fault words 22 1 11\n")?;
    shows(
        &rt,
        b"bridge 8 4 00000000000000000\n",
        b"fault words 22 1 11\n",
    )?;
    shows(
        &rt,
        b"bridge 8 4 0000000000000000g\n",
        b"fault words 21 1 11\n",
    )
}

#[test]
fn refuses_sections(rt: HostRuntime) -> Result<(), Fail> {
    shows(&rt, b"", b"fault sections 23 1 0\n")?;
    shows(&rt, b"bridge 8 4 0\nwrites 0", b"fault sections 23 2 21\n")?;
    shows(
        &rt,
        b"bridge 8 4 0\nwrites 0\nbeats 0\nreads 0\nwcodes 0\nrparts 0\ngates 0\n\n",
        b"fault sections 24 8 64\n",
    )
}

#[test]
fn refuses_plans(rt: HostRuntime) -> Result<(), Fail> {
    shows(
        &rt,
        b"bridge 8 2 0\nwrites 0\nbeats 0\nreads 0\nwcodes 0\nrparts 0\ngates 0\n",
        b"fault bridge 1 1 0\n",
    )?;
    shows(
        &rt,
        b"bridge 4 8 0\nwrites 0\nbeats 0\nreads 0\nwcodes 0\nrparts 0\ngates 0\n",
        b"fault bridge 2 1 0\n",
    )?;
    shows(
        &rt,
        b"bridge 8 4 3\nwrites 0\nbeats 0\nreads 0\nwcodes 0\nrparts 0\ngates 0\n",
        b"fault bridge 3 1 0\n",
    )
}

#[test]
fn refuses_edges(rt: HostRuntime) -> Result<(), Fail> {
    shows(
        &rt,
        b"bridge 8 4 0\nwrites 1\n1000 0 0 0 1 0 0 0\nbeats 0\nreads 0\nwcodes 0\nrparts 0\ngates 2\n0\n1\n",
        b"fault bridge 4 10 85\n",
    )?;
    shows(
        &rt,
        b"bridge 4 4 0\nwrites 0\nbeats 1\n0 10\nreads 0\nwcodes 0\nrparts 0\ngates 1\n2\n",
        b"fault bridge 5 9 69\n",
    )?;
    shows(
        &rt,
        b"bridge 8 4 0\nwrites 0\nbeats 0\nreads 1\n0 0 0 8 1 0 0 0\nwcodes 0\nrparts 0\ngates 1\n8\n",
        b"fault bridge 6 9 80\n",
    )?;
    shows(
        &rt,
        b"bridge 8 4 0\nwrites 0\nbeats 0\nreads 0\nwcodes 1\n4\nrparts 0\ngates 1\n80\n",
        b"fault bridge 7 9 66\n",
    )?;
    shows(
        &rt,
        b"bridge 8 4 0\nwrites 0\nbeats 0\nreads 0\nwcodes 0\nrparts 1\n100000000 0\ngates 1\n200\n",
        b"fault bridge 8 9 76\n",
    )
}

#[test]
fn measures_length(rt: HostRuntime) -> Result<(), Fail> {
    let long = [b'0'; 16_385];
    shows(&rt, &long, b"fault words 20 1 0\n")?;
    shows(&rt, &long[0..16_384], b"fault words 21 1 0\n")
}

#[test]
fn cut_anywhere(rt: HostRuntime) -> Result<(), Fail> {
    for end in 0..WRITE.len() {
        let played = play(rt.alloc(), &WRITE[0..end])?;
        assert!(rt; played.bytes.as_slice().starts_with(b"fault "));
        assert!(rt; played.ending.is_err());
    }
    Ok(())
}

/// The script with another byte at this place.
fn changed(rt: &HostRuntime, place: usize) -> Result<Vec<u8>, Fail> {
    let mut script = Vec::from_slice(rt.alloc(), WRITE)?;
    if let Some(byte) = script.get_mut(place) {
        *byte = b'G';
    }
    Ok(script)
}

#[test]
fn changed_anywhere(rt: HostRuntime) -> Result<(), Fail> {
    for place in 0..WRITE.len() {
        let played = play(rt.alloc(), changed(&rt, place)?.as_slice())?;
        assert!(rt; played.ending.is_err());
        assert!(rt; played.bytes.as_slice().starts_with(b"fault "));
    }
    Ok(())
}

/// The last line of a playing that owes this much is this one.
fn owes(
    rt: &(impl Abort + AllocGlobal),
    writes: u128,
    reads: u128,
    line: &[u8],
) -> Result<(), Fail> {
    let mut bytes = Vec::new(rt.alloc());
    print_ending(&mut bytes, Ok(Owed { writes, reads }))?;
    assert!(rt; bytes.as_slice() == line);
    Ok(())
}

#[test]
fn owes_any_count(rt: HostRuntime) -> Result<(), Fail> {
    owes(&rt, 0, 16, b"owed 0 10\n")?;
    owes(
        &rt,
        0xffff_ffff_ffff_ffff,
        0x1_0000_0000_0000_0000,
        b"owed ffffffffffffffff 10000000000000000\n",
    )?;
    owes(
        &rt,
        0x1_0000_0000_0000_000a,
        0xfedc_ba98_7654_3210_0123_4567_89ab_cdef,
        b"owed 1000000000000000a fedcba98765432100123456789abcdef\n",
    )
}
