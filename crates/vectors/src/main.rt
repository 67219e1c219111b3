//! Plays every script of a pack and compares each transcript with the one that is stored for it.

#![tactic(auto)]

mod pack;

use anyhow::ensure;
use pack::{Case, Malformed, Pack};
use playback::play::play;
use std::io::{Read, Write};
use std::{env, fs, io};

const USAGE: &str = "usage: vectors [FILE]

Plays every script of the pack in FILE, or on standard input, and compares each
transcript with the one that the pack has for it. A pack has for each script

  script LEN    byte 0a, then LEN bytes
  out LEN       byte 0a, then LEN bytes: the transcript

with LEN decimal and nothing between or behind. The first script whose transcript
differs is printed with both transcripts, under its number from 0 on; then how
many scripts there are, and how many came out as stored.

  --help        prints this

The exit status is 0 if all transcripts are as stored, else 1.
";

/// The scripts played so far.
#[derive(Clone, Copy, Default)]
struct Tally {
    scripts: u64,
    /// Those whose transcript is the one that is stored.
    as_stored: u64,
}

impl Tally {
    /// Whether each transcript so far is the one that is stored.
    fn is_clean(&self) -> bool {
        self.scripts == self.as_stored
    }

    /// Counts one more script.
    fn count(&mut self, as_stored: bool) {
        self.scripts = self.scripts.saturating_add(1);
        self.as_stored = self.as_stored.saturating_add(u64::from(as_stored));
    }
}

/// Prints bytes under a title.
fn print_piece(rt: &HostRuntime, title: &str, bytes: &[u8]) -> io::Result<()> {
    rt.println(title)?;
    rt.stdout().write_all(bytes)
}

/// Prints a script, the transcript that is stored for it, and the one that its playing gave.
fn print_difference(rt: &HostRuntime, number: u64, case: &Case, played: &[u8]) -> io::Result<()> {
    print!(rt; "{number} ")?;
    print_piece(rt, "differs, the script:", case.script)?;
    print_piece(rt, "stored:", case.stored)?;
    print_piece(rt, "played:", played)
}

/// Plays a script and counts it. The first that differs is printed.
fn try_case(rt: &HostRuntime, tally: &mut Tally, case: &Case) -> anyhow::Result<()> {
    let transcript = play(rt.alloc(), case.script)?;
    let played = transcript.bytes.as_slice();
    let as_stored = played == case.stored;
    if !as_stored && tally.is_clean() {
        print_difference(rt, tally.scripts, case, played)?;
    }
    tally.count(as_stored);
    Ok(())
}

// What is malformed ends the cases and is told after their counts, any other error ends the run: `?` passes only the second.
/// Plays the scripts of a pack up to its end or to what is malformed.
fn try_cases(
    rt: &HostRuntime,
    tally: &mut Tally,
    pack: Pack,
) -> anyhow::Result<Result<(), Malformed>> {
    for item in pack {
        match item {
            Ok(case) => try_case(rt, tally, &case)?,
            Err(malformed) => return Ok(Err(malformed)),
        }
    }
    Ok(Ok(()))
}

/// Plays every script of a pack and prints how many came out as stored.
fn try_all(rt: &HostRuntime, bytes: &[u8]) -> anyhow::Result<()> {
    let mut tally = Tally::default();
    let ending = try_cases(rt, &mut tally, Pack::new(bytes))?;
    let Tally { scripts, as_stored } = tally;
    println!(rt; "{scripts} scripts, {as_stored} as stored")?;
    ending?;
    ensure!(tally.is_clean(), "a transcript is not as stored");
    Ok(())
}

// Standard input as in `explain`, in the library's three calls: a function of both would be longer than they are.
/// All bytes of the file of this name, or of standard input.
fn read(rt: &HostRuntime, path: Option<String>) -> io::Result<Vec<u8>> {
    match path {
        Some(path) => fs::read(rt, path.as_str()),
        None => {
            let mut bytes = Vec::new(rt.alloc());
            rt.stdin().read_to_end(&mut bytes)?;
            Ok(bytes)
        }
    }
}

/// Does what the argument asks for.
fn run(rt: &HostRuntime) -> anyhow::Result<()> {
    let arg = env::args(rt)?.nth(1);
    if matches!(&arg, Some(word) if word.as_str() == "--help") {
        rt.print(USAGE)?;
        return Ok(());
    }
    try_all(rt, read(rt, arg)?.as_slice())
}

fn main(rt: HostRuntime) -> anyhow::Result<()> {
    run(&rt)
}
