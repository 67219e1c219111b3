//! Plays a script through a bridge and prints a transcript of what crossed.

#![tactic(auto)]

mod failure;

ghost use Rattle.std.specs.Prelude.{◌≡◌, ◌≤◌, length, IfOk, MatchResult, Ok, Err};
ghost use Rattle.player.specs.declared.failure.Stop.TheVariants.{Fault};

use command::failure::Failure;
use command::status::status;
use failure::Stop;
use playback::play::play;
use std::io::{Read, Write};
use std::process::ExitCode;
use std::{env, fs, io};
use transcript::ending::Ending;

const USAGE: &str = "usage: player [FILE]

Plays the script in FILE, or on standard input, through a bridge between an AXI4
master and an AXI4-Lite block, and prints a transcript: a line for each crossing,
then a line of what is owed, or of the fault that ended it.

  --help      prints this
  --version   prints the version

The exit status is 0 if the script was played to its end, else 1.
";

const VERSION: &str = "player 1.0.0\n";

/// One byte more than a script may have, to notice a script that is too long.
const ROOM: usize = 16_385;

/// Reads until the input ends or the buffer is full, and answers what it read.
// The input is one repeated array, by a rule of the project: filled from its front, with a count of the bytes read.
fn fill<'a, R: Read>(input: &mut R, buffer: &'a mut [u8; ROOM]) -> io::Result<&'a [u8]>
    ensures { IfOk result (λ read. length read.now ≤ 16385) }
{
    let mut len = 0;
    while len < ROOM {
        let n = input.read(&mut buffer[len..])?;
        if n == 0 {
            break;
        }
        len += n;
    }
    Ok(&buffer[0..len])
}

/// Reads the file of this name.
fn fill_from<'a>(rt: &HostRuntime, path: &str, buffer: &'a mut [u8; ROOM]) -> io::Result<&'a [u8]>
    ensures { IfOk result (λ read. length read.now ≤ 16385) }
{
    let mut file = fs::open(rt, path)?;
    fill(&mut file, buffer)
}

/// A playing that a fault ended is a failure of the program.
fn played(ending: Ending) -> Result<(), Stop>
    ensures { MatchResult ending (λ _. result ≡ Ok tt) (λ _. result ≡ Err Fault) }
{
    ending.map(|_| ()).map_err(|_| Stop::Fault)
}

/// Plays a script and prints its transcript.
fn print(rt: &HostRuntime, script: &[u8]) -> Result<(), Failure<Stop>> {
    let transcript = play(rt.alloc(), script).map_err(|_| Failure::Own(Stop::Memory))?;
    rt.stdout().write_all(transcript.bytes.as_slice())?;
    played(transcript.ending).map_err(Failure::Own)
}

/// Plays the script in the file of this name.
fn play_file(rt: &HostRuntime, path: String) -> Result<(), Failure<Stop>> {
    let mut buffer = [0u8; ROOM];
    let script = fill_from(rt, path.as_str(), &mut buffer).map_err(|error| Failure::Unreadable(
        path, error,
    ))?;
    print(rt, script)
}

/// Plays the script on standard input.
fn play_stdin(rt: &HostRuntime) -> Result<(), Failure<Stop>> {
    let mut buffer = [0u8; ROOM];
    let script = fill(&mut rt.stdin(), &mut buffer)?;
    print(rt, script)
}

/// Does what the arguments ask for.
fn run(rt: &HostRuntime) -> Result<(), Failure<Stop>> {
    match env::args(rt)?.nth(1) {
        None => play_stdin(rt),
        Some(arg) if arg.as_str() == "--help" => {
            rt.print(USAGE)?;
            Ok(())
        }
        Some(arg) if arg.as_str() == "--version" => {
            rt.print(VERSION)?;
            Ok(())
        }
        Some(path) => play_file(rt, path),
    }
}

// As `main` of `explain`, but silent on a fault, which the transcript tells.
fn main(rt: HostRuntime) -> ExitCode {
    let outcome = run(&rt);
    if let Err(failure) = &outcome {
        if !matches!(failure, Failure::Own(Stop::Fault)) {
            let _ = eprintln!(rt; "player: {failure}");
        }
    }
    status(&outcome)
}
