//! Tells what each burst of a full AXI4 master becomes on an AXI4-Lite block.

#![tactic(auto)]

mod failure;
mod fault;
mod hex;
mod parse;
mod show;
#[cfg(test)]
mod tests;

use command::failure::Failure;
use command::status::status;
use failure::Refusal;
use parse::read_items;
use show::Shown;
use std::io::Read;
use std::process::ExitCode;
use std::{env, fs, io};

const USAGE: &str = "usage: explain [FILE]

Tells what each AXI burst of FILE, or of standard input, becomes on an AXI4-Lite
block behind a bridge. Each line of the input is one of

  bridge U L level
      the plan for the bursts that follow: the widths of the upper and the lower
      bus in bytes, 4 or 8, and the level of protection, 0 to 2. The first line
      is one.
  ID ADDR LEN SIZE BURST LOCK CACHE PROT
      a burst of LEN + 1 beats of 2 to the SIZE bytes. BURST is 0 for FIXED, 1 for
      INCR and 2 for WRAP

with all numbers hexadecimal (0-9 a-f), one space between words and byte 0a at
the end. In the output IDs and addresses are hexadecimal, other numbers decimal.
";

/// All bytes of the file at this path.
fn read_file(rt: &HostRuntime, path: String) -> Result<Vec<u8>, Failure<Refusal>> {
    fs::read(rt, path.as_str()).map_err(|error| Failure::Unreadable(path, error))
}

// As `vectors` does, in the library's three calls.
/// All bytes of standard input.
fn read_stdin(rt: &HostRuntime) -> io::Result<Vec<u8>> {
    let mut text = Vec::new(rt.alloc());
    rt.stdin().read_to_end(&mut text)?;
    Ok(text)
}

/// Prints what the input comes to. All of it is read before the first line is printed.
fn explain(rt: &HostRuntime, text: &[u8]) -> Result<(), Failure<Refusal>> {
    let items = read_items(rt.alloc(), text)?;
    for item in items {
        rt.print(Shown(item))?;
    }
    Ok(())
}

/// Does what the arguments ask for.
fn run(rt: &HostRuntime) -> Result<(), Failure<Refusal>> {
    let mut args = env::args(rt)?.skip(1);
    let first = args.next();
    if args.next().is_some() {
        return Err(Failure::Own(Refusal::Usage));
    }
    let text = match first {
        None => read_stdin(rt)?,
        Some(arg) if arg.as_str() == "--help" => {
            rt.print(USAGE)?;
            return Ok(());
        }
        Some(path) => read_file(rt, path)?,
    };
    explain(rt, text.as_slice())
}

// As `main` of `player`, which is silent on a fault that the transcript tells: each says its own failures.
fn main(rt: HostRuntime) -> ExitCode {
    let outcome = run(&rt);
    if let Err(failure) = &outcome {
        let _ = eprintln!(rt; "explain: {failure}");
    }
    status(&outcome)
}
