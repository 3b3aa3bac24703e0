//! Plays the organ of organ.book from a MIDI line on standard input, and prints what each call came to.
#![tactic(auto)]

mod stopped;

use book_file::read_book;
use organ::line::Line;
use recital::MagnetRecital;
use std::io::{Read, Write};
use std::process::ExitCode;
use stopped::Stopped;

// The most bytes that are read at once.
const PORTION: usize = 4096;

// The exit status where the program stops before the end of its input.
const STOPPED: u8 = 2;

// Plays each portion of the MIDI line as it comes, until the input ends.
fn play(
    rt: &HostRuntime,
    recital: &mut MagnetRecital,
    listing: &mut Vec<u8>,
) -> Result<(), Stopped> {
    let mut input = rt.stdin();
    let mut output = rt.stdout();
    let mut portion = [0u8; PORTION];
    // A loop has to have an end, and no input reaches this one.
    for _ in 0..u64::MAX {
        let n = input.read(&mut portion).map_err(Stopped::Input)?;
        if n == 0 {
            break;
        }
        recital
            .play(&portion[..n], listing)
            .map_err(|_| Stopped::Memory)?;
        output
            .write_all(listing.as_slice())
            .map_err(Stopped::Output)?;
        listing.clear();
    }
    Ok(())
}

// Prints one line of the listing.
fn tell(rt: &HostRuntime, line: Line, listing: &mut Vec<u8>) -> Result<(), Stopped> {
    line.add_to(listing).map_err(|_| Stopped::Memory)?;
    rt.stdout()
        .write_all(listing.as_slice())
        .map_err(Stopped::Output)
}

// Where the book is refused, that is the listing, and the input is not read.
fn run(rt: &HostRuntime) -> Result<(), Stopped> {
    let text = read_book(rt).map_err(Stopped::Book)?;
    let mut listing = Vec::new(rt.alloc());
    match MagnetRecital::open_text(text.as_slice()) {
        Ok(mut recital) => play(rt, &mut recital, &mut listing),
        Err(line) => tell(rt, line, &mut listing),
    }
}

fn main(rt: HostRuntime) -> ExitCode {
    match run(&rt) {
        Ok(()) => ExitCode::SUCCESS,
        Err(stopped) => {
            // where the error stream takes nothing either, the status alone tells
            let _ = eprintln!(rt; "{stopped}");
            ExitCode::from(STOPPED)
        }
    }
}
