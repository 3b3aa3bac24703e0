//! Reads organ.book, and says what the organ has, or what is wrong with the book and where.
#![tactic(auto)]

mod refused;
mod stopped;

use book::{Board, Book, KNOBS, Knob, PISTONS, ROWS, Scope};
use book_file::read_book;
use refused::Refused;
use std::io;
use std::process::ExitCode;
use stopped::Stopped;

// The exit status where the program cannot say what the book is.
const STOPPED: u8 = 2;

// The rows of one level that have places, as keys or pipes.
fn print_rows<F: Fn(usize) -> u8>(rt: &HostRuntime, places: &str, reach: F) -> io::Result<()>
    requires { F.IsAlwaysCallable reach }
{
    for row in 0..ROWS {
        let count = reach(row);
        if count > 0 {
            println!(rt; "  {row}: {count} {places}")?;
        }
    }
    Ok(())
}

fn print_knobs(rt: &HostRuntime, book: &Book) -> io::Result<()> {
    rt.println("Knobs:")?;
    for k in 0..KNOBS {
        if let Some(Knob { steps, home }) = book.knob(k) {
            println!(rt; "  {k}: {steps} steps, home at {home}")?;
        }
    }
    rt.println("Pistons:")?;
    for p in 0..PISTONS {
        if let Some(Scope { lowest, highest }) = book.scope(p) {
            println!(rt; "  {p}: knobs {lowest} to {highest}")?;
        }
    }
    Ok(())
}

fn print_book(rt: &HostRuntime, book: &Book) -> io::Result<()> {
    rt.println("The book is good.")?;
    rt.println("Divisions:")?;
    print_rows(rt, "keys", |row| book.keys(row))?;
    rt.println("Ranks:")?;
    print_rows(rt, "pipes", |row| book.pipes(row))?;
    print_knobs(rt, book)?;
    let couplers = book.wires_on(Board::Coupler);
    let stops = book.wires_on(Board::Stop);
    rt.println("Wires:")?;
    println!(rt; "  coupler board: {couplers}")?;
    println!(rt; "  stop board: {stops}")
}

// A refused book is no success, though all of it is said.
fn inspect(rt: &HostRuntime) -> Result<ExitCode, Stopped> {
    let text = read_book(rt).map_err(Stopped::Book)?;
    match Book::read(text.as_slice()) {
        Ok(book) => {
            print_book(rt, &book).map_err(Stopped::Output)?;
            Ok(ExitCode::SUCCESS)
        }
        Err(fault) => {
            let refused = Refused(fault);
            println!(rt; "{refused}").map_err(Stopped::Output)?;
            Ok(ExitCode::FAILURE)
        }
    }
}

fn main(rt: HostRuntime) -> ExitCode {
    match inspect(&rt) {
        Ok(code) => code,
        Err(stopped) => {
            // where the error stream takes nothing either, the status alone tells
            let _ = eprintln!(rt; "{stopped}");
            ExitCode::from(STOPPED)
        }
    }
}
