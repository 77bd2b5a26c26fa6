//! Answers a bench sheet from standard input, a question a line.
#![tactic(auto)]

use answers::forms::Outcome;
use answers::respond;
use answers::tally::Tally;
use lines::{Record, Script};
use std::alloc::Global;
use std::io;
use std::io::{BufRead, BufReader, Write};
use words::words;

// How many records the script has room for.
const ROOM: usize = 16;

// Prints a line's number, its words, and what became of it. The words are bytes, which a `Display` could not write as they are.
fn show(
    rt: &HostRuntime,
    heap: Global,
    number: usize,
    line: &[u8],
    outcome: &Outcome,
) -> io::Result<()> {
    print!(rt; "line {number}:")?;
    for word in words(heap, line)?.iter() {
        print!(rt; " ")?;
        rt.stdout().write_all(word)?;
    }
    match outcome {
        Ok(answer) => println!(rt; "\n  {answer}"),
        Err(unanswered) => println!(rt; "\n  {unanswered}"),
    }
}

fn main(rt: HostRuntime) -> io::Result<()> {
    let heap = rt.alloc();
    let mut table = [Record::default(); ROOM];
    let mut script = Script::new(&mut table);
    let mut tally = Tally::new();
    for (number, line) in (1usize..).zip(BufReader::new(heap, rt.stdin())?.lines(heap)) {
        let line = line?;
        if let Some(outcome) = respond(heap, line.as_bytes(), &mut script)? {
            tally.count(&outcome);
            show(&rt, heap, number, line.as_bytes(), &outcome)?;
        }
    }
    println!(rt; "{tally}")
}
