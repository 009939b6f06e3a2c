// Reads a job script from standard input, one command a line, and prints each command and its answer.
#![tactic(auto)]

mod answer;
mod any_host;
mod bench;
mod coding;
mod drawer;
mod hosts;
mod jobs;
mod line;
mod parts;
mod pressing;
mod refusal;
mod scans;
mod state;

use answer::carry_out;
use jobs::say_abandoned;
use line::{is_passed_over, split_words};
use racks::rack::PLACES;
use refusal::Refusal;
use state::State;
use std::io;
use std::io::{BufRead, BufReader, Write};
use texts::trim_return;

// The line without its end: a line feed, with or without a carriage return before it.
fn without_end(line: &[u8]) -> &[u8] {
    match line {
        [body @ .., b'\n'] => trim_return(body),
        _ => line,
    }
}

// Answers the words of a line.
fn answer_words(
    rt: &HostRuntime,
    state: &mut State,
    line: &[u8],
    out: &mut Vec<u8>,
) -> Result<(), Refusal> {
    let Ok(text) = std::str::from_utf8(line) else {
        return Err(Refusal::NotUnderstood);
    };
    let words = split_words(state.heap, text)?;
    carry_out(rt, state, words.as_slice(), out)
}

// Prints what is answered and why there is no more: in one write, where there is memory for both.
fn print_refused(rt: &HostRuntime, refusal: Refusal, out: &mut Vec<u8>) -> io::Result<()> {
    let answered = out.len();
    if writeln!(out, "{refusal}").is_ok() {
        return rt.write_all(out.as_slice());
    }
    out.truncate(answered);
    rt.write_all(out.as_slice())?;
    println!(rt; "{refusal}")
}

// Prints a line again with its answer, or with why there is none. A want of memory is said so too, and the script goes on.
fn answer_line(
    rt: &HostRuntime,
    state: &mut State,
    line: &[u8],
    out: &mut Vec<u8>,
) -> io::Result<()> {
    if is_passed_over(line) {
        return Ok(());
    }
    out.clear();
    out.write_all(b"> ")?;
    out.write_all(line)?;
    out.write_all(b"\n")?;
    match answer_words(rt, state, line, out) {
        Ok(()) => rt.write_all(out.as_slice()),
        Err(refusal) => print_refused(rt, refusal, out),
    }
}

// Answers each line of the input. The lines are counted, since a loop is proved to end.
fn run(rt: &HostRuntime, state: &mut State) -> io::Result<()> {
    let mut input = BufReader::new(rt.alloc(), rt.stdin())?;
    let mut line = Vec::new(state.heap);
    let mut out = Vec::new(state.heap);
    for _ in 0..u64::MAX {
        line.clear();
        match input.read_until(b'\n', &mut line) {
            Ok(0) => break,
            Ok(_) => {}
            Err(e) => {
                eprintln!(rt; "cannot read the input: {e}")?;
                return Err(e);
            }
        }
        answer_line(rt, state, without_end(line.as_slice()), &mut out)?;
    }
    Ok(())
}

// Abandons each ticket that is still in hand, in the order of the places.
fn abandon_all(rt: &HostRuntime, state: &mut State) -> io::Result<()> {
    let mut out = Vec::new(state.heap);
    for place in 0..PLACES {
        if let Some(emptied) = state.bench.abandon(place) {
            say_abandoned(place, emptied, &mut out)?;
        }
    }
    rt.write_all(out.as_slice())
}

fn main(rt: HostRuntime) -> io::Result<()> {
    let mut state = State::new(rt.alloc());
    let ran = run(&rt, &mut state);
    let ended = abandon_all(&rt, &mut state);
    state.end();
    ran?;
    ended
}
