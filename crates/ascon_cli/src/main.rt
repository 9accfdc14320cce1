//! Seals, opens and hashes what the lines on standard input ask for, each answered by a line.
#![tactic(auto)]

ghost use Rattle.std.specs.Prelude.{◌≤◌, length, IfOk};

mod answers;
mod arguments;
mod fault;
mod key;
mod reply;
mod request;
mod responder;
mod secret;
mod split;

use answers::Answers;
use responder::Responder;
use secret::Secret;
use std::io;
use std::io::{Print, Read};
use std::process::ExitCode;

/// How much is read at once, and about how much is written at once.
const BUFFER: usize = 65536;

fn main(rt: HostRuntime) -> ExitCode {
    match run(&rt, &mut rt.stdin()) {
        Ok(()) => ExitCode::SUCCESS,
        Err(error) => {
            let _ = eprintln!(rt; "ascon: {error}");
            ExitCode::FAILURE
        }
    }
}

// What was answered before a failure is written all the same.
fn run<R: Print + AllocGlobal>(rt: &R, input: &mut impl Read) -> io::Result<()> {
    let mut responder = Responder::new(rt.alloc());
    let result = answer_input(rt, input, &mut responder);
    write_out(rt, &mut responder.out)?;
    result
}

fn answer_input<R: Print + AllocGlobal>(
    rt: &R,
    input: &mut impl Read,
    responder: &mut Responder,
) -> io::Result<()> {
    let mut buffer = Secret::zeros(rt.alloc(), BUFFER)?;
    // `loop` has no number that shows its end, so the reads are counted.
    for _ in 0..u64::MAX {
        let count = read_some(input, &mut buffer)?;
        if count == 0 {
            break;
        }
        answer_all(rt, &buffer.as_slice()[..count], responder)?;
    }
    responder.take_last()?;
    Ok(())
}

fn read_some(input: &mut impl Read, buffer: &mut Secret) -> io::Result<usize>
    ensures { IfOk result (λ n. n ≤ length buffer.new) }
{
    input.read(buffer.as_mut_slice())
}

// Answers the lines that end in `input`, and writes the answers out as they grow many.
fn answer_all(rt: &impl Print, input: &[u8], responder: &mut Responder) -> io::Result<()> {
    let mut rest = input;
    while !rest.is_empty() {
        let taken = responder.take_line(rest)?;
        rest = &rest[taken..];
        if responder.out.as_slice().len() >= BUFFER {
            write_out(rt, &mut responder.out)?;
        }
    }
    Ok(())
}

// Nothing is kept if it cannot be written, so that nothing is written twice.
fn write_out(rt: &impl Print, out: &mut Answers) -> io::Result<()> {
    let result = rt.write_all(out.as_slice());
    out.clear();
    result
}
