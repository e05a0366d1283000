// What the record program does with its argument, its input and its output: the answer to one field, or, where its first argument is `tally`, the tally
// of many. A failed read is the end of the input, and what a failed write leaves out is lost.
#![tactic(auto)]

ghost use Rattle.std.specs.Prelude.{◌≡◌, ◌+◌, ◌<◌, ◌≤◌, length};
ghost use Rattle.records.specs.WellFormed.{longest_input};
ghost use Rattle.tally.specs.Tally.{Small};
ghost use Rattle.tally.specs.Text.{tally_text};
ghost use Rattle.record_program.specs.Handed.{Handed};

use input::read_full;
use std::env::Env;
use std::io::{Read, Stdin, Stdout};
use std::ops::ControlFlow;
use tally::{Reached, Tally};
use tallying::turn;

// Answers one field.
fn answer(stdin: Stdin, stdout: Stdout) -> usize
    ensures { Handed result }
{
    // One byte more than the longest well-formed input, as `answer` asks: what follows it changes no answer.
    let mut input = [0u8; 18179];
    let n = read_full(stdin, &mut input);
    let mut text = [0u8; 2582];
    let size = answering::answer(&input, n, &mut text);
    let _ = stdout.write_all(&text[..size]);
    size
}

// Reads behind the bytes that are held, where there is room for one at least; how many came, where none is the end of the input.
fn read_more(mut stdin: Stdin, buffer: &mut [u8], held: usize) -> usize
    requires { held < length buffer.old }
    ensures { held + result ≤ length buffer.new }
{
    stdin.read(&mut buffer[held..]).unwrap_or(0)
}

// Writes a tally; how many bytes it has.
pub fn write(stdout: Stdout, tally: Tally) -> usize
    requires { Small tally.totals }
    ensures { result ≡ length (tally_text tally) }
{
    let mut text = [0u8; 192];
    let size = tally::write(tally, &mut text);
    let _ = stdout.write_all(&text[..size]);
    size
}

// Reads on until the input ends, a record is malformed, or a total would pass 2^53, and writes the tally.
fn tally_all(stdin: Stdin, stdout: Stdout, buffer: &mut [u8]) -> usize
    requires { longest_input < length buffer.old }
    ensures { Handed result }
{
    let mut reached = Reached {
        totals: tally::nothing(),
        at: 0,
    };
    loop {
        let n = read_more(stdin, buffer, reached.at);
        match turn(buffer, reached, n, 0x20_0000_0000_0000) {
            ControlFlow::Continue(next) => reached = next,
            ControlFlow::Break(tally) => return write(stdout, tally),
        }
    }
}

// Whether the first argument is `tally`.
fn is_tally(rt: &impl Env) -> bool {
    let mut word = [0u8; 6];
    match rt.arg(1, &mut word) {
        Ok(n) => &word[..n] == b"tally".as_slice(),
        Err(_) => false,
    }
}

// Tallies many fields in a buffer of its own, so that it stands on the stack for a tally alone.
fn tally_fields(stdin: Stdin, stdout: Stdout) -> usize
    ensures { Handed result }
{
    let mut buffer = [0u8; 65536];
    tally_all(stdin, stdout, &mut buffer)
}

// What both programs do; how many bytes they hand over.
pub fn run(rt: &HostRuntime) -> usize
    ensures { Handed result }
{
    if is_tally(rt) {
        return tally_fields(rt.stdin(), rt.stdout());
    }
    answer(rt.stdin(), rt.stdout())
}
