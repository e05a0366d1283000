// Tallies many inputs, made by tools/tally_cases: each stands behind its length and the size of its reads, two bytes each, the lower first, and its limit, one byte, where 0 is 2^53.
#![tactic(auto)]

ghost use Rattle.std.specs.Prelude.{◌+◌, ◌^◌, ◌<◌, ◌≤◌, length};
ghost use Rattle.records.specs.WellFormed.{longest_input};

use input::read_full;
use record_program::write;
use std::io::{Stdin, Stdout};
use std::ops::ControlFlow;
use tally::Reached;
use tallying::turn;

fn limit(byte: u8) -> u64
    ensures { result ≤ 2 ^ 53 }
{
    if byte == 0 {
        0x20_0000_0000_0000
    } else {
        u64::from(byte)
    }
}

// Reads at most `size` bytes of the input behind those that are held; how many.
fn read_more(buffer: &mut [u8], held: usize, input: &[u8], at: usize, size: usize) -> usize
    requires held_in_bounds { held < length buffer.old }
    requires at_in_bounds { at ≤ length input.now }
    ensures result_in_bounds { held + result ≤ length buffer.new }
    ensures result_in_bounds_2 { at + result ≤ length input.now }
{
    let n = size.min(input.len() - at).min(buffer.len() - held);
    buffer[held..held + n].copy_from_slice(&input[at..at + n]);
    n
}

// The input in reads of `size` bytes.
fn tally_reads(stdout: Stdout, input: &[u8], size: usize, buffer: &mut [u8], most: u64)
    requires longest_input_in_bounds { longest_input < length buffer.old }
    requires most_bound { most ≤ 2 ^ 53 }
{
    let mut at: usize = 0;
    let mut reached = Reached {
        totals: tally::nothing(),
        at: 0,
    };
    loop {
        let n = read_more(buffer, reached.at, input, at, size);
        at += n;
        match turn(buffer, reached, n, most) {
            ControlFlow::Continue(next) => reached = next,
            ControlFlow::Break(tally) => {
                write(stdout, tally);
                return;
            }
        }
    }
}

// Reads an input that is as long as the bytes lent for it, and tallies it.
fn tally_next(stdin: Stdin, stdout: Stdout, input: &mut [u8], size: usize, most: u64) -> bool
    requires { most ≤ 2 ^ 53 }
{
    if read_full(stdin, input) < input.len() {
        return false;
    }
    // room for the longest field and a byte
    let mut buffer = [0u8; 18179];
    tally_reads(stdout, input, size, &mut buffer, most);
    true
}

// Whether there was one more input.
fn next(stdin: Stdin, stdout: Stdout) -> bool {
    let mut head = [0u8; 5];
    if read_full(stdin, &mut head) < 5 {
        return false;
    }
    let length = usize::from(endian::short(&head, 0));
    let size = usize::from(endian::short(&head, 2));
    let most = limit(head[4]);
    let mut input = [0u8; 65535];
    tally_next(stdin, stdout, &mut input[..length], size, most)
}

fn main(rt: HostRuntime) {
    for _ in 0..1000 {
        if !next(rt.stdin(), rt.stdout()) {
            return;
        }
    }
}
