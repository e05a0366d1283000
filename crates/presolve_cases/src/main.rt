// Answers many inputs, each after its length as two bytes, the lower first: the tests of the record format, made by tools/record_cases.
#![tactic(auto)]

use input::read_full;
use std::io::{Stdin, Stdout};

// Whether there was one more input.
fn answer_next(stdin: Stdin, stdout: Stdout) -> bool {
    let mut head = [0u8; 2];
    if read_full(stdin, &mut head) < 2 {
        return false;
    }
    let size = usize::from(endian::short(&head, 0));
    if size > 18179 {
        return false;
    }
    let mut input = [0u8; 18179];
    let n = read_full(stdin, &mut input[..size]);
    if n < size {
        return false;
    }
    let mut text = [0u8; 2582];
    let r = answering::answer(&input, n, &mut text);
    stdout.write_all(&text[..r]).is_ok()
}

fn main(rt: HostRuntime) {
    for _ in 0..1000 {
        if !answer_next(rt.stdin(), rt.stdout()) {
            return;
        }
    }
}
