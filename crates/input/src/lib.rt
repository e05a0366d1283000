// Standard input, read into lent bytes.
#![tactic(auto)]

ghost use Rattle.std.specs.Prelude.{◌≤◌, length};

use std::io::{Read, Stdin};

// Reads until the buffer is full, the input ends or a read fails; how many bytes stand at the front of the buffer then.
pub fn read_full(mut stdin: Stdin, buffer: &mut [u8]) -> usize
    ensures { result ≤ length buffer.new }
{
    let mut done: usize = 0;
    // A read says how many bytes came, so no range has a place for each read.
    while done < buffer.len() {
        match stdin.read(&mut buffer[done..]) {
            Ok(n) if n > 0 => done += n,
            _ => break,
        }
    }
    done
}
