// Answers a stream of cases for the runs side by side with the Rust, a line a case (docs/CASES.md).
//
// `side-by-side/record crates/replay/stdin crates/replay/stdout CALLS` writes the recorded cases, and the Rust's answers to them.
#![tactic(auto)]

mod fresh;
mod making;

ghost use Rattle.std.specs.Prelude.{length};
ghost use Rattle.stream.specs.Heads.{Buffers};

use cases::case::Case;
use cases::reading::next_case;
use std::io::Stdin;
use stream::head::{LISTED, WORDS};
use stream::output::Output;

// A field's lists and its start values as bytes, 9 a variable and 12 an entry; constraints with start values take less.
const CONTENTS: usize = 430_164;

const LINES: usize = 16_384;

// A proved loop has to end, and nothing says that a stream does: the turns are as many as no run uses up.
fn answer_all(
    stdin: Stdin,
    contents: &mut [u8],
    list: &mut [u16],
    u: &mut [u32],
    out: &mut Output<'_>,
)
    requires { Buffers (length list.old) 163900 (length u.old) }
{
    for _ in 0..u64::MAX {
        let Some(head) = next_case(stdin, contents, out) else {
            return;
        };
        fresh::answer(Case { head, contents }, list, u, out);
    }
}

// The buffers as slices: what is asked of their lengths is clear from the arrays' types, and `main` would have to count them.
fn answer_in(
    stdin: Stdin,
    contents: &mut [u8; CONTENTS],
    list: &mut [u16; LISTED],
    u: &mut [u32; WORDS],
    out: &mut Output<'_>,
) {
    answer_all(stdin, contents, list, u, out);
}

fn main(rt: HostRuntime) {
    let mut contents = [0u8; CONTENTS];
    let mut list = [0u16; LISTED];
    let mut u = [0u32; WORDS];
    let mut lines = [0u8; LINES];
    let mut out = Output::new(rt.stdout(), &mut lines, 0);
    answer_in(rt.stdin(), &mut contents, &mut list, &mut u, &mut out);
}
