// The next case of the stream, read whole.
ghost use Rattle.std.specs.Prelude.{◌≤◌, length, IfSome};
ghost use Rattle.stream.specs.Heads.{Fits};
ghost use Rattle.stream.specs.Outputs.{Onto};

use input::read_full;
use std::io::Stdin;
use stream::head::Head;
use stream::output::Output;

// Reads n bytes to the start of the buffer, and answers whether they were there.
fn read(stdin: Stdin, bytes: &mut [u8], n: usize) -> bool
    requires { n ≤ length bytes.old }
{
    read_full(stdin, &mut bytes[..n]) == n
}

// Says why there is no further case, and writes what output there is.
fn stop(out: &mut Output<'_>, why: &[u8])
    ensures { Onto out.old.buffer out.new.buffer }
{
    out.put_text(why);
    out.flush();
}

// The next case's head, if the buffers hold the case.
fn next_head(stdin: Stdin, out: &mut Output<'_>, size: usize) -> Option<Head>
    ensures head { IfSome result (λ h. Fits h size) }
    ensures onto { Onto out.old.buffer out.new.buffer }
{
    let mut bytes = [0u8; 77];
    let got = read_full(stdin, &mut bytes);
    if got < 77 {
        stop(out, if got == 0 { b"" } else { b"cut\n" });
        return None;
    }
    let head = Head::parse(&bytes);
    if head.fits(size) {
        return Some(head);
    }
    stop(out, b"too long\n");
    None
}

// Reads the next case of the stream, its head and its contents; there is none where the stream ends, is cut or has a case that does not fit.
pub fn next_case(stdin: Stdin, contents: &mut [u8], out: &mut Output<'_>) -> Option<Head>
    ensures head { IfSome result (λ h. Fits h (length contents.new)) }
    ensures onto { Onto out.old.buffer out.new.buffer }
{
    let head = next_head(stdin, out, contents.len())?;
    if read(stdin, contents, head.contents()) {
        return Some(head);
    }
    stop(out, b"cut\n");
    None
}
