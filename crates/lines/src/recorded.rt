// The words of a record.
ghost use Rattle.std.specs.Prelude.{◌+◌, ◌≤◌, length};
ghost use Rattle.stream.specs.Outputs.{Onto};

use crate::call::Call;
use crate::left::{WORD, put_kept, put_zeros};
use crate::outcomes::Ended;
use crate::{put_count, put_outcome, put_scratch};
use stream::lists::is_as_taken;
use stream::output::Output;

// A record that a refusal left.
fn put_record_left(out: &mut Output<'_>, bounds: &[f64], strict: u32, found: &[u8])
    ensures { Onto out.old.buffer out.new.buffer }
{
    out.put_text(b" bounds=");
    put_kept(out, bounds);
    out.put_text(b" strict=");
    out.put_promise(b"kept", strict == WORD);
    out.put_text(b" found=");
    put_kept(out, found);
}

// The whole line of a refusal of the making call; the values stood in the contents from `at` on.
pub fn put_unmade(
    out: &mut Output<'_>,
    ended: Ended,
    contents: &[u8],
    at: usize,
    values: &[u8],
    bounds: &[f64],
    strict: u32,
    found: &[u8],
    f: &[f64],
    u: &[u32],
)
    requires { at + length values.now ≤ length contents.now }
    ensures { Onto out.old.buffer out.new.buffer }
{
    put_outcome(out, ended);
    out.put_text(b" values=");
    out.put_promise(b"kept", is_as_taken(contents, at, values));
    put_record_left(out, bounds, strict, found);
    put_scratch(out, Call::Keep, ended, f, u);
}

// The record as the operations leave it.
pub fn put_record(out: &mut Output<'_>, values: &[u8], bounds: &[f64], strict: u32)
    ensures { Onto out.old.buffer out.new.buffer }
{
    out.put_text(b" values=");
    out.put_digits(values);
    out.put_text(b" bounds=");
    out.put_list(bounds, false);
    out.put_text(b" strict=");
    out.put_number(strict as usize);
}

// The closing call's number, its count and its list.
fn put_closed(out: &mut Output<'_>, ended: Ended, found: &[u8])
    ensures { Onto out.old.buffer out.new.buffer }
{
    out.put_text(b" closing=");
    match ended {
        Ok(outcome) => {
            out.put_number(0);
            put_count(out, outcome.count);
            out.put_text(b" found=");
            out.put_digits(found);
        }
        Err(undone) => {
            out.put_number(undone.number() as usize);
            out.put_text(b" found=");
            put_zeros(out, found);
        }
    }
}

// Writes the rest of a line of `keep`, behind the record: what closing from it gave, and the line's end.
pub fn put_closing(out: &mut Output<'_>, ended: Ended, found: &[u8], f: &[f64], u: &[u32])
    ensures { Onto out.old.buffer out.new.buffer }
{
    put_closed(out, ended, found);
    put_scratch(out, Call::Keep, ended, f, u);
}
