// The line of the call that asks what constraints allow.
ghost use Rattle.std.specs.Prelude.{◌≤◌, length};
ghost use Rattle.stream.specs.Outputs.{Onto};

use crate::left::{put_kept, put_left};
use crate::outcomes::Undone;
use crate::{put_items, put_lent};
use stream::output::Output;

// Yes, or no and the variable.
fn put_verdict(out: &mut Output<'_>, failing: Option<usize>)
    ensures { Onto out.old.buffer out.new.buffer }
{
    match failing {
        None => out.put_text(b" yes"),
        Some(variable) => {
            out.put_text(b" no=");
            out.put_number(variable);
        }
    }
}

// The values up to `end`, and what is past them.
fn put_assigned(out: &mut Output<'_>, assignment: &[u8], end: usize)
    requires { end ≤ length assignment.now }
    ensures { Onto out.old.buffer out.new.buffer }
{
    out.put_digits(&assignment[..end]);
    out.put_text(b" past=");
    put_kept(out, &assignment[end..]);
}

// The answer, the assignment of n variables and the counts of their literals.
fn put_found(
    out: &mut Output<'_>,
    failing: Option<usize>,
    n: usize,
    assignment: &[u8],
    counts: &[u16],
)
    ensures { Onto out.old.buffer out.new.buffer }
{
    put_verdict(out, failing);
    out.put_text(b" assignment=");
    put_assigned(out, assignment, n.min(assignment.len()));
    out.put_text(b" counts=");
    let literals = 2 * n.min(counts.len() / 2);
    put_items(out, counts, literals, false);
}

// Both answer lists after a refusal.
fn put_lists_left(out: &mut Output<'_>, undone: Undone, assignment: &[u8], counts: &[u16])
    ensures { Onto out.old.buffer out.new.buffer }
{
    out.put_text(b" assignment=");
    put_left(out, undone.leaves_all(), assignment);
    out.put_text(b" counts=");
    put_left(out, undone.leaves_list(), counts);
}

// Writes the whole line of an answer of `allow`: the answer, which is no variable where some assignment meets all, both lists and both scratches.
pub fn put_allowed(
    out: &mut Output<'_>,
    answer: Result<Option<usize>, Undone>,
    n: usize,
    assignment: &[u8],
    counts: &[u16],
    w: &[u64],
    u: &[u32],
)
    ensures { Onto out.old.buffer out.new.buffer }
{
    match answer {
        Ok(failing) => {
            out.put_number(0);
            put_found(out, failing, n, assignment, counts);
        }
        Err(undone) => {
            out.put_number(undone.number() as usize);
            put_lists_left(out, undone, assignment, counts);
        }
    }
    put_lent(out, b" longs=", answer.err(), w);
    put_lent(out, b" words=", answer.err(), u);
    out.put(b'\n');
}
