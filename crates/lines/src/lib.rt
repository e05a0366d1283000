// The words of an answer's line, in the order of docs/CASES.md, and which call has which.
#![tactic(auto)]

pub mod allowed;
pub mod call;
pub mod left;
pub mod outcomes;
pub mod recorded;
pub mod reduced;
pub mod shifted;

ghost use Rattle.std.specs.Prelude.{◌+◌, ◌≤◌, length};
ghost use Rattle.stream.specs.Outputs.{Onto};

use crate::call::Call;
use crate::left::{Lent, put_kept, put_left, put_zeros};
use crate::outcomes::{Ended, Outcome, Reason, Side, Undone};
use field::{Grade, Refusal};
use stream::lists::is_as_taken;
use stream::output::Output;

// Writes the position that a refusal names.
fn put_position(out: &mut Output<'_>, refusal: Refusal)
    ensures { Onto out.old.buffer out.new.buffer }
{
    match refusal {
        Refusal::Row(k) | Refusal::Column(k) | Refusal::Repeat(k) | Refusal::Order(k) => {
            out.put_text(b" at=");
            out.put_number(k);
        }
        _ => {}
    }
}

// Writes that there is no such call, or the number and the position that a refusal names.
fn put_undone(out: &mut Output<'_>, undone: Undone)
    ensures { Onto out.old.buffer out.new.buffer }
{
    match undone {
        Undone::Absent => out.put_text(b"absent"),
        Undone::Refusing(refusal) => {
            out.put_number(undone.number() as usize);
            put_position(out, refusal);
        }
        Undone::Numbered(number) => out.put_number(number as usize),
    }
}

// Writes 0 and, where there is a field, its grade.
fn put_done(out: &mut Output<'_>, outcome: Outcome)
    ensures { Onto out.old.buffer out.new.buffer }
{
    out.put_number(0);
    match outcome.grade {
        Some(Grade::Exact) => out.put_text(b" exact"),
        Some(Grade::Inexact) => out.put_text(b" inexact"),
        None => {}
    }
}

// The number and, where there is a field, its grade; the position that a refusal names.
pub fn put_outcome(out: &mut Output<'_>, ended: Ended)
    ensures { Onto out.old.buffer out.new.buffer }
{
    match ended {
        Ok(outcome) => put_done(out, outcome),
        Err(undone) => put_undone(out, undone),
    }
}

// The start values, which stood in the contents from `at` on.
fn put_values(out: &mut Output<'_>, ended: Ended, contents: &[u8], at: usize, start: &[u8])
    requires { at + length start.now ≤ length contents.now }
    ensures { Onto out.old.buffer out.new.buffer }
{
    out.put_text(b" values=");
    match ended {
        Ok(_) => out.put_digits(start),
        Err(_) => out.put_promise(b"kept", is_as_taken(contents, at, start)),
    }
}

// Writes ` count=` and the number of items that a call answered.
pub fn put_count(out: &mut Output<'_>, count: usize)
    ensures { Onto out.old.buffer out.new.buffer }
{
    out.put_text(b" count=");
    out.put_number(count);
}

// The flat rows that the closure counts, or the pairs that are examined.
fn put_counts(out: &mut Output<'_>, call: Call, outcome: Outcome)
    ensures { Onto out.old.buffer out.new.buffer }
{
    if call == Call::Closure {
        put_count(out, outcome.count);
    }
    if call == Call::Pairs {
        out.put_text(b" pairs=");
        out.put_number(outcome.pairs);
    }
}

// Where the last item of an answer list ends, as far as the list goes.
fn end_of(count: usize, in_triples: bool, long: usize) -> usize
    ensures { result ≤ long }
{
    let each: usize = if in_triples { 3 } else { 1 };
    count.saturating_mul(each).min(long)
}

// The items of an answer list up to `end`, and what is past them.
fn put_items(out: &mut Output<'_>, list: &[u16], end: usize, in_triples: bool)
    requires { end ≤ length list.now }
    ensures { Onto out.old.buffer out.new.buffer }
{
    out.put_list(&list[..end], in_triples);
    out.put_text(b" past=");
    put_kept(out, &list[end..]);
}

// An answer list under its name.
pub fn put_answer_list(
    out: &mut Output<'_>,
    name: &[u8],
    ended: Ended,
    list: &[u16],
    in_triples: bool,
)
    ensures { Onto out.old.buffer out.new.buffer }
{
    match ended {
        Ok(outcome) => {
            put_count(out, outcome.count);
            out.put_text(name);
            let end = end_of(outcome.count, in_triples, list.len());
            put_items(out, list, end, in_triples);
        }
        Err(undone) => {
            out.put_text(name);
            put_left(out, undone.leaves_list(), list);
        }
    }
}

// The found values.
fn put_found(out: &mut Output<'_>, ended: Ended, found: &[u8])
    ensures { Onto out.old.buffer out.new.buffer }
{
    out.put_text(b" found=");
    match ended {
        Ok(_) => out.put_digits(found),
        Err(undone) => put_left(out, undone.leaves_all(), found),
    }
}

// Writes a scratch under its name: as it was after an early refusal, and else zeros.
fn put_lent<T: Lent>(out: &mut Output<'_>, name: &[u8], undone: Option<Undone>, scratch: &[T])
    ensures { Onto out.old.buffer out.new.buffer }
{
    out.put_text(name);
    match undone {
        Some(undone) => put_left(out, undone.leaves_all(), scratch),
        None => put_zeros(out, scratch),
    }
}

// Writes how both scratches were left, and the end of the line.
pub fn put_scratch(out: &mut Output<'_>, call: Call, ended: Ended, f: &[f64], u: &[u32])
    ensures { Onto out.old.buffer out.new.buffer }
{
    if call.has_floats() {
        put_lent(out, b" floats=", ended.err(), f);
    }
    put_lent(out, b" words=", ended.err(), u);
    out.put(b'\n');
}

// The side, the unit and the bound of a reason.
fn put_reason(out: &mut Output<'_>, reason: Reason)
    ensures { Onto out.old.buffer out.new.buffer }
{
    let side = match reason.side {
        Side::Given => b" ground=given",
        Side::Lower => b" ground=lower",
        Side::Upper => b" ground=upper",
    };
    out.put_text(side);
    out.put_text(b" unit=");
    out.put_number(usize::from(reason.unit));
    out.put_text(b" bound=");
    out.put_word(reason.bound);
}

// The counts and the answer lists, where the call has them.
fn put_answers(out: &mut Output<'_>, call: Call, ended: Ended, found: &[u8], list: &[u16])
    ensures { Onto out.old.buffer out.new.buffer }
{
    if let Ok(outcome) = ended {
        put_counts(out, call, outcome);
    }
    if call.has_constraints() {
        put_answer_list(out, b" constraints=", ended, list, true);
    }
    if call.has_found() {
        put_found(out, ended, found);
    }
    if let Ok(
        Outcome {
            reason: Some(reason),
            ..
        },
    ) = ended
    {
        put_reason(out, reason);
    }
    if call.has_variables() {
        put_answer_list(out, b" variables=", ended, list, false);
    }
}

// The whole line of a call that keeps the field; the start values stood in the contents from `at` on.
pub fn put_line(
    out: &mut Output<'_>,
    call: Call,
    ended: Ended,
    contents: &[u8],
    at: usize,
    start: &[u8],
    found: &[u8],
    list: &[u16],
    f: &[f64],
    u: &[u32],
)
    requires { at + length start.now ≤ length contents.now }
    ensures { Onto out.old.buffer out.new.buffer }
{
    put_outcome(out, ended);
    if call.has_values() {
        put_values(out, ended, contents, at, start);
    }
    put_answers(out, call, ended, found, list);
    put_scratch(out, call, ended, f, u);
}
