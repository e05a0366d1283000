// A case of the record: it is made, the operations of a script are made in it, and it is closed from.
#![tactic(auto)]

ghost use Rattle.std.specs.Prelude.{◌+◌, ◌≤◌, length};
ghost use Rattle.stream.specs.Outputs.{Onto};

use field::FieldRef;
use lines::left::{FLOAT, WORD};
use lines::outcomes::{Ended, answered, checked, counted};
use lines::put_outcome;
use lines::recorded::{put_closing, put_record, put_unmade};
use stream::output::Output;

// The longest record: two bounds of each variable.
const BOUNDS: usize = 8_200;

// The answer of an operation: 0 pins, any other releases; a value above 255 is no byte and is refused as 255 is.
fn operate(
    field: FieldRef,
    values: &mut [u8],
    bounds: &mut [f64],
    strict: &mut u32,
    operation: u16,
    variable: usize,
    value: u16,
) -> Ended {
    if operation == 0 {
        let byte = value.min(255) as u8;
        checked(kept::pin(field, values, bounds, strict, variable, byte))
    } else {
        checked(kept::release(field, values, bounds, strict, variable))
    }
}

// Between two numbers stands a comma.
fn put_next(out: &mut Output<'_>, ended: Ended, k: usize)
    ensures { Onto out.old.buffer out.new.buffer }
{
    if k > 0 {
        out.put(b',');
    }
    match ended {
        Ok(_) => out.put_number(0),
        Err(undone) => out.put_number(undone.number() as usize),
    }
}

// The operations of the script, three numbers each, in order, and the numbers of their answers.
fn put_each(
    out: &mut Output<'_>,
    field: FieldRef,
    values: &mut [u8],
    bounds: &mut [f64],
    strict: &mut u32,
    script: &[u16],
)
    ensures { Onto out.old.buffer out.new.buffer }
{
    for (k, step) in script.chunks_exact(3).enumerate() {
        let ended = operate(
            field,
            values,
            bounds,
            strict,
            step[0],
            usize::from(step[1]),
            step[2],
        );
        put_next(out, ended, k);
    }
}

// The answers of all operations, or a dash where there is none.
fn put_operations(
    out: &mut Output<'_>,
    field: FieldRef,
    values: &mut [u8],
    bounds: &mut [f64],
    strict: &mut u32,
    script: &[u16],
)
    ensures { Onto out.old.buffer out.new.buffer }
{
    out.put_text(b" operations=");
    if script.len() < 3 {
        out.put(b'-');
    }
    put_each(out, field, values, bounds, strict, script);
}

// The line in a field that is taken; the values stood in the contents from `at` on.
fn keep_in_field(
    contents: &[u8],
    at: usize,
    field: FieldRef,
    values: &mut [u8],
    bounds: &mut [f64],
    found: &mut [u8],
    script: &[u16],
    f: &mut [f64],
    u: &mut [u32],
    out: &mut Output<'_>,
)
    requires { at + length values.old ≤ length contents.now }
    ensures { Onto out.old.buffer out.new.buffer }
{
    let mut strict = WORD;
    let made = answered(kept::make(field, values, bounds, &mut strict, f, u));
    if made.is_err() {
        put_unmade(out, made, contents, at, values, bounds, strict, found, f, u);
        return;
    }
    put_outcome(out, made);
    put_operations(out, field, values, bounds, &mut strict, script);
    put_record(out, values, bounds, strict);
    f.fill(FLOAT);
    u.fill(WORD);
    let closing = counted(kept::close(field, values, bounds, found, f, u));
    put_closing(out, closing, found, f, u);
}

// With bounds of its own, as many as the case has room for.
pub fn answer_keep(
    room: usize,
    contents: &[u8],
    at: usize,
    field: FieldRef,
    values: &mut [u8],
    found: &mut [u8],
    script: &[u16],
    f: &mut [f64],
    u: &mut [u32],
    out: &mut Output<'_>,
)
    requires { at + length values.old ≤ length contents.now }
    ensures { Onto out.old.buffer out.new.buffer }
{
    let mut bounds = [FLOAT; BOUNDS];
    let count = room.min(BOUNDS);
    keep_in_field(
        contents,
        at,
        field,
        values,
        &mut bounds[..count],
        found,
        script,
        f,
        u,
        out,
    );
}
