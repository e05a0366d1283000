// The whole answer: the field that an input tells, its closure, and their text.
#![tactic(auto)]

ghost use Rattle.std.specs.Prelude.{◌≤◌, ◌<◌, length, take};
ghost use Rattle.field.specs.Field.{lent, given};
ghost use Rattle.text.specs.Text.{Written};
ghost use Rattle.records.specs.Parsing.{told_by, Room};
ghost use Rattle.records.specs.WellFormed.{longest_input};
ghost use Rattle.answering.specs.Answer.{Enough, Fits, Fronted, front_field, field_text, answer_bytes as answer_bytes_of};

use field::{Counted, FieldRef};
use records::parsing::{Lists, Parsed, parse};
use text::{put_bytes, write_answer, write_refused};

// The closure works on a copy: the start values say which variables were given.
fn answer_field(
    field: FieldRef,
    start: &[u8],
    values: &mut [u8],
    f: &mut [f64],
    u: &mut [u32],
    out: &mut [u8],
) -> usize
    requires fits { Fits (lent field) start.now (length values.old) }
    requires enough { Enough (length f.old) (length u.old) (length out.old) }
    ensures { Written (field_text (given field) start.now) out.old out.new result }
{
    put_bytes(values, 0, start);
    let answer = closure::closure(field, values, f, u);
    match answer {
        Ok(Counted { grade, .. }) => write_answer(grade, start, values, out),
        Err(refusal) => write_refused(refusal.number() as usize, out),
    }
}

// The answer to the field at the front of the lists.
fn answer_found(
    lists: &Lists,
    found: Parsed,
    values: &mut [u8],
    f: &mut [f64],
    u: &mut [u32],
    out: &mut [u8],
) -> usize
    requires fronted { Fronted found.variables found.entries (told_by lists.now) }
    requires in_bounds { 256 ≤ length values.old }
    requires enough { Enough (length f.old) (length u.old) (length out.old) }
    ensures { Written (field_text (front_field found.variables found.entries (told_by lists.now)) (take found.variables lists.now.start.now)) out.old out.new result }
{
    let n = found.variables;
    let m = found.entries;
    answer_field(
        FieldRef {
            c: &lists.c[..n],
            rows: &lists.rows[..m],
            cols: &lists.cols[..m],
            q: &lists.q[..m],
        },
        &lists.start[..n],
        &mut values[..n],
        f,
        u,
        out,
    )
}

// The field lies at the front of the lists, with room for the largest; no byte may follow its ZZ.
fn answer_in(
    bytes: &[u8],
    lists: &mut Lists,
    values: &mut [u8],
    f: &mut [f64],
    u: &mut [u32],
    out: &mut [u8],
) -> usize
    requires room { Room (told_by lists.old) }
    requires in_bounds { 256 ≤ length values.old }
    requires enough { Enough (length f.old) (length u.old) (length out.old) }
    ensures { Written (answer_bytes_of bytes.now) out.old out.new result }
{
    match parse(bytes, lists) {
        Some(found) => {
            if found.end < bytes.len() {
                return write_refused(11, out);
            }
            answer_found(lists, found, values, f, u, out)
        }
        None => write_refused(11, out),
    }
}

// The text for an input, at the front of `out`, which has room for any: 22 bytes for the grade and the end, and 10 for each of 256 x lines.
fn answer_bytes(bytes: &[u8], out: &mut [u8; 2582]) -> usize
    ensures { Written (answer_bytes_of bytes.now) out.old out.new result }
{
    let mut c = [0.0; 256];
    let mut rows = [0u16; 1024];
    let mut cols = [0u16; 1024];
    let mut q = [0.0; 1024];
    let mut start = [0u8; 256];
    let mut values = [0u8; 256];
    let mut f = [0.0; 6160];
    let mut u = [0u32; 12304];
    let mut lists = Lists {
        c: &mut c,
        rows: &mut rows,
        cols: &mut cols,
        q: &mut q,
        start: &mut start,
    };
    answer_in(bytes, &mut lists, &mut values, &mut f, &mut u, out)
}

// The text for the n bytes that were read into `input`, which has room for one more than the longest well-formed input has: what follows changes no answer.
pub fn answer(input: &[u8; 18179], n: usize, out: &mut [u8; 2582]) -> usize
    ensures written { Written (answer_bytes_of (take n input.now)) out.old out.new result }
    ensures longest_input_in_bounds { longest_input < length input.now }
{
    answer_bytes(&input[..n.min(input.len())], out)
}
