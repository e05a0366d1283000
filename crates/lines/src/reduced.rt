// The lines of the smaller problem and of a mended list, which close up in the field's lists.
ghost use Rattle.std.specs.Prelude.{◌≤◌, length};
ghost use Rattle.stream.specs.Heads.{standing};
ghost use Rattle.field.specs.Field.{lent, variables};
ghost use Rattle.stream.specs.Outputs.{Onto};

use crate::call::Call;
use crate::outcomes::Ended;
use crate::shifted::{entries_in, put_closed, put_unchanged};
use crate::{put_answer_list, put_outcome, put_scratch};
use field::FieldRef;
use stream::lists::all_are;
use stream::output::Output;

// Whether every place past the new ends is zero.
fn zeros_past(field: FieldRef, n: usize, m: usize) -> bool
    requires n_in_bounds { n ≤ variables (lent field) }
    requires m_in_bounds { m ≤ length (lent field).rows }
    requires m_in_bounds_2 { m ≤ length (lent field).cols }
    requires m_in_bounds_3 { m ≤ length (lent field).quad }
{
    all_are(&field.c[n..], 0.0)
        && all_are(&field.rows[m..], 0)
        && all_are(&field.cols[m..], 0)
        && all_are(&field.q[m..], 0.0)
}

// The first n linear weights.
fn put_linear(out: &mut Output<'_>, c: &[f64], n: usize)
    requires { n ≤ length c.now }
    ensures { Onto out.old.buffer out.new.buffer }
{
    out.put_text(b" linear=");
    out.put_list(&c[..n], false);
}

// How many entries there are, the entries, and whether zeros are behind them and behind n linear weights.
fn put_entries(out: &mut Output<'_>, count: usize, field: FieldRef, n: usize)
    requires { n ≤ variables (lent field) }
    ensures { Onto out.old.buffer out.new.buffer }
{
    let m = entries_in(field.rows, field.cols, field.q, count);
    let is_zeros = zeros_past(field, n, m);
    out.put_text(b" m=");
    out.put_number(count);
    put_closed(out, field.rows, field.cols, field.q, m, b"zeros", is_zeros);
}

// The whole line of the smaller problem, with its constant.
pub fn put_reduced(
    out: &mut Output<'_>,
    ended: Ended,
    constant: f64,
    contents: &[u8],
    field: FieldRef,
    list: &[u16],
    f: &[f64],
    u: &[u32],
)
    requires { standing (variables (lent field)) (length (lent field).rows) (length (lent field).cols) (length (lent field).quad) ≤ length contents.now }
    ensures { Onto out.old.buffer out.new.buffer }
{
    put_outcome(out, ended);
    put_answer_list(out, b" variables=", ended, list, false);
    match ended {
        Ok(outcome) => {
            let n = outcome.count.min(field.c.len());
            put_linear(out, field.c, n);
            put_entries(out, outcome.pairs, field, n);
            out.put_text(b" constant=");
            out.put_word(constant);
        }
        Err(_) => put_unchanged(out, contents, field),
    }
    put_scratch(out, Call::SubProblem, ended, f, u);
}

// The whole line of a mended list.
pub fn put_mended(
    out: &mut Output<'_>,
    ended: Ended,
    contents: &[u8],
    field: FieldRef,
    list: &[u16],
    f: &[f64],
    u: &[u32],
)
    requires { standing (variables (lent field)) (length (lent field).rows) (length (lent field).cols) (length (lent field).quad) ≤ length contents.now }
    ensures { Onto out.old.buffer out.new.buffer }
{
    put_outcome(out, ended);
    put_answer_list(out, b" changes=", ended, list, true);
    match ended {
        Ok(outcome) => put_entries(out, outcome.pairs, field, field.c.len()),
        Err(_) => put_unchanged(out, contents, field),
    }
    put_scratch(out, Call::Mend, ended, f, u);
}
