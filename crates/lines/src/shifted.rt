// The words of a field that its call closes up in place.
ghost use Rattle.std.specs.Prelude.{◌+◌, ◌*◌, ◌≤◌, length};
ghost use Rattle.stream.specs.Heads.{standing};
ghost use Rattle.field.specs.Field.{lent, variables};
ghost use Rattle.stream.specs.Outputs.{Onto};

use crate::outcomes::Ended;
use field::FieldRef;
use stream::lists::is_as_taken;
use stream::output::Output;

// Whether the entries from m on are what stands in the contents from `at` on.
fn entries_kept(contents: &[u8], at: usize, rows: &[u16], cols: &[u16], q: &[f64], m: usize) -> bool
    requires q_in_bounds { at + 2 * length rows.now + 2 * length cols.now + 8 * length q.now ≤ length contents.now }
    requires m_in_bounds { m ≤ length rows.now }
    requires m_in_bounds_2 { m ≤ length cols.now }
    requires m_in_bounds_3 { m ≤ length q.now }
{
    let cols_at = at + 2 * rows.len();
    let q_at = cols_at + 2 * cols.len();
    is_as_taken(contents, at + 2 * m, &rows[m..])
        && is_as_taken(contents, cols_at + 2 * m, &cols[m..])
        && is_as_taken(contents, q_at + 8 * m, &q[m..])
}

// The entries up to m, and whether what is past the new ends was found as promised.
pub fn put_closed(
    out: &mut Output<'_>,
    rows: &[u16],
    cols: &[u16],
    q: &[f64],
    m: usize,
    promise: &[u8],
    is_found: bool,
)
    requires m_in_bounds { m ≤ length rows.now }
    requires m_in_bounds_2 { m ≤ length cols.now }
    requires m_in_bounds_3 { m ≤ length q.now }
    ensures { Onto out.old.buffer out.new.buffer }
{
    out.put_text(b" entries=");
    out.put_entries(&rows[..m], &cols[..m], &q[..m]);
    out.put_text(b" field-past=");
    out.put_promise(promise, is_found);
}

// How many entries are in all three lists, at most `count`.
pub fn entries_in(rows: &[u16], cols: &[u16], q: &[f64], count: usize) -> usize
    ensures upper_bound { result ≤ length rows.now }
    ensures upper_bound_2 { result ≤ length cols.now }
    ensures upper_bound_3 { result ≤ length q.now }
{
    count.min(rows.len()).min(cols.len()).min(q.len())
}

fn put_shifted(out: &mut Output<'_>, count: usize, contents: &[u8], field: FieldRef)
    requires { standing (variables (lent field)) (length (lent field).rows) (length (lent field).cols) (length (lent field).quad) ≤ length contents.now }
    ensures { Onto out.old.buffer out.new.buffer }
{
    out.put_text(b" linear=");
    out.put_list(field.c, false);
    out.put_text(b" m=");
    out.put_number(count);
    let m = entries_in(field.rows, field.cols, field.q, count);
    let is_kept = entries_kept(
        contents,
        8 * field.c.len(),
        field.rows,
        field.cols,
        field.q,
        m,
    );
    put_closed(out, field.rows, field.cols, field.q, m, b"kept", is_kept);
}

// Whether the whole field is what stands at the front of the contents.
fn field_kept(contents: &[u8], field: FieldRef) -> bool
    requires { standing (variables (lent field)) (length (lent field).rows) (length (lent field).cols) (length (lent field).quad) ≤ length contents.now }
{
    is_as_taken(contents, 0, field.c)
        && entries_kept(
            contents,
            8 * field.c.len(),
            field.rows,
            field.cols,
            field.q,
            0,
        )
}

// Writes whether a refused call left the field's lists as the case gives them.
pub fn put_unchanged(out: &mut Output<'_>, contents: &[u8], field: FieldRef)
    requires { standing (variables (lent field)) (length (lent field).rows) (length (lent field).cols) (length (lent field).quad) ≤ length contents.now }
    ensures { Onto out.old.buffer out.new.buffer }
{
    let is_kept = field_kept(contents, field);
    out.put_text(b" field=");
    out.put_promise(b"kept", is_kept);
}

// Writes the field that a call leaves in the caller's lists, or, on a refusal, whether the lists are unchanged.
pub fn put_field(out: &mut Output<'_>, ended: Ended, contents: &[u8], field: FieldRef)
    requires { standing (variables (lent field)) (length (lent field).rows) (length (lent field).cols) (length (lent field).quad) ≤ length contents.now }
    ensures { Onto out.old.buffer out.new.buffer }
{
    match ended {
        Ok(outcome) => put_shifted(out, outcome.count, contents, field),
        Err(_) => put_unchanged(out, contents, field),
    }
}
