// The public call: the diagonal of a field goes into its linear weights.
#![tactic(auto)]

ghost use Rattle.std.specs.Prelude.{◌≡◌};
ghost use Rattle.field.specs.Field.{field_of};
ghost use Rattle.field.specs.Tests.{Loose};
ghost use Rattle.shift.specs.Closing.{Closable, closing, close_at as close_at_of, closed, left_behind};
ghost use Rattle.shift.specs.Call.{left, shift_call};

use field::{Answer, Counted, FieldRef};

// The four lists go from call to call apart. A struct of them behind a `&mut` may come back with other lists in it, so that
// who lent them, as the C interface does, would know no more than the lengths of what is left in its own. A struct by value
// would be taken apart and built anew at each call in a loop, and a contract could name its lists afterwards only by their place.

// Half of a diagonal entry goes into its c, any other entry moves up to the place `kept`; hands back how many are kept now.
fn close_at(
    c: &mut [f64],
    rows: &mut [u16],
    cols: &mut [u16],
    q: &mut [f64],
    k: usize,
    kept: usize,
) -> usize
    requires { Closable k kept (field_of c.old rows.old cols.old q.old) }
    ensures { closing (left_behind c rows cols q) result ≡ close_at_of k (closing (field_of c.old rows.old cols.old q.old) kept) }
{
    let r = usize::from(rows[k]);
    if r == usize::from(cols[k]) {
        c[r] = c[r] + weights::half(q[k]);
        return kept;
    }
    rows[kept] = rows[k];
    cols[kept] = cols[k];
    q[kept] = q[k];
    kept + 1
}

// The entries off the diagonal close up in place, in order; hands back how many they are.
fn close_up(c: &mut [f64], rows: &mut [u16], cols: &mut [u16], q: &mut [f64]) -> usize
    requires { Loose (field_of c.old rows.old cols.old q.old) }
    ensures { closing (left_behind c rows cols q) result ≡ closed (field_of c.old rows.old cols.old q.old) }
{
    let mut kept: usize = 0;
    for k in 0..q.len() {
        kept = close_at(c, rows, cols, q, k, kept);
    }
    kept
}

// Entries close up in place and half of a diagonal goes into c; the answer has the new number of entries.
pub fn shift(c: &mut [f64], rows: &mut [u16], cols: &mut [u16], q: &mut [f64]) -> Answer<Counted>
    ensures { left result (left_behind c rows cols q) ≡ shift_call (field_of c.old rows.old cols.old q.old) }
{
    let field = FieldRef { c, rows, cols, q };
    field::tests::loose(field)?;
    let grade = field::grading::graded(field);
    let kept = close_up(c, rows, cols, q);
    Ok(Counted { grade, count: kept })
}
