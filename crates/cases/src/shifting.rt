// A case of the shift, which takes no start values, answer list or scratch.
ghost use Rattle.std.specs.Prelude.{◌≤◌, length};
ghost use Rattle.stream.specs.Heads.{standing};
ghost use Rattle.stream.specs.Outputs.{Onto};

use crate::case::Case;
use field::FieldRef;
use lines::outcomes::counted;
use lines::put_outcome;
use lines::shifted::put_field;
use stream::head::{ENTRIES, VARIABLES};
use stream::output::Output;

// Shifts a field that stands at the front of the contents, and puts its line.
fn shift_field(
    contents: &[u8],
    c: &mut [f64],
    rows: &mut [u16],
    cols: &mut [u16],
    q: &mut [f64],
    out: &mut Output<'_>,
)
    requires { standing (length c.old) (length rows.old) (length cols.old) (length q.old) ≤ length contents.now }
    ensures { Onto out.old.buffer out.new.buffer }
{
    let ended = counted(shift::shift(c, rows, cols, q));
    put_outcome(out, ended);
    put_field(out, ended, contents, FieldRef { c, rows, cols, q });
    out.put(b'\n');
}

// Makes the call `shift` on the field of a case, in lists of its own, and writes the line of its answer.
pub fn answer_shift(case: Case<'_>, out: &mut Output<'_>)
    ensures { Onto out.old.buffer out.new.buffer }
{
    let mut c = [0.0f64; VARIABLES];
    let mut rows = [0u16; ENTRIES];
    let mut cols = [0u16; ENTRIES];
    let mut q = [0.0f64; ENTRIES];
    case.take_linear(&mut c);
    case.take_rows(&mut rows);
    case.take_columns(&mut cols);
    case.take_weights(&mut q);
    let variables = case.head.linear;
    let row_count = case.head.rows;
    let column_count = case.head.columns;
    let weight_count = case.head.weights;
    shift_field(
        case.contents,
        &mut c[..variables],
        &mut rows[..row_count],
        &mut cols[..column_count],
        &mut q[..weight_count],
        out,
    );
}
