// The reason of one variable that is free in the start values, over lent memory.
ghost use Rattle.std.specs.Prelude.{◌≡◌, ◌<◌, length};
ghost use Rattle.field.specs.Field.{given, lent, variables};
ghost use Rattle.field.specs.Grade.{unit_of, ExactIn};
ghost use Rattle.field.specs.Tests.{Ready};
ghost use Rattle.rows.specs.Row.{judge_of};
ghost use Rattle.rows.specs.Model.{row_of};
ghost use Rattle.reason.specs.Until.{basis};
ghost use Rattle.reason.specs.Ground.{ground_of};
ghost use Rattle.reason.specs.Stages.{Stopped, marks_of};

use crate::Ground;
use crate::halt::{serve_until, take_back};
use crate::marking::mark;
use field::FieldRef;
use rows::store::row_at;

// The places, the rows, the scan, and the queue up to where i has its value; then the values are what the bound of i rests on.
pub fn rest(field: FieldRef, values: &mut [u8], f: &mut [f64], u: &mut [u32], i: usize)
    requires ready { Ready (lent field) values.old (length f.old) (length u.old) }
    requires exact_in { ExactIn (unit_of (lent field)) (lent field) }
    requires i_bound { i < variables (lent field) }
    ensures { Stopped (given field) values.old i values.new u.new }
{
    places::build(u, field.rows, field.cols, field.c.len());
    rows::fill::fill(field, values, f);
    let tail = run::queue::scan(field, values, f, u);
    let at = serve_until(field, values, f, u, tail, i);
    let base = field.c.len() + 1 + 2 * field.rows.len();
    take_back(values, u, base, at.head, at.last);
}

// The ground of i, from its row worked out anew; its fixed neighbours are marked.
pub fn trace(
    field: FieldRef,
    values: &mut [u8],
    f: &mut [f64],
    u: &mut [u32],
    i: usize,
    unit: u8,
) -> Ground
    requires ready { Ready (lent field) values.old (length f.old) (length u.old) }
    requires exact_in { ExactIn (unit_of (lent field)) (lent field) }
    requires i_bound { i < variables (lent field) }
    ensures value { result ≡ ground_of unit (judge_of (row_of (given field) (basis (given field) values.old i) i)) }
    ensures values_value { values.new ≡ marks_of (given field) (basis (given field) values.old i) i }
{
    rest(field, values, f, u, i);
    rows::fill::fill(field, values, f);
    let found = row_at(f, field.c.len(), i).conclude(i as u16);
    mark(field.rows, field.cols, values, u, i);
    crate::explain(found, unit)
}
