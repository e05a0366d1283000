// The workspace for many probes: the rows at the start values with a copy, and the candidates.
ghost use Rattle.std.specs.Prelude.{◌≡◌, length};
ghost use Rattle.field.specs.Field.{given, lent, variables};
ghost use Rattle.field.specs.Tests.{Ready};
ghost use Rattle.field.specs.Grade.{grade_of};
ghost use Rattle.places.specs.Places.{Adjacent};
ghost use Rattle.probing.specs.Remembered.{Remembers};

use crate::copying::copy_part;
use crate::restoring::undo;
use field::{FieldRef, Grade};
use probing::Known;

// The rows at the start values and a copy of them, and the candidates: what a scan there forces; how many these are, beside the grade.
// The places stand already.
pub fn remember(
    field: FieldRef,
    start: &[u8],
    values: &mut [u8],
    f: &mut [f64],
    u: &mut [u32],
    grade: Grade,
) -> Known
    requires ready { Ready (lent field) start.now (length f.old) (length u.old) }
    requires values_value { values.old ≡ start.now }
    requires grade_value { grade ≡ grade_of (lent field) }
    requires adjacent { Adjacent (variables (lent field)) (lent field).rows (lent field).cols u.old }
    ensures values_value_2 { values.new ≡ start.now }
    ensures remembers { Remembers (given field) start.now f.new u.new result }
{
    let n = field.c.len();
    let from = n + 1 + 2 * field.rows.len();
    rows::fill::fill(field, values, f);
    copy_part(f, 0, n + n, n + n);
    let many = run::queue::scan(field, values, f, u);
    undo(start, values, u, from, many);
    copy_part(u, from, from + n, many);
    Known { many, grade }
}
