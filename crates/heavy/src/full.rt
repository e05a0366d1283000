// The values of a full probe, left in the words; the places stay.
ghost use Rattle.std.specs.Prelude.{◌≡◌, ◌+◌, ◌≤◌, length};
ghost use Rattle.field.specs.Field.{lent, given, variables};
ghost use Rattle.field.specs.Tests.{Ready};
ghost use Rattle.field.specs.Grade.{grade_of};
ghost use Rattle.places.specs.Places.{Adjacent};
ghost use Rattle.probing.specs.Remembered.{Remembers};
ghost use Rattle.walking.specs.Walk.{gather_at};
ghost use Rattle.heavy.specs.Standing.{AllProbed};

use field::{FieldRef, Grade};
use probe::values::copy;
use probes::values::set_none;
use probing::Known;
use ranking::listing::list_free;
use walking::walk_values;
use workspace::remembering::remember;

// Every free variable is a candidate, every probe value is 2 at first, and the candidates are walked.
fn walk_free(
    field: FieldRef,
    start: &[u8],
    values: &mut [u8],
    f: &mut [f64],
    u: &mut [u32],
    known: Known,
)
    requires remembers { Remembers (lent field) start.now f.old u.old known }
    requires values_value { values.old ≡ start.now }
    requires q_in_bounds { gather_at (lent field) + variables (lent field) ≤ length u.old }
    ensures { AllProbed (given field) start.now u.new }
{
    let n = field.c.len();
    let first = n + 1 + 2 * field.rows.len() + n + n;
    let count = list_free(start, u, first + n + n);
    set_none(u, first, n + n);
    walk_values(field, start, values, f, u, known, count);
}

// Both probes of every free variable; the values, n bytes, are what they work in.
pub fn probe_values(
    field: FieldRef,
    start: &[u8],
    values: &mut [u8],
    f: &mut [f64],
    u: &mut [u32],
    grade: Grade,
)
    requires ready { Ready (lent field) start.now (length f.old) (length u.old) }
    requires values_len { length values.old ≡ variables (lent field) }
    requires grade_value { grade ≡ grade_of (lent field) }
    requires adjacent { Adjacent (variables (lent field)) (lent field).rows (lent field).cols u.old }
    ensures { AllProbed (given field) start.now u.new }
{
    copy(start, values);
    let known = remember(field, start, values, f, u, grade);
    walk_free(field, start, values, f, u, known);
}
