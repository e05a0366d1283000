// The public call: rounds of preprocess and full probe.
#![tactic(auto)]

mod bytes;
mod full;

ghost use Rattle.std.specs.Prelude.{◌≡◌, length};
ghost use Rattle.field.specs.Field.{lent, given, variables};
ghost use Rattle.field.specs.Tests.{Ready};
ghost use Rattle.field.specs.Grade.{grade_of};
ghost use Rattle.calls.specs.Values.{left};
ghost use Rattle.places.specs.Places.{Adjacent};
ghost use Rattle.heavy.specs.Rounds.{heavy as heavy_of};
ghost use Rattle.heavy.specs.Standing.{Rounded};
ghost use Rattle.heavy.specs.Call.{heavy_call};

use crate::bytes::{count_free, lay};
use crate::full::probe_values;
use field::{Answer, FieldRef, Grade};

// Preprocess, then the values of a full probe over what that leaves, if anything is left free; the places stand, and stay.
fn round(
    field: FieldRef,
    values: &mut [u8],
    probed: &mut [u8],
    f: &mut [f64],
    u: &mut [u32],
    grade: Grade,
)
    requires ready { Ready (lent field) values.old (length f.old) (length u.old) }
    requires probed_len { length probed.old ≡ variables (lent field) }
    requires grade_value { grade ≡ grade_of (lent field) }
    requires adjacent { Adjacent (variables (lent field)) (lent field).rows (lent field).cols u.old }
    ensures { Rounded (given field) values.old values.new u.new }
{
    let n = field.c.len();
    let at = n + 1 + 2 * field.rows.len() + n + n + n;
    preprocess::work(field, values, f, u);
    if count_free(values) == 0 {
        return;
    }
    probe_values(field, values, probed, f, u, grade);
    lay(values, u, at);
}

// Rounds until one adds none or leaves none free, and at most n.
fn rounds(
    field: FieldRef,
    values: &mut [u8],
    probed: &mut [u8],
    f: &mut [f64],
    u: &mut [u32],
    grade: Grade,
)
    requires ready { Ready (lent field) values.old (length f.old) (length u.old) }
    requires probed_len { length probed.old ≡ variables (lent field) }
    requires grade_value { grade ≡ grade_of (lent field) }
    requires adjacent { Adjacent (variables (lent field)) (lent field).rows (lent field).cols u.old }
    ensures { values.new ≡ heavy_of (given field) values.old }
{
    let mut free = count_free(values);
    for _ in 0..field.c.len() {
        round(field, values, probed, f, u, grade);
        let still = count_free(values);
        if still == 0 {
            return;
        }
        if still == free {
            return;
        }
        free = still;
    }
}

// The places once, then the rounds, with a byte for each variable in which the probes work.
fn work(field: FieldRef, values: &mut [u8], f: &mut [f64], u: &mut [u32], grade: Grade)
    requires ready { Ready (lent field) values.old (length f.old) (length u.old) }
    requires grade_value { grade ≡ grade_of (lent field) }
    ensures { values.new ≡ heavy_of (given field) values.old }
{
    let mut probed = [2; 4096];
    places::build(u, field.rows, field.cols, field.c.len());
    rounds(field, values, &mut probed[..field.c.len()], f, u, grade);
}

// The values that the rounds find go into the start values; a refusal changes nothing.
pub fn heavy(field: FieldRef, start: &mut [u8], f: &mut [f64], u: &mut [u32]) -> Answer<Grade>
    ensures { left result start.new f.new u.new ≡ heavy_call (given field) start.old f.old u.old }
{
    field::tests::ready(field, start, f.len(), u.len())?;
    let grade = field::grading::graded(field);
    work(field, start, f, u, grade);
    f.fill(0.0);
    u.fill(0);
    Ok(grade)
}
