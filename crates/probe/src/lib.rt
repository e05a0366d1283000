// The public call: a single probe with rows made afresh.
#![tactic(auto)]

pub mod testing;
pub mod values;

ghost use Rattle.std.specs.Prelude.{◌≡◌, length, set};
ghost use Rattle.field.specs.Field.{lent, given, variables};
ghost use Rattle.run.specs.Run as model;
ghost use Rattle.probe.specs.Call.{Probable, left, probe_one_call};

use crate::testing::ready_to_probe;
use crate::values::{assume, keep_new};
use field::{Answer, FieldRef, Grade, Refusal};

// The closure of the start values with the one value added.
fn work(
    field: FieldRef,
    start: &[u8],
    variable: usize,
    value: u8,
    values: &mut [u8],
    f: &mut [f64],
    u: &mut [u32],
)
    requires probable { Probable (lent field) start.now variable value (length f.old) (length u.old) }
    requires values_len { length values.old ≡ variables (lent field) }
    ensures { values.new ≡ model.closure (given field) (set start.now variable value) }
{
    assume(start, variable, value, values);
    run::close(field, values, f, u);
}

// What the probe of a variable at a value finds, with rows made afresh, goes into the values; a refusal before 9 changes nothing.
pub fn cold_probe_one(
    field: FieldRef,
    start: &[u8],
    variable: usize,
    value: u8,
    values: &mut [u8],
    f: &mut [f64],
    u: &mut [u32],
) -> Answer<Grade>
    ensures { left result values.new f.new u.new ≡ probe_one_call (given field) start.now variable value values.old f.old u.old }
{
    ready_to_probe(field, start, variable, value, f.len(), u.len())?;
    if values.len() != field.c.len() {
        values.fill(0);
        f.fill(0.0);
        u.fill(0);
        return Err(Refusal::Room);
    }
    let grade = field::grading::graded(field);
    work(field, start, variable, value, values, f, u);
    keep_new(start, values);
    f.fill(0.0);
    u.fill(0);
    Ok(grade)
}
