// The public call: variables of no effect, the gradient closure, and small components.
#![tactic(auto)]

mod fixing;

ghost use Rattle.std.specs.Prelude.{◌≡◌, length};
ghost use Rattle.field.specs.Field.{lent, given, variables};
ghost use Rattle.field.specs.Tests.{Ready};
ghost use Rattle.calls.specs.Values.{left};
ghost use Rattle.places.specs.Places.{Adjacent};
ghost use Rattle.preprocess.specs.Working.{Closes, Preprocesses};
ghost use Rattle.preprocess.specs.Call.{preprocess_call};

use field::{Answer, FieldRef, Grade};

// The rows, and the run from them; the places stay.
fn close(field: FieldRef, values: &mut [u8], f: &mut [f64], u: &mut [u32])
    requires ready { Ready (lent field) values.old (length f.old) (length u.old) }
    requires adjacent { Adjacent (variables (lent field)) (lent field).rows (lent field).cols u.old }
    ensures { Closes (given field) values.old u.old values.new u.new }
{
    rows::fill::fill(field, values, f);
    run::propagate(field, values, f, u);
}

// Variables of no effect first, then the closure, then the small components; the places stand, and stay.
pub fn work(field: FieldRef, values: &mut [u8], f: &mut [f64], u: &mut [u32])
    requires ready { Ready (lent field) values.old (length f.old) (length u.old) }
    requires adjacent { Adjacent (variables (lent field)) (lent field).rows (lent field).cols u.old }
    ensures { Preprocesses (given field) values.old values.new u.new }
{
    fixing::fix_idle(field, u, values);
    close(field, values, f, u);
    components::solve(field, values, u);
}

// The values of closure, small components and no effect go into the start values; a refusal changes nothing.
pub fn preprocess(field: FieldRef, start: &mut [u8], f: &mut [f64], u: &mut [u32]) -> Answer<Grade>
    ensures { left result start.new f.new u.new ≡ preprocess_call (given field) start.old f.old u.old }
{
    field::tests::ready(field, start, f.len(), u.len())?;
    let grade = field::grading::graded(field);
    places::build(u, field.rows, field.cols, field.c.len());
    work(field, start, f, u);
    f.fill(0.0);
    u.fill(0);
    Ok(grade)
}
