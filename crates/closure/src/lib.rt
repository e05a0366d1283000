// The public call: the gradient closure of a field.
#![tactic(auto)]

ghost use Rattle.std.specs.Prelude.{◌≡◌, length};
ghost use Rattle.field.specs.Field.{lent, given};
ghost use Rattle.field.specs.Tests.{Ready};
ghost use Rattle.run.specs.Run as model;
ghost use Rattle.closure.specs.Call.{left, flat, closure_call};

use field::{Answer, Counted, FieldRef};

// The closure's run from the values, and how many free variables have a flat row at its end.
fn work(field: FieldRef, values: &mut [u8], f: &mut [f64], u: &mut [u32]) -> usize
    requires { Ready (lent field) values.old (length f.old) (length u.old) }
    ensures values_value { values.new ≡ model.closure (given field) values.old }
    ensures value { result ≡ flat (given field) values.old }
{
    run::close(field, values, f, u);
    run::flat::flat_rows(values, f)
}

// Forced values go into the start values, and the free variables with a flat row are counted; a refusal changes nothing.
pub fn closure(field: FieldRef, start: &mut [u8], f: &mut [f64], u: &mut [u32]) -> Answer<Counted>
    ensures { left result start.new f.new u.new ≡ closure_call (given field) start.old f.old u.old }
{
    field::tests::ready(field, start, f.len(), u.len())?;
    let grade = field::grading::graded(field);
    let flat = work(field, start, f, u);
    f.fill(0.0);
    u.fill(0);
    Ok(Counted { grade, count: flat })
}
