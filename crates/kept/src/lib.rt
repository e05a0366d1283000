// The public calls: a record of every free variable's bounds is made, kept as variables are pinned and released, and closed from.
#![tactic(auto)]

mod closing;
mod making;
mod search;
mod storing;
mod testing;
mod turning;

ghost use Rattle.std.specs.Prelude.{◌≡◌};
ghost use Rattle.field.specs.Field.{given};
ghost use Rattle.calls.specs.Call as any;
ghost use Rattle.kept.specs.Kept.{kept};
ghost use Rattle.kept.specs.Calls.{left, make_call, pin_call, release_call, closed, close_call};

use field::{Answer, Counted, FieldRef, Grade, Refusal};

// The record of the values, for an exact field; a refusal before 12 changes nothing.
pub fn make(
    field: FieldRef,
    values: &[u8],
    bounds: &mut [f64],
    strict: &mut u32,
    f: &mut [f64],
    u: &mut [u32],
) -> Answer<Grade>
    ensures { left result bounds.new strict.new f.new u.new ≡ make_call (given field) values.now bounds.old strict.old f.old u.old }
{
    testing::lendable(field, values, bounds.len(), f.len(), u.len())?;
    if !making::is_exact(field) {
        f.fill(0.0);
        u.fill(0);
        return Err(Refusal::Inexact);
    }
    *strict = making::begin(field, values, bounds, f);
    f.fill(0.0);
    u.fill(0);
    Ok(Grade::Exact)
}

// A free variable takes a value in the record; a refusal changes nothing.
pub fn pin(
    field: FieldRef,
    values: &mut [u8],
    bounds: &mut [f64],
    strict: &mut u32,
    variable: usize,
    value: u8,
) -> Answer<()>
    ensures { any.left result (kept values.new bounds.new strict.new) ≡ pin_call (given field) (kept values.old bounds.old strict.old) variable value }
{
    testing::pinnable(field, values, bounds.len(), variable, value)?;
    *strict = turning::change(field, values, bounds, variable, value);
    Ok(())
}

// A variable that has a value is free again in the record; a refusal changes nothing.
pub fn release(
    field: FieldRef,
    values: &mut [u8],
    bounds: &mut [f64],
    strict: &mut u32,
    variable: usize,
) -> Answer<()>
    ensures { any.left result (kept values.new bounds.new strict.new) ≡ release_call (given field) (kept values.old bounds.old strict.old) variable }
{
    testing::releasable(field, values, bounds.len(), variable)?;
    *strict = turning::change(field, values, bounds, variable, 2);
    Ok(())
}

// The closure of the record's values, from its rows, goes into the list; the record is unchanged, and a refusal before 9 changes nothing.
pub fn close(
    field: FieldRef,
    values: &[u8],
    bounds: &[f64],
    list: &mut [u8],
    f: &mut [f64],
    u: &mut [u32],
) -> Answer<Counted>
    ensures { closed result list.new f.new u.new ≡ close_call (given field) values.now bounds.now list.old f.old u.old }
{
    testing::lendable(field, values, bounds.len(), f.len(), u.len())?;
    if list.len() != field.c.len() {
        list.fill(0);
        f.fill(0.0);
        u.fill(0);
        return Err(Refusal::Room);
    }
    let grade = field::grading::graded(field);
    let flat = closing::work(field, values, bounds, list, f, u);
    f.fill(0.0);
    u.fill(0);
    Ok(Counted { grade, count: flat })
}
