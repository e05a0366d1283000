// The public call: components of at most 10 free variables are completed by enumeration.
#![tactic(auto)]

ghost use Rattle.std.specs.Prelude.{◌≡◌, ◌<◌, length};
ghost use Rattle.field.specs.Field.{lent, given, variables};
ghost use Rattle.field.specs.Tests.{Ready};
ghost use Rattle.calls.specs.Values.{left};
ghost use Rattle.components.specs.Small.{small_parts};
ghost use Rattle.components.specs.Stages.{Standing, Staged, stage_at, stage_to, Solved, Solvable};
ghost use Rattle.components.specs.Call.{components_call};

use field::{Answer, FieldRef, Grade};

// The component of one start, if the start is open: enumerated, if it has at most 10 members.
fn solve_start(field: FieldRef, values: &mut [u8], u: &mut [u32], start: usize)
    requires standing { Standing (lent field) values.old u.old }
    requires start_bound { start < variables (lent field) }
    ensures { Staged (given field) (λ g. stage_at (given field) g start) values.old u.old values.new u.new }
{
    let n = field.c.len();
    let base = n + 1 + 2 * field.rows.len();
    if u[base + start] != 2 {
        return;
    }
    let count = parts::walk(field, true, start, u);
    if count > 10 {
        return;
    }
    enumeration::solve(field, values, u, base + n + n, count);
}

// Every start, rising.
fn solve_all(field: FieldRef, values: &mut [u8], u: &mut [u32])
    requires { Standing (lent field) values.old u.old }
    ensures { Staged (given field) (λ g. stage_to (given field) g (variables (given field))) values.old u.old values.new u.new }
{
    let n = field.c.len();
    for start in 0..n {
        solve_start(field, values, u, start);
    }
}

// All small components, where the adjacency stands at the front of u.
pub fn solve(field: FieldRef, values: &mut [u8], u: &mut [u32])
    requires { Solvable (lent field) values.old u.old }
    ensures { Solved (given field) values.old u.old values.new u.new }
{
    parts::begin(field, values, false, u);
    solve_all(field, values, u);
}

// The places, and the components by them.
fn work(field: FieldRef, values: &mut [u8], f: &[f64], u: &mut [u32])
    requires { Ready (lent field) values.old (length f.now) (length u.old) }
    ensures { values.new ≡ small_parts (given field) values.old }
{
    places::build(u, field.rows, field.cols, field.c.len());
    solve(field, values, u);
}

// The values of all small components go into the start values; a refusal changes nothing.
pub fn components(field: FieldRef, start: &mut [u8], f: &mut [f64], u: &mut [u32]) -> Answer<Grade>
    ensures { left result start.new f.new u.new ≡ components_call (given field) start.old f.old u.old }
{
    field::tests::ready(field, start, f.len(), u.len())?;
    let grade = field::grading::graded(field);
    work(field, start, f, u);
    f.fill(0.0);
    u.fill(0);
    Ok(grade)
}
