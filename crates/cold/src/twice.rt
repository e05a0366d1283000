// Both probes of one candidate, each with rows made afresh, and what they find by a pass over all variables.
ghost use Rattle.std.specs.Prelude.{◌≡◌, ◌+◌, ◌<◌, ◌≤◌, length};
ghost use Rattle.field.specs.Field.{lent, given, variables};
ghost use Rattle.probe.specs.Call.{cold};
ghost use Rattle.finding.specs.Emit.{bench};
ghost use Rattle.twin.specs.Twin.{EndFor};
ghost use Rattle.walking.specs.Walk.{Adds};
ghost use Rattle.places.specs.Places.{Adjacent};
ghost use Rattle.cold.specs.Afresh.{Afresh, Behind, Laid, Passable, pass_to};

use field::FieldRef;
use finding::emitting::emit;
use probe::values::assume;

// The probe of a variable at a value: the start values with the one value added, every row at them, the whole scan, and the queue.
fn probe_afresh(
    field: FieldRef,
    start: &[u8],
    values: &mut [u8],
    f: &mut [f64],
    u: &mut [u32],
    variable: usize,
    value: u8,
)
    requires afresh { Afresh (lent field) start.now (length values.old) (length f.old) u.old }
    requires variable_bound { variable < variables (lent field) }
    ensures values_value { values.new ≡ cold (given field) start.now variable value }
    ensures behind { Behind (given field) u.old u.new }
{
    assume(start, variable, value, values);
    rows::fill::fill(field, values, f);
    run::propagate(field, values, f, u);
}

// The values go into the words from `first` on.
fn lay(values: &[u8], u: &mut [u32], first: usize)
    requires { first + length values.now ≤ length u.old }
    ensures { Laid first (length values.now) values.now u.old u.new }
{
    for (j, value) in values.iter().enumerate() {
        u[first + j] = u32::from(*value);
    }
}

// What is found of every variable, where what the probe at 0 left stands from `first` on; where the gathered numbers end now.
fn pass(
    start: &[u8],
    values: &[u8],
    u: &mut [u32],
    i: usize,
    first: usize,
    at: usize,
    end: usize,
) -> usize
    requires { Passable start.now values.now u.old i first at end }
    ensures { bench u.new result ≡ pass_to start.now values.now i first at (bench u.old end) (length start.now) }
{
    let mut last = end;
    for j in 0..start.len() {
        last = emit(start, values, u, i, j, first, at, last);
    }
    last
}

// The probes of a variable at 0 and at 1, with rows made afresh, and what they find; where the gathered numbers end now.
pub fn both(
    field: FieldRef,
    start: &[u8],
    values: &mut [u8],
    f: &mut [f64],
    u: &mut [u32],
    variable: usize,
    end: usize,
) -> usize
    requires afresh { Afresh (lent field) start.now (length values.old) (length f.old) u.old }
    requires variable_bound { variable < variables (lent field) }
    requires end_for { EndFor (lent field) u.old end }
    ensures adds { Adds (given field) start.now variable u.old end u.new result }
    ensures adjacent { Adjacent (variables (given field)) (given field).rows (given field).cols u.new }
{
    let n = field.c.len();
    let first = n + 1 + 2 * field.rows.len() + n + n;
    let at = first + n;
    probe_afresh(field, start, values, f, u, variable, 0);
    lay(values, u, first);
    probe_afresh(field, start, values, f, u, variable, 1);
    pass(start, values, u, variable, first, at, end)
}
