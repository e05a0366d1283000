// The public calls: the single probe, and the full and the limited one, over remembered rows.
#![tactic(auto)]

pub mod choosing;
pub mod settling;
pub mod values;

ghost use Rattle.std.specs.Prelude.{◌≡◌, length, take};
ghost use Rattle.meaning.specs.Free.{free_to};
ghost use Rattle.field.specs.Field.{lent, given, variables};
ghost use Rattle.field.specs.Tests.{Ready};
ghost use Rattle.probing.specs.Remembered.{Remembers};
ghost use Rattle.ranking.specs.Ranking.{ranks};
ghost use Rattle.probe.specs.Call as one;
ghost use Rattle.probes.specs.Call.{left, probe_call, probe_limited_call};
ghost use Rattle.probes.specs.Standing.{settled};

use crate::choosing::choose;
use crate::settling::{no_room, settle};
use field::{Answer, Counted, FieldRef, Grade, Refusal};
use probe::testing::ready_to_probe;
use probe::values::{copy, keep_new};
use probing::Known;
use ranking::listing::list_free;

// The start values go into the values, the field is graded, the places are built, and the workspace is made.
fn prepare(field: FieldRef, start: &[u8], values: &mut [u8], f: &mut [f64], u: &mut [u32]) -> Known
    requires ready { Ready (lent field) start.now (length f.old) (length u.old) }
    requires values_len { length values.old ≡ variables (lent field) }
    ensures values_value { values.new ≡ start.now }
    ensures remembers { Remembers (given field) start.now f.new u.new result }
{
    let grade = field::grading::graded(field);
    copy(start, values);
    places::build(u, field.rows, field.cols, field.c.len());
    workspace::remembering::remember(field, start, values, f, u, grade)
}

// What the probe of a variable at a value finds goes into the values; a refusal before 9 changes nothing.
pub fn probe_one(
    field: FieldRef,
    start: &[u8],
    variable: usize,
    value: u8,
    values: &mut [u8],
    f: &mut [f64],
    u: &mut [u32],
) -> Answer<Grade>
    ensures { one.left result values.new f.new u.new ≡ one.probe_one_call (given field) start.now variable value values.old f.old u.old }
{
    ready_to_probe(field, start, variable, value, f.len(), u.len())?;
    if values.len() != field.c.len() {
        values.fill(0);
        f.fill(0.0);
        u.fill(0);
        return Err(Refusal::Room);
    }
    let grade = field::grading::graded(field);
    single::work(field, start, variable, value, values, f, u);
    keep_new(start, values);
    f.fill(0.0);
    u.fill(0);
    Ok(grade)
}

// The free variables are the candidates.
fn probe_all(
    field: FieldRef,
    start: &[u8],
    values: &mut [u8],
    constraints: &mut [u16],
    f: &mut [f64],
    u: &mut [u32],
) -> Answer<Counted>
    requires ready { Ready (lent field) start.now (length f.old) (length u.old) }
    requires values_len { length values.old ≡ variables (lent field) }
    ensures { left result values.new constraints.new f.new u.new ≡ settled (given field) start.now (free_to start.now (variables (given field))) values.old constraints.old f.old u.old }
{
    let n = field.c.len();
    let known = prepare(field, start, values, f, u);
    let count = list_free(start, u, n + 1 + 2 * field.rows.len() + n + n + n + n);
    settle(field, start, values, constraints, f, u, known, count)
}

// The free variables of the greatest edge mass are the candidates, up to the limit.
fn probe_some(
    field: FieldRef,
    start: &[u8],
    candidates: usize,
    values: &mut [u8],
    constraints: &mut [u16],
    f: &mut [f64],
    u: &mut [u32],
) -> Answer<Counted>
    requires ready { Ready (lent field) start.now (length f.old) (length u.old) }
    requires values_len { length values.old ≡ variables (lent field) }
    ensures { left result values.new constraints.new f.new u.new ≡ settled (given field) start.now (take candidates (ranks (given field) start.now)) values.old constraints.old f.old u.old }
{
    let known = prepare(field, start, values, f, u);
    let count = choose(field, start, candidates, f, u);
    settle(field, start, values, constraints, f, u, known, count)
}

// What both probes of every free variable find goes into the values and the constraints; a refusal before 9 changes nothing.
pub fn probe(
    field: FieldRef,
    start: &[u8],
    values: &mut [u8],
    constraints: &mut [u16],
    f: &mut [f64],
    u: &mut [u32],
) -> Answer<Counted>
    ensures { left result values.new constraints.new f.new u.new ≡ probe_call (given field) start.now values.old constraints.old f.old u.old }
{
    field::tests::ready(field, start, f.len(), u.len())?;
    if values.len() != field.c.len() {
        return no_room(values, constraints, f, u);
    }
    probe_all(field, start, values, constraints, f, u)
}

// The same of up to `candidates` free variables, by falling edge mass, then rising index.
pub fn probe_limited(
    field: FieldRef,
    start: &[u8],
    candidates: usize,
    values: &mut [u8],
    constraints: &mut [u16],
    f: &mut [f64],
    u: &mut [u32],
) -> Answer<Counted>
    ensures { left result values.new constraints.new f.new u.new ≡ probe_limited_call (given field) start.now candidates values.old constraints.old f.old u.old }
{
    let n = field.c.len();
    field::tests::ready(field, start, f.len(), u.len())?;
    if values.len() != n {
        return no_room(values, constraints, f, u);
    }
    probe_some(field, start, candidates, values, constraints, f, u)
}
