// From the candidates to the answer: the walk, the probe values, and zeros in both scratches.
ghost use Rattle.std.specs.Prelude.{◌≡◌, length, Err};
ghost use Rattle.weights.specs.Worth.{zero64};
ghost use Rattle.scratch.specs.Cleared.{cleared};
ghost use Rattle.scratch.specs.Region.{region};
ghost use Rattle.field.specs.declared.Refusal.TheVariants.{Room};
ghost use Rattle.field.specs.Field.{lent, given};
ghost use Rattle.walking.specs.Walk.{candidates_at, Walked};
ghost use Rattle.probes.specs.Call.{left};
ghost use Rattle.probes.specs.Standing.{Bytes, Standing, settled};

use crate::values::{set_none, take_values};
use field::{Answer, Counted, FieldRef, Refusal};
use probing::Known;

// 9: zeros in both answer lists and both scratches.
pub fn no_room(
    values: &mut [u8],
    constraints: &mut [u16],
    f: &mut [f64],
    u: &mut [u32],
) -> Answer<Counted>
    ensures { left result values.new constraints.new f.new u.new ≡ left (Err Room) (cleared 0 values.old) (cleared 0 constraints.old) (cleared zero64 f.old) (cleared 0 u.old) }
{
    values.fill(0);
    constraints.fill(0);
    f.fill(0.0);
    u.fill(0);
    Err(Refusal::Room)
}

// The probe values go from the words into the values, and the scratches are cleared.
pub fn hand_over(values: &mut [u8], f: &mut [f64], u: &mut [u32], at: usize)
    requires { Bytes at (length values.old) u.old }
    ensures values_value { values.new ≡ region at (length values.old) u.old }
    ensures f_value { f.new ≡ cleared zero64 f.old }
    ensures u_value { u.new ≡ cleared 0 u.old }
{
    take_values(values, u, at);
    f.fill(0.0);
    u.fill(0);
}

// Every probe value, and in front of them every value that a first probe gives, is 2 at first; then the candidates are walked.
fn gather(
    field: FieldRef,
    start: &[u8],
    values: &mut [u8],
    constraints: &mut [u16],
    f: &mut [f64],
    u: &mut [u32],
    known: Known,
    count: usize,
) -> Option<usize>
    requires standing { Standing (lent field) start.now f.old u.old known count }
    requires values_value { values.old ≡ start.now }
    ensures { Walked (given field) start.now (region (candidates_at (given field)) count u.old) constraints.old result constraints.new u.new }
{
    let n = field.c.len();
    set_none(u, n + 1 + 2 * field.rows.len() + n + n, n + n);
    walking::walk(field, start, values, constraints, f, u, known, count)
}

// What the candidates find goes into the answer lists, if there is room.
pub fn settle(
    field: FieldRef,
    start: &[u8],
    values: &mut [u8],
    constraints: &mut [u16],
    f: &mut [f64],
    u: &mut [u32],
    known: Known,
    count: usize,
) -> Answer<Counted>
    requires standing { Standing (lent field) start.now f.old u.old known count }
    requires values_value { values.old ≡ start.now }
    ensures { left result values.new constraints.new f.new u.new ≡ settled (given field) start.now (region (candidates_at (given field)) count u.old) values.old constraints.old f.old u.old }
{
    let n = field.c.len();
    let at = n + 1 + 2 * field.rows.len() + n + n + n;
    let grade = known.grade;
    let Some(held) = gather(field, start, values, constraints, f, u, known, count) else {
        return no_room(values, constraints, f, u);
    };
    hand_over(values, f, u, at);
    Ok(Counted { grade, count: held })
}
