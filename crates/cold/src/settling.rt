// From the candidates to the answer: each candidate's probes afresh, found constraints gathered and flushed, and the probe values.
ghost use Rattle.std.specs.Prelude.{length, ◌≡◌};
ghost use Rattle.scratch.specs.Region.{region};
ghost use Rattle.field.specs.Field.{lent, given};
ghost use Rattle.walking.specs.Walk.{candidates_at, Begins, Walked};
ghost use Rattle.probes.specs.Call.{left};
ghost use Rattle.probes.specs.Standing.{settled};
ghost use Rattle.cold.specs.Afresh.{Places, Afresh, Lined};

use crate::twice::both;
use field::{Answer, Counted, FieldRef};
use found::flush;
use probes::settling::{hand_over, no_room};
use probes::values::set_none;
use walking::{end_after, make_room};

// The `count` candidates that stand in the words, one after the other.
fn walk(
    field: FieldRef,
    start: &[u8],
    values: &mut [u8],
    list: &mut [u16],
    f: &mut [f64],
    u: &mut [u32],
    count: usize,
) -> Option<usize>
    requires afresh { Afresh (lent field) start.now (length values.old) (length f.old) u.old }
    requires begins { Begins (lent field) start.now (Places (lent field)) u.old count }
    ensures { Walked (given field) start.now (region (candidates_at (given field)) count u.old) list.old result list.new u.new }
{
    let n = field.c.len();
    let at = n + 1 + 2 * field.rows.len() + n + n + n + n;
    let lo = at + n + n;
    let mut held = 0;
    let mut end = lo;
    for h in 0..count {
        let next = end_after(u.len(), lo, end, n);
        held = make_room(list, held, u, lo, end, n)?;
        let variable = u[at + h] as usize;
        end = both(field, start, values, f, u, variable, next);
    }
    flush(list, held, u, lo, end)
}

// Every probe value is 2 at first; then the candidates are walked.
fn gather(
    field: FieldRef,
    start: &[u8],
    values: &mut [u8],
    constraints: &mut [u16],
    f: &mut [f64],
    u: &mut [u32],
    count: usize,
) -> Option<usize>
    requires { Lined (lent field) start.now (length values.old) (length f.old) u.old count }
    ensures { Walked (given field) start.now (region (candidates_at (given field)) count u.old) constraints.old result constraints.new u.new }
{
    let n = field.c.len();
    set_none(u, n + 1 + 2 * field.rows.len() + n + n + n, n);
    walk(field, start, values, constraints, f, u, count)
}

// What the candidates find, with rows made afresh, goes into the answer lists, if there is room.
pub fn settle(
    field: FieldRef,
    start: &[u8],
    values: &mut [u8],
    constraints: &mut [u16],
    f: &mut [f64],
    u: &mut [u32],
    count: usize,
) -> Answer<Counted>
    requires { Lined (lent field) start.now (length values.old) (length f.old) u.old count }
    ensures { left result values.new constraints.new f.new u.new ≡ settled (given field) start.now (region (candidates_at (given field)) count u.old) values.old constraints.old f.old u.old }
{
    let n = field.c.len();
    let at = n + 1 + 2 * field.rows.len() + n + n + n;
    let grade = field::grading::graded(field);
    let Some(held) = gather(field, start, values, constraints, f, u, count) else {
        return no_room(values, constraints, f, u);
    };
    hand_over(values, f, u, at);
    Ok(Counted { grade, count: held })
}
