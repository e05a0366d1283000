// The public calls over all candidates with rows made afresh for every probe: the full probe and the limited one.
#![tactic(auto)]

mod settling;
mod twice;

ghost use Rattle.std.specs.Prelude.{◌≡◌, length, take};
ghost use Rattle.meaning.specs.Free.{free_to};
ghost use Rattle.field.specs.Field.{lent, given, variables};
ghost use Rattle.field.specs.Tests.{Ready};
ghost use Rattle.ranking.specs.Ranking.{ranks};
ghost use Rattle.probe.specs.Call.{cold};
ghost use Rattle.probes.specs.Call.{left, probe_by, probe_limited_by};
ghost use Rattle.probes.specs.Standing.{settled};

use crate::settling::settle;
use field::{Answer, Counted, FieldRef};
use probes::choosing::choose;
use probes::settling::no_room;
use ranking::listing::list_free;

// The free variables are the candidates.
fn probe_all(
    field: FieldRef,
    start: &[u8],
    values: &mut [u8],
    constraints: &mut [u16],
    f: &mut [f64],
    u: &mut [u32],
) -> Answer<Counted>
    requires ready { Ready (lent field) start.now (length f.old) (length u.old) }
    requires values_len { length values.old ≡ variables (lent field) }
    ensures { left result values.new constraints.new f.new u.new ≡ settled (given field) start.now (free_to start.now (variables (given field))) values.old constraints.old f.old u.old }
{
    let n = field.c.len();
    places::build(u, field.rows, field.cols, n);
    let count = list_free(start, u, n + 1 + 2 * field.rows.len() + n + n + n + n);
    settle(field, start, values, constraints, f, u, count)
}

// The free variables of the greatest edge mass are the candidates, up to the limit.
fn probe_some(
    field: FieldRef,
    start: &[u8],
    candidates: usize,
    values: &mut [u8],
    constraints: &mut [u16],
    f: &mut [f64],
    u: &mut [u32],
) -> Answer<Counted>
    requires ready { Ready (lent field) start.now (length f.old) (length u.old) }
    requires values_len { length values.old ≡ variables (lent field) }
    ensures { left result values.new constraints.new f.new u.new ≡ settled (given field) start.now (take candidates (ranks (given field) start.now)) values.old constraints.old f.old u.old }
{
    places::build(u, field.rows, field.cols, field.c.len());
    let count = choose(field, start, candidates, f, u);
    settle(field, start, values, constraints, f, u, count)
}

// What both probes of every free variable find, with rows made afresh, goes into both lists; a refusal before 9 changes nothing.
pub fn cold_probe(
    field: FieldRef,
    start: &[u8],
    values: &mut [u8],
    constraints: &mut [u16],
    f: &mut [f64],
    u: &mut [u32],
) -> Answer<Counted>
    ensures { left result values.new constraints.new f.new u.new ≡ probe_by cold (given field) start.now values.old constraints.old f.old u.old }
{
    field::tests::ready(field, start, f.len(), u.len())?;
    if values.len() != field.c.len() {
        return no_room(values, constraints, f, u);
    }
    probe_all(field, start, values, constraints, f, u)
}

// The same of up to `candidates` free variables, by falling edge mass, then rising index, with rows made afresh.
pub fn cold_probe_limited(
    field: FieldRef,
    start: &[u8],
    candidates: usize,
    values: &mut [u8],
    constraints: &mut [u16],
    f: &mut [f64],
    u: &mut [u32],
) -> Answer<Counted>
    ensures { left result values.new constraints.new f.new u.new ≡ probe_limited_by cold (given field) start.now candidates values.old constraints.old f.old u.old }
{
    let n = field.c.len();
    field::tests::ready(field, start, f.len(), u.len())?;
    if values.len() != n {
        return no_room(values, constraints, f, u);
    }
    probe_some(field, start, candidates, values, constraints, f, u)
}
