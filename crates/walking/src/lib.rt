// The walk over the candidates: both probes of each, found constraints gathered and flushed.
#![tactic(auto)]

ghost use Rattle.std.specs.Prelude.{◌≡◌, ◌+◌, ◌<◌, ◌≤◌};
ghost use Rattle.scratch.specs.Region.{region};
ghost use Rattle.sorting.specs.Numbers.{Keys};
ghost use Rattle.found.specs.Joint.{Held};
ghost use Rattle.found.specs.Flush.{left};
ghost use Rattle.field.specs.Field.{given, lent, variables};
ghost use Rattle.places.specs.Places.{Adjacent};
ghost use Rattle.walking.specs.Walk.{candidates_at, roomed, end_after as end_after_of, Walkable, Valued, Walked};

use field::FieldRef;
use found::flush;
use probing::Known;
use twin::twin;

// The numbers are flushed where fewer than n places are left behind them.
pub fn make_room(
    list: &mut [u16],
    held: usize,
    u: &mut [u32],
    lo: usize,
    hi: usize,
    n: usize,
) -> Option<usize>
    requires held { Held held list.old }
    requires keys { Keys lo hi u.old }
    ensures { left result list.new u.new ≡ roomed list.old held u.old lo hi n }
{
    if n <= u.len() - hi {
        return Some(held);
    }
    flush(list, held, u, lo, hi)
}

// Answers where the gathered numbers end once room was made: where they begin, if they were flushed.
pub fn end_after(long: usize, lo: usize, hi: usize, n: usize) -> usize
    requires { hi ≤ long }
    ensures { result ≡ end_after_of long lo hi n }
{
    if n <= long - hi {
        return hi;
    }
    lo
}

// The `count` candidates that stand in the words, one after the other.
pub fn walk(
    field: FieldRef,
    start: &[u8],
    values: &mut [u8],
    list: &mut [u16],
    f: &mut [f64],
    u: &mut [u32],
    known: Known,
    count: usize,
) -> Option<usize>
    requires walkable { Walkable (lent field) start.now f.old u.old known count }
    requires values_value { values.old ≡ start.now }
    ensures values_value_2 { values.new ≡ start.now }
    ensures walked { Walked (given field) start.now (region (candidates_at (given field)) count u.old) list.old result list.new u.new }
{
    let n = field.c.len();
    let at = n + 1 + 2 * field.rows.len() + n + n + n + n;
    let lo = at + n + n;
    let mut held = 0;
    let mut end = lo;
    for h in 0..count {
        let next = end_after(u.len(), lo, end, n);
        held = make_room(list, held, u, lo, end, n)?;
        let variable = u[at + h] as usize;
        end = twin(field, start, values, f, u, known, variable, next);
    }
    flush(list, held, u, lo, end)
}

// The same walk for its probe values alone: the constraints found are forgotten, and the places stay.
pub fn walk_values(
    field: FieldRef,
    start: &[u8],
    values: &mut [u8],
    f: &mut [f64],
    u: &mut [u32],
    known: Known,
    count: usize,
)
    requires walkable { Walkable (lent field) start.now f.old u.old known count }
    requires values_value { values.old ≡ start.now }
    ensures values_value_2 { values.new ≡ start.now }
    ensures valued { Valued (given field) start.now (region (candidates_at (given field)) count u.old) u.new }
    ensures adjacent { Adjacent (variables (given field)) (given field).rows (given field).cols u.new }
{
    let n = field.c.len();
    let at = n + 1 + 2 * field.rows.len() + n + n + n + n;
    let lo = at + n + n;
    for h in 0..count {
        let candidate = u[at + h] as usize;
        twin(field, start, values, f, u, known, candidate, lo);
    }
}
