// Pair dominance: the public call.
#![tactic(auto)]

mod listing;

ghost use Rattle.std.specs.Prelude.{◌≡◌, length};
ghost use Rattle.field.specs.Field.{lent, given};
ghost use Rattle.field.specs.Tests.{Ready};
ghost use Rattle.pairs.specs.Walk.{Walked};
ghost use Rattle.pairs.specs.Call.{left, pairs_call};

use crate::listing::Tally;
use field::{Answer, FieldRef, Grade, Refusal};

// What the call finds: the field's grade, the number of constraints and the number of pairs examined.
#[derive(Clone, Copy)]
pub struct Paired {
    pub grade: Grade,
    pub items: usize,
    pub pairs: usize,
}

// The places, the linear parts and masses, the merged rows, the free variables, and the walk over their pairs.
fn work(
    field: FieldRef,
    start: &[u8],
    limit: usize,
    constraints: &mut [u16],
    f: &mut [f64],
    u: &mut [u32],
) -> Tally
    requires { Ready (lent field) start.now (length f.old) (length u.old) }
    ensures { Walked (given field) start.now limit constraints.old constraints.new result }
{
    let n = field.c.len();
    let m = field.rows.len();
    places::build(u, field.rows, field.cols, n);
    neighbours::parts::parts(field, start, f);
    neighbours::merged::merge(field, start, f, u);
    let k = listing::list_free(start, u, n + 1 + 2 * m + n + 2 * m);
    listing::walk_pairs(field, start, f, u, k, limit, constraints)
}

// The constraints of the free pairs in rising order, up to the limit; a list without room for all of them ends as zeros.
pub fn pairs(
    field: FieldRef,
    start: &[u8],
    limit: usize,
    constraints: &mut [u16],
    f: &mut [f64],
    u: &mut [u32],
) -> Answer<Paired>
    ensures { left result constraints.new f.new u.new ≡ pairs_call (given field) start.now limit constraints.old f.old u.old }
{
    field::tests::ready(field, start, f.len(), u.len())?;
    let grade = field::grading::graded(field);
    let tally = work(field, start, limit, constraints, f, u);
    let items = tally.items;
    let pairs = tally.pairs;
    f.fill(0.0);
    u.fill(0);
    if items > constraints.len() / 3 {
        constraints.fill(0);
        return Err(Refusal::Room);
    }
    Ok(Paired {
        grade,
        items,
        pairs,
    })
}
