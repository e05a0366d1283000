// The public call: one variable of each component whose objective is the same for opposite values.
#![tactic(auto)]

mod members;
mod search;
mod sums;

ghost use Rattle.std.specs.Prelude.{◌≡◌, length};
ghost use Rattle.field.specs.Field.{given, lent};
ghost use Rattle.field.specs.Tests.{Admitted};
ghost use Rattle.field.specs.Grade.{grade_of};
ghost use Rattle.anchors.specs.Model as model;
ghost use Rattle.anchors.specs.Cells.{Lists};
ghost use Rattle.anchors.specs.Call.{left, anchors_call};

use field::tests::admitted;
use field::{Answer, Counted, FieldRef, Grade, Refusal};

// The variable that leads so far, and its weight.
#[derive(Clone, Copy)]
struct Leader {
    variable: usize,
    weight: f64,
}

impl Leader {
    // A greater weight takes the lead, and of equal ones the lower variable.
    fn against(self, variable: usize, weight: f64) -> Leader
        ensures { result ≡ model.against self variable weight }
    {
        if self.weight < weight || (weight == self.weight && variable < self.variable) {
            Leader { variable, weight }
        } else {
            self
        }
    }
}

// The places, the marks, and the search from each start.
fn work(
    field: FieldRef,
    grade: Grade,
    start: &[u8],
    least: usize,
    list: &mut [u16],
    f: &mut [f64],
    u: &mut [u32],
) -> usize
    requires admitted { Admitted (lent field) start.now (length f.old) (length u.old) }
    requires grade_value { grade ≡ grade_of (lent field) }
    ensures { Lists (given field) start.now least list.old list.new result }
{
    places::build(u, field.rows, field.cols, field.c.len());
    parts::begin(field, start, true, u);
    search::search(field, grade, start, least, list, f, u)
}

// The anchors go into the list, in the order of their components' lowest variables; how many there are.
pub fn anchors(
    field: FieldRef,
    start: &[u8],
    least: usize,
    list: &mut [u16],
    f: &mut [f64],
    u: &mut [u32],
) -> Answer<Counted>
    ensures { left result list.new f.new u.new ≡ anchors_call (given field) start.now least list.old f.old u.old }
{
    admitted(field, start, f.len(), u.len())?;
    let grade = field::grading::graded(field);
    let found = work(field, grade, start, least, list, f, u);
    f.fill(0.0);
    u.fill(0);
    if list.len() < found {
        list.fill(0);
        return Err(Refusal::Room);
    }
    Ok(Counted {
        grade,
        count: found,
    })
}
