// The public call: the field without its given variables.
#![tactic(auto)]

mod closing;
mod gathering;
mod numbers;

ghost use Rattle.std.specs.Prelude.{◌≡◌, ◌≤◌, length};
ghost use Rattle.field.specs.Field.{field_of, variables};
ghost use Rattle.field.specs.Grade.{grade_of};
ghost use Rattle.shift.specs.Closing.{left_behind};
ghost use Rattle.sub_problem.specs.Working.{Usable, Numbered, Listed, Weighed};
ghost use Rattle.sub_problem.specs.Call.{left, finished, sub_problem_call};

use field::tests::admitted;
use field::{Answer, FieldRef, Grade, Refusal};

// What the call finds: the grade of the field as it was given, the new n, the new m and the constant.
#[derive(Clone, Copy)]
pub struct Reduced {
    pub grade: Grade,
    pub variables: usize,
    pub entries: usize,
    pub constant: f64,
}

// The four lists go from call to call apart, as in shift.

// The linear weights close up, each what the entries gather and then c; the constant.
fn weigh(
    c: &mut [f64],
    rows: &[u16],
    cols: &[u16],
    q: &[f64],
    start: &[u8],
    map: &[u16],
    f: &mut [f64],
    count: usize,
) -> f64
    requires usable { Usable (field_of c.old rows.now cols.now q.now) start.now }
    requires listed { Listed start.now map.now count }
    requires q_in_bounds { variables (field_of c.old rows.now cols.now q.now) ≤ length f.old }
    ensures { Weighed (field_of c.old rows.now cols.now q.now) start.now c.new result }
{
    gathering::blank(f, c.len());
    let pairs = gathering::gather(FieldRef { c, rows, cols, q }, start, f);
    let constant = gathering::add_all_given(c, start, pairs);
    closing::close_weights(c, map, f, count);
    constant
}

// The map back, the weights and the entries, where the map list has room.
fn work(
    c: &mut [f64],
    rows: &mut [u16],
    cols: &mut [u16],
    q: &mut [f64],
    grade: Grade,
    start: &[u8],
    map: &mut [u16],
    f: &mut [f64],
    u: &mut [u32],
    count: usize,
) -> Answer<Reduced>
    requires usable { Usable (field_of c.old rows.old cols.old q.old) start.now }
    requires grade_value { grade ≡ grade_of (field_of c.old rows.old cols.old q.old) }
    requires numbered { Numbered start.now (length start.now) u.old count }
    requires count_in_bounds { count ≤ length map.old }
    requires q_in_bounds { variables (field_of c.old rows.old cols.old q.old) ≤ length f.old }
    ensures { left result (left_behind c rows cols q) map.new f.new u.new ≡ finished (field_of c.old rows.old cols.old q.old) start.now map.old f.old u.old }
{
    numbers::list_back(start, u, map);
    let constant = weigh(c, rows, cols, q, start, map, f, count);
    let kept = closing::close_all(c, rows, cols, q, start, u);
    f.fill(0.0);
    u.fill(0);
    Ok(Reduced {
        grade,
        variables: count,
        entries: kept,
        constant,
    })
}

// The smaller problem closes up within the caller's lists; the answer has its sizes and the constant.
pub fn sub_problem(
    c: &mut [f64],
    rows: &mut [u16],
    cols: &mut [u16],
    q: &mut [f64],
    start: &[u8],
    map: &mut [u16],
    f: &mut [f64],
    u: &mut [u32],
) -> Answer<Reduced>
    ensures { left result (left_behind c rows cols q) map.new f.new u.new ≡ sub_problem_call (field_of c.old rows.old cols.old q.old) start.now map.old f.old u.old }
{
    let field = FieldRef { c, rows, cols, q };
    admitted(field, start, f.len(), u.len())?;
    let grade = field::grading::graded(field);
    let count = numbers::number(start, u);
    if map.len() < count {
        map.fill(0);
        f.fill(0.0);
        u.fill(0);
        return Err(Refusal::Room);
    }
    work(c, rows, cols, q, grade, start, map, f, u, count)
}
