// The gradient run over lent memory: variables are scanned upward, then a first-in queue is served.
// The values, the rows and the words are lent apart here and above: a scan only reads the rows that the queue moves, and the borrow checker covers no struct
// of all three of which one is read while another is lent on.
#![tactic(auto)]

pub mod flat;
pub mod queue;
pub mod steps;

ghost use Rattle.std.specs.Prelude.{length};
ghost use Rattle.field.specs.Field.{given, lent};
ghost use Rattle.rows.specs.Stored.{Filled};
ghost use Rattle.run.specs.Run as model;
ghost use Rattle.run.specs.Cells.{cells, Placed, Does};
ghost use Rattle.run.specs.First.{Closable, Closes};

use field::FieldRef;

// The run from the rows that stand in f; how many variables it forced. Each enters the queue once, so a place is visited once at most: O(n + m).
pub fn propagate(field: FieldRef, values: &mut [u8], f: &mut [f64], u: &mut [u32]) -> usize
    requires { Placed (lent field) (cells values.old f.old u.old 0) }
    ensures { Does (given field) (λ run. model.propagate (given field) run.values run.rows)
        (cells values.old f.old u.old 0)
        (cells values.new f.new u.new result) }
{
    let tail = queue::scan(field, values, f, u);
    queue::work(field, values, f, u, tail)
}

// The closure's run from the rows that stand in f: where the scan does not pass over every variable, the places and the run.
pub fn close_from(field: FieldRef, values: &mut [u8], f: &mut [f64], u: &mut [u32])
    requires closable { Closable (lent field) values.old (length f.old) (length u.old) }
    requires filled { Filled (lent field) values.old f.old f.old }
    ensures { Closes (given field) values.old f.old values.new f.new }
{
    let from = queue::first(values, f);
    if from >= values.len() {
        return;
    }
    places::build(u, field.rows, field.cols, field.c.len());
    let forced = queue::scan_from(field, values, f, u, from);
    queue::work(field, values, f, u, forced);
}

// The closure's run from the values: the rows at them, and the run from there.
pub fn close(field: FieldRef, values: &mut [u8], f: &mut [f64], u: &mut [u32])
    requires { Closable (lent field) values.old (length f.old) (length u.old) }
    ensures { Closes (given field) values.old f.old values.new f.new }
{
    rows::fill::fill(field, values, f);
    close_from(field, values, f, u);
}
