// The run up to where a variable has its value, and the way back to what its bound rests on.
ghost use Rattle.std.specs.Prelude.{◌≡◌, ◌+◌, ◌-◌, ◌<◌, ◌≤◌, length};
ghost use Rattle.scratch.specs.Region.{region};
ghost use Rattle.field.specs.Field.{given, lent, variables};
ghost use Rattle.run.specs.Cells.{cells, Placed};
ghost use Rattle.reason.specs.Stages.{Halted, AllBelow, back};

use field::FieldRef;

// How many of the queue were served, and where the queue ends.
#[derive(Clone, Copy)]
pub struct Halt {
    pub head: usize,
    pub last: usize,
}

// The queue is served while variable i is free.
pub fn serve_until(
    field: FieldRef,
    values: &mut [u8],
    f: &mut [f64],
    u: &mut [u32],
    tail: usize,
    i: usize,
) -> Halt
    requires placed { Placed (lent field) (cells values.old f.old u.old tail) }
    requires i_bound { i < variables (lent field) }
    ensures { Halted (given field) i
        (cells values.old f.old u.old tail)
        (cells values.new f.new u.new result.last) result.head }
{
    let base = field.c.len() + 1 + 2 * field.rows.len();
    let mut last = tail;
    let mut head = 0;
    // The queue grows while it is served.
    while head < last {
        if values[i] != 2 {
            return Halt { head, last };
        }
        let t = u[base + head] as usize;
        last = run::queue::serve(field, values, f, u, last, t);
        head += 1;
    }
    Halt { head, last }
}

// The variables of the queue from head on are free again.
pub fn take_back(values: &mut [u8], u: &[u32], base: usize, head: usize, last: usize)
    requires head_le_last { head ≤ last }
    requires last_in_bounds { base + last ≤ length u.now }
    requires all_below { AllBelow (length values.old) (region base last u.now) }
    ensures { values.new ≡ back values.old (region base last u.now) head (last - head) }
{
    for p in head..last {
        let t = u[base + p] as usize;
        values[t] = 2;
    }
}
