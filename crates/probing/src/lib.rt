// A probe over remembered rows: only what it touches is worked.
#![tactic(auto)]

mod refreshing;

ghost use Rattle.std.specs.Prelude.{◌≡◌, ◌<◌, get_or};
ghost use Rattle.field.specs.Field.{given, lent};
ghost use Rattle.run.specs.Cells.{cells};
ghost use Rattle.probing.specs.Remembered.{Remembers, Probes};

use field::{FieldRef, Grade};

// What is known before any probe: how many candidates the start values give, and the field's grade.
#[derive(Clone, Copy)]
pub struct Known {
    pub many: usize,
    pub grade: Grade,
}

// The probe of a variable at a value, where the values are the start values; how many variables it forced, which stand in the queue.
// It visits the candidates, and the places of the variables that it fixes and of the probed variable's neighbours.
pub fn probe(
    field: FieldRef,
    values: &mut [u8],
    f: &mut [f64],
    u: &mut [u32],
    known: Known,
    variable: usize,
    value: u8,
) -> usize
    requires remembers { Remembers (lent field) values.old f.old u.old known }
    requires variable_value { get_or values.old variable 0 ≡ 2 }
    requires value_bound { value < 2 }
    ensures { Probes (given field) values.old variable value
        (cells values.old f.old u.old 0)
        (cells values.new f.new u.new result) }
{
    let grade = known.grade;
    values[variable] = value;
    refreshing::renew(field, values, f, u, variable, value, grade);
    let tail = scanning::merging::scan_some(field, values, f, u, variable, known.many);
    run::queue::work(field, values, f, u, tail)
}
