// One probe alone: its rows, made in one pass over the entries, and the run from them.
#![tactic(auto)]

mod making;

ghost use Rattle.std.specs.Prelude.{◌≡◌, length};
ghost use Rattle.field.specs.Field.{lent, given, variables};
ghost use Rattle.probe.specs.Call.{Probable, cold};

use crate::making::make;
use field::FieldRef;
use probe::values::assume;

// What the probe of a variable at a value leaves: from the rows at the start values, those of its neighbours made afresh, the run.
pub fn work(
    field: FieldRef,
    start: &[u8],
    variable: usize,
    value: u8,
    values: &mut [u8],
    f: &mut [f64],
    u: &mut [u32],
)
    requires probable { Probable (lent field) start.now variable value (length f.old) (length u.old) }
    requires values_len { length values.old ≡ variables (lent field) }
    ensures { values.new ≡ cold (given field) start.now variable value }
{
    make(field, start, variable, value, f);
    assume(start, variable, value, values);
    run::close_from(field, values, f, u);
}
