// What the closing call does past its tests.
ghost use Rattle.std.specs.Prelude.{◌≡◌, length};
ghost use Rattle.field.specs.Field.{lent, given, variables};
ghost use Rattle.run.specs.Run.{flat_rows};
ghost use Rattle.kept.specs.Calls.{Lendable, run_from};

use crate::storing::copy_bounds;
use field::FieldRef;

// The run from the rows of the record; how many free variables have a flat row at its end.
pub fn work(
    field: FieldRef,
    values: &[u8],
    bounds: &[f64],
    list: &mut [u8],
    f: &mut [f64],
    u: &mut [u32],
) -> usize
    requires lendable { Lendable (lent field) values.now (length bounds.now) (length f.old) (length u.old) }
    requires list_len { length list.old ≡ variables (lent field) }
    ensures list_value { list.new ≡ (run_from (given field) values.now bounds.now).values }
    ensures value { result ≡ flat_rows (run_from (given field) values.now bounds.now) }
{
    probe::values::copy(values, list);
    copy_bounds(bounds, f);
    places::build(u, field.rows, field.cols, field.c.len());
    run::propagate(field, list, f, u);
    run::flat::flat_rows(list, f)
}
