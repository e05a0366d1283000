// What the making call does past its tests.
ghost use Rattle.std.specs.Prelude.{◌≡◌, ◌+◌, length};
ghost use Rattle.field.specs.Field.{lent, given, variables};
ghost use Rattle.field.specs.Tests.{Loose};
ghost use Rattle.field.specs.Grade.{is_exact_of};
ghost use Rattle.rows.specs.Stored.{Fillable};
ghost use Rattle.kept.specs.Kept as model;
ghost use Rattle.kept.specs.Kept.{kept};

use crate::storing::{store_rows, strict_rows};
use field::{FieldRef, Grade};

// Whether the field is exact.
pub fn is_exact(field: FieldRef) -> bool
    requires { Loose (lent field) }
    ensures { result ≡ is_exact_of (given field) }
{
    field::grading::graded(field) == Grade::Exact
}

// Every row is worked out in the scratch and stored; how many are strict.
pub fn begin(field: FieldRef, values: &[u8], bounds: &mut [f64], f: &mut [f64]) -> u32
    requires fillable { Fillable (lent field) values.now f.old }
    requires bounds_len { length bounds.old ≡ variables (lent field) + variables (lent field) }
    ensures { kept values.now bounds.new result ≡ model.made (given field) values.now }
{
    rows::fill::fill(field, values, f);
    store_rows(values, f, bounds);
    strict_rows(values, bounds)
}
