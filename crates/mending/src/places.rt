// The place of an entry, as one number.
ghost use Rattle.std.specs.Prelude.{◌≡◌, ◌<◌};
ghost use Rattle.field.specs.Field.{given, lent, entries};
ghost use Rattle.field.specs.Faults.{Listed};
ghost use Rattle.mending.specs.Places.{place_of};

use field::FieldRef;

// By column, then row; n * n where the entry lies outside the field.
pub fn place_at(field: FieldRef, k: usize) -> usize
    requires listed { Listed (lent field) }
    requires k_bound { k < entries (lent field) }
    ensures { result ≡ place_of (given field) k }
{
    let n = field.c.len();
    let row = usize::from(field.rows[k]);
    let col = usize::from(field.cols[k]);
    if row >= n {
        return n * n;
    }
    if col >= n {
        return n * n;
    }
    col * n + row
}
