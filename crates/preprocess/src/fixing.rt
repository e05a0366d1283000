// Variables without a place and with c = 0 take the value 0 where they are free.
ghost use Rattle.std.specs.Prelude.{◌≡◌, ◌+◌, ◌<◌, length};
ghost use Rattle.field.specs.Field.{given, lent, variables, Shaped};
ghost use Rattle.places.specs.Places.{Adjacent};
ghost use Rattle.preprocess.specs.Working.{idle, fix_at as fix_at_of, with_no_effect};

use field::FieldRef;

// Variable i takes 0 if it is free and has no effect; it has no place where its offset is the next one's.
fn fix_at(c: &[f64], u: &[u32], values: &mut [u8], i: usize)
    requires i_in_bounds { i < length c.now }
    requires i_in_bounds_2 { i + 1 < length u.now }
    requires i_in_bounds_3 { i < length values.old }
    ensures { values.new ≡ fix_at_of (idle c.now u.now i) i values.old }
{
    if u[i] == u[i + 1] && c[i] == 0.0 && values[i] == 2 {
        values[i] = 0;
    }
}

// Every free variable of no effect counts as 0.
pub fn fix_idle(field: FieldRef, u: &[u32], values: &mut [u8])
    requires shaped { Shaped (lent field) }
    requires values_len { length values.old ≡ variables (lent field) }
    requires adjacent { Adjacent (variables (lent field)) (lent field).rows (lent field).cols u.now }
    ensures { values.new ≡ with_no_effect (given field) values.old }
{
    for i in 0..field.c.len() {
        fix_at(field.c, u, values, i);
    }
}
