// The candidates of the limited probe.
ghost use Rattle.std.specs.Prelude.{◌≡◌, length};
ghost use Rattle.field.specs.Field.{lent, given};
ghost use Rattle.field.specs.Tests.{Ready};
ghost use Rattle.probes.specs.Standing.{Chosen};

use field::FieldRef;

// The free variables by falling edge mass, up to the limit; how many they are. The masses stand behind the rows and their copy.
pub fn choose(field: FieldRef, start: &[u8], limit: usize, f: &mut [f64], u: &mut [u32]) -> usize
    requires { Ready (lent field) start.now (length f.old) (length u.old) }
    ensures { Chosen (given field) start.now limit f.old f.new u.old u.new result }
{
    let n = field.c.len();
    let masses = n + n + (n + n);
    let at = n + 1 + 2 * field.rows.len() + n + n + n + n;
    ranking::rank(field, start, &mut f[masses..masses + n], u, at, limit)
}
