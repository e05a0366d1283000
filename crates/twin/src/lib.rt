// Both probes of one candidate.
#![tactic(auto)]

ghost use Rattle.std.specs.Prelude.{◌≡◌};
ghost use Rattle.field.specs.Field.{given, lent};
ghost use Rattle.twin.specs.Twin.{Twinnable, EndFor, Halfway, Beside, Twinned};

use field::FieldRef;
use finding::emitting::{emit_list, keep, lay};
use probing::Known;
use workspace::restoring::restore;

// The probe of a variable at 0: what it gives is remembered, and what it forced is kept; how many it forced.
fn first_probe(
    field: FieldRef,
    start: &[u8],
    values: &mut [u8],
    f: &mut [f64],
    u: &mut [u32],
    known: Known,
    variable: usize,
) -> usize
    requires twinnable { Twinnable (lent field) start.now f.old u.old known variable }
    requires values_value { values.old ≡ start.now }
    ensures values_value_2 { values.new ≡ start.now }
    ensures f_value { f.new ≡ f.old }
    ensures halfway { Halfway (given field) start.now f.old u.new known variable result }
    ensures beside { Beside (given field) u.old u.new }
{
    let n = field.c.len();
    let base = n + 1 + 2 * field.rows.len();
    let first = base + n + n;
    let kept = first + n + n + n;
    let forced = probing::probe(field, values, f, u, known, variable, 0);
    keep(u, base, forced, kept);
    lay(values, u, kept, forced, first);
    restore(field, start, values, f, u, variable, forced);
    forced
}

// The probe at 1, and what both find; nothing is remembered then.
fn second_probe(
    field: FieldRef,
    start: &[u8],
    values: &mut [u8],
    f: &mut [f64],
    u: &mut [u32],
    known: Known,
    variable: usize,
    forced: usize,
    end: usize,
) -> usize
    requires halfway { Halfway (lent field) start.now f.old u.old known variable forced }
    requires end_for { EndFor (lent field) u.old end }
    requires values_value { values.old ≡ start.now }
    ensures values_value_2 { values.new ≡ start.now }
    ensures f_value { f.new ≡ f.old }
    ensures twinned { Twinned (given field) start.now f.old known variable u.old end u.new result }
{
    let n = field.c.len();
    let base = n + 1 + 2 * field.rows.len();
    let first = base + n + n;
    let at = first + n;
    let kept = at + n + n;
    let again = probing::probe(field, values, f, u, known, variable, 1);
    let both = emit_list(start, values, u, variable, base, again, 0, first, at, end);
    let last = emit_list(start, values, u, variable, kept, forced, 2, first, at, both);
    restore(field, start, values, f, u, variable, again);
    lay(start, u, kept, forced, first);
    last
}

// The probes of a variable at 0 and at 1, and what they find; where the gathered numbers end now.
pub fn twin(
    field: FieldRef,
    start: &[u8],
    values: &mut [u8],
    f: &mut [f64],
    u: &mut [u32],
    known: Known,
    variable: usize,
    end: usize,
) -> usize
    requires twinnable { Twinnable (lent field) start.now f.old u.old known variable }
    requires end_for { EndFor (lent field) u.old end }
    requires values_value { values.old ≡ start.now }
    ensures values_value_2 { values.new ≡ start.now }
    ensures f_value { f.new ≡ f.old }
    ensures twinned { Twinned (given field) start.now f.old known variable u.old end u.new result }
{
    let forced = first_probe(field, start, values, f, u, known, variable);
    second_probe(field, start, values, f, u, known, variable, forced, end)
}
