// The public call: propagation of constraints over start values.
#![tactic(auto)]

pub mod tests;

ghost use Rattle.std.specs.Prelude.{◌≡◌, ◌≤◌, length, take};
ghost use Rattle.literals.specs.Going.{Small};
ghost use Rattle.propagation.specs.Call.{left, propagate_call};

use field::{Answer, Refusal};

// Writes the values back.
fn write_back(start: &mut [u8], u: &[u32])
    requires start_in_bounds { length start.old ≤ length u.now }
    requires small { Small (length start.old) u.now }
    ensures { start.new ≡ take (length start.old) u.now }
{
    for i in 0..start.len() {
        start[i] = u[i] as u8;
    }
}

// Implied values go into the start values; a clash or a refusal leaves them as they are.
pub fn propagate(start: &mut [u8], constraints: &[u16], u: &mut [u32]) -> Answer<()>
    ensures { left result start.new u.new ≡ propagate_call start.old constraints.now u.old }
{
    tests::ready(start, constraints, u.len())?;
    if !literals::run(start, constraints, u) {
        u.fill(0);
        return Err(Refusal::Clash);
    }
    write_back(start, u);
    u.fill(0);
    Ok(())
}
