// The public call: whether constraints allow any assignment, the least one, and how many literals each literal reaches.
#![tactic(auto)]

mod reading;

ghost use Rattle.std.specs.Prelude.{◌≡◌, ◌*◌, ◌≤◌, length};
ghost use Rattle.field.specs.Table.{tested};
ghost use Rattle.literals.specs.Listed.{Listed};
ghost use Rattle.literals.specs.Ends.{rules};
ghost use Rattle.arrows.specs.Marks.{Wide};
ghost use Rattle.allow.specs.Choice.{Answered};
ghost use Rattle.allow.specs.Call.{left, fits as fits_in, allow_tests, allow_call};

use field::{Answer, Refusal};

// An assignment meets every record; or none does, by this variable. It is no Option, whose None would say yes.
#[derive(Clone, Copy)]
pub enum Allowed {
    Yes,
    No(usize),
}

// 1, 7 and 8
fn tests(n: usize, list: &[u16], longs: usize, words: usize) -> Answer<()>
    ensures { result ≡ tested (allow_tests n list.now longs words) }
{
    if n > 1024 {
        return Err(Refusal::Variables);
    }
    if !propagation::tests::constraints_fit(n, list) {
        return Err(Refusal::Argument);
    }
    if 128 * n > longs {
        return Err(Refusal::Scratch);
    }
    if !field::tests::words_fit(n, list.len() / 3, words) {
        return Err(Refusal::Scratch);
    }
    Ok(())
}

// 9
fn fits(n: usize, places: usize, numbers: usize) -> bool
    requires { n ≤ 1024 }
    ensures { result ≡ fits_in n places numbers }
{
    n <= places && 2 * n <= numbers
}

// The answer for records that fit, with the assignment and the counts at the front of their lists.
fn decide(
    list: &[u16],
    n: usize,
    assignment: &mut [u8],
    counts: &mut [u16],
    w: &mut [u64],
) -> Allowed
    requires listed { Listed n list.now }
    requires wide { Wide n w.old }
    requires n_in_bounds { n ≤ length assignment.old }
    requires n_in_bounds_2 { 2 * n ≤ length counts.old }
    ensures { Answered (rules list.now) n assignment.old counts.old result assignment.new counts.new }
{
    arrows::fill(list, n, w);
    reading::count_all(w, 2 * n, counts);
    if let Some(i) = reading::first_contradictory(w, n) {
        assignment[..n].fill(2);
        return Allowed::No(i);
    }
    reading::choose(w, n, assignment);
    Allowed::Yes
}

// Whether some assignment meets every record; then the least one, else 2 for every variable; and what each literal reaches, counted.
pub fn allow(
    variables: usize,
    constraints: &[u16],
    assignment: &mut [u8],
    counts: &mut [u16],
    w: &mut [u64],
    u: &mut [u32],
) -> Answer<Allowed>
    ensures { left result assignment.new counts.new w.new u.new ≡ allow_call variables constraints.now assignment.old counts.old w.old u.old }
{
    tests(variables, constraints, w.len(), u.len())?;
    if !fits(variables, assignment.len(), counts.len()) {
        assignment.fill(0);
        counts.fill(0);
        w.fill(0);
        u.fill(0);
        return Err(Refusal::Room);
    }
    let answer = decide(constraints, variables, assignment, counts, w);
    w.fill(0);
    u.fill(0);
    Ok(answer)
}
