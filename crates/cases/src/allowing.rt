// A case of the call that asks what constraints allow.
ghost use Rattle.std.specs.Prelude.{◌≤◌, length};
ghost use Rattle.stream.specs.Outputs.{Onto};

use crate::case::Case;
use allow::Allowed;
use field::Answer;
use lines::allowed::put_allowed;
use lines::left::{BYTE, LONG, SHORT, WORD};
use lines::outcomes::Undone;
use stream::head::VARIABLES;
use stream::lists::take;
use stream::output::Output;

// The longest list of counts and the longest u64 scratch.
const COUNTS: usize = 4_110;

const LONGS: usize = 131_100;

// No variable where some assignment meets every constraint, or the one by which none does; or the refusal.
fn failing(answer: Answer<Allowed>) -> Result<Option<usize>, Undone> {
    match answer {
        Ok(Allowed::Yes) => Ok(None),
        Ok(Allowed::No(variable)) => Ok(Some(variable)),
        Err(refusal) => Err(Undone::Refusing(refusal)),
    }
}

// Makes the call and puts its line.
fn allow_in(
    variables: usize,
    constraints: &[u16],
    assignment: &mut [u8],
    counts: &mut [u16],
    w: &mut [u64],
    u: &mut [u32],
    out: &mut Output<'_>,
)
    ensures { Onto out.old.buffer out.new.buffer }
{
    let answer = failing(allow::allow(variables, constraints, assignment, counts, w, u));
    put_allowed(out, answer, variables, assignment, counts, w, u);
}

// With constraints and u32 scratch as long as the head says, and answer lists and u64 scratch of its own.
fn answer_taken(case: Case<'_>, constraints: &mut [u16], u: &mut [u32], out: &mut Output<'_>)
    requires { length constraints.old ≤ case.head.constraints }
    ensures { Onto out.old.buffer out.new.buffer }
{
    take(case.contents, case.head.constraints_at(), constraints);
    u.fill(WORD);
    let mut assignment = [BYTE; VARIABLES];
    let mut counts = [SHORT; COUNTS];
    let mut w = [LONG; LONGS];
    let values = case.head.found;
    let numbers = case.head.variables.min(COUNTS);
    let longs = case.head.floats.min(LONGS);
    allow_in(
        case.head.variable,
        constraints,
        &mut assignment[..values],
        &mut counts[..numbers],
        &mut w[..longs],
        u,
        out,
    );
}

// A list and u32 scratch are lent, of which it takes the parts that the head asks for.
pub fn answer_allow(case: Case<'_>, list: &mut [u16], u: &mut [u32], out: &mut Output<'_>)
    requires constraints_in_bounds { case.head.constraints ≤ length list.old }
    requires words_in_bounds { case.head.words ≤ length u.old }
    ensures { Onto out.old.buffer out.new.buffer }
{
    let count = case.head.constraints;
    let words = case.head.words;
    answer_taken(case, &mut list[..count], &mut u[..words], out);
}
