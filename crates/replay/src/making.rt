// The call of a case is made, in lists that are taken, where it keeps the field.
ghost use Rattle.lines.specs.Outcomes.{Tabled};

use field::{Answer, FieldRef, Grade};
use lines::call::Call;
use lines::outcomes::{
    Ended, Outcome, Reason, Side, Undone, answered, checked, counted, done, refusing,
};
use pairs::Paired;
use reason::{Ground, Reasoned};
use stream::head::Head;

#[tactic(auto, using(lines::proofs::Few::done_tabled, lines::proofs::Few::refusing_tabled))]
fn paired(answer: Answer<Paired>) -> Ended
    ensures { Tabled result }
{
    match answer {
        Ok(
            Paired {
                grade,
                items: count,
                pairs: examined,
            },
        ) => done(Some(grade), count, examined),
        Err(refusal) => refusing(refusal),
    }
}

// A ground as the line tells it; a variable that is given has the bound 0.
fn told(ground: Ground, unit: u8) -> Reason {
    let (side, bound) = match ground {
        Ground::Given => (Side::Given, 0.0),
        Ground::Lower(bound) => (Side::Lower, bound),
        Ground::Upper(bound) => (Side::Upper, bound),
    };
    Reason { side, unit, bound }
}

// The call answers in an exact field alone.
#[tactic(auto, using(lines::proofs::Few::refusing_tabled))]
fn reasoned(answer: Answer<Reasoned>) -> Ended
    ensures { Tabled result }
{
    match answer {
        Ok(
            Reasoned {
                because,
                unit,
                count,
            },
        ) => Ok(Outcome {
            grade: Some(Grade::Exact),
            count,
            pairs: 0,
            reason: Some(told(because, unit)),
        }),
        Err(refusal) => refusing(refusal),
    }
}

// Makes a call that keeps the field; another is absent here.
#[tactic(auto, using(lines::proofs::Few::answered_tabled, lines::proofs::Few::checked_tabled, lines::proofs::Few::counted_tabled))]
pub fn make(
    call: Call,
    head: Head,
    field: FieldRef,
    start: &mut [u8],
    found: &mut [u8],
    list: &mut [u16],
    f: &mut [f64],
    u: &mut [u32],
) -> Ended
    ensures { Tabled result }
{
    let variable = head.variable;
    let value = head.value;
    let limit = head.limit;
    match call {
        Call::Closure => counted(closure::closure(field, start, f, u)),
        Call::Components => answered(components::components(field, start, f, u)),
        Call::Preprocess => answered(preprocess::preprocess(field, start, f, u)),
        Call::Heavy => answered(heavy::heavy(field, start, f, u)),
        Call::SingleProbe => answered(probes::probe_one(
            field, start, variable, value, found, f, u,
        )),
        Call::ColdProbe => answered(probe::cold_probe_one(
            field, start, variable, value, found, f, u,
        )),
        Call::Probe => counted(probes::probe(field, start, found, list, f, u)),
        Call::LimitedProbe => counted(probes::probe_limited(
            field, start, limit, found, list, f, u,
        )),
        Call::ColdFull => counted(cold::cold_probe(field, start, found, list, f, u)),
        Call::ColdLimited => counted(cold::cold_probe_limited(
            field, start, limit, found, list, f, u,
        )),
        Call::Pairs => paired(pairs::pairs(field, start, limit, list, f, u)),
        Call::Propagation => checked(propagation::propagate(start, list, u)),
        Call::Anchors => counted(anchors::anchors(field, start, head.least, list, f, u)),
        Call::NoEffect => counted(no_effect::no_effect(field, list, u)),
        Call::Reason => reasoned(reason::reason(field, start, variable, list, f, u)),
        _ => Err(Undone::Absent),
    }
}
