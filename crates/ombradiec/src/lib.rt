// The public calls for programs in C and Rust: each exported function is the call of its crate, and answers with one number.
// C lends a field as four lists and a record of values as three, so each function takes them one by one.
#![tactic(auto)]

ghost use Rattle.std.specs.Prelude.{◌≡◌};
ghost use Rattle.field.specs.Field.{field_of};
ghost use Rattle.calls.specs.Values.{left};
ghost use Rattle.closure.specs.Call as closing;
ghost use Rattle.components.specs.Call as components;
ghost use Rattle.preprocess.specs.Call as preprocess;
ghost use Rattle.heavy.specs.Call as heavy;
ghost use Rattle.no_effect.specs.Call as effectless;
ghost use Rattle.shift.specs.Closing.{left_behind};
ghost use Rattle.shift.specs.Call as shifting;
ghost use Rattle.sub_problem.specs.Call as reducing;
ghost use Rattle.mend.specs.Call as mending;
ghost use Rattle.anchors.specs.Call as anchoring;
ghost use Rattle.pairs.specs.Call as pairing;
ghost use Rattle.probe.specs.Call as probing;
ghost use Rattle.reason.specs.Call as reasoning;
ghost use Rattle.calls.specs.Call as any;
ghost use Rattle.kept.specs.Kept.{kept};
ghost use Rattle.kept.specs.Calls as keeping;
ghost use Rattle.probes.specs.Call as searching;
ghost use Rattle.propagation.specs.Call as propagating;
ghost use Rattle.allow.specs.Call as allowing;
ghost use Rattle.packing.specs.Layout.{packed_checked, packed_answer, packed_counted, packed_paired, packed_reasoned, bound_after as bound_after_of, packed_reduced, constant_after as constant_after_of, packed_mended, packed_allowed};
ghost use Rattle.ombradiec.specs.Exported.{Exported};

use field::FieldRef;
use packing::{bound_after, constant_after, pack};

// The gradient closure, and how many free variables have a flat row at its end.
#[unsafe(no_mangle)]
pub extern "C" fn ombradiec_closure(
    c: &[f64],
    rows: &[u16],
    cols: &[u16],
    q: &[f64],
    start: &mut [u8],
    f: &mut [f64],
    u: &mut [u32],
) -> u64
    ensures { Exported packed_counted (λ a. closing.left a start.new f.new u.new) result (closing.closure_call (field_of c.now rows.now cols.now q.now) start.old f.old u.old) }
{
    let field = FieldRef { c, rows, cols, q };
    pack(closure::closure(field, start, f, u))
}

// The values of all small components.
#[unsafe(no_mangle)]
pub extern "C" fn ombradiec_components(
    c: &[f64],
    rows: &[u16],
    cols: &[u16],
    q: &[f64],
    start: &mut [u8],
    f: &mut [f64],
    u: &mut [u32],
) -> u64
    ensures { Exported packed_answer (λ a. left a start.new f.new u.new) result (components.components_call (field_of c.now rows.now cols.now q.now) start.old f.old u.old) }
{
    let field = FieldRef { c, rows, cols, q };
    pack(components::components(field, start, f, u))
}

// The closure, the small components and the variables of no effect.
#[unsafe(no_mangle)]
pub extern "C" fn ombradiec_preprocess(
    c: &[f64],
    rows: &[u16],
    cols: &[u16],
    q: &[f64],
    start: &mut [u8],
    f: &mut [f64],
    u: &mut [u32],
) -> u64
    ensures { Exported packed_answer (λ a. left a start.new f.new u.new) result (preprocess.preprocess_call (field_of c.now rows.now cols.now q.now) start.old f.old u.old) }
{
    let field = FieldRef { c, rows, cols, q };
    pack(preprocess::preprocess(field, start, f, u))
}

// Preprocess and probes, round after round.
#[unsafe(no_mangle)]
pub extern "C" fn ombradiec_heavy(
    c: &[f64],
    rows: &[u16],
    cols: &[u16],
    q: &[f64],
    start: &mut [u8],
    f: &mut [f64],
    u: &mut [u32],
) -> u64
    ensures { Exported packed_answer (λ a. left a start.new f.new u.new) result (heavy.heavy_call (field_of c.now rows.now cols.now q.now) start.old f.old u.old) }
{
    let field = FieldRef { c, rows, cols, q };
    pack(heavy::heavy(field, start, f, u))
}

// The variables of no effect.
#[unsafe(no_mangle)]
pub extern "C" fn ombradiec_no_effect(
    c: &[f64],
    rows: &[u16],
    cols: &[u16],
    q: &[f64],
    list: &mut [u16],
    u: &mut [u32],
) -> u64
    ensures { Exported packed_counted (λ a. effectless.left a list.new u.new) result (effectless.no_effect_call (field_of c.now rows.now cols.now q.now) list.old u.old) }
{
    let field = FieldRef { c, rows, cols, q };
    pack(no_effect::no_effect(field, list, u))
}

// The diagonal into the linear weights.
#[unsafe(no_mangle)]
pub extern "C" fn ombradiec_shift(
    c: &mut [f64],
    rows: &mut [u16],
    cols: &mut [u16],
    q: &mut [f64],
) -> u64
    ensures { Exported packed_counted (λ a. shifting.left a (left_behind c rows cols q)) result (shifting.shift_call (field_of c.old rows.old cols.old q.old)) }
{
    pack(shift::shift(c, rows, cols, q))
}

// The field without its given variables; the constant goes into `constant`, which a refusal leaves.
#[unsafe(no_mangle)]
pub extern "C" fn ombradiec_sub_problem(
    c: &mut [f64],
    rows: &mut [u16],
    cols: &mut [u16],
    q: &mut [f64],
    start: &[u8],
    map: &mut [u16],
    constant: &mut f64,
    f: &mut [f64],
    u: &mut [u32],
) -> u64
    ensures exported { Exported packed_reduced (λ a. reducing.left a (left_behind c rows cols q) map.new f.new u.new) result (reducing.sub_problem_call (field_of c.old rows.old cols.old q.old) start.now map.old f.old u.old) }
    ensures constant_value { constant.new ≡ constant_after_of (reducing.sub_problem_call (field_of c.old rows.old cols.old q.old) start.now map.old f.old u.old).answer constant.old }
{
    let answer = sub_problem::sub_problem(c, rows, cols, q, start, map, f, u);
    *constant = constant_after(answer, *constant);
    pack(answer)
}

// The entry list mended in place; the number of changes stands where other calls have the pairs examined.
#[unsafe(no_mangle)]
pub extern "C" fn ombradiec_mend(
    c: &[f64],
    rows: &mut [u16],
    cols: &mut [u16],
    q: &mut [f64],
    report: &mut [u16],
    f: &mut [f64],
    u: &mut [u32],
) -> u64
    ensures { Exported packed_mended (λ a. mending.left a rows.new cols.new q.new report.new f.new u.new) result (mending.mend_call (field_of c.now rows.old cols.old q.old) report.old f.old u.old) }
{
    pack(mend::mend(c, rows, cols, q, report, f, u))
}

// The anchors of components of at least `least` variables.
#[unsafe(no_mangle)]
pub extern "C" fn ombradiec_anchors(
    c: &[f64],
    rows: &[u16],
    cols: &[u16],
    q: &[f64],
    start: &[u8],
    least: usize,
    list: &mut [u16],
    f: &mut [f64],
    u: &mut [u32],
) -> u64
    ensures { Exported packed_counted (λ a. anchoring.left a list.new f.new u.new) result (anchoring.anchors_call (field_of c.now rows.now cols.now q.now) start.now least list.old f.old u.old) }
{
    let field = FieldRef { c, rows, cols, q };
    pack(anchors::anchors(field, start, least, list, f, u))
}

// The constraints of the first `limit` free pairs.
#[unsafe(no_mangle)]
pub extern "C" fn ombradiec_pairs(
    c: &[f64],
    rows: &[u16],
    cols: &[u16],
    q: &[f64],
    start: &[u8],
    limit: usize,
    constraints: &mut [u16],
    f: &mut [f64],
    u: &mut [u32],
) -> u64
    ensures { Exported packed_paired (λ a. pairing.left a constraints.new f.new u.new) result (pairing.pairs_call (field_of c.now rows.now cols.now q.now) start.now limit constraints.old f.old u.old) }
{
    let field = FieldRef { c, rows, cols, q };
    pack(pairs::pairs(field, start, limit, constraints, f, u))
}

// What one value forces, over remembered rows.
#[unsafe(no_mangle)]
pub extern "C" fn ombradiec_probe_one(
    c: &[f64],
    rows: &[u16],
    cols: &[u16],
    q: &[f64],
    start: &[u8],
    variable: usize,
    value: u8,
    values: &mut [u8],
    f: &mut [f64],
    u: &mut [u32],
) -> u64
    ensures { Exported packed_answer (λ a. probing.left a values.new f.new u.new) result (probing.probe_one_call (field_of c.now rows.now cols.now q.now) start.now variable value values.old f.old u.old) }
{
    let field = FieldRef { c, rows, cols, q };
    pack(probes::probe_one(field, start, variable, value, values, f, u))
}

// The same with rows made afresh.
#[unsafe(no_mangle)]
pub extern "C" fn ombradiec_cold_probe_one(
    c: &[f64],
    rows: &[u16],
    cols: &[u16],
    q: &[f64],
    start: &[u8],
    variable: usize,
    value: u8,
    values: &mut [u8],
    f: &mut [f64],
    u: &mut [u32],
) -> u64
    ensures { Exported packed_answer (λ a. probing.left a values.new f.new u.new) result (probing.probe_one_call (field_of c.now rows.now cols.now q.now) start.now variable value values.old f.old u.old) }
{
    let field = FieldRef { c, rows, cols, q };
    pack(probe::cold_probe_one(field, start, variable, value, values, f, u))
}

// Why a variable has its value in the closure; the bound goes into `bound`, which a refusal leaves.
#[unsafe(no_mangle)]
pub extern "C" fn ombradiec_reason(
    c: &[f64],
    rows: &[u16],
    cols: &[u16],
    q: &[f64],
    start: &[u8],
    variable: usize,
    list: &mut [u16],
    bound: &mut f64,
    f: &mut [f64],
    u: &mut [u32],
) -> u64
    ensures exported { Exported packed_reasoned (λ a. reasoning.left a list.new f.new u.new) result (reasoning.reason_call (field_of c.now rows.now cols.now q.now) start.now variable list.old f.old u.old) }
    ensures bound_value { bound.new ≡ bound_after_of (reasoning.reason_call (field_of c.now rows.now cols.now q.now) start.now variable list.old f.old u.old).answer bound.old }
{
    let field = FieldRef { c, rows, cols, q };
    let answer = reason::reason(field, start, variable, list, f, u);
    *bound = bound_after(answer, *bound);
    pack(answer)
}

// What both probes of every free variable find.
#[unsafe(no_mangle)]
pub extern "C" fn ombradiec_probe(
    c: &[f64],
    rows: &[u16],
    cols: &[u16],
    q: &[f64],
    start: &[u8],
    values: &mut [u8],
    constraints: &mut [u16],
    f: &mut [f64],
    u: &mut [u32],
) -> u64
    ensures { Exported packed_counted (λ a. searching.left a values.new constraints.new f.new u.new) result (searching.probe_call (field_of c.now rows.now cols.now q.now) start.now values.old constraints.old f.old u.old) }
{
    let field = FieldRef { c, rows, cols, q };
    pack(probes::probe(field, start, values, constraints, f, u))
}

// The same of up to `candidates` free variables, those of the greatest edge mass.
#[unsafe(no_mangle)]
pub extern "C" fn ombradiec_probe_limited(
    c: &[f64],
    rows: &[u16],
    cols: &[u16],
    q: &[f64],
    start: &[u8],
    candidates: usize,
    values: &mut [u8],
    constraints: &mut [u16],
    f: &mut [f64],
    u: &mut [u32],
) -> u64
    ensures { Exported packed_counted (λ a. searching.left a values.new constraints.new f.new u.new) result (searching.probe_limited_call (field_of c.now rows.now cols.now q.now) start.now candidates values.old constraints.old f.old u.old) }
{
    let field = FieldRef { c, rows, cols, q };
    pack(probes::probe_limited(field, start, candidates, values, constraints, f, u))
}

// What both probes of every free variable find, with rows made afresh for each probe.
#[unsafe(no_mangle)]
pub extern "C" fn ombradiec_cold_probe(
    c: &[f64],
    rows: &[u16],
    cols: &[u16],
    q: &[f64],
    start: &[u8],
    values: &mut [u8],
    constraints: &mut [u16],
    f: &mut [f64],
    u: &mut [u32],
) -> u64
    ensures { Exported packed_counted (λ a. searching.left a values.new constraints.new f.new u.new) result (searching.probe_call (field_of c.now rows.now cols.now q.now) start.now values.old constraints.old f.old u.old) }
{
    let field = FieldRef { c, rows, cols, q };
    pack(cold::cold_probe(field, start, values, constraints, f, u))
}

// The same of the first candidates by edge mass.
#[unsafe(no_mangle)]
pub extern "C" fn ombradiec_cold_probe_limited(
    c: &[f64],
    rows: &[u16],
    cols: &[u16],
    q: &[f64],
    start: &[u8],
    candidates: usize,
    values: &mut [u8],
    constraints: &mut [u16],
    f: &mut [f64],
    u: &mut [u32],
) -> u64
    ensures { Exported packed_counted (λ a. searching.left a values.new constraints.new f.new u.new) result (searching.probe_limited_call (field_of c.now rows.now cols.now q.now) start.now candidates values.old constraints.old f.old u.old) }
{
    let field = FieldRef { c, rows, cols, q };
    pack(cold::cold_probe_limited(field, start, candidates, values, constraints, f, u))
}

// What constraints imply.
#[unsafe(no_mangle)]
pub extern "C" fn ombradiec_propagate(start: &mut [u8], constraints: &[u16], u: &mut [u32]) -> u64
    ensures { Exported packed_checked (λ a. propagating.left a start.new u.new) result (propagating.propagate_call start.old constraints.now u.old) }
{
    pack(propagation::propagate(start, constraints, u))
}

// The record of the values: every free variable's bounds, and the number of strict rows.
#[unsafe(no_mangle)]
pub extern "C" fn ombradiec_keep(
    c: &[f64],
    rows: &[u16],
    cols: &[u16],
    q: &[f64],
    values: &[u8],
    bounds: &mut [f64],
    strict: &mut u32,
    f: &mut [f64],
    u: &mut [u32],
) -> u64
    ensures { Exported packed_answer (λ a. keeping.left a bounds.new strict.new f.new u.new) result (keeping.make_call (field_of c.now rows.now cols.now q.now) values.now bounds.old strict.old f.old u.old) }
{
    let field = FieldRef { c, rows, cols, q };
    pack(kept::make(field, values, bounds, strict, f, u))
}

// A free variable takes a value in the record.
#[unsafe(no_mangle)]
pub extern "C" fn ombradiec_pin(
    c: &[f64],
    rows: &[u16],
    cols: &[u16],
    q: &[f64],
    values: &mut [u8],
    bounds: &mut [f64],
    strict: &mut u32,
    variable: usize,
    value: u8,
) -> u64
    ensures { Exported packed_checked (λ a. any.left a (kept values.new bounds.new strict.new)) result (keeping.pin_call (field_of c.now rows.now cols.now q.now) (kept values.old bounds.old strict.old) variable value) }
{
    let field = FieldRef { c, rows, cols, q };
    pack(kept::pin(field, values, bounds, strict, variable, value))
}

// A variable that has a value is free again in the record.
#[unsafe(no_mangle)]
pub extern "C" fn ombradiec_release(
    c: &[f64],
    rows: &[u16],
    cols: &[u16],
    q: &[f64],
    values: &mut [u8],
    bounds: &mut [f64],
    strict: &mut u32,
    variable: usize,
) -> u64
    ensures { Exported packed_checked (λ a. any.left a (kept values.new bounds.new strict.new)) result (keeping.release_call (field_of c.now rows.now cols.now q.now) (kept values.old bounds.old strict.old) variable) }
{
    let field = FieldRef { c, rows, cols, q };
    pack(kept::release(field, values, bounds, strict, variable))
}

// The closure from the record, and how many free variables have a flat row at its end.
#[unsafe(no_mangle)]
pub extern "C" fn ombradiec_close(
    c: &[f64],
    rows: &[u16],
    cols: &[u16],
    q: &[f64],
    values: &[u8],
    bounds: &[f64],
    list: &mut [u8],
    f: &mut [f64],
    u: &mut [u32],
) -> u64
    ensures { Exported packed_counted (λ a. keeping.closed a list.new f.new u.new) result (keeping.close_call (field_of c.now rows.now cols.now q.now) values.now bounds.now list.old f.old u.old) }
{
    let field = FieldRef { c, rows, cols, q };
    pack(kept::close(field, values, bounds, list, f, u))
}

// Whether the records allow any assignment, the least one, and how many literals each literal reaches.
#[unsafe(no_mangle)]
pub extern "C" fn ombradiec_allow(
    variables: usize,
    constraints: &[u16],
    assignment: &mut [u8],
    counts: &mut [u16],
    w: &mut [u64],
    u: &mut [u32],
) -> u64
    ensures { Exported packed_allowed (λ a. allowing.left a assignment.new counts.new w.new u.new) result (allowing.allow_call variables constraints.now assignment.old counts.old w.old u.old) }
{
    pack(allow::allow(variables, constraints, assignment, counts, w, u))
}
