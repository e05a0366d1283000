// The public call: an entry list is mended in place.
#![tactic(auto)]

ghost use Rattle.std.specs.Prelude.{◌≡◌};
ghost use Rattle.field.specs.Field.{field_of, lent, given};
ghost use Rattle.field.specs.Table.{tested};
ghost use Rattle.field.specs.Tests.{Loose};
ghost use Rattle.field.specs.Grade.{grade_of};
ghost use Rattle.mending.specs.Lineup.{Roomy};
ghost use Rattle.mend.specs.Work.{Worked, Writable, Written, Within};
ghost use Rattle.mend.specs.Call.{left, first_of, sum_tests as sum_tests_of, mend_tests, mend_call};

use field::{Answer, FieldRef, Grade, Refusal};

// What the call finds: the mended field's grade, the new number of entries and the number of changes.
#[derive(Clone, Copy)]
pub struct Mended {
    pub grade: Grade,
    pub entries: usize,
    pub changes: usize,
}

// How many places are kept, and how many entries are changed.
#[derive(Clone, Copy)]
pub struct Tally {
    pub kept: usize,
    pub changes: usize,
}

// 1, 2, 5 and 18; none of them needs scratch
fn sum_tests(field: FieldRef) -> Answer<()>
    ensures { result ≡ tested (sum_tests_of (given field)) }
{
    if !field::tests::few_variables(field.c.len()) {
        return Err(Refusal::Variables);
    }
    if !field::tests::lists_match(field.rows, field.cols, field.q) {
        return Err(Refusal::Lists);
    }
    if !field::tests::weights_finite(field.c, field.q) {
        return Err(Refusal::Weights);
    }
    if !mending::sums::sums_finite(field) {
        return Err(Refusal::Sum);
    }
    Ok(())
}

// These and 8
fn tests(field: FieldRef, floats: usize, words: usize) -> Answer<()>
    ensures { result ≡ tested (mend_tests (given field) floats words) }
{
    sum_tests(field)?;
    if !field::tests::floats_fit(field.c.len(), field.q.len(), floats) {
        return Err(Refusal::Scratch);
    }
    if !field::tests::words_fit(field.c.len(), field.q.len(), words) {
        return Err(Refusal::Scratch);
    }
    Ok(())
}

// Sorts, gathers and counts in scratch; nothing else is written yet.
fn work(field: FieldRef, f: &mut [f64], u: &mut [u32]) -> Tally
    requires { Roomy (lent field) f.old u.old }
    ensures { Worked (given field) result.kept result.changes f.old f.new u.old u.new }
{
    mending::lineup::line_up(field, f, u);
    let kept = mending::gathering::gather(field, f, u);
    let changes = mending::report::count(u, field.q.len());
    Tally { kept, changes }
}

// The lists that are changed go from call to call apart, as in shift.

// The report, and the mended entries with zeros behind them.
fn write(
    c: &[f64],
    rows: &mut [u16],
    cols: &mut [u16],
    q: &mut [f64],
    report: &mut [u16],
    f: &[f64],
    u: &[u32],
    tally: Tally,
)
    requires { Writable (field_of c.now rows.old cols.old q.old) tally.kept tally.changes report.old f.now u.now }
    ensures { Written (field_of c.now rows.old cols.old q.old) report.old rows.new cols.new q.new report.new }
{
    mending::report::put(u, q.len(), report);
    rows.fill(0);
    cols.fill(0);
    q.fill(0.0);
    mending::back::put_back(c.len(), f, u, rows, cols, q, tally.kept);
}

// The grade of the field of the first m entries.
fn grade_first(field: FieldRef, m: usize) -> Grade
    requires loose { Loose (first_of m (lent field)) }
    requires within { Within m (lent field) }
    ensures { result ≡ grade_of (first_of m (given field)) }
{
    field::grading::graded(FieldRef {
        c: field.c,
        rows: &field.rows[..m],
        cols: &field.cols[..m],
        q: &field.q[..m],
    })
}

// Entries outside the field are dropped, the others put in order, and repeats added in input order; the report has each change.
pub fn mend(
    c: &[f64],
    rows: &mut [u16],
    cols: &mut [u16],
    q: &mut [f64],
    report: &mut [u16],
    f: &mut [f64],
    u: &mut [u32],
) -> Answer<Mended>
    ensures { left result rows.new cols.new q.new report.new f.new u.new ≡ mend_call (field_of c.now rows.old cols.old q.old) report.old f.old u.old }
{
    let field = FieldRef { c, rows, cols, q };
    tests(field, f.len(), u.len())?;
    let tally = work(field, f, u);
    let kept = tally.kept;
    let changes = tally.changes;
    if changes > report.len() / 3 {
        report.fill(0);
        f.fill(0.0);
        u.fill(0);
        return Err(Refusal::Room);
    }
    write(c, rows, cols, q, report, f, u, tally);
    f.fill(0.0);
    u.fill(0);
    let grade = grade_first(FieldRef { c, rows, cols, q }, kept);
    Ok(Mended {
        grade,
        entries: kept,
        changes,
    })
}
