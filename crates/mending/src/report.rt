// The changes, counted and written by the marks.
ghost use Rattle.std.specs.Prelude.{◌≡◌, ◌+◌, ◌*◌, ◌≤◌, length};
ghost use Rattle.scratch.specs.Over.{over};
ghost use Rattle.mending.specs.Report.{step_of, told_by, count_to, told_to, Puttable, Puts, Reportable};

// 1 where entry k is changed: unless it is the first of its place and stays where it is.
fn step(mark: u32, k: usize) -> usize
    requires { k ≤ 32768 }
    ensures value { result ≡ step_of mark k }
    ensures upper_bound { result ≤ 1 }
{
    if mark as usize == 65536 + k { 0 } else { 1 }
}

// How many of the m entries are changed, whose marks stand from word 2m on.
pub fn count(u: &[u32], m: usize) -> usize
    requires m_bound { m ≤ 32768 }
    requires m_in_bounds { 8 * m + 16 ≤ length u.now }
    ensures { result ≡ count_to m u.now m }
{
    let mut changes: usize = 0;
    for k in 0..m {
        changes = changes + step(u[2 * m + k], k);
    }
    changes
}

// Three numbers at `at`, if entry k is changed; hands back where the next go.
fn put_change(report: &mut [u16], at: usize, k: usize, mark: u32) -> usize
    requires { Puttable at k mark report.old }
    ensures { Puts at result (told_by mark k) report.old report.new }
{
    let wide = mark as usize;
    if wide == 65536 + k {
        return at;
    }
    report[at] = k as u16;
    report[at + 1] = (wide / 65536) as u16;
    report[at + 2] = (wide % 65536) as u16;
    at + 3
}

// Writes the numbers of all changes into the report, in input order.
pub fn put(u: &[u32], m: usize, report: &mut [u16])
    requires { Reportable m u.now report.old }
    ensures { report.new ≡ over (told_to m u.now m) report.old }
{
    let mut at: usize = 0;
    for k in 0..m {
        at = put_change(report, at, k, u[2 * m + k]);
    }
}
