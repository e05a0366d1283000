// A case of the smaller problem, which closes up in the field's own lists.
ghost use Rattle.std.specs.Prelude.{◌≤◌, length};
ghost use Rattle.stream.specs.Heads.{standing};
ghost use Rattle.stream.specs.Outputs.{Onto};

use field::{Answer, FieldRef};
use lines::outcomes::{Ended, done, refusing};
use lines::reduced::put_reduced;
use stream::output::Output;
use sub_problem::Reduced;

// Done with a grade, as many variables and as many entries, or a refusal.
fn reduced(answer: Answer<Reduced>) -> Ended {
    match answer {
        Ok(
            Reduced {
                grade,
                variables,
                entries,
                ..
            },
        ) => done(Some(grade), variables, entries),
        Err(refusal) => refusing(refusal),
    }
}

// The constant, and 0.0 where there is none.
fn constant_of(answer: Answer<Reduced>) -> f64 {
    match answer {
        Ok(Reduced { constant, .. }) => constant,
        Err(_) => 0.0,
    }
}

// Makes the call in a field that stands at the front of the contents, and puts its line.
pub fn reduce_field(
    contents: &[u8],
    c: &mut [f64],
    rows: &mut [u16],
    cols: &mut [u16],
    q: &mut [f64],
    start: &[u8],
    list: &mut [u16],
    f: &mut [f64],
    u: &mut [u32],
    out: &mut Output<'_>,
)
    requires { standing (length c.old) (length rows.old) (length cols.old) (length q.old) ≤ length contents.now }
    ensures { Onto out.old.buffer out.new.buffer }
{
    let answer = sub_problem::sub_problem(c, rows, cols, q, start, list, f, u);
    let ended = reduced(answer);
    let constant = constant_of(answer);
    put_reduced(
        out,
        ended,
        constant,
        contents,
        FieldRef { c, rows, cols, q },
        list,
        f,
        u,
    );
}
