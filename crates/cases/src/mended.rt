// A case of an entry list to be mended, which is done in the field's own lists.
ghost use Rattle.std.specs.Prelude.{◌≤◌, length};
ghost use Rattle.stream.specs.Heads.{standing};
ghost use Rattle.stream.specs.Outputs.{Onto};

use field::{Answer, FieldRef};
use lines::outcomes::{Ended, done, refusing};
use lines::reduced::put_mended;
use mend::Mended;
use stream::output::Output;

// Done with a grade, as many changes and as many entries, or a refusal.
fn outcome_of(answer: Answer<Mended>) -> Ended {
    match answer {
        Ok(
            Mended {
                grade,
                entries,
                changes,
            },
        ) => done(Some(grade), changes, entries),
        Err(refusal) => refusing(refusal),
    }
}

// Makes the call in a field that stands at the front of the contents, and puts its line.
pub fn mend_field(
    contents: &[u8],
    c: &[f64],
    rows: &mut [u16],
    cols: &mut [u16],
    q: &mut [f64],
    list: &mut [u16],
    f: &mut [f64],
    u: &mut [u32],
    out: &mut Output<'_>,
)
    requires { standing (length c.now) (length rows.old) (length cols.old) (length q.old) ≤ length contents.now }
    ensures { Onto out.old.buffer out.new.buffer }
{
    let ended = outcome_of(mend::mend(c, rows, cols, q, list, f, u));
    put_mended(
        out,
        ended,
        contents,
        FieldRef { c, rows, cols, q },
        list,
        f,
        u,
    );
}
