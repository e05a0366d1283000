// A case is answered in slices as long as its head says: parts of the buffers, and of arrays that each case has anew.
ghost use Rattle.std.specs.Prelude.{◌≤◌, length};
ghost use Rattle.stream.specs.Heads.{Buffers, standing};
ghost use Rattle.stream.specs.Outputs.{Onto};

use crate::making::make;
use cases::allowing::answer_allow;
use cases::case::Case;
use cases::mended::mend_field;
use cases::reducing::reduce_field;
use cases::shifting::answer_shift;
use field::FieldRef;
use keeping::answer_keep;
use lines::call::Call;
use lines::left::BYTE;
use lines::put_line;
use stream::head::{ENTRIES, FLOATS, VARIABLES};
use stream::output::Output;

// Makes a call that keeps the field and puts its line.
fn answer_kept(
    call: Call,
    case: Case<'_>,
    field: FieldRef,
    start: &mut [u8],
    found: &mut [u8],
    list: &mut [u16],
    f: &mut [f64],
    u: &mut [u32],
    out: &mut Output<'_>,
)
    requires { length start.old ≤ case.head.start }
    ensures { Onto out.old.buffer out.new.buffer }
{
    let ended = make(call, case.head, field, start, found, list, f, u);
    let at = case.head.start_at();
    put_line(
        out,
        call,
        ended,
        case.contents,
        at,
        start,
        found,
        list,
        f,
        u,
    );
}

// Makes the call in a field that stands at the front of the contents, and puts its line.
fn answer_call(
    call: Call,
    case: Case<'_>,
    c: &mut [f64],
    rows: &mut [u16],
    cols: &mut [u16],
    q: &mut [f64],
    start: &mut [u8],
    found: &mut [u8],
    list: &mut [u16],
    f: &mut [f64],
    u: &mut [u32],
    out: &mut Output<'_>,
)
    requires q_in_bounds { standing (length c.old) (length rows.old) (length cols.old) (length q.old) ≤ length case.contents.now }
    requires start_in_bounds { length start.old ≤ case.head.start }
    ensures { Onto out.old.buffer out.new.buffer }
{
    match call {
        Call::SubProblem => reduce_field(case.contents, c, rows, cols, q, start, list, f, u, out),
        Call::Mend => mend_field(case.contents, c, rows, cols, q, list, f, u, out),
        Call::Keep => answer_keep(
            case.head.least,
            case.contents,
            case.head.start_at(),
            FieldRef { c, rows, cols, q },
            start,
            found,
            list,
            f,
            u,
            out,
        ),
        _ => answer_kept(
            call,
            case,
            FieldRef { c, rows, cols, q },
            start,
            found,
            list,
            f,
            u,
            out,
        ),
    }
}

// With a field of its own.
fn answer_in_field(
    call: Call,
    case: Case<'_>,
    start: &mut [u8],
    found: &mut [u8],
    list: &mut [u16],
    f: &mut [f64],
    u: &mut [u32],
    out: &mut Output<'_>,
)
    requires { length start.old ≤ case.head.start }
    ensures { Onto out.old.buffer out.new.buffer }
{
    let mut c = [0.0f64; VARIABLES];
    let mut rows = [0u16; ENTRIES];
    let mut cols = [0u16; ENTRIES];
    let mut q = [0.0f64; ENTRIES];
    case.take_linear(&mut c);
    case.take_rows(&mut rows);
    case.take_columns(&mut cols);
    case.take_weights(&mut q);
    let variables = case.head.linear;
    let row_count = case.head.rows;
    let column_count = case.head.columns;
    let weight_count = case.head.weights;
    answer_call(
        call,
        case,
        &mut c[..variables],
        &mut rows[..row_count],
        &mut cols[..column_count],
        &mut q[..weight_count],
        start,
        found,
        list,
        f,
        u,
        out,
    );
}

// With an answer list and scratch as long as the head says, and start values and found values of its own.
fn answer_in_parts(
    call: Call,
    case: Case<'_>,
    list: &mut [u16],
    f: &mut [f64],
    u: &mut [u32],
    out: &mut Output<'_>,
)
    ensures { Onto out.old.buffer out.new.buffer }
{
    case.fill_lent(list, f, u);
    let mut start = [0u8; VARIABLES];
    case.take_start(&mut start);
    let mut found = [BYTE; VARIABLES];
    let values = case.head.start;
    let room = case.head.found;
    answer_in_field(
        call,
        case,
        &mut start[..values],
        &mut found[..room],
        list,
        f,
        u,
        out,
    );
}

// Answers a case that takes f64 scratch, which is no buffer but made anew, in the parts of the buffers that its head asks for.
fn answer_in_floats(
    call: Call,
    case: Case<'_>,
    list: &mut [u16],
    u: &mut [u32],
    out: &mut Output<'_>,
)
    requires { Buffers (length list.old) 163900 (length u.old) }
    ensures { Onto out.old.buffer out.new.buffer }
{
    let mut f = [0.0f64; FLOATS];
    let listed = case.head.list();
    let floats = case.head.floats;
    let words = case.head.words;
    answer_in_parts(
        call,
        case,
        &mut list[..listed],
        &mut f[..floats],
        &mut u[..words],
        out,
    );
}

// Answers a case in the parts of the buffers that its head asks for. The f64 scratch is made in a function of its own, so that it and the u64 scratch of `allow` do not stand on the stack at once.
pub fn answer(case: Case<'_>, list: &mut [u16], u: &mut [u32], out: &mut Output<'_>)
    requires { Buffers (length list.old) 163900 (length u.old) }
    ensures { Onto out.old.buffer out.new.buffer }
{
    let call = Call::from(case.head.code);
    match call {
        Call::Shift => answer_shift(case, out),
        Call::Allow => answer_allow(case, list, u, out),
        _ => answer_in_floats(call, case, list, u, out),
    }
}
