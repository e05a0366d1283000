// How a refusal leaves what was lent: as it was before the call, or as zeros.
ghost use Rattle.stream.specs.Outputs.{Onto};

use stream::lists::all_are;
use stream::output::Output;

// What each float of a lent slice holds before a call; it cannot be part of an answer.
pub const FLOAT: f64 = 165.5;

// What each u32 of lent scratch holds before a call; it is not 0, so that a word left behind is seen.
pub const WORD: u32 = 165;

// What each u64 of lent scratch holds before a call; it is not 0, so that a word left behind is seen.
pub const LONG: u64 = 165;

// What each byte of a lent list holds before a call; it is no value, so that one written is seen.
pub const BYTE: u8 = 165;

// What each u16 of a lent list holds before a call; it is no variable, so that one written is seen.
pub const SHORT: u16 = 42_405;

// A value of which lists and scratch are lent to a call.
pub(crate) trait Lent: PartialEq + Copy {
    // What each element holds before a call.
    const BEFORE: Self;

    // What each holds when it is cleared.
    const ZERO: Self;
}

impl Lent for f64 {
    const BEFORE: f64 = FLOAT;

    const ZERO: f64 = 0.0;
}

impl Lent for u64 {
    const BEFORE: u64 = LONG;

    const ZERO: u64 = 0;
}

impl Lent for u32 {
    const BEFORE: u32 = WORD;

    const ZERO: u32 = 0;
}

impl Lent for u16 {
    const BEFORE: u16 = SHORT;

    const ZERO: u16 = 0;
}

impl Lent for u8 {
    const BEFORE: u8 = BYTE;

    const ZERO: u8 = 0;
}

// Writes whether a list is as it was before the call.
pub(crate) fn put_kept<T: Lent>(out: &mut Output<'_>, list: &[T])
    ensures { Onto out.old.buffer out.new.buffer }
{
    out.put_promise(b"kept", all_are(list, T::BEFORE));
}

// Writes whether a list is zeros.
pub(crate) fn put_zeros<T: Lent>(out: &mut Output<'_>, list: &[T])
    ensures { Onto out.old.buffer out.new.buffer }
{
    out.put_promise(b"zeros", all_are(list, T::ZERO));
}

// Writes whether a list is as it was, where it is to be left so, or else whether it is zeros.
pub(crate) fn put_left<T: Lent>(out: &mut Output<'_>, is_left: bool, list: &[T])
    ensures { Onto out.old.buffer out.new.buffer }
{
    if is_left {
        put_kept(out, list);
    } else {
        put_zeros(out, list);
    }
}
