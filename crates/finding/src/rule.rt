// What two probes of a variable find of another one, as a number and as a value.
ghost use Rattle.std.specs.Prelude.{◌≡◌, ◌<◌, ◌≤◌};
ghost use Rattle.probe.specs.Found.{found};
ghost use Rattle.finding.specs.Finds.{wins, number_of, count_of, gives_at};

use constraints::Kind;
use constraints::keys::key;

// Where the probe at 0 gives 0.
fn after_zero(i: u16, j: u16, v: u32) -> u32
    requires i_bound { i < 4096 }
    requires j_bound { j < 4096 }
    ensures { result ≡ number_of (found i j 0 v) }
{
    match v {
        0 => 268435456,
        1 => key(i, j, Kind::Equal),
        _ => key(i, j, Kind::GreaterThan),
    }
}

// Where it gives 1.
fn after_one(i: u16, j: u16, v: u32) -> u32
    requires i_bound { i < 4096 }
    requires j_bound { j < 4096 }
    ensures { result ≡ number_of (found i j 1 v) }
{
    match v {
        0 => key(i, j, Kind::ExactlyOne),
        1 => 268435456,
        _ => key(i, j, Kind::AtLeastOne),
    }
}

// Where it gives none.
fn after_none(i: u16, j: u16, v: u32) -> u32
    requires i_bound { i < 4096 }
    requires j_bound { j < 4096 }
    ensures { result ≡ number_of (found i j 2 v) }
{
    match v {
        0 => key(i, j, Kind::NoMoreThanOne),
        1 => key(i, j, Kind::LessThan),
        _ => 268435456,
    }
}

// The number of the record that two values of j give for i and j, or 2^28 where they give none: a number for none, so that the caller stores it
// behind those gathered without a branch.
pub fn number(i: u16, j: u16, v: u32, w: u32) -> u32
    requires i_bound { i < 4096 }
    requires j_bound { j < 4096 }
    ensures { result ≡ number_of (found i j v w) }
{
    match v {
        0 => after_zero(i, j, w),
        1 => after_one(i, j, w),
        _ => after_none(i, j, w),
    }
}

// The probe value that both give, or the old one.
pub fn winner(i: u16, j: u16, v: u32, w: u32, old: u32) -> u32
    ensures { result ≡ wins (found i j v w) old }
{
    if v > 1 {
        return old;
    }
    if v == w {
        return v;
    }
    old
}

// How many records a gathered number stands for.
pub fn counts(key: u32) -> usize
    ensures value { result ≡ count_of key }
    ensures upper_bound { result ≤ 1 }
{
    usize::from(key < 268435456)
}

// What a probe gives a variable, without the start values and the probed variable itself.
pub fn gives(i: u16, j: u16, start: u8, value: u32) -> u32
    ensures { result ≡ gives_at i j start value }
{
    if i == j {
        return 2;
    }
    if start == 2 { value } else { 2 }
}
