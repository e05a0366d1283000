// How many variables of a field are given, forced to 0, forced to 1 and free at the end.
ghost use Rattle.std.specs.Prelude.{◌≡◌, ◌&&◌, ◌≤◌, eqb, length};
ghost use Rattle.tally.specs.Pieces.{one as one_of};
ghost use Rattle.tally.specs.Counting.{fates_of};

// How many variables are given, forced to 0, forced to 1 and free at the end.
#[derive(Clone, Copy)]
pub struct Fates {
    pub given: u64,
    pub zero: u64,
    pub one: u64,
    pub free: u64,
}

// One where the variable was free and has the value, and none elsewhere.
fn forced(was: u8, is: u8, value: u8) -> u64
    ensures value { result ≡ one_of (eqb was 2 && eqb is value) }
    ensures upper_bound { result ≤ 1 }
{
    u64::from(was == 2 && is == value)
}

// Counts the variables of a field by what became of them.
pub fn count(start: &[u8], values: &[u8]) -> Fates
    requires values_len { length values.now ≡ length start.now }
    requires start_len_bound { length start.now ≤ 256 }
    ensures { result ≡ fates_of start.now values.now (length start.now) }
{
    let mut given: u64 = 0;
    let mut zero: u64 = 0;
    let mut one: u64 = 0;
    let mut free: u64 = 0;
    for (first, last) in start.iter().zip(values) {
        given += u64::from(*first != 2);
        zero += forced(*first, *last, 0);
        one += forced(*first, *last, 1);
        free += u64::from(*last == 2);
    }
    Fates {
        given,
        zero,
        one,
        free,
    }
}
