// Lists taken from bytes, and looked at after a call.
ghost use Rattle.std.specs.Prelude.{◌≡◌, ◌+◌, ◌*◌, ◌≤◌, ◌↔◌, ℕ, Bool, List, IsTrue, All, eqb, length, get_or};
ghost use Rattle.std.specs.Float.{nan};
ghost use Rattle.scratch.specs.All.{all_below};
ghost use Rattle.rows.specs.Stored.{up_to};
ghost use Rattle.endian.specs.Bytes.{number_at, float_at};
ghost use Rattle.stream.specs.Lists.{same_weight as same_weight_of};

use endian::{float, short};

// A value of which lists stand in the contents of a case.
pub trait Element: Copy {
    // How many bytes one takes.
    ghost width: { ℕ };

    // What `get_or` gives past the end of a list.
    ghost past: { Self };

    // The element i of the list that stands in these bytes from an index on.
    ghost value_at: { List ℕ → ℕ → ℕ → Self };

    // Whether two of them are the same.
    ghost same: { Self → Self → Bool };

    // Reads the element i of the list that stands in the bytes from `at` on.
    fn read(bytes: &[u8], at: usize, i: usize) -> Self
        requires { at + width * i + width ≤ length bytes.now }
        ensures { result ≡ value_at bytes.now at i };

    // Whether the two are the same.
    fn is_same(self, other: Self) -> bool
        ensures { result ≡ same self other };
}

impl Element for u8 {
    ghost width = { 1 };

    ghost past = { 0 };

    ghost value_at = { λ s at i. get_or s (at + i) 0 };

    ghost same = { eqb };

    fn read(bytes: &[u8], at: usize, i: usize) -> u8 {
        bytes[at + i]
    }

    fn is_same(self, other: u8) -> bool {
        self == other
    }
}

// Two bytes, the lowest first.
impl Element for u16 {
    ghost width = { 2 };

    ghost past = { 0 };

    ghost value_at = { λ s at i. number_at 2 s (at + 2 * i) };

    ghost same = { eqb };

    fn read(bytes: &[u8], at: usize, i: usize) -> u16 {
        short(bytes, at + 2 * i)
    }

    fn is_same(self, other: u16) -> bool {
        self == other
    }
}

// Eight bytes, bit for bit; all NaN are one.
impl Element for f64 {
    ghost width = { 8 };

    ghost past = { nan };

    ghost value_at = { λ s at i. float_at s (at + 8 * i) };

    ghost same = { same_weight_of };

    fn read(bytes: &[u8], at: usize, i: usize) -> f64 {
        float(bytes, at + 8 * i)
    }

    fn is_same(self, other: f64) -> bool {
        if self != self {
            return other != other;
        }
        if other != other {
            return false;
        }
        f64::to_bits(self) == f64::to_bits(other)
    }
}

// Fills a list with the elements that stand in the bytes of a case from index `at` on.
pub fn take<T: Element>(bytes: &[u8], at: usize, list: &mut [T])
    requires { at + T.width * length list.old ≤ length bytes.now }
    ensures { list.new ≡ up_to (λ i. T.value_at bytes.now at i) (length list.old) }
{
    for (i, x) in list.iter_mut().enumerate() {
        *x = T::read(bytes, at, i);
    }
}

// Whether a list still holds what stands in the bytes from index `at` on.
pub fn is_as_taken<T: Element>(bytes: &[u8], at: usize, list: &[T]) -> bool
    requires { at + T.width * length list.now ≤ length bytes.now }
    ensures { result ≡ all_below (λ i. T.same (get_or list.now i T.past) (T.value_at bytes.now at i)) (length list.now) }
{
    for (i, x) in list.iter().enumerate() {
        if !x.is_same(T::read(bytes, at, i)) {
            return false;
        }
    }
    true
}

// Whether every element of the slice is equal to x, as a list or scratch that must be left unchanged or cleared.
pub fn all_are<T: PartialEq + Copy>(list: &[T], x: T) -> bool
    ensures { IsTrue result ↔ All (λ y. IsTrue (T.eq y x)) list.now }
{
    list.iter().all(|y| *y == x)
}
