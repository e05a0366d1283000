// Constraints: the kinds with their codes and sets, the records of a flat list, and one number for a record.
#![tactic(auto)]

pub mod keys;

ghost use Rattle.std.specs.Prelude.{◌≡◌, ◌+◌, ◌*◌, ◌<◌, length};
ghost use Rattle.std.specs.Int.Count.{ones};
ghost use Rattle.meaning.specs.Records.{record_on, set_of, turned};
ghost use Rattle.constraints.specs.Codes.{code_of, kind_of, meant};
ghost use Rattle.constraints.specs.Record.{stored};

// What a constraint says of its two ends; the codes are the numbers that stand for the kinds outside, and nothing in the code goes by them.
#[derive(Clone, Copy)]
pub enum Kind {
    AtLeastOne,
    ExactlyOne,
    NoMoreThanOne,
    GreaterThan,
    LessThan,
    Equal,
}

impl Kind {
    // The code of the kind that forbids 00: at least one of the two ends is 1.
    pub const AT_LEAST_ONE: u16 = 0;

    // The code of the kind that forbids 00 and 11: one end is 1 and the other is 0.
    pub const EXACTLY_ONE: u16 = 1;

    // The code of the kind that forbids 11: at most one of the two ends is 1.
    pub const NO_MORE_THAN_ONE: u16 = 2;

    // The code of the kind that forbids 01: the first end is not below the second.
    pub const GREATER_THAN: u16 = 3;

    // The code of the kind that forbids 10: the first end is not above the second.
    pub const LESS_THAN: u16 = 4;

    // The code of the kind that forbids 01 and 10: both ends have the same value.
    pub const EQUAL: u16 = 5;

    // The code of this kind, 0 to 5; a record carries the set of its kind, and not the code.
    pub fn code(self) -> u16
        ensures { result ≡ code_of self }
    {
        match self {
            Kind::AtLeastOne => Kind::AT_LEAST_ONE,
            Kind::ExactlyOne => Kind::EXACTLY_ONE,
            Kind::NoMoreThanOne => Kind::NO_MORE_THAN_ONE,
            Kind::GreaterThan => Kind::GREATER_THAN,
            Kind::LessThan => Kind::LESS_THAN,
            Kind::Equal => Kind::EQUAL,
        }
    }

    // The kind of a code, where it has one.
    pub fn of_code(code: u16) -> Option<Kind>
        ensures { result ≡ kind_of code }
    {
        match code {
            Kind::AT_LEAST_ONE => Some(Kind::AtLeastOne),
            Kind::EXACTLY_ONE => Some(Kind::ExactlyOne),
            Kind::NO_MORE_THAN_ONE => Some(Kind::NoMoreThanOne),
            Kind::GREATER_THAN => Some(Kind::GreaterThan),
            Kind::LESS_THAN => Some(Kind::LessThan),
            Kind::EQUAL => Some(Kind::Equal),
            _ => None,
        }
    }

    // The set of the forbidden pairs, 00, 01, 10, 11 from the lowest bit, where the first end is the lower one.
    pub fn set(self) -> u16
        ensures { result ≡ set_of (meant self) }
    {
        match self {
            Kind::AtLeastOne => 1,
            Kind::ExactlyOne => 9,
            Kind::NoMoreThanOne => 8,
            Kind::GreaterThan => 2,
            Kind::LessThan => 4,
            Kind::Equal => 6,
        }
    }

    // The kind that says the same of the ends exchanged.
    pub fn turned(self) -> Kind
        ensures { meant result ≡ turned (meant self) }
    {
        match self {
            Kind::GreaterThan => Kind::LessThan,
            Kind::LessThan => Kind::GreaterThan,
            other => other,
        }
    }
}

// How many pairs a set forbids.
pub fn forbidden_pairs(set: u16) -> u32
    ensures { result ≡ ones set }
{
    set.count_ones()
}

// Writes three numbers as record number `at` of the list.
fn store(list: &mut [u16], at: usize, lower: u16, higher: u16, set: u16)
    requires { 3 * at + 2 < length list.old }
    ensures { list.new ≡ stored list.old at (record_on lower higher set) }
{
    let i = 3 * at;
    list[i] = lower;
    list[i + 1] = higher;
    list[i + 2] = set;
}
