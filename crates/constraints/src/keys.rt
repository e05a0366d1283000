// One number for a record whose ends are below 4,096: the number divided by 16 orders the records by pair, and the union of two numbers of one pair is that of the merged record.
ghost use Rattle.std.specs.Prelude.{◌≡◌, ◌+◌, ◌*◌, ◌<◌, length};
ghost use Rattle.meaning.specs.Kinds.{joining};
ghost use Rattle.meaning.specs.Records.{record_on, record_of};
ghost use Rattle.constraints.specs.Codes.{meant};
ghost use Rattle.constraints.specs.Record.{stored};
ghost use Rattle.constraints.specs.Keys.{key_of, unkey};

use crate::{Kind, store};

// The number of a record: lower variable, higher variable and set in one u32 below 2^28.
pub fn number(lower: u16, higher: u16, set: u16) -> u32
    requires lower_bound { lower < 4096 }
    requires higher_bound { higher < 4096 }
    requires set_bound { set < 16 }
    ensures { result ≡ key_of (record_on lower higher set) }
{
    let a = u32::from(lower);
    let b = u32::from(higher);
    let c = u32::from(set);
    (a * 4096 + b) * 16 + c
}

// The number of the record of a constraint: the one place where a kind becomes a set.
pub fn key(first: u16, second: u16, kind: Kind) -> u32
    requires first_bound { first < 4096 }
    requires second_bound { second < 4096 }
    ensures { result ≡ key_of (record_of (joining (meant kind) first second)) }
{
    if first < second {
        return number(first, second, kind.set());
    }
    number(second, first, kind.turned().set())
}

// The lower variable, the higher one and the set that a number stands for.
fn lower_of(key: u32) -> u16
    requires { key < 268435456 }
    ensures { result ≡ (unkey key).lower }
{
    (key / 16 / 4096) as u16
}

fn higher_of(key: u32) -> u16
    ensures { result ≡ (unkey key).higher }
{
    (key / 16 % 4096) as u16
}

fn set_of(key: u32) -> u16
    ensures { result ≡ (unkey key).set }
{
    (key % 16) as u16
}

// Writes what a number stands for as record number `at` of the list.
pub fn put_key(list: &mut [u16], at: usize, key: u32)
    requires at_in_bounds { 3 * at + 2 < length list.old }
    requires key_bound { key < 268435456 }
    ensures { list.new ≡ stored list.old at (unkey key) }
{
    store(list, at, lower_of(key), higher_of(key), set_of(key));
}
