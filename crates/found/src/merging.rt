// Two rising lists into one: the records at the front of the answer list, and numbers in scratch. What is held is not walked: the
// place of each number is found by a search, and the records between two places are moved as one block.
ghost use Rattle.std.specs.Prelude.{◌≡◌, ◌+◌, ◌*◌, ◌-◌, ◌<◌, ◌≤◌, length, get_or, slice_index};
ghost use Rattle.constraints.specs.Record.{record_at, room, filled};
ghost use Rattle.constraints.specs.Keys.{key_of, Small};
ghost use Rattle.found.specs.Joint.{Held, Climbed, joint, NoneAbove, Between, Taking};
ghost use Rattle.found.specs.Flush.{left, settled};

use crate::blocks::move_up;
use constraints::keys::number;

// The number of the last pair of both lists, and how many records are left without it.
#[derive(Clone, Copy)]
struct Taken {
    key: u32,
    items: usize,
}

// The number of record t of the list.
fn key_at(list: &[u16], t: usize) -> u32
    requires t_in_bounds { 3 * t + 2 < length list.now }
    requires small { Small (record_at list.now t) }
    ensures { result ≡ key_of (record_at list.now t) }
{
    let i = 3 * t;
    number(list[i], list[i + 1], list[i + 2])
}

// The number of the pair of a record.
fn pair_of(item: &[u16; 3]) -> u32
    ensures { result ≡ slice_index item.now 0 * 4096 + slice_index item.now 1 }
{
    u32::from(item[0]) * 4096 + u32::from(item[1])
}

// The first of the records from `low` to `high` whose pair is above that of the number y.
fn search(list: &[u16], low: usize, high: usize, y: u32) -> usize
    requires held { Held high list.now }
    requires between { Between low high high y list.now }
    ensures { Between result result high y list.now }
{
    let (records, _) = list.as_chunks::<3>();
    low + records[low..high].partition_point(|x| pair_of(x) <= y / 16)
}

// The first of the first `items` records whose pair is above that of the number y: by steps from the end that double, for which the library has no method.
fn gallop(list: &[u16], items: usize, y: u32) -> usize
    requires { Held items list.now }
    ensures { Between result result items y list.now }
{
    let mut high = items;
    let mut step = 1;
    while step <= high {
        if key_at(list, high - step) / 16 <= y / 16 {
            return search(list, high - step + 1, high, y);
        }
        high -= step;
        step = 2 * step;
    }
    search(list, 0, high, y)
}

// Takes the number at `at`, which no record is above; where the last record has its pair, the union is taken from both.
fn take_last(list: &[u16], items: usize, keys: &[u32], at: usize) -> Taken
    requires held { Held items list.now }
    requires climbed { Climbed 0 (at + 1) keys.now }
    requires none_above { NoneAbove items (get_or keys.now at 0) list.now }
    ensures { Taking items 0 (at + 1) list.now keys.now result.key result.items at }
{
    let y = keys[at];
    if items == 0 {
        return Taken { key: y, items };
    }
    let last = items - 1;
    let x = key_at(list, last);
    if x / 16 == y / 16 {
        return Taken {
            key: x | y,
            items: last,
        };
    }
    Taken { key: y, items }
}

// How many records both lists hold, merged.
fn count(list: &[u16], held: usize, keys: &[u32]) -> usize
    requires held { Held held list.now }
    requires climbed { Climbed 0 (length keys.now) keys.now }
    ensures { result ≡ length (joint held 0 (length keys.now) list.now keys.now) }
{
    let mut items = held;
    let mut n = 0;
    for at in (0..keys.len()).rev() {
        let p = gallop(list, items, keys[at]);
        let taken = take_last(list, p, keys, at);
        n += items - p + 1;
        items = taken.items;
    }
    n + items
}

// Merges from the back, where there is room: what is above the last number goes up as one block, and the number in front of it, until none is left.
fn lay(list: &mut [u16], held: usize, keys: &[u32], total: usize)
    requires held { Held held list.old }
    requires climbed { Climbed 0 (length keys.now) keys.now }
    requires total_value { total ≡ length (joint held 0 (length keys.now) list.old keys.now) }
    requires total_bound { total ≤ room list.old }
    ensures { list.new ≡ filled (joint held 0 (length keys.now) list.old keys.now) list.old }
{
    let mut items = held;
    let mut n = total;
    for at in (0..keys.len()).rev() {
        let p = gallop(list, items, keys[at]);
        let taken = take_last(list, p, keys, at);
        move_up(list, 3 * p, 3 * items, 3 * n);
        n -= items - p + 1;
        constraints::keys::put_key(list, n, taken.key);
        items = taken.items;
    }
}

// Counts first: the list is written where all of them fit, and nothing behind the last of them.
pub fn merge(list: &mut [u16], held: usize, keys: &[u32]) -> Option<usize>
    requires held { Held held list.old }
    requires climbed { Climbed 0 (length keys.now) keys.now }
    ensures { left result list.new keys.now ≡ settled (joint held 0 (length keys.now) list.old keys.now) list.old keys.now }
{
    let total = count(list, held, keys);
    if total > list.len() / 3 {
        return None;
    }
    lay(list, held, keys, total);
    Some(total)
}
