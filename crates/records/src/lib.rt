// The record format of a field: records read from bytes, the field that they tell, and the text of an answer.
#![tactic(auto)]

pub mod parsing;

ghost use Rattle.std.specs.Prelude.{◌≡◌, ◌-◌, length};
ghost use Rattle.records.specs.Reading.{weight_at, entry_at, given_at, read_at};

use endian::{float, short};

// The marks, as little-endian numbers.
const VC: u16 = 0x4356;

const QE: u16 = 0x4551;

const FX: u16 = 0x5846;

const ZZ: u16 = 0x5a5a;

// A place in the input: the index of the byte at which the next record begins.
#[derive(Clone, Copy)]
pub struct Cursor {
    pub at: usize,
}

// What reading at a cursor finds; each record has the cursor past it.
#[derive(Clone, Copy)]
pub enum Record {
    // VC: the next linear weight.
    Weight(f64, Cursor),
    // QE: row, column and weight of an entry.
    Entry(u16, u16, f64, Cursor),
    // FX: a variable and its given byte.
    Given(u16, u8, Cursor),
    // ZZ.
    End(Cursor),
    // An unknown mark, or a cut record.
    Malformed,
}

// How many bytes are left from an index on.
fn left(bytes: &[u8], at: usize) -> usize
    ensures { result ≡ length bytes.now - at }
{
    bytes.len().saturating_sub(at)
}

fn weight_record(bytes: &[u8], at: usize) -> Record
    ensures { result ≡ weight_at bytes.now at }
{
    if left(bytes, at) < 10 {
        return Record::Malformed;
    }
    Record::Weight(float(bytes, at + 2), Cursor { at: at + 10 })
}

fn entry_record(bytes: &[u8], at: usize) -> Record
    ensures { result ≡ entry_at bytes.now at }
{
    if left(bytes, at) < 14 {
        return Record::Malformed;
    }
    let row = short(bytes, at + 2);
    let col = short(bytes, at + 4);
    Record::Entry(row, col, float(bytes, at + 6), Cursor { at: at + 14 })
}

fn given_record(bytes: &[u8], at: usize) -> Record
    ensures { result ≡ given_at bytes.now at }
{
    if left(bytes, at) < 5 {
        return Record::Malformed;
    }
    let variable = short(bytes, at + 2);
    let value = bytes[at + 4];
    Record::Given(variable, value, Cursor { at: at + 5 })
}

impl Cursor {
    // Reads the record at this place; one that is cut short or has no known mark is malformed.
    pub fn read(self, bytes: &[u8]) -> Record
        ensures { result ≡ read_at bytes.now self.at }
    {
        let at = self.at;
        if left(bytes, at) < 2 {
            return Record::Malformed;
        }
        match short(bytes, at) {
            VC => weight_record(bytes, at),
            QE => entry_record(bytes, at),
            FX => given_record(bytes, at),
            ZZ => Record::End(Cursor { at: at + 2 }),
            _ => Record::Malformed,
        }
    }
}
