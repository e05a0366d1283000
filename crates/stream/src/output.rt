// The output gathers in a lent buffer and is written when that is full. What a failed write leaves out is lost, and the answers go on.
ghost use Rattle.std.specs.Prelude.{◌≡◌, cond, ◌+◌, ◌≤◌, ltb, length, min};
ghost use Rattle.stream.specs.Outputs.{Onto};

use std::io::{Stdout, Write as _};
use text::put_decimal;

// Standard output behind a lent buffer, of which `used` bytes are used.
#[derive(Drop)]
pub struct Output<'a> {
    stdout: Stdout,
    buffer: &'a mut [u8],
    used: usize,
    pub ghost within: { used ≤ length buffer.now },
}

// A value that stands as one word in a list of a line.
pub trait Word {
    // Writes the word of this value.
    fn put(self, out: &mut Output<'_>)
        ensures { Onto out.old.buffer out.new.buffer };
}

// A variable or a constraint's element is its decimal digits.
impl Word for u16 {
    fn put(self, out: &mut Output<'_>) {
        out.put_number(usize::from(self));
    }
}

// A weight is the 16 hex digits of its bits; all NaN are one word.
impl Word for f64 {
    fn put(self, out: &mut Output<'_>) {
        if self != self {
            out.put_text(b"nan");
            return;
        }
        let mut digits = [0u8; 16];
        let mut rest = &mut digits[..];
        let bits = f64::to_bits(self);
        let _ = write!(rest, "{bits:016x}");
        out.put_text(&digits);
    }
}

// A value that is no digit is `?`.
fn digit(value: u8) -> u8
    ensures { result ≡ cond (ltb value 10) (48 + value) 63 }
{
    if value < 10 { b'0' + value } else { b'?' }
}

impl<'a> Output<'a> {
    // Begins on this buffer, with the bytes that are used already, at most the whole buffer.
    pub fn new(stdout: Stdout, buffer: &'a mut [u8], used: usize) -> Output<'a>
        ensures used_value { result.used ≡ min used (length buffer.old) }
        ensures onto { Onto buffer.entry result.buffer }
    {
        let used = used.min(buffer.len());
        Output {
            stdout,
            buffer,
            used,
        }
    }

    // Sends what is used to standard output.
    fn send(&self) {
        let bytes = &*self.buffer;
        let _ = self.stdout.write_all(&bytes[..self.used]);
    }

    // Writes what is used, after which nothing is; the bytes of the buffer stay.
    pub fn flush(&mut self)
        ensures empty { self.new.used ≡ 0 }
        ensures onto { Onto self.old.buffer self.new.buffer }
        ensures bytes { self.new.buffer.now ≡ self.old.buffer.now }
    {
        self.send();
        self.used = 0;
    }

    // Writes one byte behind those used, after the buffer has been sent to standard output where it is full.
    pub fn put(&mut self, byte: u8)
        ensures { Onto self.old.buffer self.new.buffer }
    {
        if self.used == self.buffer.len() {
            self.flush();
        }
        if self.used < self.buffer.len() {
            self.buffer[self.used] = byte;
            self.used += 1;
        }
    }

    // Writes these bytes behind those used.
    pub fn put_text(&mut self, text: &[u8])
        ensures { Onto self.old.buffer self.new.buffer }
    {
        for byte in text {
            self.put(*byte);
        }
    }

    // Writes a number in decimal digits, by `put_decimal`, which is the one writer of numbers (docs/DECISIONS.md, 88).
    pub fn put_number(&mut self, n: usize)
        ensures { Onto self.old.buffer self.new.buffer }
    {
        let mut digits = [0u8; 20];
        let k = put_decimal(&mut digits, 0, n as u64);
        self.put_text(&digits[..k]);
    }

    // Writes a digit for each value, or a dash where there is none.
    pub fn put_digits(&mut self, values: &[u8])
        ensures { Onto self.old.buffer self.new.buffer }
    {
        if values.is_empty() {
            self.put(b'-');
        }
        for value in values {
            self.put(digit(*value));
        }
    }

    // Writes the mark before the element at i: between two elements stands a comma, between two triples a semicolon.
    fn put_mark(&mut self, i: usize, in_triples: bool)
        ensures { Onto self.old.buffer self.new.buffer }
    {
        if i > 0 {
            let is_first = in_triples && i % 3 == 0;
            self.put(if is_first { b';' } else { b',' });
        }
    }

    // Writes one value as a word.
    pub fn put_word<T: Word>(&mut self, x: T)
        ensures { Onto self.old.buffer self.new.buffer }
    {
        x.put(self);
    }

    // Writes the elements with marks between them, or a dash where there is none.
    pub fn put_list<T: Word + Copy>(&mut self, list: &[T], in_triples: bool)
        ensures { Onto self.old.buffer self.new.buffer }
    {
        if list.is_empty() {
            self.put(b'-');
        }
        for (i, x) in list.iter().enumerate() {
            self.put_mark(i, in_triples);
            x.put(self);
        }
    }

    // Writes the entries with semicolons between them, or a dash where there is none.
    pub fn put_entries(&mut self, rows: &[u16], cols: &[u16], q: &[f64])
        ensures { Onto self.old.buffer self.new.buffer }
    {
        if rows.is_empty() {
            self.put(b'-');
        }
        for (k, ((row, column), weight)) in rows.iter().zip(cols).zip(q).enumerate() {
            if k > 0 {
                self.put(b';');
            }
            row.put(self);
            self.put(b',');
            column.put(self);
            self.put(b',');
            weight.put(self);
        }
    }

    // Writes what was promised under its name, if it was found so.
    pub fn put_promise(&mut self, promise: &[u8], is_kept: bool)
        ensures { Onto self.old.buffer self.new.buffer }
    {
        if is_kept {
            self.put_text(promise);
        } else {
            self.put_text(b"broken");
        }
    }
}
