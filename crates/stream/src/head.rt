// The head of a case: the call's code, the lengths of its lists and the numbers that it takes.
ghost use Rattle.std.specs.Prelude.{◌≡◌, true, ◌↔◌, ◌+◌, ◌*◌, ◌≤◌, length};
ghost use Rattle.endian.specs.Bytes.{number_at};
ghost use Rattle.stream.specs.Heads.{head_of, list_of, contents_of, Lists, Lent, Fits};

use endian::{number, word};

// The most linear weights, and the most start values, that a case may hold.
pub const VARIABLES: usize = 4_100;

// The most rows, columns and pair weights that a case may hold.
pub const ENTRIES: usize = 32_772;

// The most elements that a list of constraints or of answers may have in a case.
pub const LISTED: usize = 1_500_002;

// The longest f64 scratch that a case may ask for, in elements.
pub const FLOATS: usize = 163_900;

// The longest u32 scratch that a case may ask for, in elements.
pub const WORDS: usize = 589_900;

// The head of a case: the call's code, the length of each list and scratch, and the call's other numbers. The code stays a byte, as it stands in a case: a code that no call has is answered too.
#[derive(Clone, Copy)]
pub struct Head {
    pub code: u8,
    pub linear: usize,
    pub rows: usize,
    pub columns: usize,
    pub weights: usize,
    pub start: usize,
    pub constraints: usize,
    pub found: usize,
    pub answers: usize,
    pub variables: usize,
    pub floats: usize,
    pub words: usize,
    pub variable: usize,
    pub value: u8,
    pub limit: usize,
    pub least: usize,
}

// The length that the four bytes from `at` tell; `as`, since std has no `From` of a u32 or a u64 for usize.
fn size(bytes: &[u8], at: usize) -> usize
    requires { at + 4 ≤ length bytes.now }
    ensures { result ≡ number_at 4 bytes.now at }
{
    word(bytes, at) as usize
}

// The number that the eight bytes from `at` tell.
fn long(bytes: &[u8], at: usize) -> usize
    requires { at + 8 ≤ length bytes.now }
    ensures { result ≡ number_at 8 bytes.now at }
{
    number(bytes, at, 8) as usize
}

impl Head {
    // Reads the head of a case from its 77 bytes; a probed value above 255 is no byte and is read as 255, which is refused too.
    pub fn parse(bytes: &[u8]) -> Head
        requires { 77 ≤ length bytes.now }
        ensures { result ≡ head_of bytes.now }
    {
        Head {
            code: bytes[0],
            linear: size(bytes, 1),
            rows: size(bytes, 5),
            columns: size(bytes, 9),
            weights: size(bytes, 13),
            start: size(bytes, 17),
            constraints: size(bytes, 21),
            found: size(bytes, 25),
            answers: size(bytes, 29),
            variables: size(bytes, 33),
            floats: size(bytes, 37),
            words: size(bytes, 41),
            variable: long(bytes, 45),
            value: long(bytes, 53).min(255) as u8,
            limit: long(bytes, 61),
            least: long(bytes, 69),
        }
    }

    // Whether the field's lists and the start values are no longer than the buffers.
    fn lists_fit(self) -> bool
        ensures { (result ≡ true) ↔ Lists self }
    {
        self.linear <= VARIABLES
            && self.rows <= ENTRIES
            && self.columns <= ENTRIES
            && self.weights <= ENTRIES
            && self.start <= VARIABLES
    }

    // Whether the given constraints, the answer lists and the scratch are.
    fn lent_fits(self) -> bool
        ensures { (result ≡ true) ↔ Lent self }
    {
        self.constraints <= LISTED
            && self.answers <= LISTED
            && self.variables <= LISTED
            && self.found <= VARIABLES
            && self.floats <= FLOATS
            && self.words <= WORDS
    }

    // Where the given constraints begin: behind the field's lists and the start values.
    pub fn constraints_at(self) -> usize
        requires { Lists self }
        ensures { result + 2 * self.constraints ≡ contents_of self }
    {
        let rows = 8 * self.linear;
        let columns = rows + 2 * self.rows;
        let weights = columns + 2 * self.columns;
        let start = weights + 8 * self.weights;
        start + self.start
    }

    // Where the start values begin: they end where the given constraints begin.
    pub fn start_at(self) -> usize
        requires { Lists self }
        ensures { result + self.start + 2 * self.constraints ≡ contents_of self }
    {
        self.constraints_at() - self.start
    }

    // How many bytes the field's lists, the start values and the given constraints take.
    pub fn contents(self) -> usize
        requires lists { Lists self }
        requires lent { Lent self }
        ensures { result ≡ contents_of self }
    {
        self.constraints_at() + 2 * self.constraints
    }

    // Whether the buffers hold the case, of which `size` bytes are contents.
    pub fn fits(self, size: usize) -> bool
        ensures { (result ≡ true) ↔ Fits self size }
    {
        self.lists_fit() && self.lent_fits() && self.contents() <= size
    }

    // A call has at most one list of u16 besides the field's: constraints that it is given, constraints or variables that it answers.
    pub fn list(self) -> usize
        ensures { result ≡ list_of self }
    {
        self.constraints.max(self.answers.max(self.variables))
    }
}
