// Terms on two lists, the sum of each mask of a few bits, added afresh in the order of the lists, and the lowest mask of least sum.
#![tactic(auto)]

ghost use Rattle.std.specs.Prelude.{◌≡◌, [], ◌∷◌, ◌+◌, ◌/◌, ◌%◌, ◌^◌, ◌<◌, ◌≤◌, length};
ghost use Rattle.masks.specs.Masks.{term, plus as plus_of, objective, lowest as lowest_of};
ghost use Rattle.masks.specs.Listed.{lists, terms_on, Room, Listed};
ghost use Rattle.masks.specs.Block.{Block, TermAdded, Leads};

// The lowest mask of least sum among those looked at, and that sum.
#[derive(Clone, Copy)]
struct Lead {
    sum: f64,
    mask: usize,
}

// The mask of bit b alone.
pub fn bit(b: usize) -> usize
    requires { b ≤ 10 }
    ensures { result ≡ 2 ^ b }
{
    1 << b
}

// Bit b of a mask.
pub fn bit_of(mask: usize, b: usize) -> u8
    requires { b < 10 }
    ensures { result ≡ mask / 2 ^ b % 2 }
{
    ((mask >> b) & 1) as u8
}

// One more term on the lists, which stand in the caller's scratch of f64 and of u16 numbers; answers where they end then.
pub fn list_term(
    values: &mut [f64],
    required: &mut [u16],
    end: usize,
    bits: usize,
    value: f64,
) -> usize
    requires room { Room (end + 1) values.old required.old }
    requires bits_bound { bits < 65536 }
    ensures { Listed (term bits value ∷ []) (lists end values.old required.old) (lists result values.new required.new) }
{
    values[end] = value;
    required[end] = bits as u16;
    end + 1
}

// The sum of a mask after a term, which counts if the mask has its required bits.
fn plus(sum: f64, mask: usize, bits: usize, value: f64) -> f64
    ensures { result ≡ plus_of mask sum (term bits value) }
{
    if mask & bits == bits {
        return sum + value;
    }
    sum
}

// The sums of the masks 0 to 31 after a term.
fn add_each(sums: &mut [f64; 32], bits: usize, value: f64)
    requires { length sums.old ≡ 32 }
    ensures { TermAdded 0 bits value sums.old sums.new }
{
    for l in 0..32 {
        sums[l] = plus(sums[l], l, bits, value);
    }
}

// The same, with a loop of its own for up to two of the bits: only of bits that stand in the text does the compiler know which masks have them.
fn add_low(sums: &mut [f64; 32], bits: usize, value: f64)
    requires { length sums.old ≡ 32 }
    ensures { TermAdded 0 bits value sums.old sums.new }
{
    match bits {
        0 => add_each(sums, 0, value),
        1 => add_each(sums, 1, value),
        2 => add_each(sums, 2, value),
        4 => add_each(sums, 4, value),
        8 => add_each(sums, 8, value),
        16 => add_each(sums, 16, value),
        3 => add_each(sums, 3, value),
        5 => add_each(sums, 5, value),
        6 => add_each(sums, 6, value),
        9 => add_each(sums, 9, value),
        10 => add_each(sums, 10, value),
        12 => add_each(sums, 12, value),
        17 => add_each(sums, 17, value),
        18 => add_each(sums, 18, value),
        20 => add_each(sums, 20, value),
        24 => add_each(sums, 24, value),
        _ => add_each(sums, bits, value),
    }
}

// The sums of a block, the thirty-two masks from base on, after a term: none of them has the required bits if the last has them not; else a mask has them if its last five bits have the last five.
fn add_block(sums: &mut [f64; 32], base: usize, bits: usize, value: f64)
    requires sums_len { length sums.old ≡ 32 }
    requires base_bound { base ≤ 1024 }
    requires base_value { base % 32 ≡ 0 }
    ensures { TermAdded base bits value sums.old sums.new }
{
    if (base + 31) & bits != bits {
        return;
    }
    add_low(sums, bits % 32, value);
}

// The sums of the block from base on: each from 0.0, with the terms in the order of the lists.
fn block(values: &[f64], required: &[u16], end: usize, base: usize) -> [f64; 32]
    requires room { Room end values.now required.now }
    requires base_bound { base ≤ 1024 }
    requires base_value { base % 32 ≡ 0 }
    ensures { Block (λ l. objective (terms_on values.now required.now end) (base + l)) result }
{
    let mut sums = [0.0; 32];
    for t in 0..end {
        add_block(&mut sums, base, usize::from(required[t]), values[t]);
    }
    sums
}

// Which mask leads after the first count masks of the block from base on, where lead leads before them: a NaN is passed over.
fn lead_after(
    values: &[f64],
    required: &[u16],
    end: usize,
    base: usize,
    count: usize,
    lead: Lead,
) -> Lead
    requires room { Room end values.now required.now }
    requires base_bound { base ≤ 1024 }
    requires base_value { base % 32 ≡ 0 }
    requires count_bound { count ≤ 32 }
    requires leads { Leads (objective (terms_on values.now required.now end)) base lead }
    ensures { Leads (objective (terms_on values.now required.now end)) (base + count) result }
{
    let sums = block(values, required, end, base);
    let mut best = lead;
    for l in 0..count {
        let sum = sums[l];
        if sum < best.sum {
            best = Lead {
                sum,
                mask: base + l,
            };
        }
    }
    best
}

// The lowest mask of least sum below size, by whole blocks and then what is left: a NaN is passed over, and 0 stands where no sum is below plus infinity.
pub fn lowest(values: &[f64], required: &[u16], end: usize, size: usize) -> usize
    requires room { Room end values.now required.now }
    requires size_bound { size ≤ 1024 }
    ensures { result ≡ lowest_of (objective (terms_on values.now required.now end)) size }
{
    let mut lead = Lead {
        sum: f64::from_bits(0x7ff0_0000_0000_0000),
        mask: 0,
    };
    for b in 0..size / 32 {
        lead = lead_after(values, required, end, b * 32, 32, lead);
    }
    if size % 32 == 0 {
        return lead.mask;
    }
    let last = lead_after(values, required, end, size / 32 * 32, size % 32, lead);
    last.mask
}
