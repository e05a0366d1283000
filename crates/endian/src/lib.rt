// Little-endian numbers among bytes.
#![tactic(auto)]

ghost use Rattle.std.specs.Prelude.{◌≡◌, ◌+◌, ◌≤◌, length, take, drop};
ghost use Rattle.endian.specs.Bytes.{number_at, float_at};

// 2^63, the weight of a float's sign.
const SIGN: u64 = 0x8000_0000_0000_0000;

// The pattern of infinity: those above it, but for the sign, are NaN's.
const TOP: u64 = 0x7ff0_0000_0000_0000;

// The N bytes from index `at` on.
fn bytes_at<const N: usize>(bytes: &[u8], at: usize) -> [u8; N]
    requires { at + N ≤ length bytes.now }
    ensures { result ≡ take N (drop at bytes.now) }
{
    let mut taken = [0u8; N];
    taken.copy_from_slice(&bytes[at..at + N]);
    taken
}

// The number in the `width` bytes from `at`, the lowest first.
pub fn number(bytes: &[u8], at: usize, width: usize) -> u64
    requires width_in_bounds { at + width ≤ length bytes.now }
    requires width_bound { width ≤ 8 }
    ensures { result ≡ number_at width bytes.now at }
{
    let mut value: u64 = 0;
    for i in (0..width).rev() {
        value = value * 256 + u64::from(bytes[at + i]);
    }
    value
}

// The u16 in the two bytes from index `at` on, the lowest byte first.
pub fn short(bytes: &[u8], at: usize) -> u16
    requires { at + 2 ≤ length bytes.now }
    ensures { result ≡ number_at 2 bytes.now at }
{
    u16::from_le_bytes(bytes_at(bytes, at))
}

// The u32 in the four bytes from index `at` on, the lowest byte first.
pub fn word(bytes: &[u8], at: usize) -> u32
    requires { at + 4 ≤ length bytes.now }
    ensures { result ≡ number_at 4 bytes.now at }
{
    u32::from_le_bytes(bytes_at(bytes, at))
}

// A NaN's pattern cannot be read as it stands; an infinity less itself is the same NaN.
pub fn float(bytes: &[u8], at: usize) -> f64
    requires { at + 8 ≤ length bytes.now }
    ensures { result ≡ float_at bytes.now at }
{
    let bits = u64::from_le_bytes(bytes_at(bytes, at));
    if bits % SIGN > TOP {
        let top = f64::from_bits(TOP);
        return top - top;
    }
    f64::from_bits(bits)
}
