// Values from start values: a copy of them with one value added, and what stands without them.
ghost use Rattle.std.specs.Prelude.{◌≡◌, ◌<◌, length, set};
ghost use Rattle.probe.specs.Call.{new_at as new_at_of, new_only};

// The start values go into the values.
pub fn copy(start: &[u8], values: &mut [u8])
    requires { length values.old ≡ length start.now }
    ensures { values.new ≡ start.now }
{
    // The library's `copy_from_slice` needs memmove of the C library, which a program in C is not asked for.
    for (i, value) in values.iter_mut().enumerate() {
        *value = start[i];
    }
}

// The start values with the one value added go into the values.
pub fn assume(start: &[u8], variable: usize, value: u8, values: &mut [u8])
    requires values_len { length values.old ≡ length start.now }
    requires variable_in_bounds { variable < length start.now }
    ensures { values.new ≡ set start.now variable value }
{
    copy(start, values);
    values[variable] = value;
}

// The value where the start value is free, and 2 elsewhere.
fn new_at(start: u8, value: u8) -> u8
    ensures { result ≡ new_at_of start value }
{
    if start == 2 { value } else { 2 }
}

// 2 goes where the start value is not free.
pub fn keep_new(start: &[u8], values: &mut [u8])
    requires { length values.old ≡ length start.now }
    ensures { values.new ≡ new_only start.now values.old }
{
    for (i, value) in values.iter_mut().enumerate() {
        *value = new_at(start[i], *value);
    }
}
