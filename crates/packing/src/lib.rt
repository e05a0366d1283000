// An answer as one number, for programs in C and Rust.
#![tactic(auto)]

mod findings;

ghost use Rattle.std.specs.Prelude.{◌≡◌, ◌<◌};
ghost use Rattle.field.specs.Answers.{number_of, position_of};
ghost use Rattle.packing.specs.Layout.{packed, packed_by, Fits, bound_of as the_bound_of, bound_after as bound_after_of, constant_after as constant_after_of};

use field::{Answer, Refusal};
pub use findings::{Found, Parts};
use reason::{Ground, Reasoned};
use sub_problem::Reduced;

// Done, with the grade and both counts.
fn pack_done(parts: Parts) -> u64
    requires count_bound { parts.count < 0x1000_0000 }
    requires more_bound { parts.more < 0x10_0000 }
    ensures { result ≡ packed 0 parts.grade parts.count parts.more }
{
    0x100 * (parts.grade as u64)
        + 0x1_0000 * (parts.count as u64)
        + 0x1000_0000_0000 * (parts.more as u64)
}

// A refusal has no grade, and its count is the position that it names.
fn pack_refusal(refusal: Refusal) -> u64
    requires { position_of refusal < 0x1000_0000 }
    ensures { result ≡ packed (number_of refusal) 0 (position_of refusal) 0 }
{
    (refusal.number() as u64) + 0x1_0000 * (refusal.position() as u64)
}

// Packs an answer: what is found by its parts, and a refusal by its number and position.
pub fn pack<T: Found>(answer: Answer<T>) -> u64
    requires { Fits T.in_parts answer }
    ensures { result ≡ packed_by T.in_parts answer }
{
    match answer {
        Ok(found) => pack_done(found.parts()),
        Err(refusal) => pack_refusal(refusal),
    }
}

fn bound_of(ground: Ground) -> f64
    ensures { result ≡ the_bound_of ground }
{
    match ground {
        Ground::Given => 0.0,
        Ground::Lower(bound) => bound,
        Ground::Upper(bound) => bound,
    }
}

// The bound of an answer; a refusal leaves what was there.
pub fn bound_after(answer: Answer<Reasoned>, bound: f64) -> f64
    ensures { result ≡ bound_after_of answer bound }
{
    match answer {
        Ok(reasoned) => bound_of(reasoned.because),
        Err(_) => bound,
    }
}

// The constant of an answer; a refusal leaves what was there.
pub fn constant_after(answer: Answer<Reduced>, constant: f64) -> f64
    ensures { result ≡ constant_after_of answer constant }
{
    match answer {
        Ok(reduced) => reduced.constant,
        Err(_) => constant,
    }
}
