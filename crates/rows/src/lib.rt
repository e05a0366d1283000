// Rows of the gradient: a row's bounds, its terms, and its verdict.
#![tactic(auto)]

pub mod fill;
pub mod store;

ghost use Rattle.std.specs.Prelude.{◌≡◌, MatchBool};
ghost use Rattle.std.specs.Float.Ieee.{le};
ghost use Rattle.weights.specs.Worth.{zero64};
ghost use Rattle.rows.specs.Row.{start_row, add_free as add_free_of, remove_free as remove_free_of, add_fixed as add_fixed_of, remove_fixed as remove_fixed_of, add_term as add_term_of, remove_term as remove_term_of, judge_of, conclude_of, is_flat as is_flat_of};

// A row of the gradient: a lower and an upper bound on the gradient of one variable.
#[derive(Clone, Copy)]
pub struct Row {
    pub lower: f64,
    pub upper: f64,
}

// Zero carries a lower bound above 0, and one an upper bound below 0; of a flat row both are 0; open is none of these.
#[derive(Clone, Copy)]
pub enum Verdict {
    Zero(f64),
    One(f64),
    Flat,
    Open,
}

impl Verdict {
    // Whether this verdict is flat, which says that both bounds of the row are 0.
    pub fn is_flat(self) -> bool
        ensures { result ≡ is_flat_of self }
    {
        matches!(self, Verdict::Flat)
    }
}

// A variable together with the verdict on its row, as a caller acts on it.
#[derive(Clone, Copy)]
pub struct Conclusion {
    pub variable: u16,
    pub verdict: Verdict,
}

impl Row {
    // The row of a variable before any entry is counted: both bounds are its linear weight.
    pub fn start(linear: f64) -> Row
        ensures { result ≡ start_row linear }
    {
        Row {
            lower: linear,
            upper: linear,
        }
    }

    // Changes the lower bound where the coefficient is at most 0, and the upper where it is at least 0.
    fn change_free<F: Fn(f64) -> f64>(self, coeff: f64, change: F) -> Row
        requires { F.IsAlwaysCallable change }
        ensures lower { MatchBool (le coeff zero64) (F.post change self.lower result.lower) (result.lower ≡ self.lower) }
        ensures upper { MatchBool (le zero64 coeff) (F.post change self.upper result.upper) (result.upper ≡ self.upper) }
    {
        let mut row = self;
        if coeff <= 0.0 {
            row.lower = change(self.lower);
        }
        if coeff >= 0.0 {
            row.upper = change(self.upper);
        }
        row
    }

    // Changes both bounds.
    fn change_both<F: Fn(f64) -> f64>(self, change: F) -> Row
        requires { F.IsAlwaysCallable change }
        ensures lower { F.post change self.lower result.lower }
        ensures upper { F.post change self.upper result.upper }
    {
        Row {
            lower: change(self.lower),
            upper: change(self.upper),
        }
    }

    // Adds an entry whose other end is free: a coefficient at most 0 to lower, one at least 0 to upper.
    pub fn add_free(self, coeff: f64) -> Row
        ensures { result ≡ add_free_of self coeff }
    {
        self.change_free(coeff, |bound| bound + coeff)
    }

    // Takes out an entry whose other end was free, from the bounds to which its coefficient was added.
    pub fn remove_free(self, coeff: f64) -> Row
        ensures { result ≡ remove_free_of self coeff }
    {
        self.change_free(coeff, |bound| bound - coeff)
    }

    // Adds an entry whose other end has a value: coefficient times value to both bounds.
    pub fn add_fixed(self, coeff: f64, value: u8) -> Row
        ensures { result ≡ add_fixed_of self coeff value }
    {
        let term = coeff * (value as f64);
        self.change_both(|bound| bound + term)
    }

    // Takes out an entry whose other end had a value: coefficient times value from both bounds.
    pub fn remove_fixed(self, coeff: f64, value: u8) -> Row
        ensures { result ≡ remove_fixed_of self coeff value }
    {
        let term = coeff * (value as f64);
        self.change_both(|bound| bound - term)
    }

    // The term of an end with this byte, where 2 is free.
    pub fn add_term(self, coeff: f64, value: u8) -> Row
        ensures { result ≡ add_term_of self coeff value }
    {
        if value == 2 {
            self.add_free(coeff)
        } else {
            self.add_fixed(coeff, value)
        }
    }

    // Takes out the term of an end with this byte, where 2 is free.
    pub fn remove_term(self, coeff: f64, value: u8) -> Row
        ensures { result ≡ remove_term_of self coeff value }
    {
        if value == 2 {
            self.remove_free(coeff)
        } else {
            self.remove_fixed(coeff, value)
        }
    }

    // The verdict on the row: zero by its lower bound, else one by its upper bound, else flat or open.
    pub fn judge(self) -> Verdict
        ensures { result ≡ judge_of self }
    {
        if self.lower > 0.0 {
            return Verdict::Zero(self.lower);
        }
        if self.upper < 0.0 {
            return Verdict::One(self.upper);
        }
        if self.lower == 0.0 && self.upper == 0.0 {
            return Verdict::Flat;
        }
        Verdict::Open
    }

    // The verdict on the row, together with the variable whose row it is.
    pub fn conclude(self, variable: u16) -> Conclusion
        ensures { result ≡ conclude_of self variable }
    {
        let verdict = self.judge();
        Conclusion { variable, verdict }
    }
}
