// The call of a case, by its code, and what its line has.
ghost use Rattle.lines.specs.Calls.{Decodes};

// A call by its name in docs/CASES.md; no call has the code of `Absent`.
#[derive(Clone, Copy, PartialEq, Eq)]
pub enum Call {
    Closure,
    Components,
    Preprocess,
    Heavy,
    SingleProbe,
    ColdProbe,
    Probe,
    LimitedProbe,
    Pairs,
    Propagation,
    Anchors,
    NoEffect,
    Shift,
    SubProblem,
    Mend,
    Reason,
    Keep,
    ColdFull,
    ColdLimited,
    Allow,
    Absent(u8),
}

impl From<u8> for Call {
    ghost from_gives = { Decodes };

    fn from(code: u8) -> Call {
        match code {
            1 => Call::Closure,
            2 => Call::Components,
            3 => Call::Preprocess,
            4 => Call::Heavy,
            5 => Call::SingleProbe,
            6 => Call::ColdProbe,
            7 => Call::Probe,
            8 => Call::LimitedProbe,
            9 => Call::Pairs,
            10 => Call::Propagation,
            11 => Call::Anchors,
            12 => Call::NoEffect,
            13 => Call::Shift,
            14 => Call::SubProblem,
            15 => Call::Mend,
            16 => Call::Reason,
            17 => Call::Keep,
            18 => Call::ColdFull,
            19 => Call::ColdLimited,
            20 => Call::Allow,
            _ => Call::Absent(code),
        }
    }
}

impl Call {
    // Whether the line has the start values; code 0, which no call has, is told so too.
    pub(crate) fn has_values(self) -> bool {
        matches!(
            self,
            Call::Closure
                | Call::Components
                | Call::Preprocess
                | Call::Heavy
                | Call::Propagation
                | Call::Absent(0)
        )
    }

    // Whether the line has answer constraints.
    pub(crate) fn has_constraints(self) -> bool {
        matches!(
            self,
            Call::Probe | Call::LimitedProbe | Call::ColdFull | Call::ColdLimited | Call::Pairs
        )
    }

    // Whether the line has found values.
    pub(crate) fn has_found(self) -> bool {
        matches!(
            self,
            Call::SingleProbe
                | Call::ColdProbe
                | Call::Probe
                | Call::LimitedProbe
                | Call::ColdFull
                | Call::ColdLimited
        )
    }

    // Whether the line has answer variables.
    pub(crate) fn has_variables(self) -> bool {
        matches!(self, Call::Anchors | Call::NoEffect | Call::Reason)
    }

    // Whether the line has the f64 scratch; code 0, which no call has, is told so too.
    pub(crate) fn has_floats(self) -> bool {
        match self {
            Call::Propagation | Call::NoEffect | Call::Shift | Call::Allow => false,
            Call::Absent(code) => code == 0,
            _ => true,
        }
    }
}
