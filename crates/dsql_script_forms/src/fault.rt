use std::alloc::{AllocError, AllocFailed};
use std::error::Error;
use std::fmt;

/// What a script may hold only a limited number of.
#[derive(Clone, Copy, Debug)]
pub enum What {
    /// Lines: a script may have 10,000.
    Lines,
    /// Arguments or destinations: a call may have 32 of each.
    Args,
}

impl fmt::Display for What {
    ghost use Rattle.std.specs.Prelude.{Some};
    ghost use Rattle.dsql_script_forms.specs.Faults.{what_word};

    ghost output = { λ what. Some (what_word what) };

    fn fmt<W: fmt::Write>(&self, f: &mut fmt::Formatter<W>) -> fmt::Result {
        match self {
            What::Lines => write!(f, "lines"),
            What::Args => write!(f, "arguments"),
        }
    }
}

/// Why a line of a script is refused. If a line has several faults, the first of these is reported: too many lines, too
/// long, not UTF-8, no such word, its words' shape. Then come: not JSON, the shape of what its array holds, too many
/// arguments or destinations, unknown label, label taken. Lack of memory may come in place of any other answer.
#[derive(Clone, Copy, Debug)]
pub enum LineFault {
    /// It has more bytes before its line feed, including a carriage return, than it may have: 4,096 in a
    /// script, 65,536 in a report.
    TooLong,
    /// Its bytes aren't UTF-8.
    NotUtf8,
    /// Its first words begin no form of a line, or the form may not stand here.
    NoSuchWord,
    /// Its array can't be read as JSON.
    BadJson,
    /// The number or the spelling of its words is wrong, or it lacks its array or has an unwanted one. The
    /// fault also covers an array that doesn't hold what the form requires.
    BadShape,
    /// It names a label or a token that no earlier line makes.
    UnknownLabel,
    /// It makes a label that an earlier line makes.
    LabelTaken,
    /// It is one more than there may be.
    TooMany(What),
    /// Memory ran out.
    Memory,
}

impl fmt::Display for LineFault {
    ghost use Rattle.std.specs.Prelude.{Some};
    ghost use Rattle.dsql_script_forms.specs.Faults.{reason_of};

    ghost output = { λ fault. Some (reason_of fault) };

    fn fmt<W: fmt::Write>(&self, f: &mut fmt::Formatter<W>) -> fmt::Result {
        match self {
            LineFault::TooLong => write!(f, "line too long"),
            LineFault::NotUtf8 => write!(f, "not UTF-8"),
            LineFault::NoSuchWord => write!(f, "no such word"),
            LineFault::BadJson => write!(f, "not JSON"),
            LineFault::BadShape => write!(f, "wrong shape"),
            LineFault::UnknownLabel => write!(f, "unknown label"),
            LineFault::LabelTaken => write!(f, "label taken"),
            LineFault::TooMany(what) => write!(f, "too many {what}"),
            LineFault::Memory => write!(f, "out of memory"),
        }
    }
}

impl Error for LineFault {}

impl From<AllocError> for LineFault {
    ghost use Rattle.std.specs.Prelude.{◌≡◌};
    ghost use Rattle.dsql_script_forms.specs.declared.fault.LineFault.TheVariants as fault;

    ghost from_gives = { λ _ f. f ≡ fault.Memory };

    fn from(_e: AllocError) -> LineFault {
        LineFault::Memory
    }
}

impl<T: Drop> From<AllocFailed<T>> for LineFault {
    ghost use Rattle.std.specs.Prelude.{◌≡◌};
    ghost use Rattle.dsql_script_forms.specs.declared.fault.LineFault.TheVariants as fault;

    ghost from_gives = { λ _ f. f ≡ fault.Memory };

    fn from(_e: AllocFailed<T>) -> LineFault {
        LineFault::Memory
    }
}
