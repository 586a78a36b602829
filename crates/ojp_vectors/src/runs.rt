//! How runs of cases are written out.

/// A table of cases, one a line: the side that is wanted, what the bytes are, and the bytes.
macro_rules! cases {
    ($($want:ident [$($outcome:tt)+] $bytes:literal)*) => {
        &[$(Case {
            want: Want::$want,
            bytes: $bytes,
            outcome: outcome!($($outcome)+),
        }),*]
    };
}

/// What bytes are: a document, or refused at a place for a reason.
macro_rules! outcome {
    (document) => { CaseOutcome::Document };
    ($at:literal $reason:expr) => { CaseOutcome::At { at: $at, reason: $reason } };
}

pub(crate) use cases;
pub(crate) use outcome;
