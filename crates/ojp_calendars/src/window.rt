//! The days on which the noons of a zone file matter.

ghost use Rattle.std.specs.Prelude.{◌≤◌};
ghost use Rattle.ojp_values.specs.declared.moments.TheConstants.{FIRST_DAY, LAST_DAY};

use jiff_tz::Tzif;

/// A zone file's table, and the first and the last of the days on which its noons matter.
#[derive(Clone, Copy)]
pub(crate) struct Window<'t> {
    pub table: &'t Tzif,
    pub first: u32,
    pub last: u32,
    pub ghost from: { FIRST_DAY ≤ first },
    pub ghost to: { last ≤ LAST_DAY },
}
