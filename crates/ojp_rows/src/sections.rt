//! The sections of rows.

use crate::{boards, calendars, feeds, links, parts, scans, sockets};
use std::net::Net;
use std::rt::{Clock, Files};
use std::sync::Wait;

/// What telling rows takes: memory, printing, files, clocks and sockets, some of which are waited for.
pub(crate) trait Host: AllocGlobal + Print + Files + Clock + Net + Wait {}

impl<R: AllocGlobal + Print + Files + Clock + Net + Wait> Host for R {}

/// What the rows of a section are about.
#[derive(Clone, Copy)]
pub(crate) enum Section {
    Scans,
    Boards,
    Links,
    Sockets,
    Parts,
    Calendars,
    Feeds,
}

impl Section {
    /// The section of that name.
    pub fn named(name: &str) -> Option<Section> {
        match name {
            "scans" => Some(Section::Scans),
            "boards" => Some(Section::Boards),
            "links" => Some(Section::Links),
            "sockets" => Some(Section::Sockets),
            "parts" => Some(Section::Parts),
            "calendars" => Some(Section::Calendars),
            "feeds" => Some(Section::Feeds),
            _ => None,
        }
    }

    /// What stands between two rows: rows with timetables or feeds are of many lines, the others of one.
    pub fn row_end(self) -> &'static str {
        match self {
            Section::Scans | Section::Boards | Section::Links | Section::Feeds => "====\n",
            Section::Sockets | Section::Parts | Section::Calendars => "\n",
        }
    }

    /// Writes what comes of a row; none where it is no row, or writing or memory fails.
    pub fn tell<R: Host>(self, rt: &R, row: &str) -> Option<()> {
        match self {
            Section::Scans => scans::tell(rt, row),
            Section::Boards => boards::tell(rt, row),
            Section::Links => links::tell(rt, row),
            Section::Sockets => sockets::tell(rt, row),
            Section::Parts => parts::tell(rt, row),
            Section::Calendars => calendars::tell(rt, row),
            Section::Feeds => feeds::tell(rt, row),
        }
    }
}
