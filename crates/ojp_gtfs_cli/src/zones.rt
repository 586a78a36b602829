//! The zone of a timetable: what the words say, or a rule that has the noons of the zone file.

ghost use Rattle.std.specs.Prelude.{◌≡◌, IfErr, IfOk, OnOk, None, string_bytes};
ghost use Rattle.std.specs.List.{list_all};
ghost use Rattle.ojp_calendars.specs.Files.{IsZoned};
ghost use Rattle.ojp_steps.specs.Lent.{lent};
ghost use Rattle.ojp_gtfs_cli.specs.Causes.{GivesNone, StoreGoesOn, ZoneFailsAs};
ghost use Rattle.ojp_gtfs_cli.specs.Feeds.{IsZoneFor, held_day, is_zone_byte, is_zone_name, zone_path};
ghost use Rattle.ojp_gtfs_cli.specs.Meanings.{text_in};

use crate::days::day_of;
use crate::failures::{Failure, no_memory, no_rule, refused_line, too_long, unread};
use ojp_calendars::{ZoneFault, zone_of_file};
use ojp_feed_rows::{Feed, Window};
use ojp_outside::{Sink, Store, StoreRefused};
use std::alloc::{AllocError, Global};

/// The zone's text for the window of the feed, where zone files stand in the folder `zoneinfo`.
pub(crate) fn zone_text<S: Store, E: Sink>(
    alloc: Global,
    feed: &Feed,
    asked: Option<&str>,
    zoneinfo: &str,
    store: &mut S,
    report: &mut E,
) -> Result<String, Failure>
    ensures zone { IfOk result (λ zone. IsZoneFor (text_in asked.entry) zoneinfo.now (S.seen store.old).contents feed.now (string_bytes zone)) }
    ensures quiet { OnOk result (report.new ≡ report.old) }
    ensures store { StoreGoesOn (S.seen store.old) (S.seen store.new) }
    ensures cause { IfErr result (ZoneFailsAs (text_in asked.entry) zoneinfo.now feed.now (S.seen store.old) (S.seen store.new) (lent E.seen report.old report.new)) }
{
    match asked {
        Some(rule) => match String::from_str(alloc, rule) {
            Ok(zone) => Ok(zone),
            Err(_) => Err(no_memory(report)),
        },
        None => zone_by_file(alloc, feed, zoneinfo, store, report),
    }
}

#[tactic(auto, using(crate::proofs::CauseFacts::no_zone_file, crate::proofs::CauseFacts::too_long))]
fn zone_by_file<S: Store, E: Sink>(
    alloc: Global,
    feed: &Feed,
    zoneinfo: &str,
    store: &mut S,
    report: &mut E,
) -> Result<String, Failure>
    ensures zone { IfOk result (λ zone. IsZoneFor None zoneinfo.now (S.seen store.old).contents feed.now (string_bytes zone)) }
    ensures quiet { OnOk result (report.new ≡ report.old) }
    ensures store { StoreGoesOn (S.seen store.old) (S.seen store.new) }
    ensures cause { IfErr result (ZoneFailsAs None zoneinfo.now feed.now (S.seen store.old) (S.seen store.new) (lent E.seen report.old report.new)) }
{
    let name = feed.zone_name.as_str();
    if !is_zone_name(name) {
        return Err(refused_line(report, "agency.txt", 2, "bad ", "agency_timezone"));
    }
    let Ok(path) = path_of(alloc, zoneinfo, name) else {
        return Err(no_memory(report));
    };
    let bytes = match store.read_file(alloc, path.as_str()) {
        Ok(bytes) => bytes,
        Err(StoreRefused::Failed) => return Err(unread(report, path.as_str())),
        Err(StoreRefused::TooLong) => return Err(too_long(report, path.as_str())),
        Err(StoreRefused::NoMemory) => return Err(no_memory(report)),
    };
    match rule_of(alloc, &bytes, feed.window) {
        Ok(zone) => Ok(zone),
        Err(ZoneFault::Memory) => Err(no_memory(report)),
        Err(ZoneFault::File) => Err(unread(report, path.as_str())),
        Err(ZoneFault::Rule) => Err(no_rule(report, name, feed.window)),
    }
}

/// The text of a rule with the noons of the zone file.
#[tactic(auto, using(crate::proofs::CauseFacts::gives_none))]
fn rule_of(alloc: Global, bytes: &[u8], window: Window) -> Result<String, ZoneFault>
    ensures zoned { IfOk result (λ zone. IsZoned bytes.now (held_day window.first) (held_day window.last) (string_bytes zone)) }
    ensures cause { IfErr result (GivesNone bytes.now window) }
{
    let text = zone_of_file(alloc, bytes, day_of(window.first), day_of(window.last))?;
    match str::from_utf8(&text) {
        Ok(text) => match String::from_str(alloc, text) {
            Ok(zone) => Ok(zone),
            Err(_) => Err(ZoneFault::Memory),
        },
        Err(_) => Err(ZoneFault::Rule),
    }
}

/// Letters, digits, `_`, `+`, `-` and `/`, which does not begin it: a name below the folder of zone files.
fn is_zone_name(name: &str) -> bool
    ensures { result ≡ is_zone_name name.now }
{
    let bytes = name.as_bytes();
    !bytes.starts_with(b"/") && are_zone_bytes(bytes)
}

fn are_zone_bytes(bytes: &[u8]) -> bool
    ensures { result ≡ list_all is_zone_byte bytes.now }
{
    bytes.iter().all(|byte| is_zone_byte(*byte))
}

fn is_zone_byte(byte: u8) -> bool
    ensures { result ≡ is_zone_byte byte }
{
    byte.is_ascii_alphanumeric() || byte == b'_' || byte == b'+' || byte == b'-' || byte == b'/'
}

/// The path of a zone's file.
fn path_of(alloc: Global, zoneinfo: &str, name: &str) -> Result<String, AllocError>
    ensures { IfOk result (λ path. string_bytes path ≡ zone_path zoneinfo.now name.now) }
{
    let mut path = String::from_str(alloc, zoneinfo)?;
    path.push_str("/")?;
    path.push_str(name)?;
    Ok(path)
}
