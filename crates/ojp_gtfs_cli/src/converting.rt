//! From the words to a timetable that was read.

ghost use Rattle.std.specs.Prelude.{◌≡◌, ◌∷◌, IfErr, IfOk, IfSome, OnOk, codes, option_map};
ghost use Rattle.ojp_feed_lines.specs.Rows.{or_nothing};
ghost use Rattle.ojp_steps.specs.Lent.{lent};
ghost use Rattle.ojp_gtfs_cli.specs.Causes.{ConversionFailsAs, FailsAs, FileFailsAs, FolderGoesOn, OthersFailAs, RowsFailAs, StoreGoesOn};
ghost use Rattle.ojp_gtfs_cli.specs.Feeds.{IsFeedOf};
ghost use Rattle.ojp_gtfs_cli.specs.Meanings.{text_in, wanted_by};
ghost use Rattle.ojp_gtfs_cli.specs.Refused.{IsOperatorOf};
ghost use Rattle.ojp_gtfs_cli.specs.Runs.{IsConverted, IsTextOf};
ghost use Rattle.ojp_gtfs_cli.specs.Words.{StandsBehind, texts_of};

use crate::failures::{
    Failure, no_memory, refused_conversion, refused_feed, refused_file, too_long, unread,
};
use crate::fitting::fit_for;
use crate::words::Words;
use crate::zones::zone_text;
use ojp_feed::{Converted, convert};
use ojp_feed_lines::{Asked, Folder, read_feed};
use ojp_feed_rows::{Feed, Settings};
use ojp_outside::{Sink, Store, StoreRefused};
use ojp_region::read_table;
use ojp_timetable::Timetable;
use std::alloc::Global;

/// A feed that was converted: its rows, the zone, and the text with its plan and its timetable; and the timetables of other regions.
#[derive(Drop)]
pub(crate) struct Done {
    pub feed: Feed,
    pub zone: String,
    pub converted: Converted,
    pub others: Vec<Timetable>,
}

/// Reads and converts the feed; a failure is told.
#[tactic(auto, using(crate::proofs::CauseFacts::store_goes_on))]
pub(crate) fn convert_feed<D: Folder, S: Store, E: Sink>(
    alloc: Global,
    words: &Words<'_>,
    zoneinfo: &str,
    folder: &mut D,
    store: &mut S,
    report: &mut E,
) -> Result<Done, Failure>
    ensures converted { IfOk result (λ done. IsConverted (wanted_by words.now) zoneinfo.now (D.seen folder.old).contents (S.seen store.old).contents done.converted.text.items) }
    ensures folder { FolderGoesOn (D.seen folder.old) (D.seen folder.new) }
    ensures store { (S.seen store.new).contents ≡ (S.seen store.old).contents }
    ensures cause { IfErr result (FailsAs (wanted_by words.now) zoneinfo.now
        (lent D.seen folder.old folder.new)
        (lent S.seen store.old store.new)
        (lent E.seen report.old report.new)) }
{
    let others = read_others(alloc, words.rest, store, report)?;
    let feed = read_rows(alloc, words, folder, store, report)?;
    let zone = zone_text(alloc, &feed, words.options.zone, zoneinfo, store, report)?;
    let settings = Settings {
        code: words.code,
        zone,
        change: words.change,
        station_change: words.station_change,
        as_open: words.options.as_open,
    };
    let (feed, converted) = convert_rows(alloc, feed, &settings, report)?;
    Ok(Done {
        feed,
        zone: settings.zone,
        converted,
        others,
    })
}

/// The timetables of the files behind `--against`.
fn read_others<S: Store, E: Sink>(
    alloc: Global,
    words: &[String],
    store: &mut S,
    report: &mut E,
) -> Result<Vec<Timetable>, Failure>
    ensures kept { (S.seen store.new).contents ≡ (S.seen store.old).contents }
    ensures on { OnOk result (StoreGoesOn (S.seen store.old) (S.seen store.new)) }
    ensures quiet { OnOk result (report.new ≡ report.old) }
    ensures cause { IfErr result (OthersFailAs (texts_of words.now) (S.seen store.old) (S.seen store.new) (lent E.seen report.old report.new)) }
{
    let mut others = Vec::new(alloc);
    let mut rest = words;
    'words: while let Some((option, behind)) = rest.split_first() {
        read_other(alloc, option.as_str(), behind, &mut others, store, report)?;
        rest = behind;
    }
    Ok(others)
}

/// The timetable of the file behind the option, where that is `--against`, is added.
#[tactic(auto, using(crate::proofs::CauseFacts::file_goes_on, crate::proofs::CauseFacts::file_kept))]
fn read_other<S: Store, E: Sink>(
    alloc: Global,
    option: &str,
    behind: &[String],
    others: &mut Vec<Timetable>,
    store: &mut S,
    report: &mut E,
) -> Result<(), Failure>
    ensures kept { (S.seen store.new).contents ≡ (S.seen store.old).contents }
    ensures on { OnOk result (StoreGoesOn (S.seen store.old) (S.seen store.new)) }
    ensures quiet { OnOk result (report.new ≡ report.old) }
    ensures cause { IfErr result (OthersFailAs (option.now ∷ texts_of behind.now) (S.seen store.old) (S.seen store.new) (lent E.seen report.old report.new)) }
{
    let Some(file) = other_of(option, behind) else {
        return Ok(());
    };
    let table = match read_table(alloc, file, store) {
        Ok(table) => table,
        Err(refused) => return Err(refused_file(report, file, refused)),
    };
    match others.push(table) {
        Ok(()) => Ok(()),
        Err(_) => Err(no_memory(report)),
    }
}

/// The file that stands behind the option, where it is `--against`.
fn other_of<'a>(option: &str, behind: &'a [String]) -> Option<&'a str>
    ensures { IfSome result (λ file. StandsBehind (option.now ∷ texts_of behind.now) (codes "--against") file.now) }
{
    if option == "--against" {
        match behind.first() {
            Some(file) => Some(file.as_str()),
            None => None,
        }
    } else {
        None
    }
}

/// The rows of the feed, with the operator's.
#[tactic(auto, using(crate::proofs::CauseFacts::too_long))]
fn read_rows<D: Folder, S: Store, E: Sink>(
    alloc: Global,
    words: &Words<'_>,
    folder: &mut D,
    store: &mut S,
    report: &mut E,
) -> Result<Feed, Failure>
    ensures feed { IfOk result (IsFeedOf (D.seen folder.old).contents) }
    ensures quiet { OnOk result (report.new ≡ report.old) }
    ensures folder { FolderGoesOn (D.seen folder.old) (D.seen folder.new) }
    ensures store { StoreGoesOn (S.seen store.old) (S.seen store.new) }
    ensures cause { IfErr result (RowsFailAs words.now.code (text_in words.now.options.exchange)
        (D.seen folder.old) (D.seen folder.new)
        (S.seen store.old) (S.seen store.new)
        (lent E.seen report.old report.new)) }
{
    let name = name_or_nothing(words.options.exchange);
    let operator = match read_operator(alloc, words.options.exchange, store, report) {
        Ok(operator) => operator,
        Err(failure) => return Err(failure),
    };
    let asked = Asked {
        code: words.code,
        window: words.window,
        operator: bytes_in(&operator),
    };
    match read_feed(alloc, folder, asked) {
        Ok(feed) => Ok(feed),
        Err(refused) => Err(refused_feed(report, refused, name)),
    }
}

/// The bytes of the operator's file, where one is named.
#[tactic(auto, using(crate::proofs::CauseFacts::too_long))]
fn read_operator<S: Store, E: Sink>(
    alloc: Global,
    name: Option<&str>,
    store: &mut S,
    report: &mut E,
) -> Result<Option<Vec<u8>>, Failure>
    ensures held { IfOk result (λ bytes. IsOperatorOf (S.seen store.old).contents (text_in name.entry) (option_map (λ held. held.items) bytes)) }
    ensures quiet { OnOk result (report.new ≡ report.old) }
    ensures store { StoreGoesOn (S.seen store.old) (S.seen store.new) }
    ensures cause { IfErr result (FileFailsAs (S.seen store.old) (S.seen store.new)) }
{
    match name {
        None => Ok(None),
        Some(file) => match store.read_file(alloc, file) {
            Ok(bytes) => Ok(Some(bytes)),
            Err(StoreRefused::Failed) => Err(unread(report, file)),
            Err(StoreRefused::TooLong) => Err(too_long(report, file)),
            Err(StoreRefused::NoMemory) => Err(no_memory(report)),
        },
    }
}

/// The bytes, where there are any.
fn bytes_in(bytes: &Option<Vec<u8>>) -> Option<&[u8]>
    ensures { option_map (λ lines. lines.now) result ≡ option_map (λ held. held.items) bytes.now }
{
    match bytes {
        Some(bytes) => Some(bytes.as_slice()),
        None => None,
    }
}

/// The name of a file, and nothing where there is none.
fn name_or_nothing(file: Option<&str>) -> &str
    ensures { result.now ≡ or_nothing (text_in file.entry) }
{
    match file {
        Some(name) => name,
        None => "",
    }
}

/// The feed converted; where a limit is passed, the latest day that fits is told.
fn convert_rows<E: Sink>(
    alloc: Global,
    feed: Feed,
    settings: &Settings,
    report: &mut E,
) -> Result<(Feed, Converted), Failure>
    ensures converted { IfOk result (λ pair. IsTextOf feed settings.now pair.1.text.items) }
    ensures quiet { OnOk result (report.new ≡ report.old) }
    ensures cause { IfErr result (ConversionFailsAs feed settings.now (lent E.seen report.old report.new)) }
{
    let mut feed = feed;
    match convert(alloc, &feed, settings) {
        Ok(converted) => Ok((feed, converted)),
        Err(refused) => {
            let fits = fit_for(alloc, refused, &mut feed, settings);
            Err(refused_conversion(report, &feed, refused, fits))
        }
    }
}
