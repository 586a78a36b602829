//! The words of the command line: `FOLDER CODE`, and then options in any order, each at most once but `--against`.

ghost use Rattle.std.specs.Prelude.{◌≡◌, ◌≤◌, ◌↔◌, ℕ, ◌∷◌, None, IfSome, IsTrue, MatchOption, decimal, length};
ghost use Rattle.ojp_values.specs.Limits.{IsChange};
ghost use Rattle.ojp_values.specs.Numbers.{Reads};
ghost use Rattle.ojp_feed_rows.specs.declared.settings.Window.{Window as Days};
ghost use Rattle.ojp_gtfs_cli.specs.Meanings.{chosen_by, chosen_in, text_in, wanted_by};
ghost use Rattle.ojp_gtfs_cli.specs.Words.{AreNoOptions, AskFor, AskForNothing, IsChangeOf, IsDay, IsWindow, SayJust, SaysAs, is_folder, is_free, is_option, is_unset, no_options, texts_of, with_flag, with_other_value, with_value};

use ojp_feed_rows::Window;
use ojp_values::{Code, Day, FIRST_DAY, LAST_DAY, read_number};

/// The most seconds of a change.
const LONGEST_CHANGE: u32 = 7_200;

/// The change where nothing says more, in seconds.
const CHANGE: u32 = 60;

/// The change at a stop with several platforms that are served.
const STATION_CHANGE: u32 = 180;

/// What is asked for.
#[derive(Clone, Copy, Debug)]
pub(crate) struct Words<'a> {
    pub code: Code,
    pub window: Window,
    pub change: u32,
    pub station_change: u32,
    pub options: Options<'a>,
    /// The words behind the code; behind each `--against` there is the name of a file.
    pub rest: &'a [String],
}

/// The options as they stand.
#[derive(Clone, Copy, Debug)]
pub(crate) struct Options<'a> {
    pub from: Option<&'a str>,
    pub to: Option<&'a str>,
    pub zone: Option<&'a str>,
    pub exchange: Option<&'a str>,
    pub change: Option<&'a str>,
    pub station_change: Option<&'a str>,
    pub as_open: bool,
    pub strict: bool,
}

/// No option.
const NONE: Options<'static> = Options {
    from: None,
    to: None,
    zone: None,
    exchange: None,
    change: None,
    station_change: None,
    as_open: false,
    strict: false,
};

/// What the words ask for; `None` for words of another form.
pub(crate) fn read_words(words: &[String]) -> Option<Words<'_>>
    ensures { MatchOption result (AskForNothing (texts_of words.now)) (λ read. AskFor (texts_of words.now) (wanted_by read)) }
{
    match words.split_first() {
        None => None,
        Some((folder, behind)) => match behind.split_first() {
            None => None,
            Some((code, rest)) => read_behind(folder.as_str(), code.as_str(), rest),
        },
    }
}

fn read_behind<'a>(folder: &'a str, code: &'a str, rest: &'a [String]) -> Option<Words<'a>>
    ensures { MatchOption result (AskForNothing (folder.now ∷ code.now ∷ texts_of rest.now))
        (λ read. AskFor (folder.now ∷ code.now ∷ texts_of rest.now) (wanted_by read)) }
{
    if !is_folder(folder) {
        return None;
    }
    let Some(region) = Code::from_bytes(code.as_bytes()) else {
        return None;
    };
    let Some(options) = read_options(rest) else {
        return None;
    };
    let Some(window) = window_of(options.from, options.to) else {
        return None;
    };
    let Some(change) = change_of(options.change, CHANGE) else {
        return None;
    };
    let Some(station_change) = change_of(options.station_change, STATION_CHANGE) else {
        return None;
    };
    Some(Words {
        code: region,
        window,
        change,
        station_change,
        options,
        rest,
    })
}

/// Whether the word may name a folder.
fn is_folder(word: &str) -> bool
    ensures { result ≡ is_folder word.now }
{
    !is_option(word) && !word.is_empty()
}

/// The options of the words.
fn read_options(words: &[String]) -> Option<Options<'_>>
    ensures { MatchOption result (AreNoOptions no_options (texts_of words.now)) (λ options. SayJust (texts_of words.now) (chosen_by options)) }
{
    let mut options = NONE;
    let mut rest = words;
    'options: while let Some((option, behind)) = rest.split_first() {
        match with_first(options, option.as_str(), behind) {
            None => return None,
            Some((more, left)) => {
                options = more;
                rest = left;
            }
        }
    }
    Some(options)
}

/// The options with one more, and the words behind it.
fn with_first<'a>(
    options: Options<'a>,
    option: &'a str,
    behind: &'a [String],
) -> Option<(Options<'a>, &'a [String])>
    ensures taken { MatchOption result (AreNoOptions (chosen_by options.entry) (option.now ∷ texts_of behind.now))
        (λ left. SaysAs (chosen_by options.entry) (option.now ∷ texts_of behind.now) (chosen_by left.0) (texts_of left.1.now)) }
    ensures shorter { IfSome result (λ left. length left.1.now ≤ length behind.now) }
{
    match with_flag(options, option) {
        Some(more) => Some((more, behind)),
        None => with_first_value(options, option, behind),
    }
}

/// The same of an option that has a value, which stands behind it.
fn with_first_value<'a>(
    options: Options<'a>,
    option: &'a str,
    behind: &'a [String],
) -> Option<(Options<'a>, &'a [String])>
    requires { with_flag (chosen_by options) option.now ≡ None }
    ensures taken { MatchOption result (AreNoOptions (chosen_by options.entry) (option.now ∷ texts_of behind.now))
        (λ left. SaysAs (chosen_by options.entry) (option.now ∷ texts_of behind.now) (chosen_by left.0) (texts_of left.1.now)) }
    ensures shorter { IfSome result (λ left. length left.1.now ≤ length behind.now) }
{
    match behind.split_first() {
        None => None,
        Some((value, left)) => match with_value(options, option, value.as_str()) {
            Some(more) => Some((more, left)),
            None => None,
        },
    }
}

/// The options with one that has no value; none where the word is no such option, or it is set.
#[tactic(auto, unfolding(crate::specs::Words::with_flag))]
fn with_flag<'a>(options: Options<'a>, word: &str) -> Option<Options<'a>>
    ensures { chosen_in result ≡ with_flag (chosen_by options.entry) word.now }
{
    if is_unset(word, "--as-open", options.as_open) {
        Some(Options {
            as_open: true,
            ..options
        })
    } else if is_unset(word, "--strict", options.strict) {
        Some(Options {
            strict: true,
            ..options
        })
    } else {
        None
    }
}

/// The options with one and its value; none where there is no such option, or it has a value. No value begins with two hyphens.
#[tactic(auto, unfolding(crate::specs::Words::with_value))]
fn with_value<'a>(options: Options<'a>, option: &str, value: &'a str) -> Option<Options<'a>>
    ensures { chosen_in result ≡ with_value (chosen_by options.entry) option.now value.now }
{
    if is_option(value) {
        return None;
    }
    if is_free(option, "--from", options.from) {
        Some(Options {
            from: Some(value),
            ..options
        })
    } else if is_free(option, "--to", options.to) {
        Some(Options {
            to: Some(value),
            ..options
        })
    } else if is_free(option, "--zone", options.zone) {
        Some(Options {
            zone: Some(value),
            ..options
        })
    } else if option == "--against" {
        Some(options)
    } else {
        with_other_value(options, option, value)
    }
}

/// The same for the operator's file and the changes.
#[tactic(auto, unfolding(crate::specs::Words::with_other_value))]
fn with_other_value<'a>(options: Options<'a>, option: &str, value: &'a str) -> Option<Options<'a>>
    ensures { chosen_in result ≡ with_other_value (chosen_by options.entry) option.now value.now }
{
    if is_free(option, "--exchange", options.exchange) {
        Some(Options {
            exchange: Some(value),
            ..options
        })
    } else if is_free(option, "--change", options.change) {
        Some(Options {
            change: Some(value),
            ..options
        })
    } else if is_free(option, "--station-change", options.station_change) {
        Some(Options {
            station_change: Some(value),
            ..options
        })
    } else {
        None
    }
}

/// Whether the option has this name, and no value yet.
fn is_free(option: &str, name: &str, value: Option<&str>) -> bool
    ensures { result ≡ is_free option.now name.now (text_in value.entry) }
{
    match value {
        None => option == name,
        Some(_) => false,
    }
}

/// Whether the option has this name, and is not set yet.
fn is_unset(option: &str, name: &str, set: bool) -> bool
    ensures { result ≡ is_unset option.now name.now set }
{
    option == name && !set
}

/// Options begin with two hyphens.
fn is_option(word: &str) -> bool
    ensures { result ≡ is_option word.now }
{
    word.as_bytes().starts_with(b"--")
}

/// The days from the one to the other, both written YYYY-MM-DD; where one is missing, as far as operating days go.
fn window_of(from: Option<&str>, to: Option<&str>) -> Option<Window>
    ensures { MatchOption result ((days : Days) → IsWindow (text_in from.entry) (text_in to.entry) days → ⊥)
        (IsWindow (text_in from.entry) (text_in to.entry)) }
{
    let Some(first) = day_of(from, FIRST_DAY) else {
        return None;
    };
    let Some(last) = day_of(to, LAST_DAY) else {
        return None;
    };
    if first <= last {
        Some(Window { first, last })
    } else {
        None
    }
}

fn day_of(word: Option<&str>, missing: u32) -> Option<u32>
    ensures { MatchOption result ((day : ℕ) → IsDay (text_in word.entry) missing day → ⊥) (IsDay (text_in word.entry) missing) }
{
    match word {
        None => Some(missing),
        Some(word) => match Day::read(word.as_bytes()) {
            Some(day) => Some(day.number()),
            None => None,
        },
    }
}

/// The seconds of a change.
fn change_of(word: Option<&str>, missing: u32) -> Option<u32>
    ensures { MatchOption result ((seconds : ℕ) → IsChangeOf (text_in word.entry) missing seconds → ⊥) (IsChangeOf (text_in word.entry) missing) }
{
    match word {
        None => Some(missing),
        Some(word) => read_change(word),
    }
}

fn read_change(word: &str) -> Option<u32>
    ensures { Reads IsChange decimal word.now result }
{
    match read_number(word.as_bytes()) {
        Some(seconds) => {
            if is_change(seconds) {
                Some(seconds)
            } else {
                None
            }
        }
        None => None,
    }
}

/// Whether a change may take so many seconds.
fn is_change(seconds: u32) -> bool
    ensures { IsTrue result ↔ IsChange seconds }
{
    1 <= seconds && seconds <= LONGEST_CHANGE
}
