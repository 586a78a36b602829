//! The words of a command line.

ghost use Rattle.std.specs.Prelude.{◌≡◌, ℕ, Some, None, MatchOption};
ghost use Rattle.ojp_cli.specs.Words.{named_by, behind_order, one_word, order_words, other_words, plan_of, plan_words, texts_of, trace_words, traced_words, two_words, IsNumber, IsOrder};
ghost use Rattle.ojp_cli.specs.Commands.{meaning, text_in};

use ojp_online::is_option_word;
use ojp_values::read_number;

/// The most files of `plan`.
const MOST_FILES: usize = 32;

/// The last of the orders, which begin with 0.
const LAST_ORDER: u32 = 10;

/// The words of `plan`: its order, whether it tells its trace, and its files.
#[derive(Clone, Copy, Debug)]
pub(crate) struct PlanWords<'a> {
    pub order: Option<&'a str>,
    pub traces: bool,
    pub files: &'a [String],
}

/// A command, with its words.
#[derive(Clone, Copy, Debug)]
pub(crate) enum Command<'a> {
    /// Answers one request over the regions of timetable files.
    Plan(PlanWords<'a>),
    /// Says which document the input is.
    Check,
    /// Puts the asks of the network of a number through the gateway.
    Load(&'a str),
}

/// The command of the words; `None` for words of another form.
pub(crate) fn read_words(words: &[String]) -> Option<Command<'_>>
    ensures { meaning result ≡ named_by words.now }
{
    match words.split_first() {
        None => None,
        Some((word, rest)) => {
            if word.as_str() == "plan" {
                plan_command(rest)
            } else {
                other_command(word.as_str(), rest)
            }
        }
    }
}

/// What stands behind `plan`.
fn plan_command(words: &[String]) -> Option<Command<'_>>
    ensures { meaning result ≡ plan_words (texts_of words.now) }
{
    match words.split_first() {
        None => None,
        Some((word, rest)) => {
            if word.as_str() == "--order" {
                order_command(rest)
            } else if word.as_str() == "--trace" {
                trace_command(rest)
            } else {
                plan_with(None, false, words)
            }
        }
    }
}

/// Behind `--order`: the order, and what stands behind it.
fn order_command(words: &[String]) -> Option<Command<'_>>
    ensures { meaning result ≡ order_words (texts_of words.now) }
{
    match words.split_first() {
        None => None,
        Some((order, rest)) => command_behind(order.as_str(), rest),
    }
}

/// Behind an order: the files, or first `--trace`.
fn command_behind<'a>(order: &'a str, words: &'a [String]) -> Option<Command<'a>>
    ensures { meaning result ≡ behind_order order.now (texts_of words.now) }
{
    match words.split_first() {
        None => None,
        Some((word, rest)) => {
            if word.as_str() == "--trace" {
                plan_with(Some(order), true, rest)
            } else {
                plan_with(Some(order), false, words)
            }
        }
    }
}

/// Behind `--trace`: the files, or first `--order` with the order.
fn trace_command(words: &[String]) -> Option<Command<'_>>
    ensures { meaning result ≡ trace_words (texts_of words.now) }
{
    match words.split_first() {
        None => None,
        Some((word, rest)) => {
            if word.as_str() == "--order" {
                traced_command(rest)
            } else {
                plan_with(None, true, words)
            }
        }
    }
}

/// The order, and then the files.
fn traced_command(words: &[String]) -> Option<Command<'_>>
    ensures { meaning result ≡ traced_words (texts_of words.now) }
{
    match words.split_first() {
        None => None,
        Some((order, files)) => plan_with(Some(order.as_str()), true, files),
    }
}

/// The order, where there is a word for it, whether the trace is told, and the files.
fn plan_with<'a>(order: Option<&'a str>, traces: bool, files: &'a [String]) -> Option<Command<'a>>
    ensures { meaning result ≡ plan_of (text_in order.entry) traces (texts_of files.now) }
{
    match files.first() {
        None => None,
        Some(file) => {
            if is_option_word(file.as_str()) || files.len() > MOST_FILES {
                None
            } else {
                Some(Command::Plan(PlanWords {
                    order,
                    traces,
                    files,
                }))
            }
        }
    }
}

/// The command of a word that is not `plan`, and of those behind it.
fn other_command<'a>(word: &'a str, rest: &'a [String]) -> Option<Command<'a>>
    ensures { meaning result ≡ other_words word.now (texts_of rest.now) }
{
    match rest {
        [] => check_command(word),
        [number] => load_command(word, number.as_str()),
        _ => None,
    }
}

fn check_command(word: &str) -> Option<Command<'_>>
    ensures { meaning result ≡ one_word word.now }
{
    if word == "check" {
        Some(Command::Check)
    } else {
        None
    }
}

fn load_command<'a>(word: &'a str, number: &'a str) -> Option<Command<'a>>
    ensures { meaning result ≡ two_words word.now number.now }
{
    if word == "load" {
        Some(Command::Load(number))
    } else {
        None
    }
}

/// The number of a network that the word names.
pub(crate) fn read_network(word: &str) -> Option<u64>
    ensures { MatchOption result ((number : ℕ) → IsNumber word.now number → ⊥) (IsNumber word.now) }
{
    match read_number(word.as_bytes()) {
        Some(number) => Some(u64::from(number)),
        None => None,
    }
}

/// The order that the word names, or the first one where there is none.
pub(crate) fn read_order(word: Option<&str>) -> Option<u64>
    ensures { MatchOption result ((order : ℕ) → IsOrder (text_in word.entry) order → ⊥) (IsOrder (text_in word.entry)) }
{
    match word {
        None => Some(0),
        Some(word) => read_named_order(word),
    }
}

/// The order that the word names.
fn read_named_order(word: &str) -> Option<u64>
    ensures { MatchOption result ((order : ℕ) → IsOrder (Some word.now) order → ⊥) (IsOrder (Some word.now)) }
{
    match read_number(word.as_bytes()) {
        Some(order) => {
            if order <= LAST_ORDER {
                Some(u64::from(order))
            } else {
                None
            }
        }
        None => None,
    }
}
