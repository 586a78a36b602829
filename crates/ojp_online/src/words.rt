//! The words of the commands that may wait.

ghost use Rattle.std.specs.Prelude.{◌≡◌, ℕ, Option, Some, None, MatchOption};
ghost use Rattle.ojp_online.specs.Words.{named_by, five_words, is_option, server_if, server_of, three_words, AreNumbers, IsAddress, IsNumber};
ghost use Rattle.ojp_online.specs.Commands.{meaning, text_in};

use ojp_regions::{is_host, read_port};
use ojp_steps::serving::Listening;
use ojp_values::read_number;

/// The words of a server: its file, its port and its number of connections.
#[derive(Clone, Copy, Debug)]
pub(crate) struct ServerWords<'a> {
    pub file: &'a str,
    pub port: &'a str,
    pub count: Option<&'a str>,
}

/// The words of `ask`: where the server listens.
#[derive(Clone, Copy, Debug)]
pub(crate) struct AskWords<'a> {
    pub host: &'a str,
    pub port: &'a str,
}

/// A command, with its words.
#[derive(Clone, Copy, Debug)]
pub(crate) enum Command<'a> {
    /// Serves the timetable of a file at a port, for so many connections or without end.
    Region(ServerWords<'a>),
    /// Serves the regions of a file of regions so.
    Gateway(ServerWords<'a>),
    /// Sends one request to a server.
    Ask(AskWords<'a>),
}

/// The command of the words; `None` for words of another form.
pub(crate) fn read_words(words: &[String]) -> Option<Command<'_>>
    ensures { meaning result ≡ named_by words.now }
{
    match words {
        [word, first, port] => three_command(word.as_str(), first.as_str(), port.as_str()),
        [word, file, port, option, count] => {
            counted_command(
                word.as_str(),
                file.as_str(),
                port.as_str(),
                option.as_str(),
                count.as_str(),
            )
        }
        _ => None,
    }
}

fn three_command<'a>(word: &'a str, first: &'a str, port: &'a str) -> Option<Command<'a>>
    ensures { meaning result ≡ three_words word.now first.now port.now }
{
    if word == "ask" {
        Some(Command::Ask(AskWords { host: first, port }))
    } else {
        server_command(word, first, port, None)
    }
}

fn counted_command<'a>(
    word: &'a str,
    file: &'a str,
    port: &'a str,
    option: &'a str,
    count: &'a str,
) -> Option<Command<'a>>
    ensures { meaning result ≡ five_words word.now file.now port.now option.now count.now }
{
    if option == "--count" {
        server_command(word, file, port, Some(count))
    } else {
        None
    }
}

fn server_command<'a>(
    word: &'a str,
    file: &'a str,
    port: &'a str,
    count: Option<&'a str>,
) -> Option<Command<'a>>
    ensures { meaning result ≡ server_of word.now file.now port.now (text_in count.entry) }
{
    if is_option_word(file) {
        None
    } else {
        named_server(word, ServerWords { file, port, count })
    }
}

fn named_server<'a>(word: &'a str, words: ServerWords<'a>) -> Option<Command<'a>>
    ensures { meaning result ≡ server_if word.now words.entry.file.now words.entry.port.now (text_in words.entry.count) }
{
    if word == "region" {
        Some(Command::Region(words))
    } else if word == "gateway" {
        Some(Command::Gateway(words))
    } else {
        None
    }
}

/// Whether the word is an option: it begins with two hyphens.
pub fn is_option_word(word: &str) -> bool
    ensures { result ≡ is_option word.now }
{
    word.as_bytes().starts_with(b"--")
}

/// The numbers that the words name.
pub(crate) fn listening_of(port: &str, count: Option<&str>) -> Option<Listening>
    ensures { MatchOption result ((at : ℕ) (most : Option ℕ) → AreNumbers port.now (text_in count.entry) at most → ⊥)
        (λ listening. AreNumbers port.now (text_in count.entry) listening.port listening.count) }
{
    let port = read_port(port.as_bytes())?;
    match count {
        None => Some(Listening { port, count: None }),
        Some(word) => {
            let number = read_count(word)?;
            Some(Listening {
                port,
                count: Some(u64::from(number)),
            })
        }
    }
}

/// The number from 1 on that the word names.
#[tactic(auto, using(crate::proofs::WordFacts::no_number))]
fn read_count(word: &str) -> Option<u32>
    ensures { MatchOption result ((number : ℕ) → IsNumber word.now number → ⊥) (IsNumber word.now) }
{
    match read_number(word.as_bytes()) {
        Some(0) => None,
        Some(number) => Some(number),
        None => None,
    }
}

/// The port of a server whose host is one.
pub(crate) fn address_of(host: &str, port: &str) -> Option<u16>
    ensures { MatchOption result ((at : ℕ) → IsAddress host.now port.now at → ⊥) (IsAddress host.now port.now) }
{
    if is_host(host.as_bytes()) {
        read_port(port.as_bytes())
    } else {
        None
    }
}
