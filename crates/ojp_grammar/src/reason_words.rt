//! The words for the reasons of refused documents.

ghost use Rattle.std.specs.Prelude.{◌≡◌};
ghost use Rattle.ojp_grammar.specs.Reasons.{document_words, field_words};

use crate::refusals::Reason;
use ojp_values::Kind;

impl Reason {
    /// Why a document is refused.
    pub fn words(self) -> &'static str
        ensures { result.now ≡ document_words self }
    {
        match self {
            Reason::Markup => "Markup",
            Reason::Field(kind) => words_of_field(kind),
            Reason::Truncated => "Truncated",
            Reason::Trailing => "Trailing",
        }
    }
}

fn words_of_field(kind: Kind) -> &'static str
    ensures { result.now ≡ field_words kind }
{
    match kind {
        Kind::StopRef => "Field StopRef",
        Kind::Code => "Field Code",
        Kind::Label => "Field Label",
        Kind::Name => "Field Name",
        Kind::Moment => "Field Moment",
        Kind::Day => "Field Day",
        Kind::Seconds => "Field Seconds",
        Kind::Change => "Field Change",
        Kind::Number => "Field Number",
        Kind::Count => "Field Count",
        Kind::EventKind => "Field EventKind",
    }
}
