//! The words that lines begin with.
ghost use Rattle.std.specs.Prelude.{◌≡◌};

/// The word that a line below the third begins with.
#[derive(Clone, Copy, Debug, PartialEq, Eq)]
pub enum Word {
    Call,
    Journey,
    Stop,
    Exchange,
    Neighbour,
    Service,
}
