//! What a search knows of a place.

/// What the record tells of a place: it is known, it is unknown, its check was not told, or its check
/// failed.
#[derive(Clone, Copy, Debug, PartialEq, Eq)]
pub enum PlaceState {
    Known,
    Unknown,
    Unheard,
    CheckFailed,
}
