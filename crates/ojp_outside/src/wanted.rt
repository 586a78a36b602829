//! What was asked of doors.
ghost use Rattle.std.specs.Prelude.{◌≡◌};
ghost use Rattle.ojp_outside.specs.Doors.{has_all};
ghost use Rattle.ojp_outside.specs.Wanted.{asked_of};

/// What was asked of doors: the port, and the number of connections.
#[derive(Clone, Copy, Debug)]
pub struct Wanted {
    pub port: u16,
    pub most: Option<u64>,
}

/// Whether as many connections were given as were asked for.
pub fn is_complete(wanted: Option<Wanted>, given: u64) -> bool
    ensures { result ≡ has_all (asked_of wanted) given }
{
    match wanted {
        Some(
            Wanted {
                port: _,
                most: Some(most),
            },
        ) => most <= given,
        _ => false,
    }
}
