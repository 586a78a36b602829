//! Codes, stops, labels and names, by their numbers from 1 on.

ghost use Rattle.std.specs.Prelude.{◌≡◌, ◌≤◌};
ghost use Rattle.ojp_network.specs.Regions.{digit, journey_label, line_label, own_name, own_stop, point_name, region_code, shared_stop};

// The last digit of the number.
fn digit(n: u64) -> u8
    ensures { result ≡ digit n }
{
    b'0' + (n % 10) as u8
}

/// The code of a region.
pub fn region_code(region: u64) -> [u8; 3]
    ensures { result ≡ region_code region }
{
    [b'R', digit(region / 10), digit(region)]
}

/// An own stop of a region.
pub fn own_stop(region: u64, stop: u64) -> [u8; 7]
    ensures { result ≡ own_stop region stop }
{
    let [letter, tens, ones] = region_code(region);
    [
        letter,
        tens,
        ones,
        b':',
        b's',
        digit(stop / 10),
        digit(stop),
    ]
}

/// The name of an own stop.
pub fn own_name(region: u64, stop: u64) -> [u8; 13]
    ensures { result ≡ own_name region stop }
{
    let [letter, tens, ones] = region_code(region);
    [
        b'S',
        b't',
        b'o',
        b'p',
        b' ',
        digit(stop / 10),
        digit(stop),
        b' ',
        b'&',
        b' ',
        letter,
        tens,
        ones,
    ]
}

/// The name of an exchange point, which is its local part.
pub fn point_name(point: u64) -> [u8; 3]
    ensures { result ≡ point_name point }
{
    [b'E', digit(point / 10), digit(point)]
}

/// An exchange point.
pub fn shared_stop(point: u64) -> [u8; 5]
    ensures { result ≡ shared_stop point }
{
    [b'x', b':', b'E', digit(point / 10), digit(point)]
}

/// The label of a journey.
pub fn journey_label(journey: u64) -> [u8; 4]
    ensures { result ≡ journey_label journey }
{
    [
        b'J',
        digit(journey / 100),
        digit(journey / 10),
        digit(journey),
    ]
}

/// The label of a journey's line.
pub fn line_label(journey: u64) -> [u8; 2]
    ensures { result ≡ line_label journey }
{
    [b'L', digit(journey)]
}
