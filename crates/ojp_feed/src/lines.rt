//! Lines of a plan, written behind a text. Behind an error the text is of no use.

ghost use Rattle.std.specs.Prelude.{◌≡◌, ◌++◌, OnOk};
ghost use Rattle.ojp_lines.specs.Lines.{place_word};
ghost use Rattle.ojp_feed.specs.Texts.{text_of_call, text_of_journey, text_of_neighbour, text_of_place, text_of_service};

use ojp_calendars::{DayBox, label};
use ojp_feed_plans::{PlannedJourney, PlannedPlace};
use ojp_feed_rows::NeighbourOf;
use ojp_lines::marks;
use ojp_timetable::Call;
use ojp_values::NoMemory;

/// Writes the line of a place.
#[tactic(auto, unfolding(crate::specs::Texts::text_of_place))]
pub fn put_place(out: &mut Vec<u8>, place: &PlannedPlace) -> Result<(), NoMemory>
    ensures { OnOk result (out.new.items ≡ out.old.items ++ text_of_place place.now) }
{
    let stop = place.stop.text();
    let change = u64::from(place.change);
    ojp_lines::put_place(out, place_word(place), stop, change, place.name.text())
}

// The word of the place.
fn place_word(place: &PlannedPlace) -> &'static [u8]
    ensures { result.now ≡ place_word place.now.stop }
{
    if place.stop.is_exchange() {
        b"exchange"
    } else {
        b"stop"
    }
}

/// Writes the line of a neighbour.
#[tactic(auto, unfolding(crate::specs::Texts::text_of_neighbour))]
pub fn put_neighbour(out: &mut Vec<u8>, neighbour: &NeighbourOf) -> Result<(), NoMemory>
    ensures { OnOk result (out.new.items ≡ out.old.items ++ text_of_neighbour neighbour.now) }
{
    let change = u64::from(neighbour.change);
    ojp_lines::put_neighbour(out, neighbour.point.text(), neighbour.region.text(), change)
}

/// Writes the line of a service.
#[tactic(auto, unfolding(crate::specs::Texts::text_of_service))]
pub fn put_service(out: &mut Vec<u8>, days: &DayBox) -> Result<(), NoMemory>
    ensures { OnOk result (out.new.items ≡ out.old.items ++ text_of_service days.now) }
{
    let first = days.first.text();
    let last = days.last.text();
    ojp_lines::put_service(
        out,
        label(days).text(),
        &first,
        &last,
        &marks(&days.weekdays),
    )
}

/// Writes the line of a journey.
#[tactic(auto, unfolding(crate::specs::Texts::text_of_journey))]
pub fn put_journey(out: &mut Vec<u8>, journey: &PlannedJourney) -> Result<(), NoMemory>
    ensures { OnOk result (out.new.items ≡ out.old.items ++ text_of_journey journey.now) }
{
    let service = label(&journey.days);
    ojp_lines::put_journey(
        out,
        journey.label.text(),
        service.text(),
        journey.line.text(),
    )
}

/// Writes the line of a call.
#[tactic(auto, unfolding(crate::specs::Texts::text_of_call))]
pub fn put_call(out: &mut Vec<u8>, call: &Call) -> Result<(), NoMemory>
    ensures { OnOk result (out.new.items ≡ out.old.items ++ text_of_call call.now) }
{
    let arrives = call.arrives.map(u64::from);
    let departs = call.departs.map(u64::from);
    ojp_lines::put_call(out, call.stop.text(), arrives, departs)
}
