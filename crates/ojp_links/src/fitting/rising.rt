//! Which lists rise.

ghost use Rattle.std.specs.Prelude.{◌↔◌, ◌≡◌, Bool, IsTrue, true};
ghost use Rattle.ojp_values.specs.Lists.{IsRising};
ghost use Rattle.ojp_timetable.specs.Answers.{event_lt};
ghost use Rattle.ojp_timetable.specs.Points.{neighbour_lt, point_lt};
ghost use Rattle.ojp_links.specs.Orders.{events_carried, neighbours_carried, points_carried};

use ojp_values::{Event, Neighbour, Point};

/// What stands in an order.
pub(crate) trait Before {
    /// Whether the one is before the other.
    ghost before: { Self → Self → Bool };

    /// Whether it is before the other.
    fn is_before(&self, other: &Self) -> bool
        ensures { result ≡ before self.now other.now };

    /// What is before another is before all that the other is before.
    ghost carried: { (x y z : Self) → before x y ≡ true → before y z ≡ true → before x z ≡ true };
}

impl Before for Event {
    ghost before = { event_lt };

    ghost carried = { events_carried };

    #[tactic(auto, unfolding(ojp_timetable::specs::Answers::event_lt, ojp_values::specs::Texts::text_lt, ojp_values::specs::Texts::same))]
    fn is_before(&self, other: &Event) -> bool {
        self.moment < other.moment
            || (self.moment == other.moment
                && (self.region < other.region
                    || (self.region == other.region
                        && (self.journey < other.journey
                            || (self.journey == other.journey
                                && (self.day < other.day
                                    || (self.day == other.day && self.order < other.order)))))))
    }
}

impl Before for Point {
    ghost before = { point_lt };

    ghost carried = { points_carried };

    #[tactic(auto, unfolding(ojp_values::specs::Texts::text_lt))]
    fn is_before(&self, other: &Point) -> bool {
        self.stop < other.stop
    }
}

impl Before for Neighbour {
    ghost before = { neighbour_lt };

    ghost carried = { neighbours_carried };

    #[tactic(auto, unfolding(ojp_values::specs::Texts::text_lt))]
    fn is_before(&self, other: &Neighbour) -> bool {
        self.code < other.code
    }
}

/// Whether each item is before all that follow it.
pub(crate) fn rises<T: Before>(items: &[T]) -> bool
    ensures { IsTrue result ↔ IsRising T.before items.now }
{
    let Some((first, rest)) = items.split_first() else {
        return true;
    };
    let mut last = first;
    'items: for item in rest {
        if !last.is_before(item) {
            return false;
        }
        last = item;
    }
    true
}
