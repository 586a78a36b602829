//! Shapes of items, and the shapes of the documents.

ghost use Rattle.std.specs.Prelude.{◌≡◌};
ghost use Rattle.ojp_grammar.specs.Steps.{syntax_of};
ghost use Rattle.ojp_grammar.specs.Grammar as grammar;

use ojp_tables::names::*;
use ojp_values::Kind;

/// A shape of items. Texts are named by their numbers.
#[derive(Clone, Copy)]
pub enum Shape {
    /// One markup text.
    Text(u8),
    /// A field of a kind, and the text behind it.
    Field(Kind, u8),
    /// One shape, then the other.
    Both(&'static Shape, &'static Shape),
    /// One shape or the other.
    Either(&'static Shape, &'static Shape),
    /// A shape so many to so many times, and what stands behind them.
    Many(u32, u32, &'static Shape, &'static Shape),
    /// Legs so many to so many times, and the end of the trip.
    Legs(u32, u32),
}

impl Default for Shape {
    fn default() -> Shape {
        Shape::Text(END)
    }
}

/// The shapes one after another.
macro_rules! sequence {
    ($last:expr) => { $last };
    ($first:expr, $($rest:expr),+) => { Shape::Both(&$first, &sequence!($($rest),+)) };
}

/// One of the shapes.
macro_rules! choice {
    ($last:expr) => { $last };
    ($first:expr, $($rest:expr),+) => { Shape::Either(&$first, &choice!($($rest),+)) };
}

/// `<E>`, the content, `</E>`.
macro_rules! element {
    ($name:expr, $content:expr) => {
        Shape::Both(&Shape::Text($name), &Shape::Both(&$content, &Shape::Text($name + 1)))
    };
}

/// `<E>`, a field, `</E>`.
macro_rules! leaf {
    ($name:expr, $kind:ident) => {
        Shape::Both(&Shape::Text($name), &Shape::Field(Kind::$kind, $name + 1))
    };
}

/// A shape so many to so many times, and `</E>`.
macro_rules! many {
    ($low:expr, $high:expr, $content:expr, $name:expr) => {
        Shape::Many($low, $high, &$content, &Shape::Text($name + 1))
    };
}

/// A fault or a list, in an element.
macro_rules! fault_or_list {
    ($name:expr, $low:expr, $high:expr, $content:expr) => {
        Shape::Both(
            &Shape::Text($name),
            &Shape::Either(
                &Shape::Both(&FAULT, &Shape::Text($name + 1)),
                &many!($low, $high, $content, $name),
            ),
        )
    };
}

const REF: Shape = leaf!(STOP_POINT_REF, StopRef);

const PLACE: Shape = element!(PLACE_REF, REF);

const START: Shape = leaf!(DEP_ARR_TIME, Moment);

const FROM: Shape = element!(ORIGIN, sequence!(PLACE, START));

const TO: Shape = element!(DESTINATION, PLACE);

const TRIP_ASK: Shape = element!(OJP_TRIP_REQUEST, sequence!(FROM, TO));

const MULTI_ASK: Shape = sequence!(
    Shape::Text(OJP_MULTI_POINT_TRIP_REQUEST),
    FROM,
    many!(1, 256, TO, OJP_MULTI_POINT_TRIP_REQUEST)
);

const EVENT_ASK: Shape = element!(
    OJP_STOP_EVENT_REQUEST,
    sequence!(
        element!(LOCATION, sequence!(PLACE, START)),
        element!(
            PARAMS,
            sequence!(
                leaf!(NUMBER_OF_RESULTS, Number),
                leaf!(STOP_EVENT_TYPE, EventKind)
            )
        )
    )
);

const POINTS_ASK: Shape = sequence!(
    Shape::Text(OJP_EXCHANGE_POINTS_REQUEST),
    many!(0, 1, PLACE, OJP_EXCHANGE_POINTS_REQUEST)
);

const ASK: Shape = choice!(TRIP_ASK, MULTI_ASK, EVENT_ASK, POINTS_ASK);

const JOURNEY: Shape = element!(
    SERVICE,
    sequence!(
        leaf!(OPERATING_DAY_REF, Day),
        leaf!(JOURNEY_REF, Label),
        leaf!(LINE_REF, Label),
        leaf!(OPERATOR_REF, Code)
    )
);

const HALT: Shape = sequence!(
    REF,
    leaf!(STOP_POINT_NAME, Name),
    leaf!(TIMETABLED_TIME, Moment)
);

static BEHIND_TRIP_LEG: Shape = sequence!(
    element!(
        TIMED_LEG,
        sequence!(
            element!(LEG_BOARD, HALT),
            element!(LEG_ALIGHT, HALT),
            JOURNEY
        )
    ),
    Shape::Text(TRIP_LEG + 1)
);

const WHOLE_TRIP: Shape = sequence!(
    Shape::Text(TRIP),
    leaf!(DURATION, Seconds),
    leaf!(START_TIME, Moment),
    leaf!(END_TIME, Moment),
    leaf!(TRANSFERS, Count),
    Shape::Legs(1, 86_401)
);

const SUBJECT_STOP: Shape = leaf!(SUBJECT, StopRef);

const FAULT: Shape = element!(
    ERROR_CONDITION,
    choice!(
        sequence!(Shape::Text(SAME_STOP), SUBJECT_STOP),
        sequence!(Shape::Text(STOP_UNKNOWN), SUBJECT_STOP),
        sequence!(Shape::Text(NO_TRIP), SUBJECT_STOP),
        sequence!(Shape::Text(REGION_FAILED), leaf!(SUBJECT, Code)),
        Shape::Text(NOT_SERVED)
    )
);

const TRIP_DELIVERY: Shape = element!(
    OJP_TRIP_DELIVERY,
    choice!(FAULT, element!(TRIP_RESULT, WHOLE_TRIP))
);

const RESULT: Shape = element!(
    MULTI_POINT_TRIP_RESULT,
    choice!(
        WHOLE_TRIP,
        element!(
            ERROR_CONDITION,
            sequence!(Shape::Text(NO_TRIP), SUBJECT_STOP)
        )
    )
);

const MULTI_DELIVERY: Shape = fault_or_list!(OJP_MULTI_POINT_TRIP_DELIVERY, 1, 256, RESULT);

const EVENT: Shape = element!(
    STOP_EVENT_RESULT,
    sequence!(
        REF,
        leaf!(ORDER, Count),
        leaf!(TIMETABLED_TIME, Moment),
        JOURNEY
    )
);

const EVENT_DELIVERY: Shape = fault_or_list!(OJP_STOP_EVENT_DELIVERY, 0, 100, EVENT);

const NEAR: Shape = element!(
    NEIGHBOUR,
    sequence!(leaf!(OPERATOR_REF, Code), leaf!(TRANSFER_DURATION, Change))
);

const POINT: Shape = sequence!(
    Shape::Text(EXCHANGE_POINT),
    leaf!(OPERATOR_REF, Code),
    REF,
    leaf!(TRANSFER_DURATION, Change),
    many!(0, 31, NEAR, EXCHANGE_POINT)
);

const POINTS_DELIVERY: Shape = fault_or_list!(OJP_EXCHANGE_POINTS_DELIVERY, 0, 65_535, POINT);

const REPLY: Shape = choice!(
    TRIP_DELIVERY,
    MULTI_DELIVERY,
    EVENT_DELIVERY,
    POINTS_DELIVERY
);

static REQUEST: Shape = element!(OJP_REQUEST, element!(SERVICE_REQUEST, ASK));

static DELIVERY: Shape = element!(OJP_RESPONSE, element!(SERVICE_DELIVERY, REPLY));

/// What a request document has between head and end.
pub fn request() -> &'static Shape
    ensures { syntax_of result.now ≡ grammar.REQUEST }
{
    &REQUEST
}

/// What a delivery document has between head and end.
pub fn delivery() -> &'static Shape
    ensures { syntax_of result.now ≡ grammar.DELIVERY }
{
    &DELIVERY
}

/// What a leg has behind its opening text.
pub fn behind_trip_leg() -> &'static Shape
    ensures { syntax_of result.now ≡ grammar.BEHIND_TRIP_LEG }
{
    &BEHIND_TRIP_LEG
}
