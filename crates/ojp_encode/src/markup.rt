//! How many bytes all the runs of an element have, with the letters of durations and the kind of events.

use ojp_tables::runs::*;

/// The bytes of these runs together.
macro_rules! bytes_of {
    ($($run:expr),+ $(,)?) => {
        (0 $(+ $run.len())+) as u64
    };
}

pub const TARGET_MARKUP: u64 = bytes_of!(TARGET_START, TARGET_END);

pub const TRIP_ASK_MARKUP: u64 = bytes_of!(TRIP_ASK_START, ORIGIN_TIME, TIME_TARGET, TRIP_ASK_END);

pub const MULTI_ASK_MARKUP: u64 = bytes_of!(
    MULTI_ASK_START,
    ORIGIN_TIME,
    ORIGIN_END,
    MULTI_ASK_END
);

pub const DEPARTURES_MARKUP: u64 = bytes_of!(
    EVENT_ASK_START,
    ORIGIN_TIME,
    TIME_NUMBER,
    DEPARTURE_END
);

pub const ARRIVALS_MARKUP: u64 = bytes_of!(EVENT_ASK_START, ORIGIN_TIME, TIME_NUMBER, ARRIVAL_END);

pub const POINTS_ASK_MARKUP: u64 = bytes_of!(POINTS_ASK_START, POINTS_ASK_END);

pub const POINTS_PLACE_MARKUP: u64 = bytes_of!(POINTS_PLACE_START, POINTS_PLACE_END);

pub const LEG_MARKUP: u64 = bytes_of!(
    LEG_START,
    STOP_NAME,
    NAME_TIME,
    BOARD_ALIGHT,
    STOP_NAME,
    NAME_TIME,
    ALIGHT_SERVICE,
    DAY_JOURNEY,
    JOURNEY_LINE,
    LINE_REGION,
    LEG_END
);

pub const TRIP_MARKUP: u64 = bytes_of!(
    TRIP_START,
    DURATION_TIME,
    START_END,
    END_TRANSFERS,
    TRANSFERS_END,
    TRIP_END
);

pub const SAME_STOP_MARKUP: u64 = bytes_of!(SAME_STOP_START, FAULT_END);

pub const STOP_UNKNOWN_MARKUP: u64 = bytes_of!(STOP_UNKNOWN_START, FAULT_END);

pub const NO_TRIP_MARKUP: u64 = bytes_of!(NO_TRIP_START, FAULT_END);

pub const REGION_FAILED_MARKUP: u64 = bytes_of!(REGION_FAILED_START, FAULT_END);

pub const NOT_SERVED_MARKUP: u64 = bytes_of!(NOT_SERVED_FAULT);

pub const TRIP_DELIVERY_MARKUP: u64 = bytes_of!(TRIP_DELIVERY_START, TRIP_DELIVERY_END);

pub const TRIP_RESULT_MARKUP: u64 = bytes_of!(TRIP_RESULT_START, TRIP_RESULT_END);

pub const MULTI_DELIVERY_MARKUP: u64 = bytes_of!(MULTI_DELIVERY_START, MULTI_DELIVERY_END);

pub const RESULT_MARKUP: u64 = bytes_of!(RESULT_START, RESULT_END);

pub const RESULT_NO_TRIP_MARKUP: u64 = bytes_of!(RESULT_NO_TRIP, RESULT_NO_TRIP_END);

pub const EVENTS_MARKUP: u64 = bytes_of!(EVENTS_START, EVENTS_END);

pub const EVENT_MARKUP: u64 = bytes_of!(
    EVENT_START,
    STOP_ORDER,
    ORDER_TIME,
    TIME_SERVICE,
    DAY_JOURNEY,
    JOURNEY_LINE,
    LINE_REGION,
    EVENT_END
);

pub const POINTS_MARKUP: u64 = bytes_of!(POINTS_START, POINTS_END);

pub const POINT_MARKUP: u64 = bytes_of!(
    POINT_START,
    REGION_STOP,
    STOP_CHANGE,
    CHANGE_END,
    POINT_END
);

pub const NEIGHBOUR_MARKUP: u64 = bytes_of!(NEIGHBOUR_START, CODE_CHANGE, NEIGHBOUR_END);

pub const REQUEST_MARKUP: u64 = bytes_of!(REQUEST_START, REQUEST_END);

pub const DELIVERY_MARKUP: u64 = bytes_of!(DELIVERY_START, DELIVERY_END);
