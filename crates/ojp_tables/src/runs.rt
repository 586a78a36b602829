//! Runs of markup texts, as they stand between the fields of documents, and how bodies write them out.
//!
//! A run is named for the fields on its two sides, or for the element that it begins or ends. The
//! letters of a duration, `PT` and `S`, stand in the runs beside its number.

// Documents

pub const REQUEST_START: &[u8] =
    b"<?xml version=\"1.0\" encoding=\"UTF-8\"?><OJP xmlns=\"http://www.siri.org.uk/siri\" xmlns:ojp=\"http://www.vdv.de/ojp\" version=\"1.0\"><OJPRequest><ServiceRequest>";

pub const REQUEST_END: &[u8] = b"</ServiceRequest></OJPRequest></OJP>";

pub const DELIVERY_START: &[u8] =
    b"<?xml version=\"1.0\" encoding=\"UTF-8\"?><OJP xmlns=\"http://www.siri.org.uk/siri\" xmlns:ojp=\"http://www.vdv.de/ojp\" version=\"1.0\"><OJPResponse><ServiceDelivery>";

pub const DELIVERY_END: &[u8] = b"</ServiceDelivery></OJPResponse></OJP>";

// Asks

pub const TRIP_ASK_START: &[u8] = b"<ojp:OJPTripRequest><ojp:Origin><ojp:PlaceRef><StopPointRef>";

pub const ORIGIN_TIME: &[u8] = b"</StopPointRef></ojp:PlaceRef><ojp:DepArrTime>";

pub const TIME_TARGET: &[u8] =
    b"</ojp:DepArrTime></ojp:Origin><ojp:Destination><ojp:PlaceRef><StopPointRef>";

pub const TRIP_ASK_END: &[u8] =
    b"</StopPointRef></ojp:PlaceRef></ojp:Destination></ojp:OJPTripRequest>";

pub const MULTI_ASK_START: &[u8] =
    b"<ojp:OJPMultiPointTripRequest><ojp:Origin><ojp:PlaceRef><StopPointRef>";

pub const ORIGIN_END: &[u8] = b"</ojp:DepArrTime></ojp:Origin>";

pub const MULTI_ASK_END: &[u8] = b"</ojp:OJPMultiPointTripRequest>";

pub const TARGET_START: &[u8] = b"<ojp:Destination><ojp:PlaceRef><StopPointRef>";

pub const TARGET_END: &[u8] = b"</StopPointRef></ojp:PlaceRef></ojp:Destination>";

pub const EVENT_ASK_START: &[u8] =
    b"<ojp:OJPStopEventRequest><ojp:Location><ojp:PlaceRef><StopPointRef>";

pub const TIME_NUMBER: &[u8] = b"</ojp:DepArrTime></ojp:Location><ojp:Params><ojp:NumberOfResults>";

pub const DEPARTURE_END: &[u8] =
    b"</ojp:NumberOfResults><ojp:StopEventType>departure</ojp:StopEventType></ojp:Params></ojp:OJPStopEventRequest>";

pub const ARRIVAL_END: &[u8] =
    b"</ojp:NumberOfResults><ojp:StopEventType>arrival</ojp:StopEventType></ojp:Params></ojp:OJPStopEventRequest>";

pub const POINTS_ASK_START: &[u8] = b"<ojp:OJPExchangePointsRequest>";

pub const POINTS_ASK_END: &[u8] = b"</ojp:OJPExchangePointsRequest>";

pub const POINTS_PLACE_START: &[u8] = b"<ojp:OJPExchangePointsRequest><ojp:PlaceRef><StopPointRef>";

pub const POINTS_PLACE_END: &[u8] =
    b"</StopPointRef></ojp:PlaceRef></ojp:OJPExchangePointsRequest>";

// Trips

pub const TRIP_START: &[u8] = b"<ojp:Trip><ojp:Duration>PT";

pub const DURATION_TIME: &[u8] = b"S</ojp:Duration><ojp:StartTime>";

pub const START_END: &[u8] = b"</ojp:StartTime><ojp:EndTime>";

pub const END_TRANSFERS: &[u8] = b"</ojp:EndTime><ojp:Transfers>";

pub const TRANSFERS_END: &[u8] = b"</ojp:Transfers>";

pub const TRIP_END: &[u8] = b"</ojp:Trip>";

pub const LEG_START: &[u8] = b"<ojp:TripLeg><ojp:TimedLeg><ojp:LegBoard><StopPointRef>";

pub const STOP_NAME: &[u8] = b"</StopPointRef><ojp:StopPointName>";

pub const NAME_TIME: &[u8] = b"</ojp:StopPointName><ojp:TimetabledTime>";

pub const BOARD_ALIGHT: &[u8] =
    b"</ojp:TimetabledTime></ojp:LegBoard><ojp:LegAlight><StopPointRef>";

pub const ALIGHT_SERVICE: &[u8] =
    b"</ojp:TimetabledTime></ojp:LegAlight><ojp:Service><ojp:OperatingDayRef>";

pub const DAY_JOURNEY: &[u8] = b"</ojp:OperatingDayRef><ojp:JourneyRef>";

pub const JOURNEY_LINE: &[u8] = b"</ojp:JourneyRef><LineRef>";

pub const LINE_REGION: &[u8] = b"</LineRef><ojp:OperatorRef>";

pub const LEG_END: &[u8] = b"</ojp:OperatorRef></ojp:Service></ojp:TimedLeg></ojp:TripLeg>";

// Faults

pub const SAME_STOP_START: &[u8] = b"<ErrorCondition><ojp:Code>SAME_STOP</ojp:Code><ojp:Subject>";

pub const STOP_UNKNOWN_START: &[u8] =
    b"<ErrorCondition><ojp:Code>STOP_UNKNOWN</ojp:Code><ojp:Subject>";

pub const NO_TRIP_START: &[u8] = b"<ErrorCondition><ojp:Code>NO_TRIP</ojp:Code><ojp:Subject>";

pub const REGION_FAILED_START: &[u8] =
    b"<ErrorCondition><ojp:Code>REGION_FAILED</ojp:Code><ojp:Subject>";

pub const FAULT_END: &[u8] = b"</ojp:Subject></ErrorCondition>";

pub const NOT_SERVED_FAULT: &[u8] =
    b"<ErrorCondition><ojp:Code>NOT_SERVED</ojp:Code></ErrorCondition>";

// Deliveries

pub const TRIP_DELIVERY_START: &[u8] = b"<ojp:OJPTripDelivery>";

pub const TRIP_DELIVERY_END: &[u8] = b"</ojp:OJPTripDelivery>";

pub const TRIP_RESULT_START: &[u8] = b"<ojp:OJPTripDelivery><ojp:TripResult>";

pub const TRIP_RESULT_END: &[u8] = b"</ojp:TripResult></ojp:OJPTripDelivery>";

pub const MULTI_DELIVERY_START: &[u8] = b"<ojp:OJPMultiPointTripDelivery>";

pub const MULTI_DELIVERY_END: &[u8] = b"</ojp:OJPMultiPointTripDelivery>";

pub const RESULT_START: &[u8] = b"<ojp:MultiPointTripResult>";

pub const RESULT_END: &[u8] = b"</ojp:MultiPointTripResult>";

pub const RESULT_NO_TRIP: &[u8] =
    b"<ojp:MultiPointTripResult><ErrorCondition><ojp:Code>NO_TRIP</ojp:Code><ojp:Subject>";

pub const RESULT_NO_TRIP_END: &[u8] = b"</ojp:Subject></ErrorCondition></ojp:MultiPointTripResult>";

pub const EVENTS_START: &[u8] = b"<ojp:OJPStopEventDelivery>";

pub const EVENTS_END: &[u8] = b"</ojp:OJPStopEventDelivery>";

pub const EVENT_START: &[u8] = b"<ojp:StopEventResult><StopPointRef>";

pub const STOP_ORDER: &[u8] = b"</StopPointRef><ojp:Order>";

pub const ORDER_TIME: &[u8] = b"</ojp:Order><ojp:TimetabledTime>";

pub const TIME_SERVICE: &[u8] = b"</ojp:TimetabledTime><ojp:Service><ojp:OperatingDayRef>";

pub const EVENT_END: &[u8] = b"</ojp:OperatorRef></ojp:Service></ojp:StopEventResult>";

pub const POINTS_START: &[u8] = b"<ojp:OJPExchangePointsDelivery>";

pub const POINTS_END: &[u8] = b"</ojp:OJPExchangePointsDelivery>";

pub const POINT_START: &[u8] = b"<ojp:ExchangePoint><ojp:OperatorRef>";

pub const REGION_STOP: &[u8] = b"</ojp:OperatorRef><StopPointRef>";

pub const STOP_CHANGE: &[u8] = b"</StopPointRef><ojp:TransferDuration>PT";

pub const CHANGE_END: &[u8] = b"S</ojp:TransferDuration>";

pub const POINT_END: &[u8] = b"</ojp:ExchangePoint>";

pub const NEIGHBOUR_START: &[u8] = b"<ojp:Neighbour><ojp:OperatorRef>";

pub const CODE_CHANGE: &[u8] = b"</ojp:OperatorRef><ojp:TransferDuration>PT";

pub const NEIGHBOUR_END: &[u8] = b"S</ojp:TransferDuration></ojp:Neighbour>";

// Bodies

/// Passes over a fixed run of texts at the front of what is left to read: each is taken by `pass`, and
/// where one is not there the body ends as `?` ends it.
#[macro_export]
macro_rules! take_tag {
    ($left:expr; $($text:expr),+ $(,)?) => {
        $($left.pass($text)?;)+
    };
}

/// Writes a fixed run, markup texts and the fields between them, in one call of a function that takes a
/// sink and parts.
#[macro_export]
macro_rules! put_tag {
    ($put:path, $sink:expr; $($part:expr),+ $(,)?) => {
        $put($sink, &[$($part),+])
    };
}
