//! The numbers of the markup texts, by name.
//!
//! An element's name is the number of its opening text; its closing text has the next number.

/// What every document begins with: the XML declaration and the opening of `OJP`.
pub const HEAD: u8 = 0;

/// What every document ends with.
pub const END: u8 = 1;

/// `OJPRequest`
pub const OJP_REQUEST: u8 = 2;

/// `ServiceRequest`
pub const SERVICE_REQUEST: u8 = 4;

/// `OJPResponse`
pub const OJP_RESPONSE: u8 = 6;

/// `ServiceDelivery`
pub const SERVICE_DELIVERY: u8 = 8;

/// `ojp:OJPTripRequest`
pub const OJP_TRIP_REQUEST: u8 = 10;

/// `ojp:OJPMultiPointTripRequest`
pub const OJP_MULTI_POINT_TRIP_REQUEST: u8 = 12;

/// `ojp:OJPStopEventRequest`
pub const OJP_STOP_EVENT_REQUEST: u8 = 14;

/// `ojp:OJPExchangePointsRequest`
pub const OJP_EXCHANGE_POINTS_REQUEST: u8 = 16;

/// `ojp:OJPTripDelivery`
pub const OJP_TRIP_DELIVERY: u8 = 18;

/// `ojp:OJPMultiPointTripDelivery`
pub const OJP_MULTI_POINT_TRIP_DELIVERY: u8 = 20;

/// `ojp:OJPStopEventDelivery`
pub const OJP_STOP_EVENT_DELIVERY: u8 = 22;

/// `ojp:OJPExchangePointsDelivery`
pub const OJP_EXCHANGE_POINTS_DELIVERY: u8 = 24;

/// `ojp:Origin`
pub const ORIGIN: u8 = 26;

/// `ojp:Destination`
pub const DESTINATION: u8 = 28;

/// `ojp:Location`
pub const LOCATION: u8 = 30;

/// `ojp:Params`
pub const PARAMS: u8 = 32;

/// `ojp:PlaceRef`
pub const PLACE_REF: u8 = 34;

/// `StopPointRef`
pub const STOP_POINT_REF: u8 = 36;

/// `ojp:DepArrTime`
pub const DEP_ARR_TIME: u8 = 38;

/// `ojp:NumberOfResults`
pub const NUMBER_OF_RESULTS: u8 = 40;

/// `ojp:StopEventType`
pub const STOP_EVENT_TYPE: u8 = 42;

/// `ojp:TripResult`
pub const TRIP_RESULT: u8 = 44;

/// `ojp:MultiPointTripResult`
pub const MULTI_POINT_TRIP_RESULT: u8 = 46;

/// `ojp:Trip`
pub const TRIP: u8 = 48;

/// `ojp:Duration`
pub const DURATION: u8 = 50;

/// `ojp:StartTime`
pub const START_TIME: u8 = 52;

/// `ojp:EndTime`
pub const END_TIME: u8 = 54;

/// `ojp:Transfers`
pub const TRANSFERS: u8 = 56;

/// `ojp:TripLeg`
pub const TRIP_LEG: u8 = 58;

/// `ojp:TimedLeg`
pub const TIMED_LEG: u8 = 60;

/// `ojp:LegBoard`
pub const LEG_BOARD: u8 = 62;

/// `ojp:LegAlight`
pub const LEG_ALIGHT: u8 = 64;

/// `ojp:StopPointName`
pub const STOP_POINT_NAME: u8 = 66;

/// `ojp:TimetabledTime`
pub const TIMETABLED_TIME: u8 = 68;

/// `ojp:Service`
pub const SERVICE: u8 = 70;

/// `ojp:OperatingDayRef`
pub const OPERATING_DAY_REF: u8 = 72;

/// `ojp:JourneyRef`
pub const JOURNEY_REF: u8 = 74;

/// `LineRef`
pub const LINE_REF: u8 = 76;

/// `ojp:OperatorRef`
pub const OPERATOR_REF: u8 = 78;

/// `ojp:StopEventResult`
pub const STOP_EVENT_RESULT: u8 = 80;

/// `ojp:Order`
pub const ORDER: u8 = 82;

/// `ojp:ExchangePoint`
pub const EXCHANGE_POINT: u8 = 84;

/// `ojp:Neighbour`
pub const NEIGHBOUR: u8 = 86;

/// `ojp:TransferDuration`
pub const TRANSFER_DURATION: u8 = 88;

/// `ErrorCondition`
pub const ERROR_CONDITION: u8 = 90;

/// `ojp:Subject`
pub const SUBJECT: u8 = 92;

/// The error code SAME_STOP: the origin is the target.
pub const SAME_STOP: u8 = 94;

/// The error code STOP_UNKNOWN: a stop that no region knows.
pub const STOP_UNKNOWN: u8 = 95;

/// The error code NO_TRIP: no trip reaches the target.
pub const NO_TRIP: u8 = 96;

/// The error code REGION_FAILED: a region failed.
pub const REGION_FAILED: u8 = 97;

/// The error code NOT_SERVED: the service is not offered here.
pub const NOT_SERVED: u8 = 98;
