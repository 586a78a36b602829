//! The markup texts of the documents.
#![tactic(auto)]

ghost use Rattle.std.specs.Prelude.{◌≡◌, IsTrue};
ghost use Rattle.ojp_tables.specs.Markup.{MARKUP_TEXTS, ELEMENTS, are_numbered};
ghost use Rattle.ojp_tables.specs.Texts.{is_prefix_free};

use crate::table::Table;

/// The 99 markup texts: the head, the end, the opening and closing text of each element, and the error codes.
pub const MARKUP: Table<99> = Table {
    texts: &[
        b"<?xml version=\"1.0\" encoding=\"UTF-8\"?><OJP xmlns=\"http://www.siri.org.uk/siri\" xmlns:ojp=\"http://www.vdv.de/ojp\" version=\"1.0\">",
        b"</OJP>",
        b"<OJPRequest>",
        b"</OJPRequest>",
        b"<ServiceRequest>",
        b"</ServiceRequest>",
        b"<OJPResponse>",
        b"</OJPResponse>",
        b"<ServiceDelivery>",
        b"</ServiceDelivery>",
        b"<ojp:OJPTripRequest>",
        b"</ojp:OJPTripRequest>",
        b"<ojp:OJPMultiPointTripRequest>",
        b"</ojp:OJPMultiPointTripRequest>",
        b"<ojp:OJPStopEventRequest>",
        b"</ojp:OJPStopEventRequest>",
        b"<ojp:OJPExchangePointsRequest>",
        b"</ojp:OJPExchangePointsRequest>",
        b"<ojp:OJPTripDelivery>",
        b"</ojp:OJPTripDelivery>",
        b"<ojp:OJPMultiPointTripDelivery>",
        b"</ojp:OJPMultiPointTripDelivery>",
        b"<ojp:OJPStopEventDelivery>",
        b"</ojp:OJPStopEventDelivery>",
        b"<ojp:OJPExchangePointsDelivery>",
        b"</ojp:OJPExchangePointsDelivery>",
        b"<ojp:Origin>",
        b"</ojp:Origin>",
        b"<ojp:Destination>",
        b"</ojp:Destination>",
        b"<ojp:Location>",
        b"</ojp:Location>",
        b"<ojp:Params>",
        b"</ojp:Params>",
        b"<ojp:PlaceRef>",
        b"</ojp:PlaceRef>",
        b"<StopPointRef>",
        b"</StopPointRef>",
        b"<ojp:DepArrTime>",
        b"</ojp:DepArrTime>",
        b"<ojp:NumberOfResults>",
        b"</ojp:NumberOfResults>",
        b"<ojp:StopEventType>",
        b"</ojp:StopEventType>",
        b"<ojp:TripResult>",
        b"</ojp:TripResult>",
        b"<ojp:MultiPointTripResult>",
        b"</ojp:MultiPointTripResult>",
        b"<ojp:Trip>",
        b"</ojp:Trip>",
        b"<ojp:Duration>",
        b"</ojp:Duration>",
        b"<ojp:StartTime>",
        b"</ojp:StartTime>",
        b"<ojp:EndTime>",
        b"</ojp:EndTime>",
        b"<ojp:Transfers>",
        b"</ojp:Transfers>",
        b"<ojp:TripLeg>",
        b"</ojp:TripLeg>",
        b"<ojp:TimedLeg>",
        b"</ojp:TimedLeg>",
        b"<ojp:LegBoard>",
        b"</ojp:LegBoard>",
        b"<ojp:LegAlight>",
        b"</ojp:LegAlight>",
        b"<ojp:StopPointName>",
        b"</ojp:StopPointName>",
        b"<ojp:TimetabledTime>",
        b"</ojp:TimetabledTime>",
        b"<ojp:Service>",
        b"</ojp:Service>",
        b"<ojp:OperatingDayRef>",
        b"</ojp:OperatingDayRef>",
        b"<ojp:JourneyRef>",
        b"</ojp:JourneyRef>",
        b"<LineRef>",
        b"</LineRef>",
        b"<ojp:OperatorRef>",
        b"</ojp:OperatorRef>",
        b"<ojp:StopEventResult>",
        b"</ojp:StopEventResult>",
        b"<ojp:Order>",
        b"</ojp:Order>",
        b"<ojp:ExchangePoint>",
        b"</ojp:ExchangePoint>",
        b"<ojp:Neighbour>",
        b"</ojp:Neighbour>",
        b"<ojp:TransferDuration>",
        b"</ojp:TransferDuration>",
        b"<ErrorCondition>",
        b"</ErrorCondition>",
        b"<ojp:Subject>",
        b"</ojp:Subject>",
        b"<ojp:Code>SAME_STOP</ojp:Code>",
        b"<ojp:Code>STOP_UNKNOWN</ojp:Code>",
        b"<ojp:Code>NO_TRIP</ojp:Code>",
        b"<ojp:Code>REGION_FAILED</ojp:Code>",
        b"<ojp:Code>NOT_SERVED</ojp:Code>",
    ],
};

/// The table of the 99 texts.
pub fn markup() -> Table<99>
    ensures { result ≡ MARKUP_TEXTS }
{
    MARKUP
}

/// The texts are distinct, and none is a prefix of another.
pub fn markup_is_prefix_free()
    ensures { IsTrue (is_prefix_free MARKUP_TEXTS) }
{}

/// Each element's name is the number of its opening text.
pub fn elements_are_numbered()
    ensures { IsTrue (are_numbered 2 ELEMENTS) }
{}
