// How a vector is spelled out: `@xy` is the columns x to y of a list, `/` CR LF, `#` the line of a message's table, `%HH` a byte.

// Columns a to b of a list, b left out, with the bars between them.
fn columns(list: &[u8], a: usize, b: usize) -> &[u8] {
    let t = turbo::rest_after_bars(list, a);
    let u = turbo::rest_after_bars(list, b);
    if t.len() <= u.len() {
        return &[];
    }
    script_text::front(t, t.len() - u.len() - 1)
}

// The list has a column for each character from `#` on: those of `#` and `/`, A to S the names, a to s the fields.
fn listed(area: &mut [u8], place: usize, first: u8, last: u8) -> usize {
    let all = b"\
        \\TDATEDPASSTIME\r\n||||||||||||\r\n||||||||||||||||||\
        DataOwnerCode|OperationDate|LinePlanningNumber|VehicleJourneyNumber|FortifyOrderNumber|UserStopCode|\
        UserStopOrderNumber|DestinationCode|LastUpdateTimeStamp|TripStopStatus|ExpectedArrivalTime|\
        ExpectedDepartureTime|JourneyStopType|ShowCancelledTrip|ShowFlexibleTrip|Monitored|\
        LocalServiceLevelCode|TargetArrivalTime|TargetDepartureTime||||||||||||||\
        CXX|2016-03-01|A031|122|0|S1|15|CIOS|2016-03-01T15:15:30+01:00|CANCEL|24:10:00|24:10:30|INTERMEDIATE|1|TRUE|0|\
        WEEK|24:05:00|24:05:30|";
    let from = first.wrapping_sub(b'#').into();
    let end = last.wrapping_sub(b'#' - 1).into();
    script_text::append(area, place, columns(all, from, end))
}

// A vector, spelled out from `from` on; the place behind it.
pub fn out(area: &mut [u8], from: usize, vector: &[u8]) -> usize {
    let mut end = from;
    let mut rest = vector;
    // kept: a turn takes one byte or three, so no iterator of the library gives its pieces
    while let [byte, tail @ ..] = rest {
        let (high, low) = (script_text::at(tail, 0), script_text::at(tail, 1));
        let behind = script_text::after(tail, 1);
        (end, rest) = match *byte {
            b'@' => (listed(area, end, high, low), behind),
            b'%' => (
                script_text::pad(area, end, 1, script_text::hex_byte(high, low)),
                behind,
            ),
            b'/' | b'#' => (listed(area, end, *byte, *byte), tail),
            _ => (script_text::pad(area, end, 1, *byte), tail),
        };
    }
    end
}
