// Scripts with their events, and their refusals.
use crate::inputs::check_row;
use script_reader::read_script;
use std::alloc::Global;
use std::test::Fail;
use token_reader::TextRefusal;
use wire::WireEvent;

// What a script gives.
enum Answer {
    // The first is opened, has a line of its own, the second is lost, and the first ends.
    Events,
    NoEvents,
    Refused(TextRefusal),
}

// A script, the most bytes that it may have, and what it gives.
struct ScriptRow {
    text: &'static [u8],
    limit: u64,
    answer: Answer,
}

const SCRIPTS: &[ScriptRow] = &[
    ScriptRow {
        text: b"open 1 // first\nbytes 1 \"\" bytes 1 \"GET\\r\\n\" lost 2 end 01",
        limit: 100,
        answer: Answer::Events,
    },
    ScriptRow {
        text: b"",
        limit: 0,
        answer: Answer::NoEvents,
    },
    ScriptRow {
        text: b"open 1",
        limit: 5,
        answer: Answer::Refused(TextRefusal::TooLong(5)),
    },
    ScriptRow {
        text: b"open 0",
        limit: 9,
        answer: Answer::Refused(TextRefusal::Expected(5)),
    },
    ScriptRow {
        text: b"end -1",
        limit: 9,
        answer: Answer::Refused(TextRefusal::Expected(4)),
    },
    ScriptRow {
        text: b"open 1 done",
        limit: 99,
        answer: Answer::Refused(TextRefusal::Expected(7)),
    },
    ScriptRow {
        text: b"bytes 1",
        limit: 9,
        answer: Answer::Refused(TextRefusal::Expected(7)),
    },
    ScriptRow {
        text: b"bytes 1 \"a",
        limit: 99,
        answer: Answer::Refused(TextRefusal::OpenString(8)),
    },
    ScriptRow {
        text: b"open ?",
        limit: 9,
        answer: Answer::Refused(TextRefusal::BadByte(5)),
    },
    ScriptRow {
        text: b"open 99999999999999999999",
        limit: 99,
        answer: Answer::Refused(TextRefusal::IntOutOfRange(5)),
    },
];

// Whether these are the events of a script that has some.
fn are_events(events: &[WireEvent]) -> bool {
    match events {
        [
            WireEvent::Opened(1),
            WireEvent::Bytes(1, piece),
            WireEvent::Lost(2),
            WireEvent::Ended(1),
        ] => piece.bytes() == b"GET\r\n".as_slice(),
        _ => false,
    }
}

// Whether the script gives what its row says.
fn is_answered(alloc: Global, row: &ScriptRow) -> bool {
    match (read_script(alloc, row.text, row.limit), &row.answer) {
        (Ok(events), Answer::Events) => are_events(&events),
        (Ok(events), Answer::NoEvents) => events.is_empty(),
        (Err(found), Answer::Refused(wanted)) => found == *wanted,
        _ => false,
    }
}

#[test]
fn each_script_has_its_events_or_its_refusal(rt: HostRuntime) -> Result<(), Fail> {
    for row in SCRIPTS {
        check_row(is_answered(rt.alloc(), row), row.text)?;
    }
    Ok(())
}
