// How the wire waits and serves many clients at once, and when it looks at a watched file: short waits of some tens of
// milliseconds. No time is measured, but that failing tries take some at least.
// One thread is client and server.
use crate::burst::answers_burst;
use crate::flaky::Flaky;
use crate::folder::Folder;
use crate::talk::{Step, Talk, take_talk};
use std::test::Fail;
use std::time::{Duration, Instant};
use tcp_wire::Waits;

// Nothing that a talk waits for in vain takes longer than this many milliseconds.
const SHORT: Waits = Waits {
    idle: 60,
    stall: 60,
};

// What ends within these waits has another reason.
const LONG: Waits = Waits {
    idle: 600_000,
    stall: 600_000,
};

// Those of the talks with a watched file.
const WATCHED: Waits = Waits {
    idle: 5_000,
    stall: 10_000,
};

const REQUEST: &[u8] = b"POST / HTTP/1.1\r\n\r\n";

const REFUSAL: &[u8] = b"HTTP/1.1 405 Method Not Allowed\r\nConnection: close\r\n\r\n";

const TALKS: &[Talk] = &[
    // The time of the silent one is over while the other is idle after its reply.
    Talk {
        name: "a client that sends nothing is let go",
        waits: SHORT,
        steps: &[
            Step::Listen(2),
            Step::Connect(2),
            Step::Send(1, b"a request"),
            Step::Opened(1),
            Step::Piece(1, b"a request"),
            Step::Reply(1, b"a reply"),
            Step::Lost(1),
            Step::Take(0, b""),
        ],
    },
    Talk {
        name: "a client whose input ends is opened",
        waits: LONG,
        steps: &[
            Step::Listen(1),
            Step::Connect(1),
            Step::End(0),
            Step::Opened(1),
            Step::Ended(1),
            Step::Close(1),
            Step::Done,
        ],
    },
    Talk {
        name: "a client that sends half a head is lost",
        waits: SHORT,
        steps: &[
            Step::Listen(1),
            Step::Connect(1),
            Step::Send(0, b"GET / HT"),
            Step::Opened(1),
            Step::Piece(1, b"GET / HT"),
            Step::Lost(1),
            Step::Done,
        ],
    },
    Talk {
        name: "a client that is idle after a reply is lost",
        waits: SHORT,
        steps: &[
            Step::Listen(1),
            Step::Connect(1),
            Step::Send(0, b"a request"),
            Step::Opened(1),
            Step::Piece(1, b"a request"),
            Step::Reply(1, b"a reply"),
            Step::Lost(1),
            Step::Take(0, b"a reply"),
        ],
    },
    // 521 pieces of a byte each come, and no other.
    Talk {
        name: "a client that sends a byte at a time is lost",
        waits: LONG,
        steps: &[
            Step::Listen(1),
            Step::Connect(1),
            Step::Send(0, b"x"),
            Step::Opened(1),
            Step::Piece(1, b"x"),
            Step::Pieces(520, 0, 1),
            Step::Send(0, b"x"),
            Step::Lost(1),
            Step::Done,
        ],
    },
    // Each byte comes within the wait, and all of them too slowly: the wire doesn't wait for the end of the 521 pieces.
    Talk {
        name: "a client that sends a byte now and then is lost",
        waits: SHORT,
        steps: &[
            Step::Listen(1),
            Step::Connect(1),
            Step::Send(0, b"x"),
            Step::Opened(1),
            Step::Piece(1, b"x"),
            Step::Drip(0, 1),
            Step::Done,
        ],
    },
    // A reply lets as many more come.
    Talk {
        name: "pieces are counted from the last reply on",
        waits: LONG,
        steps: &[
            Step::Listen(1),
            Step::Connect(1),
            Step::Send(0, b"x"),
            Step::Opened(1),
            Step::Piece(1, b"x"),
            Step::Pieces(300, 0, 1),
            Step::Reply(1, b"a reply"),
            Step::Pieces(300, 0, 1),
            Step::Reply(1, b"a reply"),
            Step::Pieces(300, 0, 1),
            Step::Reply(1, b"a reply"),
            Step::Pieces(1, 0, 1),
        ],
    },
    // A reply that is longer than what the system keeps for a client that reads nothing.
    Talk {
        name: "a client that takes no reply is lost",
        waits: SHORT,
        steps: &[
            Step::Listen(1),
            Step::Connect(1),
            Step::Send(0, b"a request"),
            Step::Opened(1),
            Step::Piece(1, b"a request"),
            Step::LongReply(1, 33_554_432),
            Step::Lost(1),
            Step::ReplyFails(1, b"x"),
            Step::Done,
        ],
    },
    Talk {
        name: "a client that takes no reply holds up no other",
        waits: LONG,
        steps: &[
            Step::Listen(2),
            Step::Connect(2),
            Step::Send(0, b"a request"),
            Step::Opened(1),
            Step::Piece(1, b"a request"),
            Step::LongReply(1, 33_554_432),
            Step::Close(1),
            Step::Send(1, b"another"),
            Step::Opened(2),
            Step::Piece(2, b"another"),
            Step::Reply(2, b"a reply"),
            Step::Close(2),
            Step::Take(1, b"a reply"),
        ],
    },
    // All of its 32 MiB.
    Talk {
        name: "a client takes a long reply while another one is heard",
        waits: LONG,
        steps: &[
            Step::Listen(2),
            Step::Connect(2),
            Step::Send(0, b"a request"),
            Step::Send(1, b"x"),
            Step::Opened(1),
            Step::Piece(1, b"a request"),
            Step::LongReply(1, 33_554_432),
            Step::Close(1),
            Step::Opened(2),
            Step::Piece(2, b"x"),
            Step::TakeAside(512, 0, 65_536, 1, 2),
            Step::Take(0, b""),
            Step::Reply(2, b"a reply"),
            Step::Finish,
            Step::Take(1, b"a reply"),
        ],
    },
    Talk {
        name: "half a head holds up no other client",
        waits: LONG,
        steps: &[
            Step::Listen(2),
            Step::Connect(2),
            Step::Send(0, b"GET / HT"),
            Step::Opened(1),
            Step::Piece(1, b"GET / HT"),
            Step::Send(1, b"a request"),
            Step::Opened(2),
            Step::Piece(2, b"a request"),
            Step::Reply(2, b"a reply"),
            Step::Close(2),
            Step::Take(1, b"a reply"),
            Step::Send(0, b"TP/1.1"),
            Step::Piece(1, b"TP/1.1"),
        ],
    },
    // One head a turn.
    Talk {
        name: "requests that are sent at once take turns with those of others",
        waits: LONG,
        steps: &[
            Step::Listen(2),
            Step::Connect(2),
            Step::Send(0, b"one\n\ntwo\n\nthree\n\n"),
            Step::Send(1, b"four\n\n"),
            Step::Opened(1),
            Step::Piece(1, b"one\n\n"),
            Step::Opened(2),
            Step::Piece(2, b"four\n\n"),
            Step::Piece(1, b"two\n\n"),
            Step::Piece(1, b"three\n\n"),
        ],
    },
    // The silent one is opened once it sends something.
    Talk {
        name: "a silent client holds up no other",
        waits: LONG,
        steps: &[
            Step::Listen(2),
            Step::Connect(2),
            Step::Send(1, b"a request"),
            Step::Opened(1),
            Step::Piece(1, b"a request"),
            Step::Close(1),
            Step::Send(0, b"a late one"),
            Step::Opened(2),
            Step::Piece(2, b"a late one"),
            Step::Reply(2, b"a reply"),
            Step::Close(2),
            Step::Take(0, b"a reply"),
            Step::Done,
        ],
    },
    Talk {
        name: "a hundred silent clients hold up no other",
        waits: LONG,
        steps: &[
            Step::Listen(2),
            Step::Connect(101),
            Step::Send(100, b"a request"),
            Step::Opened(1),
            Step::Piece(1, b"a request"),
            Step::Close(1),
            Step::Send(0, b"a late one"),
            Step::Opened(2),
            Step::Piece(2, b"a late one"),
        ],
    },
    // At most 128 are open at once: two more wait until those that have sent nothing for three seconds are let go.
    Talk {
        name: "silent clients make room for those that wait",
        waits: LONG,
        steps: &[
            Step::Listen(2),
            Step::Connect(130),
            Step::Send(129, b"a request"),
            Step::Opened(1),
            Step::Piece(1, b"a request"),
            Step::Take(0, b""),
        ],
    },
    // Those that have sent something are opened in the order in which they came.
    Talk {
        name: "clients are opened in turn",
        waits: LONG,
        steps: &[
            Step::Listen(3),
            Step::Connect(3),
            Step::Send(2, b"the second"),
            Step::Send(1, b"the first"),
            Step::Opened(1),
            Step::Piece(1, b"the first"),
            Step::Close(1),
            Step::Opened(2),
            Step::Piece(2, b"the second"),
        ],
    },
    Talk {
        name: "a client that is idle after a reply holds up no other",
        waits: LONG,
        steps: &[
            Step::Listen(2),
            Step::Connect(1),
            Step::Send(0, b"a request"),
            Step::Opened(1),
            Step::Piece(1, b"a request"),
            Step::Reply(1, b"a reply"),
            Step::Connect(1),
            Step::Send(1, b"a request"),
            Step::Opened(2),
            Step::Piece(2, b"a request"),
            Step::Reply(2, b"a reply"),
            Step::Send(0, b"one more"),
            Step::Piece(1, b"one more"),
        ],
    },
    // Where no more connections are taken, an idle one keeps its place until its time is over.
    Talk {
        name: "no more clients are taken than asked for",
        waits: SHORT,
        steps: &[
            Step::Listen(1),
            Step::Connect(2),
            Step::Send(0, b"a request"),
            Step::Opened(1),
            Step::Piece(1, b"a request"),
            Step::Reply(1, b"a reply"),
            Step::Send(1, b"a request"),
            Step::Lost(1),
            Step::Done,
            Step::Done,
        ],
    },
    // The client goes on to send its request of so many bytes, and then reads. A reset would fail one or the other.
    Talk {
        name: "a client that is refused before 0 more bytes gets the reply",
        waits: LONG,
        steps: &[
            Step::Listen(1),
            Step::Connect(1),
            Step::Send(0, REQUEST),
            Step::Opened(1),
            Step::Piece(1, REQUEST),
            Step::SendMany(0, 0),
            Step::Reply(1, REFUSAL),
            Step::Close(1),
            Step::Take(0, REFUSAL),
        ],
    },
    Talk {
        name: "a client that is refused before 1 more bytes gets the reply",
        waits: LONG,
        steps: &[
            Step::Listen(1),
            Step::Connect(1),
            Step::Send(0, REQUEST),
            Step::Opened(1),
            Step::Piece(1, REQUEST),
            Step::SendMany(0, 1),
            Step::Reply(1, REFUSAL),
            Step::Close(1),
            Step::Take(0, REFUSAL),
        ],
    },
    Talk {
        name: "a client that is refused before 100,000 more bytes gets the reply",
        waits: LONG,
        steps: &[
            Step::Listen(1),
            Step::Connect(1),
            Step::Send(0, REQUEST),
            Step::Opened(1),
            Step::Piece(1, REQUEST),
            Step::SendMany(0, 100_000),
            Step::Reply(1, REFUSAL),
            Step::Close(1),
            Step::Take(0, REFUSAL),
        ],
    },
    Talk {
        name: "a client that is refused and goes on sending holds up no other",
        waits: LONG,
        steps: &[
            Step::Listen(2),
            Step::Connect(2),
            Step::Send(0, REQUEST),
            Step::Opened(1),
            Step::Piece(1, REQUEST),
            Step::SendMany(0, 100_000),
            Step::Reply(1, REFUSAL),
            Step::Close(1),
            Step::Send(1, b"a request"),
            Step::Opened(2),
            Step::Piece(2, b"a request"),
            Step::SendMany(0, 100_000),
            Step::Reply(2, b"a reply"),
            Step::Close(2),
            Step::Take(0, REFUSAL),
            Step::Take(1, b"a reply"),
        ],
    },
    Talk {
        name: "only connections that are open are sent to and closed",
        waits: LONG,
        steps: &[
            Step::Listen(1),
            Step::Connect(1),
            Step::ReplyFails(1, b"x"),
            Step::Send(0, b"a request"),
            Step::Opened(1),
            Step::Piece(1, b"a request"),
            Step::ReplyFails(2, b"x"),
            Step::Close(2),
            Step::Reply(1, b"a reply"),
            Step::Close(1),
            Step::ReplyFails(1, b"x"),
            Step::Take(0, b"a reply"),
            Step::Done,
        ],
    },
    // The wire looks at the file when the next client has come.
    Talk {
        name: "a watched file gives a change where it has changed",
        waits: WATCHED,
        steps: &[
            Step::Write(b"one"),
            Step::Listen(8),
            Step::Watch(1),
            Step::Come,
            Step::Go(1),
            Step::Come,
            Step::Change(b"one"),
            Step::Go(2),
            // As it was: no change comes.
            Step::Come,
            Step::Go(3),
            Step::Write(b"two"),
            Step::Come,
            Step::Change(b"two"),
            Step::Go(4),
            // Gone: no change comes, nor where it is there again as it was.
            Step::Remove,
            Step::Come,
            Step::Go(5),
            Step::Write(b"two"),
            Step::Come,
            Step::Go(6),
        ],
    },
    Talk {
        name: "a watched file is looked at after each so many connections",
        waits: WATCHED,
        steps: &[
            Step::Write(b"one"),
            Step::Listen(8),
            Step::Watch(2),
            Step::Come,
            Step::Go(1),
            Step::Come,
            Step::Go(2),
            Step::Come,
            Step::Change(b"one"),
            Step::Go(3),
            Step::Write(b"two"),
            Step::Come,
            Step::Go(4),
            Step::Come,
            Step::Change(b"two"),
            Step::Go(5),
        ],
    },
    // As an editor does.
    Talk {
        name: "a file that is renamed over a watched one gives a change",
        waits: WATCHED,
        steps: &[
            Step::Write(b"one"),
            Step::Listen(4),
            Step::Watch(1),
            Step::Come,
            Step::Go(1),
            Step::Come,
            Step::Change(b"one"),
            Step::Go(2),
            Step::Replace(b"two"),
            Step::Come,
            Step::Change(b"two"),
            Step::Go(3),
            Step::Remove,
            Step::Replace(b"one"),
            Step::Come,
            Step::Change(b"one"),
            Step::Go(4),
        ],
    },
    // It is cut, and then written anew by and by.
    Talk {
        name: "a watched file that is half-written gives no change",
        waits: WATCHED,
        steps: &[
            Step::Write(b"one, two"),
            Step::Listen(6),
            Step::Watch(1),
            Step::Come,
            Step::Go(1),
            Step::Come,
            Step::Change(b"one, two"),
            Step::Go(2),
            Step::Write(b""),
            Step::Come,
            Step::Go(3),
            Step::Write(b"one"),
            Step::Come,
            Step::Go(4),
            Step::Write(b"one, four"),
            Step::Come,
            Step::Change(b"one, four"),
            Step::Go(5),
        ],
    },
];

#[test]
fn each_talk_goes_by_its_steps(rt: HostRuntime) -> Result<(), Fail> {
    let folder = Folder::fresh(&rt, "talks")?;
    let path = folder.path(rt.alloc(), "d.ddl")?;
    for talk in TALKS {
        take_talk(&rt, &rt, path.as_str(), talk)?;
    }
    folder.remove(&rt)
}

// So many clients connect at once, of which 128 are open at a time.
const BURST: usize = 300;

#[test]
fn a_burst_of_clients_is_answered(rt: HostRuntime) -> Result<(), Fail> {
    if answers_burst(&rt, BURST) {
        Ok(())
    } else {
        Err(Fail::new("a client has no reply"))
    }
}

// A talk over a system whose listener takes so many connections, and then fails so often before it takes another one.
struct FlakyTalk {
    taking: u32,
    failing: u32,
    talk: Talk,
}

const OPENED: &[Step] = &[
    Step::Listen(1),
    Step::Connect(1),
    Step::Send(0, b"a request"),
    Step::Opened(1),
];

const NOT_OPENED: &[Step] = &[
    Step::Listen(1),
    Step::Connect(1),
    Step::Send(0, b"a request"),
    Step::NotOpened(1),
];

// The third client waits while there is no room for it, and is opened once there is. Those that are open go on.
const OPENED_LATER: &[Step] = &[
    Step::Listen(3),
    Step::Connect(3),
    Step::Send(0, b"a request"),
    Step::Send(1, b"another"),
    Step::Send(2, b"a third"),
    Step::Opened(1),
    Step::Piece(1, b"a request"),
    Step::Opened(2),
    Step::Piece(2, b"another"),
    Step::Reply(1, b"a reply"),
    Step::Send(0, b"one more"),
    Step::Piece(1, b"one more"),
    Step::Opened(3),
    Step::Piece(3, b"a third"),
];

const FLAKY_TALKS: &[FlakyTalk] = &[
    FlakyTalk {
        taking: 0,
        failing: 0,
        talk: Talk {
            name: "opened",
            waits: LONG,
            steps: OPENED,
        },
    },
    FlakyTalk {
        taking: 0,
        failing: 1,
        talk: Talk {
            name: "opened after a failure",
            waits: LONG,
            steps: OPENED,
        },
    },
    FlakyTalk {
        taking: 0,
        failing: 99,
        talk: Talk {
            name: "opened after 99 failures",
            waits: LONG,
            steps: OPENED,
        },
    },
    FlakyTalk {
        taking: 0,
        failing: 100,
        talk: Talk {
            name: "not opened after 100 failures",
            waits: LONG,
            steps: NOT_OPENED,
        },
    },
    FlakyTalk {
        taking: 2,
        failing: 30,
        talk: Talk {
            name: "opened after 30 failures, while others are open",
            waits: LONG,
            steps: OPENED_LATER,
        },
    },
];

// How long a failing try is followed by none at least, in milliseconds. The wire waits ten.
const PAUSE: u64 = 5;

// Between two tries the loop waits: so many failures take their time.
#[test]
fn a_failing_accept_is_repeated_after_a_pause(rt: HostRuntime) -> Result<(), Fail> {
    for row in FLAKY_TALKS {
        let flaky = Flaky {
            system: &rt,
            taking: row.taking,
            failing: row.failing,
            ahead: Duration::ZERO,
        };
        let begun = Instant::now(&rt)?;
        take_talk(&rt, &flaky, "", &row.talk)?;
        let least = Duration::from_millis(PAUSE * u64::from(row.failing));
        assert!(rt; begun.elapsed(&rt)? >= least, "{}: it spins", row.talk.name);
    }
    Ok(())
}

// By this clock each file was changed so many seconds ago at least.
const LATER: u64 = 3_600;

const CUT: Talk = Talk {
    name: "a watched file that stays cut gives a change",
    waits: WATCHED,
    steps: &[
        Step::Write(b"one, two"),
        Step::Listen(4),
        Step::Watch(1),
        Step::Come,
        Step::Go(1),
        Step::Come,
        Step::Change(b"one, two"),
        Step::Go(2),
        Step::Come,
        Step::Go(3),
        Step::Write(b"one"),
        Step::Come,
        Step::Change(b"one"),
        Step::Go(4),
    ],
};

#[test]
fn a_file_that_stays_cut_gives_a_change(rt: HostRuntime) -> Result<(), Fail> {
    let folder = Folder::fresh(&rt, "cut")?;
    let path = folder.path(rt.alloc(), "d.ddl")?;
    let flaky = Flaky {
        system: &rt,
        taking: 0,
        failing: 0,
        ahead: Duration::from_secs(LATER),
    };
    take_talk(&rt, &flaky, path.as_str(), &CUT)?;
    folder.remove(&rt)
}
