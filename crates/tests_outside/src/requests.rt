// Heads, and the requests that are read from them.
use crate::inputs::{Repeated, are_same, repeated_text};
use http_reply::Reading;
use http_spec::{ParsedRequest, RequestKind};
use sd_value::{NoMemory, Str};
use std::alloc::Global;
use std::test::Fail;

// A request by its kind, whether its reply has no body, and whether the connection closes after it.
macro_rules! request {
    ($kind:ident, $no_body:literal, $close:literal) => {
        ParsedRequest {
            kind: RequestKind::$kind,
            no_body: $no_body,
            close: $close,
        }
    };
}

/// A page, on a connection that stays open.
pub const GET: ParsedRequest = request!(Get, false, false);

const GET_AND_CLOSE: ParsedRequest = request!(Get, false, true);

/// The head alone, on a connection that stays open.
pub const HEAD: ParsedRequest = request!(Head, true, false);

const HEAD_AND_CLOSE: ParsedRequest = request!(Head, true, true);

/// A bad request.
pub const BAD: ParsedRequest = request!(BadRequest, false, true);

const BAD_HEAD: ParsedRequest = request!(BadRequest, true, true);

/// A method that is not served.
pub const WRONG: ParsedRequest = request!(WrongMethod, false, true);

/// A request for another host.
pub const MISDIRECTED: ParsedRequest = request!(Misdirected, false, true);

const MISDIRECTED_HEAD: ParsedRequest = request!(Misdirected, true, true);

const HEAD_OF_LETTERS: &[u8] = b"GET / HTTP/1.1\r\nHost: a\r\nX: ";

const HEAD_OF_LINES: &[u8] = b"GET / HTTP/1.1\r\nHost: a\r\n";

// What a reading is fed, of which it takes all, and the request of the head that this ends; or what it has then.
enum Step {
    // The text.
    Feed(&'static [u8], Option<ParsedRequest>),
    // The text with its repeated part.
    FeedRepeated(Repeated<'static>, Option<ParsedRequest>),
    // The bytes one at a time, of which none ends a head.
    FeedBytes(&'static [u8]),
    // It has this target.
    Target(&'static [u8]),
    // At its end the rest is this request.
    End(Option<ParsedRequest>),
}

// What one reading is fed, and the hosts whose requests are answered, if not all are.
struct Script {
    hosts: Option<&'static [u8]>,
    name: &'static str,
    steps: &'static [Step],
}

const SCRIPTS: &[Script] = &[
    Script {
        hosts: None,
        name: "heads",
        steps: &[
            Step::Feed(b"\r\n\n\r\nGET / HTTP/1.1\nhOST:\n\n", Some(GET)),
            Step::Feed(b"GET / HTTP/1.1\r\n\r\n", Some(BAD)),
            Step::Feed(b"GET / HTTP/1.1\r\nHost: a\r\nhost: a\r\n\r\n", Some(BAD)),
            Step::Feed(b"GET / HTTP/1.0\r\n\r\n", Some(GET_AND_CLOSE)),
            Step::Feed(
                b"POST / HTTP/1.1\r\nHost: a\r\nContent-Length: 3\r\n\r\n",
                Some(WRONG),
            ),
            Step::Feed(b"POST / HTTP/1.1\r\n\r\n", Some(BAD)),
            Step::Feed(b"get / HTTP/1.1\r\nHost: a\r\n\r\n", Some(WRONG)),
            Step::Feed(
                b"GET / HTTP/1.1\r\nHost: a\r\nContent-Length: 3\r\n\r\n",
                Some(BAD),
            ),
            Step::Feed(
                b"GET / HTTP/1.1\r\nHost: a\r\nContent-Length:\t0 \r\n\r\n",
                Some(GET),
            ),
            Step::Feed(
                b"GET / HTTP/1.1\r\nHost: a\r\nTransfer-Encoding: x\r\n\r\n",
                Some(BAD),
            ),
            Step::Feed(
                b"HEAD / HTTP/1.1\r\nHost: a\r\nConnection: x , CLOSE\t\r\n\r\n",
                Some(HEAD_AND_CLOSE),
            ),
            Step::Feed(
                b"HEAD / HTTP/1.1\r\nHost: a\r\nConnection: xclose\r\n\r\n",
                Some(HEAD),
            ),
            Step::Feed(b"HEAD / HTTP/1.1\r\n\r\n", Some(BAD_HEAD)),
            Step::Feed(b"GET / HTTP/2.0\r\n", Some(BAD)),
            Step::Feed(b"GET / HT", None),
        ],
    },
    Script {
        hosts: Some(b"a,b.example,[::1]"),
        name: "hosts",
        steps: &[
            Step::Feed(b"GET / HTTP/1.1\r\nHost: A:8080\r\n\r\n", Some(GET)),
            Step::Feed(b"GET / HTTP/1.1\r\nhost:\tB.Example \r\n\r\n", Some(GET)),
            Step::Feed(b"GET / HTTP/1.1\r\nHost: [::1]:80\r\n\r\n", Some(GET)),
            Step::Feed(b"GET / HTTP/1.1\r\nHost: a:\r\n\r\n", Some(GET)),
            Step::Feed(b"GET / HTTP/1.0\r\n\r\n", Some(GET_AND_CLOSE)),
            Step::Feed(b"GET / HTTP/1.1\r\nHost: evil\r\n\r\n", Some(MISDIRECTED)),
            Step::Feed(b"GET / HTTP/1.0\r\nHost: evil\r\n\r\n", Some(MISDIRECTED)),
            Step::Feed(b"GET / HTTP/1.1\r\nHost: ab\r\n\r\n", Some(MISDIRECTED)),
            Step::Feed(b"GET / HTTP/1.1\r\nHost: a:8x\r\n\r\n", Some(MISDIRECTED)),
            Step::Feed(
                b"GET / HTTP/1.1\r\nHost: a.b.example\r\n\r\n",
                Some(MISDIRECTED),
            ),
            Step::Feed(
                b"GET / HTTP/1.1\r\nHost: a,b.example\r\n\r\n",
                Some(MISDIRECTED),
            ),
            Step::Feed(b"GET / HTTP/1.1\r\nHost:\r\n\r\n", Some(MISDIRECTED)),
            Step::Feed(
                b"HEAD / HTTP/1.1\r\nHost: evil\r\n\r\n",
                Some(MISDIRECTED_HEAD),
            ),
            Step::Feed(
                b"POST / HTTP/1.1\r\nHost: evil\r\nContent-Length: 3\r\n\r\n",
                Some(MISDIRECTED),
            ),
            Step::Feed(b"POST / HTTP/1.1\r\nHost: a\r\n\r\n", Some(WRONG)),
            Step::Feed(
                b"GET / HTTP/1.1\r\nHost: evil\r\nHost: a\r\n\r\n",
                Some(BAD),
            ),
            Step::Feed(b"GET / HTTP/1.1\r\n\r\n", Some(BAD)),
        ],
    },
    Script {
        hosts: None,
        name: "targets",
        steps: &[
            Step::Feed(
                b"GET /%59earPage/i1998.html?x=1 HTTP/1.1\r\nHost: a\r\n\r\n",
                Some(GET),
            ),
            Step::Target(b"/%59earPage/i1998.html?x=1"),
            Step::Feed(
                b"GET http://a/YearPage/i1998.html HTTP/1.1\r\nHost: a\r\n\r\n",
                Some(GET),
            ),
            Step::Target(b"http://a/YearPage/i1998.html"),
        ],
    },
    Script {
        hosts: None,
        name: "a head byte by byte",
        steps: &[
            Step::FeedBytes(b"GET /YearPage/i1998.html HTTP/1.1\r\nHost: a\r\n\r"),
            Step::Feed(b"\n", Some(GET)),
            Step::Target(b"/YearPage/i1998.html"),
            Step::End(None),
        ],
    },
    Script {
        hosts: None,
        name: "heads of the greatest length and past it",
        steps: &[
            Step::FeedRepeated(
                Repeated {
                    head: HEAD_OF_LETTERS,
                    text: b"z",
                    count: 16352,
                    tail: b"\r\n\r\n",
                },
                Some(GET),
            ),
            Step::FeedRepeated(
                Repeated {
                    head: HEAD_OF_LETTERS,
                    text: b"z",
                    count: 16353,
                    tail: b"\r\n\r\n",
                },
                Some(BAD),
            ),
            Step::FeedRepeated(
                Repeated {
                    head: b"",
                    text: b"A",
                    count: 16384,
                    tail: b"",
                },
                Some(BAD),
            ),
            Step::FeedRepeated(
                Repeated {
                    head: b"",
                    text: b"\n",
                    count: 16384,
                    tail: b"",
                },
                Some(BAD),
            ),
        ],
    },
    Script {
        hosts: None,
        name: "lines beside the Host line, as many as may be and one more",
        steps: &[
            Step::FeedRepeated(
                Repeated {
                    head: HEAD_OF_LINES,
                    text: b"X: y\r\n",
                    count: 63,
                    tail: b"",
                },
                None,
            ),
            Step::Feed(b"\r\n", Some(GET)),
            Step::FeedRepeated(
                Repeated {
                    head: HEAD_OF_LINES,
                    text: b"X: y\r\n",
                    count: 64,
                    tail: b"",
                },
                Some(BAD),
            ),
            Step::Feed(b"\r\n", None),
        ],
    },
    Script {
        hosts: None,
        name: "what is left at the end",
        steps: &[
            Step::Feed(b"GET / HT", None),
            Step::End(Some(BAD)),
            Step::Feed(b"\r\n\r\n", None),
            Step::End(None),
            Step::Feed(b"\r\n\r", None),
            Step::End(Some(BAD)),
            Step::Feed(b"", None),
            Step::End(None),
        ],
    },
];

// Feeds the text. Is all of it taken, and does it end a head of this request?
fn is_fed(
    reading: &mut Reading,
    text: &[u8],
    hosts: &Option<Str>,
    request: Option<ParsedRequest>,
) -> bool {
    let fed = reading.feed(text, hosts);
    fed.taken == text.len() && fed.ask == request
}

// Feeds the bytes one at a time. Are they taken, and does none end a head?
fn are_fed(reading: &mut Reading, bytes: &[u8], hosts: &Option<Str>) -> bool {
    for byte in bytes.chunks(1) {
        if !is_fed(reading, byte, hosts, None) {
            return false;
        }
    }
    true
}

// Takes the step. Does it go as it says?
fn goes(alloc: Global, reading: &mut Reading, hosts: &Option<Str>, step: &Step) -> bool {
    match step {
        Step::Feed(text, request) => is_fed(reading, text, hosts, *request),
        Step::FeedRepeated(text, request) => match repeated_text(alloc, text) {
            Ok(text) => is_fed(reading, &text, hosts, *request),
            Err(_) => false,
        },
        Step::FeedBytes(bytes) => are_fed(reading, bytes, hosts),
        Step::Target(target) => are_same(reading.target(), target),
        Step::End(request) => reading.end() == *request,
    }
}

fn hosts_of(alloc: Global, script: &Script) -> Result<Option<Str>, NoMemory> {
    match script.hosts {
        Some(hosts) => Ok(Some(Str::new(alloc, hosts)?)),
        None => Ok(None),
    }
}

fn take_script(alloc: Global, script: &Script) -> Result<(), Fail> {
    let hosts = hosts_of(alloc, script)?;
    let mut reading = Reading::new(alloc)?;
    for (place, step) in script.steps.iter().enumerate() {
        if !goes(alloc, &mut reading, &hosts, step) {
            return Err(Fail::new(format_args!("{}: step {place}", script.name)));
        }
    }
    Ok(())
}

#[test]
fn heads_give_their_requests(rt: HostRuntime) -> Result<(), Fail> {
    for script in SCRIPTS {
        take_script(rt.alloc(), script)?;
    }
    Ok(())
}
