// Pages that come from the whole site, beside pages from their own demand: `serve` with `--whole` and without it.
use super::{CYCLIC_REPLY, FILES, HOME_REPLY, NEW_REPLY, NOT_FOUND, YEAR_REPLY};
use crate::runs::{PLAIN, Part, Run, Taken, check_runs};
use std::test::Fail;

const ASKED: &[Part] = &[Part {
    text: "open 1 bytes 1 \"GET /YearPage/i1998.html HTTP/1.1\\r\\nHost: a\\r\\n\\r\\n\" open 2 bytes 2 \
        \"GET / HTTP/1.1\\r\\nHost: a\\r\\n\\r\\n\" open 3 bytes 3 \"GET /YearPage/i1996.html \
        HTTP/1.1\\r\\nHost: a\\r\\n\\r\\n\" open 4 bytes 4 \"GET /YearPage/i1998.html HTTP/1.1\\r\\nHost: \
        a\\r\\n\\r\\n\"",
    count: 1,
}];

const SENT: &[Taken] = &[
    Taken {
        connection: 1,
        bytes: YEAR_REPLY,
        is_closed: true,
    },
    Taken {
        connection: 2,
        bytes: HOME_REPLY,
        is_closed: true,
    },
    Taken {
        connection: 3,
        bytes: NOT_FOUND,
        is_closed: true,
    },
    Taken {
        connection: 4,
        bytes: YEAR_REPLY,
        is_closed: true,
    },
];

// The data change, and then a text changes nothing.
const CHANGED: &[Part] = &[Part {
    text: "open 1 bytes 1 \"GET /YearPage/i1998.html HTTP/1.1\\r\\nHost: a\\r\\n\\r\\n\" change \"object \
        pub9 in Publications { title \\\"New\\\" year 1996 }\" open 2 bytes 2 \"GET /YearPage/i1998.html \
        HTTP/1.1\\r\\nHost: a\\r\\n\\r\\n\" change \"object\" open 3 bytes 3 \"GET /YearPage/i1996.html \
        HTTP/1.1\\r\\nHost: a\\r\\n\\r\\n\"",
    count: 1,
}];

const SENT_OVER_CHANGES: &[Taken] = &[
    Taken {
        connection: 1,
        bytes: YEAR_REPLY,
        is_closed: true,
    },
    Taken {
        connection: 2,
        bytes: NOT_FOUND,
        is_closed: true,
    },
    Taken {
        connection: 3,
        bytes: NEW_REPLY,
        is_closed: true,
    },
];

// A page that embeds itself is found when it is asked for.
const ASKED_IN_A_CYCLE: &[Part] = &[Part {
    text: "open 1 bytes 1 \"GET /A.html HTTP/1.1\\r\\nHost: a\\r\\n\\r\\n\"",
    count: 1,
}];

const CYCLE_SENT: &[Taken] = &[Taken {
    connection: 1,
    bytes: CYCLIC_REPLY,
    is_closed: true,
}];

const RUNS: &[Run] = &[
    Run {
        words: &["serve", "q", "t", "d"],
        script: ASKED,
        code: 0,
        out: "serving 8080\nconnections 4\nreplies 4\nhits 1\n",
        err: "",
        taken: SENT,
        ..PLAIN
    },
    Run {
        words: &["serve", "--whole", "q", "t", "d"],
        script: ASKED,
        code: 0,
        out: "serving 8080\nconnections 4\nreplies 4\nhits 1\n",
        err: "",
        taken: SENT,
        ..PLAIN
    },
    Run {
        words: &["serve", "--watch", "w", "q", "t", "d"],
        script: CHANGED,
        code: 0,
        out: "serving 8080\nconnections 3\nreplies 3\nhits 0\nchanges 2\nrefused 1\n",
        err: "",
        taken: SENT_OVER_CHANGES,
        ..PLAIN
    },
    Run {
        words: &["serve", "--watch", "w", "--whole", "q", "t", "d"],
        script: CHANGED,
        code: 0,
        out: "serving 8080\nconnections 3\nreplies 3\nhits 0\nchanges 2\nrefused 1\n",
        err: "",
        taken: SENT_OVER_CHANGES,
        ..PLAIN
    },
    Run {
        words: &["serve", "cycle", "brackets", "none"],
        script: ASKED_IN_A_CYCLE,
        code: 0,
        out: "serving 8080\nconnections 1\nreplies 1\nhits 0\n",
        err: "",
        taken: CYCLE_SENT,
        ..PLAIN
    },
    Run {
        words: &["serve", "--whole", "cycle", "brackets", "none"],
        script: ASKED_IN_A_CYCLE,
        code: 0,
        out: "serving 8080\nconnections 1\nreplies 1\nhits 0\n",
        err: "",
        taken: CYCLE_SENT,
        ..PLAIN
    },
];

#[test]
fn pages_are_the_same_from_the_whole_site(rt: HostRuntime) -> Result<(), Fail> {
    check_runs(&rt, FILES, RUNS)
}
