// `replay` over data that edits change: which pages are kept, and what the others show then.
use super::{REPLAY, Replay, check_replays};
use crate::runs::FileRow;
use std::test::Fail;

// A page for each member of A that has a t.
const FILES: &[FileRow] = &[
    FileRow {
        path: "d",
        text: "object o in A { t \"T\" }",
    },
    FileRow {
        path: "q",
        text: "INPUT D WHERE A(x), x -> \"t\" -> y CREATE F(x) LINK F(x) -> \"t\" -> y OUTPUT S",
    },
    FileRow {
        path: "t",
        text: "<TEMPLATE F><SFMT @t></TEMPLATE>",
    },
];

const EDITS: &[Replay] = &[
    // A text that is no edit of the page's data leaves it, and the page is kept; the next is one.
    Replay {
        script: "open 1 bytes 1 \"GET /F/no.html HTTP/1.1\\r\\nHost: a\\r\\n\\r\\n\" change \"edit add o u \
            5\" open 2 bytes 2 \"GET /F/no.html HTTP/1.1\\r\\nHost: a\\r\\n\\r\\n\" change \"edit add o t \
            \\\"U\\\"\" open 3 bytes 3 \"GET /F/no.html HTTP/1.1\\r\\nHost: a\\r\\n\\r\\n\"",
        out: "connection 1 98\nHTTP/1.1 200 OK\r\nContent-Type: text/html; charset=utf-8\r\nContent-Length: \
            1\r\nConnection: close\r\n\r\nT\nconnection 2 98\nHTTP/1.1 200 OK\r\nContent-Type: text/html; \
            charset=utf-8\r\nContent-Length: 1\r\nConnection: close\r\n\r\nT\nconnection 3 99\nHTTP/1.1 200 \
            OK\r\nContent-Type: text/html; charset=utf-8\r\nContent-Length: 2\r\nConnection: close\r\n\r\n\
            TU\nconnections 3\nreplies 3\nhits 1\nchanges 2\nrefused 0\n",
    },
    // The node leaves the collection of which pages are made.
    Replay {
        script: "open 1 bytes 1 \"GET /F/no.html HTTP/1.1\\r\\nHost: a\\r\\n\\r\\n\" change \"edit add o u \
            5\" open 2 bytes 2 \"GET /F/no.html HTTP/1.1\\r\\nHost: a\\r\\n\\r\\n\" change \"edit leave o \
            A\" open 3 bytes 3 \"GET /F/no.html HTTP/1.1\\r\\nHost: a\\r\\n\\r\\n\"",
        out: "connection 1 98\nHTTP/1.1 200 OK\r\nContent-Type: text/html; charset=utf-8\r\nContent-Length: \
            1\r\nConnection: close\r\n\r\nT\nconnection 2 98\nHTTP/1.1 200 OK\r\nContent-Type: text/html; \
            charset=utf-8\r\nContent-Length: 1\r\nConnection: close\r\n\r\nT\nconnection 3 116\nHTTP/1.1 \
            404 Not Found\r\nContent-Type: text/plain; charset=utf-8\r\nContent-Length: 10\r\nConnection: \
            close\r\n\r\nnot found\n\nconnections 3\nreplies 3\nhits 1\nchanges 2\nrefused 0\n",
    },
    // A text that ends too early is refused.
    Replay {
        script: "open 1 bytes 1 \"GET /F/no.html HTTP/1.1\\r\\nHost: a\\r\\n\\r\\n\" change \"edit add o\" \
            open 2 bytes 2 \"GET /F/no.html HTTP/1.1\\r\\nHost: a\\r\\n\\r\\n\"",
        out: "connection 1 98\nHTTP/1.1 200 OK\r\nContent-Type: text/html; charset=utf-8\r\nContent-Length: \
            1\r\nConnection: close\r\n\r\nT\nconnection 2 98\nHTTP/1.1 200 OK\r\nContent-Type: text/html; \
            charset=utf-8\r\nContent-Length: 1\r\nConnection: close\r\n\r\nT\nconnections 2\nreplies 2\n\
            hits 1\nchanges 1\nrefused 1\n",
    },
    // What is removed is gone, and what isn't there is removed without harm; a removal leaves the node.
    Replay {
        script: "change \"edit remove o u 5\" open 1 bytes 1 \"GET /F/no.html HTTP/1.1\\r\\nHost: \
            a\\r\\n\\r\\n\" change \"edit remove o t \\\"T\\\"\" open 2 bytes 2 \"GET /F/no.html \
            HTTP/1.1\\r\\nHost: a\\r\\n\\r\\n\" change \"edit add o t \\\"V\\\"\" open 3 bytes 3 \"GET \
            /F/no.html HTTP/1.1\\r\\nHost: a\\r\\n\\r\\n\"",
        out: "connection 1 98\nHTTP/1.1 200 OK\r\nContent-Type: text/html; charset=utf-8\r\nContent-Length: \
            1\r\nConnection: close\r\n\r\nT\nconnection 2 116\nHTTP/1.1 404 Not Found\r\nContent-Type: \
            text/plain; charset=utf-8\r\nContent-Length: 10\r\nConnection: close\r\n\r\nnot found\n\n\
            connection 3 98\nHTTP/1.1 200 OK\r\nContent-Type: text/html; charset=utf-8\r\nContent-Length: \
            1\r\nConnection: close\r\n\r\nV\nconnections 3\nreplies 3\nhits 0\nchanges 3\nrefused 0\n",
    },
    // Edits are of the data that are current: after other data, of those.
    Replay {
        script: "change \"edit add o t \\\"U\\\"\" change \"object o in A { t \\\"X\\\" }\" open 1 bytes 1 \
            \"GET /F/no.html HTTP/1.1\\r\\nHost: a\\r\\n\\r\\n\" change \"edit enter p A\" open 2 bytes 2 \
            \"GET /F/no.html HTTP/1.1\\r\\nHost: a\\r\\n\\r\\n\" change \"edit add o t \\\"U\\\"\" open 3 \
            bytes 3 \"GET /F/no.html HTTP/1.1\\r\\nHost: a\\r\\n\\r\\n\"",
        out: "connection 1 98\nHTTP/1.1 200 OK\r\nContent-Type: text/html; charset=utf-8\r\nContent-Length: \
            1\r\nConnection: close\r\n\r\nX\nconnection 2 98\nHTTP/1.1 200 OK\r\nContent-Type: text/html; \
            charset=utf-8\r\nContent-Length: 1\r\nConnection: close\r\n\r\nX\nconnection 3 99\nHTTP/1.1 200 \
            OK\r\nContent-Type: text/html; charset=utf-8\r\nContent-Length: 2\r\nConnection: close\r\n\r\n\
            UX\nconnections 3\nreplies 3\nhits 0\nchanges 4\nrefused 0\n",
    },
];

#[test]
fn edits_change_the_data(rt: HostRuntime) -> Result<(), Fail> {
    check_replays(&rt, FILES, REPLAY, EDITS)
}
