// Constraints whose search for a certificate takes long.
use crate::verdicts::{VerdictRow, check_verdicts};
use std::test::Fail;

// A book of two authors, the second of whom has a page, and a link whose block has the author with a page first,
// and others. That the first is b is tried after all ways to map the others to a and b.
const FEW_AUTHORS: &str = "INPUT D \
    { WHERE Book(x), x -> \"by\" -> a, x -> \"by\" -> b, b -> \"page\" -> p CREATE F(x) } \
    { WHERE Book(u), u -> \"by\" -> y1, u -> \"by\" -> y2, u -> \"by\" -> y3, u -> \"by\" -> y4, \
    u -> \"by\" -> y5, u -> \"by\" -> y6, y1 -> \"page\" -> z \
    CREATE G(u) LINK F(u) -> \"to\" -> G(u) } OUTPUT S";

pub(crate) const MANY_AUTHORS: &str = "INPUT D \
    { WHERE Book(x), x -> \"by\" -> a, x -> \"by\" -> b, b -> \"page\" -> p CREATE F(x) } \
    { WHERE Book(u), u -> \"by\" -> y1, u -> \"by\" -> y2, u -> \"by\" -> y3, u -> \"by\" -> y4, \
    u -> \"by\" -> y5, u -> \"by\" -> y6, u -> \"by\" -> y7, u -> \"by\" -> y8, \
    u -> \"by\" -> y9, u -> \"by\" -> y10, u -> \"by\" -> y11, u -> \"by\" -> y12, \
    u -> \"by\" -> y13, u -> \"by\" -> y14, u -> \"by\" -> y15, u -> \"by\" -> y16, \
    u -> \"by\" -> y17, u -> \"by\" -> y18, u -> \"by\" -> y19, u -> \"by\" -> y20, y1 -> \"page\" -> z \
    CREATE G(u) LINK F(u) -> \"to\" -> G(u) } OUTPUT S";

// A page of nine arguments that links to such pages: the one that a link comes from is one of a thousand million terms.
const NINE: &str = "INPUT D { CREATE Home() } \
    { WHERE C(x0), x0 -> \"a1\" -> x1, x0 -> \"a2\" -> x2, x0 -> \"a3\" -> x3, x0 -> \"a4\" -> x4, \
    x0 -> \"a5\" -> x5, x0 -> \"a6\" -> x6, x0 -> \"a7\" -> x7, x0 -> \"a8\" -> x8 \
    CREATE F(x0, x1, x2, x3, x4, x5, x6, x7, x8) \
    LINK F(x0, x1, x2, x3, x4, x5, x6, x7, x8) -> \"next\" -> F(x0, x1, x2, x3, x4, x5, x6, x7, x8) } \
    OUTPUT S";

const LONG_VERDICTS: &[VerdictRow] = &[
    VerdictRow {
        query: FEW_AUTHORS,
        constraint: "EACH F LINKS \"to\" TO G",
        yes: true,
        reason: "All authors may be b: some hundred names are tried first.",
    },
    VerdictRow {
        query: MANY_AUTHORS,
        constraint: "EACH F LINKS \"to\" TO G",
        yes: false,
        reason: "All authors may be b, but a million names come first.",
    },
    VerdictRow {
        query: MANY_AUTHORS,
        constraint: "ONE F LINKS \"to\"",
        yes: false,
        reason: "So it is of one link, whatever its target.",
    },
    VerdictRow {
        query: NINE,
        constraint: "REACHABLE F FROM Home",
        yes: false,
        reason: "Not all terms are tried that a link may come from.",
    },
    VerdictRow {
        query: MANY_AUTHORS,
        constraint: "ONLY F LINKS \"to\" TO G",
        yes: true,
        reason: "No names are needed.",
    },
];

#[test]
fn a_search_ends_with_its_budget(rt: HostRuntime) -> Result<(), Fail> {
    check_verdicts(&rt, LONG_VERDICTS)
}
