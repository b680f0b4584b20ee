// Constraints of all kinds in small sites, beside reports worked by hand.
use crate::inputs::{BIBLIOGRAPHY, LIMIT, asker_of, builder_of, check_text, query_of, quoted};
use constraint_report::report_of;
use constraints::parse_constraints;
use query_scoping::ScopedQuery;
use std::process::Abort;
use std::test::Fail;

/// Two publications, each with a page, one for each year, and the root page.
const PUBLICATIONS: &str =
    "INPUT Bib { CREATE RootPage() } { WHERE Publications(x), x -> l -> v CREATE PaperPage(x) LINK \
        PaperPage(x) -> l -> v, RootPage() -> 'Paper' -> PaperPage(x) { WHERE l = 'year' CREATE YearPage(v) \
        LINK YearPage(v) -> 'Year' -> v, YearPage(v) -> 'Paper' -> PaperPage(x), RootPage() -> 'Year' -> \
        YearPage(v) } } OUTPUT Home";

struct ReportRow {
    data: &'static str,
    query: &'static str,
    constraints: &'static str,
    lines: &'static str,
    all_met: bool,
}

const REPORTS: &[ReportRow] = &[
    ReportRow {
        data: BIBLIOGRAPHY,
        query: PUBLICATIONS,
        constraints: "REACHABLE PaperPage FROM RootPage NONE YearPage LINKS 'Paper'",
        lines: "1 met\n2 broken\n",
        all_met: false,
    },
    ReportRow {
        data: BIBLIOGRAPHY,
        query: PUBLICATIONS,
        constraints: "ONE YearPage LINKS 'Year' EACH PaperPage LINKS 'isbn' TO YearPage",
        lines: "1 met\n2 broken\n",
        all_met: false,
    },
    // One publication has two authors, and no title is a page.
    ReportRow {
        data: BIBLIOGRAPHY,
        query: PUBLICATIONS,
        constraints: "ONLY RootPage LINKS 'Paper' TO PaperPage ONLY PaperPage LINKS 'title' TO YearPage ONE \
            PaperPage LINKS 'author' ONE PaperPage LINKS 'title'",
        lines: "1 met\n2 broken\n3 broken\n4 met\n",
        all_met: false,
    },
    // A link to a page of another function is none to a page of this one.
    ReportRow {
        data: BIBLIOGRAPHY,
        query: PUBLICATIONS,
        constraints: "EACH RootPage LINKS 'Paper' TO YearPage EACH YearPage LINKS 'Paper' TO PaperPage",
        lines: "1 broken\n2 met\n",
        all_met: false,
    },
    ReportRow {
        data: BIBLIOGRAPHY,
        query: PUBLICATIONS,
        constraints: "",
        lines: "",
        all_met: true,
    },
    // Without publications no page but the root page is left, and it is reached without a link.
    ReportRow {
        data: "",
        query: PUBLICATIONS,
        constraints: "REACHABLE PaperPage FROM RootPage REACHABLE RootPage FROM RootPage ONE RootPage LINKS 'Paper'",
        lines: "1 met\n2 met\n3 broken\n",
        all_met: false,
    },
    // The second page is reached through the first one.
    ReportRow {
        data: "object o in C { }",
        query: "INPUT D { CREATE R() } { WHERE C(x) CREATE A(x), B(x) LINK R() -> 'a' -> A(x), A(x) -> 'b' \
            -> B(x), B(x) -> 'r' -> R() } OUTPUT S",
        constraints: "REACHABLE B FROM R REACHABLE A FROM R",
        lines: "1 met\n2 met\n",
        all_met: true,
    },
    // The root page is not in the site.
    ReportRow {
        data: "object o in C { }",
        query: "INPUT D { WHERE C(x) CREATE F(x) } { WHERE E(x) CREATE R() LINK R() -> 'f' -> F(x) } OUTPUT S",
        constraints: "REACHABLE F FROM R REACHABLE R FROM R",
        lines: "1 broken\n2 met\n",
        all_met: false,
    },
];

fn check_report<R: AllocGlobal + Abort>(rt: &R, row: &ReportRow) -> Result<(), Fail> {
    let alloc = rt.alloc();
    let query = ScopedQuery::of(alloc, query_of(alloc, row.query)?)?;
    let text = quoted(alloc, row.constraints)?;
    let constraints = parse_constraints(alloc, text.as_bytes(), LIMIT, &query)?;
    let asker = asker_of(alloc, builder_of(alloc, row.data)?)?;
    let report = report_of(alloc, asker, query.blocks(), constraints.as_slice())?;
    assert_eq!(rt; report.passed, row.all_met, "{}", row.constraints);
    check_text(rt, report.text.bytes(), row.lines, row.constraints)
}

#[test]
fn sites_meet_constraints_or_break_them(rt: HostRuntime) -> Result<(), Fail> {
    for row in REPORTS {
        check_report(&rt, row)?;
    }
    Ok(())
}
