// Constraints of small queries, each with the verdict that was worked out by hand.
use crate::checks::scoped_query;
use constraint_prover::prove;
use constraint_spec::Verdict;
use constraints::parse_constraints;
use std::process::Abort;
use std::test::Fail;

/// A constraint, and whether it has a certificate.
pub struct VerdictRow {
    pub query: &'static str,
    pub constraint: &'static str,
    pub yes: bool,
    pub reason: &'static str,
}

// Its five links: 1 PaperPage(x) -> l -> v, 2 RootPage() -> "Paper" -> PaperPage(x), and where
// l = "year" 3 YearPage(v) -> "Year" -> v, 4 YearPage(v) -> "Paper" -> PaperPage(x),
// 5 RootPage() -> "Year" -> YearPage(v).
const PAPERS: &str = "INPUT Bib CREATE RootPage() \
    WHERE Publications(x), x -> l -> v CREATE PaperPage(x) \
    LINK PaperPage(x) -> l -> v, RootPage() -> \"Paper\" -> PaperPage(x) \
    { WHERE l = \"year\" CREATE YearPage(v) \
    LINK YearPage(v) -> \"Year\" -> v, YearPage(v) -> \"Paper\" -> PaperPage(x), \
    RootPage() -> \"Year\" -> YearPage(v) } OUTPUT Home";

const TITLED: &str = "INPUT Bib CREATE RootPage() \
    WHERE Publications(x), x -> l -> v CREATE PaperPage(x) LINK PaperPage(x) -> l -> v \
    { WHERE l = \"title\" LINK RootPage() -> \"Paper\" -> PaperPage(x) } OUTPUT Home";

const LISTED: &str =
    "INPUT D WHERE C(x), x -> a -> y, a in {5} CREATE F(x) LINK F(x) -> a -> y OUTPUT S";

const LISTED_2: &str =
    "STRUQL 2 INPUT D WHERE C(x), x -> a -> y, a in {5} CREATE F(x) LINK F(x) -> a -> y OUTPUT S";

const WIDER: &str =
    "INPUT D { WHERE C(x), x -> \"a\".\"b\" -> y, y < 5, not(x -> \"c\"|\"d\" -> y) CREATE F(x) } \
    { WHERE C(u), u -> * -> w, w <= 5, not(u -> \"c\" -> w) CREATE G(u) LINK F(u) -> \"l\" -> G(u) } OUTPUT S";

const TURNED: &str = "INPUT D { WHERE C(x), x -> \"a\" -> y, not(x -> \"c\" -> y) CREATE F(x) } \
    { WHERE C(u), u -> \"a\" -> w, not(u -> \"c\"|\"d\" -> w) CREATE G(u) LINK F(u) -> \"l\" -> G(u) } OUTPUT S";

const SORTS: &str = "INPUT D { WHERE x -> a -> y CREATE F(a) } \
    { WHERE u = u CREATE G(u) LINK F(u) -> \"l\" -> G(u) } OUTPUT S";

const STEPS: &str = "INPUT D { CREATE Top() } \
    { WHERE C(x), x -> \"a\" -> y CREATE Middle(x), Low(x, y) \
    LINK Top() -> \"m\" -> Middle(x), Middle(x) -> \"l\" -> Low(x, y), Low(x, y) -> \"n\" -> Low(y, x) } \
    OUTPUT S";

// 1 Item(x) -> l -> v, 2 Home() -> "Item" -> Item(x), and where l = "shelf" 3 Shelf(v) -> "Name" -> v,
// 4 Shelf(v) -> "Item" -> Item(x), 5 Item(x) -> "Shelf" -> Shelf(v), 6 Home() -> "Shelf" -> Shelf(v).
const CATALOGUE: &str = "INPUT Catalogue { CREATE Home() } \
    { WHERE catalogue(x), x -> l -> v CREATE Item(x) \
    LINK Item(x) -> l -> v, Home() -> \"Item\" -> Item(x) \
    { WHERE l = \"shelf\" CREATE Shelf(v) \
    LINK Shelf(v) -> \"Name\" -> v, Shelf(v) -> \"Item\" -> Item(x), Item(x) -> \"Shelf\" -> Shelf(v), \
    Home() -> \"Shelf\" -> Shelf(v) } } OUTPUT Shop";

// 1 Project(x) -> l -> v, 2 Home() -> "Project" -> Project(x); 3 Person(n) -> "Name" -> n,
// 4 Person(n) -> "Project" -> Project(x), 5 Project(x) -> "Person" -> Person(n);
// 6 Person(n) -> "Group" -> g.
const PROJECTS: &str = "INPUT Projects { CREATE Home() } \
    { WHERE projects(x), x -> l -> v CREATE Project(x) \
    LINK Project(x) -> l -> v, Home() -> \"Project\" -> Project(x) } \
    { WHERE projects(x), x -> \"authors\" -> a, a -> \"name\" -> n CREATE Person(n) \
    LINK Person(n) -> \"Name\" -> n, Person(n) -> \"Project\" -> Project(x), \
    Project(x) -> \"Person\" -> Person(n) \
    { WHERE a -> \"group\".\"name\" -> g LINK Person(n) -> \"Group\" -> g } } OUTPUT Site";

// The query of examples/bibtex. Its links:
// 1 Paper(x) -> l -> v; where l = "title" 2 Home() -> "Paper" -> Paper(x); where l = "year"
// 3 Year -> "Year" -> v, 4 Year -> "Paper" -> Paper, 5 Home -> "Year" -> Year; where l = "author"
// 6 Author -> "Name" -> v, 7 Author -> "Paper" -> Paper, 8 Home -> "Author" -> Author,
// 9 Paper -> "Writer" -> Author; where l = "journal" 10 Venue -> "Name" -> v, 11 Venue -> "Paper" ->
// Paper, 12 Home -> "Venue" -> Venue, 13 Paper -> "In" -> Venue; where l = "booktitle" the same again,
// 14 to 17.
const GROUP: &str = "INPUT Group { CREATE Home() } \
    { WHERE group(x), x -> l -> v CREATE Paper(x) LINK Paper(x) -> l -> v \
    { WHERE l = \"title\" LINK Home() -> \"Paper\" -> Paper(x) } \
    { WHERE l = \"year\" CREATE Year(v) \
    LINK Year(v) -> \"Year\" -> v, Year(v) -> \"Paper\" -> Paper(x), Home() -> \"Year\" -> Year(v) } \
    { WHERE l = \"author\" CREATE Author(v) \
    LINK Author(v) -> \"Name\" -> v, Author(v) -> \"Paper\" -> Paper(x), \
    Home() -> \"Author\" -> Author(v), Paper(x) -> \"Writer\" -> Author(v) } \
    { WHERE l = \"journal\" CREATE Venue(v) \
    LINK Venue(v) -> \"Name\" -> v, Venue(v) -> \"Paper\" -> Paper(x), \
    Home() -> \"Venue\" -> Venue(v), Paper(x) -> \"In\" -> Venue(v) } \
    { WHERE l = \"booktitle\" CREATE Venue(v) \
    LINK Venue(v) -> \"Name\" -> v, Venue(v) -> \"Paper\" -> Paper(x), \
    Home() -> \"Venue\" -> Venue(v), Paper(x) -> \"In\" -> Venue(v) } } OUTPUT Site";

/// Constraints of all queries above.
pub const VERDICTS: &[VerdictRow] = &[
    VerdictRow {
        query: PAPERS,
        constraint: "ONLY YearPage LINKS \"Paper\" TO PaperPage",
        yes: true,
        reason: "Link 4 alone carries Paper from a year's page, and ends at a paper's.",
    },
    VerdictRow {
        query: PAPERS,
        constraint: "ONE YearPage LINKS \"Year\"",
        yes: true,
        reason: "Link 3 alone carries Year, and v is among its source's variables.",
    },
    VerdictRow {
        query: PAPERS,
        constraint: "NONE PaperPage LINKS \"x\"",
        yes: false,
        reason: "Link 1 may carry any label.",
    },
    VerdictRow {
        query: PAPERS,
        constraint: "REACHABLE PaperPage FROM RootPage",
        yes: true,
        reason: "Link 2 is in the block of each mention, or in the block round it.",
    },
    VerdictRow {
        query: PAPERS,
        constraint: "REACHABLE YearPage FROM RootPage",
        yes: true,
        reason: "Link 5 leads to each year's page.",
    },
    VerdictRow {
        query: PAPERS,
        constraint: "REACHABLE RootPage FROM RootPage",
        yes: true,
        reason: "A page that is the root itself needs no link.",
    },
    VerdictRow {
        query: PAPERS,
        constraint: "EACH YearPage LINKS \"Paper\" TO PaperPage",
        yes: true,
        reason: "Link 4 shows it of each mention of a year's page.",
    },
    VerdictRow {
        query: PAPERS,
        constraint: "EACH RootPage LINKS \"Paper\" TO PaperPage",
        yes: false,
        reason: "The home page is created without any row, so it may have no paper.",
    },
    VerdictRow {
        query: PAPERS,
        constraint: "EACH PaperPage LINKS \"isbn\" TO YearPage",
        yes: false,
        reason: "A paper's label is a variable: no link is quoted.",
    },
    VerdictRow {
        query: PAPERS,
        constraint: "ONE YearPage LINKS \"Paper\"",
        yes: false,
        reason: "The target's x is no variable of a year's page.",
    },
    VerdictRow {
        query: PAPERS,
        constraint: "NONE RootPage LINKS \"title\"",
        yes: true,
        reason: "Links 2 and 5 carry Paper and Year, and nothing else.",
    },
    VerdictRow {
        query: PAPERS,
        constraint: "NONE RootPage LINKS \"Paper\"",
        yes: false,
        reason: "Links 2 and 5 carry Paper and Year, and nothing else.",
    },
    VerdictRow {
        query: PAPERS,
        constraint: "ONLY PaperPage LINKS \"Year\" TO YearPage",
        yes: false,
        reason: "Link 1 may carry Year, and ends at a value.",
    },
    VerdictRow {
        query: TITLED,
        constraint: "REACHABLE PaperPage FROM RootPage",
        yes: false,
        reason: "A paper without a title has a page, and no link to it.",
    },
    VerdictRow {
        query: LISTED,
        constraint: "NONE F LINKS \"5\"",
        yes: true,
        reason: "The Int 5 is no label under version 1, and the twin of one under version 2.",
    },
    VerdictRow {
        query: LISTED_2,
        constraint: "NONE F LINKS \"5\"",
        yes: false,
        reason: "The Int 5 is no label under version 1, and the twin of one under version 2.",
    },
    VerdictRow {
        query: LISTED_2,
        constraint: "NONE F LINKS \"6\"",
        yes: true,
        reason: "The Int 5 is no label under version 1, and the twin of one under version 2.",
    },
    VerdictRow {
        query: WIDER,
        constraint: "EACH F LINKS \"l\" TO G",
        yes: true,
        reason: "With u = x and w = y: each word of \"a\".\"b\" is one of any labels; below 5 is at most 5; and \
            where no c or d leads to y, no c does.",
    },
    VerdictRow {
        query: TURNED,
        constraint: "EACH F LINKS \"l\" TO G",
        yes: false,
        reason: "That no c leads there doesn't say that no d does.",
    },
    VerdictRow {
        query: SORTS,
        constraint: "EACH F LINKS \"l\" TO G",
        yes: false,
        reason: "The label a needn't be a value of the graph, so u can't be it.",
    },
    VerdictRow {
        query: STEPS,
        constraint: "REACHABLE Middle FROM Top",
        yes: true,
        reason: "Two links to Low(x, y), and a third to Low(y, x), which the last link mentions.",
    },
    VerdictRow {
        query: STEPS,
        constraint: "REACHABLE Low FROM Top",
        yes: true,
        reason: "Two links to Low(x, y), and a third to Low(y, x), which the last link mentions.",
    },
    VerdictRow {
        query: STEPS,
        constraint: "EACH Low LINKS \"n\" TO Low",
        yes: false,
        reason: "Each term has this label, but for Low(y, x): that x leads to y says nothing of the way back.",
    },
    VerdictRow {
        query: STEPS,
        constraint: "ONE Middle LINKS \"l\"",
        yes: false,
        reason: "The target's y is no variable of its source.",
    },
    VerdictRow {
        query: CATALOGUE,
        constraint: "REACHABLE Item FROM Home",
        yes: true,
        reason: "By link 2, and by link 6.",
    },
    VerdictRow {
        query: CATALOGUE,
        constraint: "REACHABLE Shelf FROM Home",
        yes: true,
        reason: "By link 2, and by link 6.",
    },
    VerdictRow {
        query: CATALOGUE,
        constraint: "EACH Shelf LINKS \"Item\" TO Item",
        yes: true,
        reason: "Link 4 is in the block of each mention of a shelf.",
    },
    VerdictRow {
        query: CATALOGUE,
        constraint: "EACH Item LINKS \"Shelf\" TO Shelf",
        yes: false,
        reason: "An item without a shelf is mentioned in the outer block.",
    },
    VerdictRow {
        query: CATALOGUE,
        constraint: "EACH Home LINKS \"Item\" TO Item",
        yes: false,
        reason: "The home page is created without a row.",
    },
    VerdictRow {
        query: CATALOGUE,
        constraint: "ONE Shelf LINKS \"Name\"",
        yes: true,
        reason: "Link 3 alone carries Name, and its target is its source's argument.",
    },
    VerdictRow {
        query: CATALOGUE,
        constraint: "ONE Shelf LINKS \"Item\"",
        yes: false,
        reason: "A shelf may have many items.",
    },
    VerdictRow {
        query: CATALOGUE,
        constraint: "ONE Item LINKS \"Shelf\"",
        yes: false,
        reason: "Links 1 and 5 may carry Shelf.",
    },
    VerdictRow {
        query: CATALOGUE,
        constraint: "ONLY Shelf LINKS \"Item\" TO Item",
        yes: true,
        reason: "Links 4 and 6 alone; but link 1 carries an item's own labels to values.",
    },
    VerdictRow {
        query: CATALOGUE,
        constraint: "ONLY Home LINKS \"Shelf\" TO Shelf",
        yes: true,
        reason: "Links 4 and 6 alone; but link 1 carries an item's own labels to values.",
    },
    VerdictRow {
        query: CATALOGUE,
        constraint: "ONLY Item LINKS \"Shelf\" TO Shelf",
        yes: false,
        reason: "Links 4 and 6 alone; but link 1 carries an item's own labels to values.",
    },
    VerdictRow {
        query: CATALOGUE,
        constraint: "NONE Shelf LINKS \"title\"",
        yes: true,
        reason: "All labels of a shelf and of the home page are quoted.",
    },
    VerdictRow {
        query: CATALOGUE,
        constraint: "NONE Home LINKS \"title\"",
        yes: true,
        reason: "All labels of a shelf and of the home page are quoted.",
    },
    VerdictRow {
        query: CATALOGUE,
        constraint: "NONE Item LINKS \"title\"",
        yes: false,
        reason: "All labels of a shelf and of the home page are quoted.",
    },
    VerdictRow {
        query: PROJECTS,
        constraint: "REACHABLE Project FROM Home",
        yes: false,
        reason: "The third block mentions a project without an arc variable, which link 2 asks for.",
    },
    VerdictRow {
        query: PROJECTS,
        constraint: "REACHABLE Person FROM Home",
        yes: false,
        reason: "The third block mentions a project without an arc variable, which link 2 asks for.",
    },
    VerdictRow {
        query: PROJECTS,
        constraint: "EACH Person LINKS \"Project\" TO Project",
        yes: true,
        reason: "Link 4, in the block of each mention of a person or round it.",
    },
    VerdictRow {
        query: PROJECTS,
        constraint: "EACH Project LINKS \"Person\" TO Person",
        yes: false,
        reason: "A project without authors is mentioned in the second block.",
    },
    VerdictRow {
        query: PROJECTS,
        constraint: "ONLY Person LINKS \"Group\" TO Project",
        yes: false,
        reason: "A person's group is no page, and not each has one.",
    },
    VerdictRow {
        query: PROJECTS,
        constraint: "EACH Person LINKS \"Group\" TO Project",
        yes: false,
        reason: "A person's group is no page, and not each has one.",
    },
    VerdictRow {
        query: PROJECTS,
        constraint: "ONE Person LINKS \"Name\"",
        yes: true,
        reason: "Link 3 alone carries Name, and n is its source's argument.",
    },
    VerdictRow {
        query: PROJECTS,
        constraint: "ONE Person LINKS \"Project\"",
        yes: false,
        reason: "The target's x is no variable of a person's page.",
    },
    VerdictRow {
        query: PROJECTS,
        constraint: "NONE Person LINKS \"email\"",
        yes: true,
        reason: "A person's labels are quoted, and a project's are not.",
    },
    VerdictRow {
        query: PROJECTS,
        constraint: "NONE Project LINKS \"email\"",
        yes: false,
        reason: "A person's labels are quoted, and a project's are not.",
    },
    VerdictRow {
        query: PROJECTS,
        constraint: "NONE Home LINKS \"Person\"",
        yes: true,
        reason: "A person's labels are quoted, and a project's are not.",
    },
    VerdictRow {
        query: PROJECTS,
        constraint: "ONLY Person LINKS \"Project\" TO Project",
        yes: true,
        reason: "A person's labels are quoted, and a project's are not.",
    },
    VerdictRow {
        query: PROJECTS,
        constraint: "ONLY Project LINKS \"Person\" TO Person",
        yes: false,
        reason: "A person's labels are quoted, and a project's are not.",
    },
    VerdictRow {
        query: PROJECTS,
        constraint: "ONLY Home LINKS \"Project\" TO Project",
        yes: true,
        reason: "A person's labels are quoted, and a project's are not.",
    },
    VerdictRow {
        query: GROUP,
        constraint: "REACHABLE Author FROM Home",
        yes: true,
        reason: "Link 8 stands in the block of every mention of an author.",
    },
    VerdictRow {
        query: GROUP,
        constraint: "REACHABLE Venue FROM Home",
        yes: true,
        reason: "Link 12 in the journals' block, link 16 in the books'.",
    },
    VerdictRow {
        query: GROUP,
        constraint: "REACHABLE Paper FROM Home",
        yes: false,
        reason: "A paper is made for any label, and each way from the first page asks for one label.",
    },
    VerdictRow {
        query: GROUP,
        constraint: "EACH Venue LINKS \"Paper\" TO Paper",
        yes: true,
        reason: "Links 11 and 15, each in the block of its mentions.",
    },
    VerdictRow {
        query: GROUP,
        constraint: "ONLY Venue LINKS \"Paper\" TO Paper",
        yes: true,
        reason: "Links 11 and 15 alone carry Paper from a venue, and both end at papers.",
    },
    VerdictRow {
        query: GROUP,
        constraint: "ONE Venue LINKS \"Name\"",
        yes: false,
        reason: "Two links may carry Name, 10 and 14.",
    },
    VerdictRow {
        query: GROUP,
        constraint: "ONE Author LINKS \"Name\"",
        yes: true,
        reason: "Link 6 alone carries Name, and its target is its source's argument.",
    },
];

const TESTED: &str = "STRUQL 3 INPUT D { CREATE R() } \
    { WHERE C(x), x -> \"t\" -> t, starts(t, \"a\"), has(t, \"b\") CREATE F(x) } \
    { WHERE C(y), y -> \"t\" -> u, starts(u, \"a\") LINK R() -> \"f\" -> F(y) } OUTPUT S";

const EXCHANGED: &str = "STRUQL 3 INPUT D { CREATE R() } \
    { WHERE C(x), x -> \"t\" -> t, has(t, \"a\") CREATE F(x) } \
    { WHERE C(y), y -> \"t\" -> u, has(\"a\", u) LINK R() -> \"f\" -> F(y) } OUTPUT S";

const OTHER_END: &str = "STRUQL 3 INPUT D { CREATE R() } \
    { WHERE C(x), x -> \"t\" -> t, starts(t, \"a\") CREATE F(x) } \
    { WHERE C(y), y -> \"t\" -> u, ends(u, \"a\") LINK R() -> \"f\" -> F(y) } OUTPUT S";

const LISTED_3: &str =
    "STRUQL 3 INPUT D WHERE C(x), x -> a -> y, a in {5} CREATE F(x) LINK F(x) -> a -> y OUTPUT S";

/// Constraints of queries of version 3.
const TEXT_VERDICTS: &[VerdictRow] = &[
    VerdictRow {
        query: TESTED,
        constraint: "REACHABLE F FROM R",
        yes: true,
        reason: "The link asks for one of the two tests that hold of the page's row.",
    },
    VerdictRow {
        query: EXCHANGED,
        constraint: "REACHABLE F FROM R",
        yes: false,
        reason: "The sides of a test of texts can't be exchanged.",
    },
    VerdictRow {
        query: OTHER_END,
        constraint: "REACHABLE F FROM R",
        yes: false,
        reason: "A text that starts so may end otherwise.",
    },
    VerdictRow {
        query: LISTED_3,
        constraint: "NONE F LINKS \"5\"",
        yes: false,
        reason: "The Int 5 is the twin of a label from version 2 on.",
    },
];

/// Each of the constraints has its verdict.
pub fn check_verdicts<R: AllocGlobal + Abort>(rt: &R, rows: &[VerdictRow]) -> Result<(), Fail> {
    let alloc = rt.alloc();
    for row in rows {
        let query = scoped_query(alloc, row.query.as_bytes())?;
        let constraints = parse_constraints(alloc, row.constraint.as_bytes(), 65_536, &query)?;
        let [constraint] = constraints.as_slice() else {
            return Err(Fail::new(row.constraint));
        };
        let is_shown = match &prove(alloc, &query, constraint)? {
            Verdict::Yes(_) => true,
            Verdict::Unknown => false,
        };
        assert_eq!(rt; is_shown, row.yes, "{}: {}", row.constraint, row.reason);
    }
    Ok(())
}

#[test]
fn each_constraint_has_its_verdict(rt: HostRuntime) -> Result<(), Fail> {
    check_verdicts(&rt, VERDICTS)
}

// No certificate uses a link that ends at an aggregate.
const SUM_VERDICTS: &[VerdictRow] = &[
    VerdictRow {
        query: "STRUQL 3 INPUT D WHERE A(x), x -> \"p\" -> v CREATE F(v) LINK F(v) -> \"n\" -> sum(v OF v) OUTPUT S",
        constraint: "ONE F LINKS \"n\"",
        yes: false,
        reason: "a page of a text has no such link",
    },
    VerdictRow {
        query: "STRUQL 3 INPUT D WHERE A(x) CREATE F(x) LINK F(x) -> \"n\" -> count(x) OUTPUT S",
        constraint: "ONE F LINKS \"n\"",
        yes: false,
        reason: "it holds, but no certificate says so",
    },
    VerdictRow {
        query: "STRUQL 3 INPUT D WHERE A(x) CREATE F(x) LINK F(x) -> \"n\" -> count(x) OUTPUT S",
        constraint: "ONLY F LINKS \"n\" TO F",
        yes: false,
        reason: "a number is no page",
    },
    VerdictRow {
        query: "STRUQL 3 INPUT D WHERE A(x) CREATE F(x) LINK F(x) -> \"n\" -> max(x) OUTPUT S",
        constraint: "EACH F LINKS \"n\" TO F",
        yes: false,
        reason: "a value of a row is no page",
    },
    VerdictRow {
        query: "STRUQL 3 INPUT D WHERE A(x) CREATE F(x) LINK F(x) -> \"n\" -> min(x) OUTPUT S",
        constraint: "NONE F LINKS \"n\"",
        yes: false,
        reason: "it is a link by this label",
    },
    VerdictRow {
        query: "STRUQL 3 INPUT D WHERE A(x) CREATE F(x) LINK F(x) -> \"n\" -> min(x) OUTPUT S",
        constraint: "NONE F LINKS \"m\"",
        yes: true,
        reason: "it is no link by this label",
    },
];

#[test]
fn no_certificate_uses_an_aggregate(rt: HostRuntime) -> Result<(), Fail> {
    check_verdicts(&rt, SUM_VERDICTS)
}

#[test]
fn tests_of_texts_entail_themselves_alone(rt: HostRuntime) -> Result<(), Fail> {
    check_verdicts(&rt, TEXT_VERDICTS)
}
