// The constraints of a file, in the site over data by the words `check --here`, and over every data graph without them.
use crate::runs::{FileRow, PLAIN, Run, check_runs};
use crate::site::{BIB, LOOKS, SITE};
use std::test::Fail;

// Templates without one of the pages of years, which ask for a collection that isn't there.
const SLIPS: &str =
    "<TEMPLATE RootPage><SFMT @Paper LINK=title></TEMPLATE>\n<TEMPLATE PaperPage><SFMT #Papers EMBED></TEMPLATE>\n";

/// The worked site, others that differ from it, and constraints.
// One address that a browser would run, whatever its case and the tab before it, and one that leads somewhere.
const ACTIVE: &str =
    "object a in C { home url \"\tJavaScript:f()\" home url \"https://x.example/\" }";

const HOMES: &str =
    "INPUT D WHERE C(x), x -> \"home\" -> h CREATE P() LINK P() -> \"home\" -> h OUTPUT S";

// Values in text, in an attribute in quotes, in one without, in a handler, in the tag, and in a script and after it.
const PLACES: &str = "<TEMPLATE P><SFMT @home><a title='<SFMT @home>' href=<SFMT @home> \
    onclick=\"<SFMT @home>\" <SFMT @home>></a><SCRIPT>x = \"<SFMT @home>\"</SCRIPT>\
    <SFMT @home LINK><SFMT @home PLAIN></TEMPLATE>";

pub const FILES: &[FileRow] = &[
    FileRow {
        path: "bib",
        text: BIB,
    },
    FileRow {
        path: "q",
        text: SITE,
    },
    FileRow {
        path: "looks",
        text: LOOKS,
    },
    FileRow {
        path: "active",
        text: ACTIVE,
    },
    FileRow {
        path: "homes",
        text: HOMES,
    },
    FileRow {
        path: "places",
        text: PLACES,
    },
    FileRow {
        path: "linked",
        text: "<TEMPLATE P><SFMT @home LINK DELIM=\", \"></TEMPLATE>",
    },
    FileRow {
        path: "slips",
        text: SLIPS,
    },
    FileRow {
        path: "reached",
        text: "REACHABLE PaperPage FROM RootPage\n",
    },
    FileRow {
        path: "papers",
        text: "REACHABLE PaperPage FROM RootPage\nNONE YearPage LINKS \"Paper\"\n",
    },
    FileRow {
        path: "years",
        text: "ONE YearPage LINKS \"Year\" EACH PaperPage LINKS \"isbn\" TO YearPage",
    },
    FileRow {
        path: "empty",
        text: "",
    },
    FileRow {
        path: "zed",
        text: "NONE Zed LINKS \"a\"",
    },
    FileRow {
        path: "rooted",
        text: "REACHABLE PaperPage FROM YearPage",
    },
    FileRow {
        path: "lower",
        text: "none YearPage LINKS \"Paper\"",
    },
    FileRow {
        path: "titled",
        text: TITLED,
    },
    FileRow {
        path: "three",
        text: THREE,
    },
    FileRow {
        path: "five",
        text: FIVE,
    },
    FileRow {
        path: "five2",
        text: FIVE_COERCED,
    },
    FileRow {
        path: "negated",
        text: NEGATED,
    },
    FileRow {
        path: "turned",
        text: "EACH F LINKS \"l\" TO G",
    },
    FileRow {
        path: "fives",
        text: "NONE F LINKS \"5\"",
    },
];

// The first page leads to the papers with a title alone.
const TITLED: &str = "INPUT Bib
{ CREATE RootPage() }
{ WHERE Publications(x), x -> l -> v
  CREATE PaperPage(x)
  LINK PaperPage(x) -> l -> v
  { WHERE l = \"title\" LINK RootPage() -> \"Paper\" -> PaperPage(x) }
  { WHERE l = \"year\"
    CREATE YearPage(v)
    LINK YearPage(v) -> \"Year\" -> v, YearPage(v) -> \"Paper\" -> PaperPage(x),
         RootPage() -> \"Year\" -> YearPage(v) } }
OUTPUT Home
";

const THREE: &str = "ONLY YearPage LINKS \"Paper\" TO PaperPage
ONE YearPage LINKS \"Year\"
NONE PaperPage LINKS \"x\"
";

// A label is a text, and the list has an integer.
const FIVE: &str =
    "INPUT D WHERE C(x), x -> a -> y, a in {5} CREATE F(x) LINK F(x) -> a -> y OUTPUT S";

const FIVE_COERCED: &str =
    "STRUQL 2 INPUT D WHERE C(x), x -> a -> y, a in {5} CREATE F(x) LINK F(x) -> a -> y OUTPUT S";

// A page of F without a link is over an edge by d, which only the last condition names.
const NEGATED: &str = "INPUT D { WHERE C(x), x -> \"a\" -> y, not(x -> \"c\" -> y) CREATE F(x) }
{ WHERE C(u), u -> \"a\" -> w, not(u -> \"c\"|\"d\" -> w) CREATE G(u) LINK F(u) -> \"l\" -> G(u) } OUTPUT S";

const PAPERS: &[&str] = &["check", "--here", "q", "papers", "bib"];

const REACHED: &[&str] = &["check", "--here", "q", "reached", "bib"];

const BAD_WORDS: &str = "strudel: bad command line\n";

const IN_A_SITE: &[Run] = &[
    // Status 1 where a constraint isn't met: the lines are put all the same, and nothing is reported.
    Run {
        words: REACHED,
        code: 0,
        out: "1 met\n",
        err: "",
        ..PLAIN
    },
    Run {
        words: PAPERS,
        code: 1,
        out: "1 met\n2 broken\n",
        err: "",
        ..PLAIN
    },
    Run {
        words: &["check", "q", "years", "bib", "bib", "--here"],
        code: 1,
        out: "1 met\n2 broken\n",
        err: "",
        ..PLAIN
    },
    Run {
        words: &["check", "--here", "q", "empty", "bib"],
        code: 0,
        out: "",
        err: "",
        ..PLAIN
    },
    // Data and the flag stand together.
    Run {
        words: &["check", "q", "papers", "bib"],
        code: 2,
        out: "",
        err: BAD_WORDS,
        ..PLAIN
    },
    Run {
        words: &["check", "--here", "q", "papers"],
        code: 2,
        out: "",
        err: BAD_WORDS,
        ..PLAIN
    },
    // Constraints that are refused.
    Run {
        words: &["check", "--here", "q", "zed", "bib"],
        code: 3,
        out: "",
        err: "strudel: zed: 102 UnknownFunction at 5\n",
        ..PLAIN
    },
    Run {
        words: &["check", "--here", "q", "rooted", "bib"],
        code: 3,
        out: "",
        err: "strudel: rooted: 103 RootHasArguments at 25\n",
        ..PLAIN
    },
    Run {
        words: &["check", "--here", "q", "lower", "bib"],
        code: 3,
        out: "",
        err: "strudel: lower: 101 Expected at 0\n",
        ..PLAIN
    },
    // The data are read first, then the query, and then the constraints.
    Run {
        words: &["check", "--here", "bib", "zed", "q"],
        code: 3,
        out: "",
        err: "strudel: q: 31 Expected at 0\n",
        ..PLAIN
    },
    Run {
        words: &["check", "--here", "bib", "zed", "bib"],
        code: 3,
        out: "",
        err: "strudel: bib: 71 Expected at 0\n",
        ..PLAIN
    },
    Run {
        words: &["check", "--here", "bib", "zed", "none"],
        code: 4,
        out: "",
        err: "strudel: cannot read none\n",
        ..PLAIN
    },
    Run {
        words: &["check", "--here", "q", "lost", "bib"],
        code: 4,
        out: "",
        err: "strudel: cannot read lost\n",
        ..PLAIN
    },
    // A read or a put that fails.
    Run {
        words: PAPERS,
        failing_calls: &[3],
        code: 4,
        out: "",
        err: "strudel: cannot read papers\n",
        ..PLAIN
    },
    Run {
        words: PAPERS,
        failing_puts: &[1],
        code: 5,
        out: "",
        err: "strudel: cannot write\n",
        ..PLAIN
    },
    Run {
        words: REACHED,
        failing_puts: &[1],
        code: 5,
        out: "",
        err: "strudel: cannot write\n",
        ..PLAIN
    },
];

#[test]
fn each_check_in_a_site_ends_as_its_row_says(rt: HostRuntime) -> Result<(), Fail> {
    check_runs(&rt, FILES, IN_A_SITE)
}

// ---- over every data graph

const PAPERS_PROVED: &str = "1 yes
  2 PaperPage(x): link 2 {x=x, l=l, v=v}
  2 PaperPage(x): link 2 {x=x, l=l, v=v}
  2 PaperPage(x): link 2 {x=x, l=l, v=v}
  2.1 PaperPage(x): link 2 {x=x, l=l, v=v}
";

const THREE_ANSWERED: &str = "1 yes
2 yes
  2.1 YearPage(v): link 3 {x=x, l=l, v=v}
  2.1 YearPage(v): link 3 {x=x, l=l, v=v}
  2.1 YearPage(v): link 3 {x=x, l=l, v=v}
  2.1 YearPage(v): link 3 {x=x, l=l, v=v}
3 no
  object \"v\" {
  }
  object \"x\" in \"Publications\" {
    \"x\" &\"v\"
  }
";

const A_PAPER_WITHOUT_A_TITLE: &str = "1 no
  object \"v\" {
  }
  object \"x\" in \"Publications\" {
    \"l\" &\"v\"
  }
";

const FIVE_IS_A_LABEL: &str = "1 no
  object \"x\" in \"C\" {
    \"5\" &\"y\"
  }
  object \"y\" {
  }
";

const THREE_OVER_ALL_DATA: &[&str] = &["check", "q", "three"];

const OVER_ALL_DATA: &[Run] = &[
    // Status 1 where a constraint has no certificate: the lines are put all the same, and nothing is reported.
    Run {
        words: &["check", "q", "reached"],
        code: 0,
        out: PAPERS_PROVED,
        err: "",
        ..PLAIN
    },
    Run {
        words: &["check", "titled", "reached"],
        code: 1,
        out: A_PAPER_WITHOUT_A_TITLE,
        err: "",
        ..PLAIN
    },
    Run {
        words: &["check", "negated", "turned"],
        code: 1,
        out: "1 unknown\n",
        err: "",
        ..PLAIN
    },
    Run {
        words: THREE_OVER_ALL_DATA,
        code: 1,
        out: THREE_ANSWERED,
        err: "",
        ..PLAIN
    },
    Run {
        words: &["check", "q", "empty"],
        code: 0,
        out: "",
        err: "",
        ..PLAIN
    },
    // Where texts are compared with integers by the text of the number, the label `5` is one of 5.
    Run {
        words: &["check", "five", "fives"],
        code: 0,
        out: "1 yes\n",
        err: "",
        ..PLAIN
    },
    Run {
        words: &["check", "five2", "fives"],
        code: 1,
        out: FIVE_IS_A_LABEL,
        err: "",
        ..PLAIN
    },
    // The query is read first, and then the constraints.
    Run {
        words: &["check", "bib", "zed"],
        code: 3,
        out: "",
        err: "strudel: bib: 71 Expected at 0\n",
        ..PLAIN
    },
    Run {
        words: &["check", "q", "zed"],
        code: 3,
        out: "",
        err: "strudel: zed: 102 UnknownFunction at 5\n",
        ..PLAIN
    },
    Run {
        words: &["check", "none", "lost"],
        code: 4,
        out: "",
        err: "strudel: cannot read none\n",
        ..PLAIN
    },
    Run {
        words: &["check", "q", "lost"],
        code: 4,
        out: "",
        err: "strudel: cannot read lost\n",
        ..PLAIN
    },
    // A read or a put that fails.
    Run {
        words: THREE_OVER_ALL_DATA,
        failing_calls: &[2],
        code: 4,
        out: "",
        err: "strudel: cannot read three\n",
        ..PLAIN
    },
    Run {
        words: THREE_OVER_ALL_DATA,
        failing_puts: &[1],
        code: 5,
        out: "",
        err: "strudel: cannot write\n",
        ..PLAIN
    },
];

#[test]
fn each_check_over_all_data_ends_as_its_row_says(rt: HostRuntime) -> Result<(), Fail> {
    check_runs(&rt, FILES, OVER_ALL_DATA)
}
