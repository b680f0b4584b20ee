// Whole queries.
use crate::inputs::{LIMIT, check_text, quoted};
use std::process::Abort;
use std::test::Fail;
use struql_parse::parse;
use struql_print::print;

/// A query, and its canonical text, which is printed as it is, both with `'` for each quote.
pub struct QueryRow {
    pub text: &'static str,
    pub canonical: &'static str,
}

const QUERIES: &[QueryRow] = &[
    QueryRow {
        text: "INPUT D OUTPUT S",
        canonical: "INPUT D\nOUTPUT S\n",
    },
    QueryRow {
        text: "input Where // a comment\noutput Output",
        canonical: "INPUT Where\nOUTPUT Output\n",
    },
    QueryRow {
        text: "STRUQL 1 INPUT D OUTPUT S",
        canonical: "INPUT D\nOUTPUT S\n",
    },
    QueryRow {
        text: "struql 002 INPUT D OUTPUT S",
        canonical: "STRUQL 2\nINPUT D\nOUTPUT S\n",
    },
    QueryRow {
        text: "INPUT D {} OUTPUT S",
        canonical: "INPUT D\n{ }\nOUTPUT S\n",
    },
    QueryRow {
        text: "INPUT D {{}{{}}}{} OUTPUT S",
        canonical: "INPUT D\n{ { } { { } } }\n{ }\nOUTPUT S\n",
    },
    // A top block without braces takes what can follow, and a clause that can't begins another.
    QueryRow {
        text: "INPUT D where C(x) create F(x) {create G()} WHERE E(y) CREATE G(y) OUTPUT S",
        canonical: "INPUT D\n{ WHERE C(x) CREATE F(x) { CREATE G() } }\n{ WHERE E(y) CREATE G(y) }\nOUTPUT S\n",
    },
    QueryRow {
        text: "INPUT D{WHERE C(x),E(x)CREATE F(x),G(x,x)LINK F(x)->'a'->G(x,x)COLLECT All(F(x)),Data(x)}OUTPUT S",
        canonical: "INPUT D\n{ WHERE C(x), E(x) CREATE F(x), G(x, x) LINK F(x) -> 'a' -> G(x, x) COLLECT All(F(x)), Data(x) }\nOUTPUT S\n",
    },
    // Quoted names of collections.
    QueryRow {
        text: "INPUT D{WHERE'E'(x)CREATE F(x)COLLECT'my file'(F(x)),'Data'(x),'link'(x)}OUTPUT S",
        canonical: "INPUT D\n{ WHERE E(x) CREATE F(x) COLLECT 'my file'(F(x)), Data(x), 'link'(x) }\nOUTPUT S\n",
    },
    // The bibliography's.
    QueryRow {
        text: "INPUT Bib\n{ CREATE RootPage() }\n{ WHERE Publications(x), x -> l -> v\n  CREATE \
            PaperPage(x)\n  LINK PaperPage(x) -> l -> v, RootPage() -> 'Paper' -> PaperPage(x)\n  { WHERE l \
            = 'year'\n    CREATE YearPage(v)\n    LINK YearPage(v) -> 'Year' -> v, YearPage(v) -> 'Paper' \
            -> PaperPage(x),\n         RootPage() -> 'Year' -> YearPage(v) } }\nOUTPUT Home\n",
        canonical: "INPUT Bib\n{ CREATE RootPage() }\n{ WHERE Publications(x), x -> l -> v CREATE \
            PaperPage(x) LINK PaperPage(x) -> l -> v, RootPage() -> 'Paper' -> PaperPage(x) { WHERE l = \
            'year' CREATE YearPage(v) LINK YearPage(v) -> 'Year' -> v, YearPage(v) -> 'Paper' -> \
            PaperPage(x), RootPage() -> 'Year' -> YearPage(v) } }\nOUTPUT Home\n",
    },
];

/// Compares what is printed of the query that a text spells with its canonical text.
pub fn check_printed<R: AllocGlobal + Abort>(
    rt: &R,
    text: &str,
    canonical: &str,
) -> Result<(), Fail> {
    let text = quoted(rt.alloc(), text)?;
    let query = parse(rt.alloc(), text.as_bytes(), LIMIT)?;
    let mut out = Vec::new(rt.alloc());
    print(&query, &mut out)?;
    check_text(rt, out.as_slice(), canonical, canonical)
}

#[test]
fn queries_are_printed(rt: HostRuntime) -> Result<(), Fail> {
    for row in QUERIES {
        check_printed(&rt, row.text, row.canonical)?;
        check_printed(&rt, row.canonical, row.canonical)?;
    }
    Ok(())
}
