// The lines of certificates, beside the texts that were worked by hand.
use crate::checks::{check, check_text, scoped_query};
use crate::recheck;
use certificate_text::{print_unknown, print_yes};
use constraint_spec::{Certificate, Constraint, LinkUse, MentionProof};
use query_scoping::ScopedQuery;
use schema::paths_of;
use sd_value::{NoMemory, Str};
use std::alloc::Global;
use std::test::Fail;

const PAPERS: &[u8] = b"INPUT Bib { CREATE RootPage() } \
    { WHERE Publications(x), x -> l -> v CREATE PaperPage(x) \
    LINK PaperPage(x) -> l -> v, RootPage() -> \"Paper\" -> PaperPage(x) \
    { WHERE l = \"year\" CREATE YearPage(v) \
    LINK YearPage(v) -> \"Year\" -> v, YearPage(v) -> \"Paper\" -> PaperPage(x), \
    RootPage() -> \"Year\" -> YearPage(v) } } OUTPUT Home";

const YEARS: &[u8] = b"2 yes
  2.1 YearPage(v): link 3 {x=x, l=l, v=v}
  2.1 YearPage(v): link 3 {x=x, l=l, v=v}
  2.1 YearPage(v): link 3 {x=x, l=l, v=v}
  2.1 YearPage(v): link 3 {x=x, l=l, v=v}
";

// For each mention the link by which a certificate shows that a year's page has one Year, and its lines, if it is one.
struct CertificateRow {
    links: &'static [usize],
    lines: Option<&'static [u8]>,
    reason: &'static str,
}

// Link 3, YearPage(v) -> "Year" -> v, is each year's page's own: the mentions are the CREATE, the
// sources of links 3 and 4, and the target of link 5.
const CERTIFICATES: &[CertificateRow] = &[
    CertificateRow {
        links: &[3, 3, 3, 3],
        lines: Some(YEARS),
        reason: "link 3 shows it",
    },
    CertificateRow {
        links: &[4, 4, 4, 4],
        lines: None,
        reason: "link 4 is by another label",
    },
    CertificateRow {
        links: &[3],
        lines: None,
        reason: "one mention of four",
    },
];

// A use of each link, that maps each variable to itself.
fn certificate_of(alloc: Global, links: &[usize]) -> Result<Certificate, NoMemory> {
    let mut proofs = Vec::new(alloc);
    for link in links {
        let mut names = Vec::new(alloc);
        names.push(Str::new(alloc, b"x")?)?;
        names.push(Str::new(alloc, b"l")?)?;
        names.push(Str::new(alloc, b"v")?)?;
        let uses = vec![in alloc; LinkUse::new(*link, names)]?;
        proofs.push(MentionProof::new(uses))?;
    }
    Ok(Certificate::new(proofs))
}

fn check_certificate(alloc: Global, query: &ScopedQuery, row: &CertificateRow) -> Result<(), Fail> {
    let certificate = certificate_of(alloc, row.links)?;
    let constraint = Constraint::One {
        function: Str::new(alloc, b"YearPage")?,
        label: Str::new(alloc, b"Year")?,
    };
    let is_one = recheck(alloc, query, &constraint, &certificate)?;
    check(is_one == row.lines.is_some(), row.reason)?;
    let Some(lines) = row.lines else {
        return Ok(());
    };
    let blocks = query.blocks();
    let paths = paths_of(alloc, &query.query().blocks)?;
    let mut out = Vec::new(alloc);
    if paths.len() == blocks.blocks.len() {
        print_yes(
            alloc,
            blocks,
            &paths,
            2,
            &constraint,
            &certificate,
            &mut out,
        )?;
    }
    check_text(&out, lines, row.reason)
}

#[test]
fn certificates_have_their_lines(rt: HostRuntime) -> Result<(), Fail> {
    let query = scoped_query(rt.alloc(), PAPERS)?;
    for row in CERTIFICATES {
        check_certificate(rt.alloc(), &query, row)?;
    }
    let mut unknown = Vec::new(rt.alloc());
    print_unknown(2, &mut unknown)?;
    check_text(&unknown, b"2 unknown\n", "unknown")
}
