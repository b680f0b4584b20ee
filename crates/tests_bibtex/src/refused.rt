// BibTeX texts that are refused, with their places worked out by hand.
use crate::checks::check;
use crate::graphs::{check_graph, graph_for};
use bibtex_source::{BibRefusal, BibRules, read_bibtex};
use sd_value::{NoMemory, Str};
use std::alloc::Global;
use std::test::Fail;

// A text, the most nodes and edges that are added, and why it is refused, or none.
struct RefusalRow {
    text: &'static [u8],
    nodes: u64,
    edges: u64,
    refusal: Option<BibRefusal>,
}

const REFUSALS: &[RefusalRow] = &[
    RefusalRow {
        text: b"@misc{k",
        nodes: 9,
        edges: 9,
        refusal: Some(BibRefusal::Expected(7)),
    },
    RefusalRow {
        text: b"@",
        nodes: 9,
        edges: 9,
        refusal: Some(BibRefusal::Expected(1)),
    },
    RefusalRow {
        text: b"@ 1",
        nodes: 9,
        edges: 9,
        refusal: Some(BibRefusal::Expected(2)),
    },
    RefusalRow {
        text: b"@misc",
        nodes: 9,
        edges: 9,
        refusal: Some(BibRefusal::Expected(5)),
    },
    RefusalRow {
        text: b"@misc k",
        nodes: 9,
        edges: 9,
        refusal: Some(BibRefusal::Expected(6)),
    },
    RefusalRow {
        text: b"@misc{,",
        nodes: 9,
        edges: 9,
        refusal: Some(BibRefusal::Expected(6)),
    },
    RefusalRow {
        text: b"@misc{k)",
        nodes: 9,
        edges: 9,
        refusal: Some(BibRefusal::Expected(7)),
    },
    RefusalRow {
        text: b"@misc(k}",
        nodes: 9,
        edges: 9,
        refusal: Some(BibRefusal::Expected(7)),
    },
    RefusalRow {
        text: b"@misc{k,}",
        nodes: 9,
        edges: 9,
        refusal: None,
    },
    RefusalRow {
        text: b"@misc{k,,}",
        nodes: 9,
        edges: 9,
        refusal: Some(BibRefusal::Expected(8)),
    },
    RefusalRow {
        text: b"@misc{k, 1 = {}}",
        nodes: 9,
        edges: 9,
        refusal: Some(BibRefusal::Expected(9)),
    },
    RefusalRow {
        text: b"@misc{k, a 1}",
        nodes: 9,
        edges: 9,
        refusal: Some(BibRefusal::Expected(11)),
    },
    RefusalRow {
        text: b"@misc{k, a = }",
        nodes: 9,
        edges: 9,
        refusal: Some(BibRefusal::Expected(13)),
    },
    RefusalRow {
        text: b"@misc{k, a = 1 b = 2}",
        nodes: 9,
        edges: 9,
        refusal: Some(BibRefusal::Expected(15)),
    },
    RefusalRow {
        text: b"@misc{k, a = 1x}",
        nodes: 9,
        edges: 9,
        refusal: Some(BibRefusal::Expected(14)),
    },
    RefusalRow {
        text: b"@misc{k, a = {b}",
        nodes: 9,
        edges: 9,
        refusal: Some(BibRefusal::Expected(16)),
    },
    RefusalRow {
        text: b"@misc{k, a = {b",
        nodes: 9,
        edges: 9,
        refusal: Some(BibRefusal::Expected(15)),
    },
    RefusalRow {
        text: b"@misc{k, a = \"b}\"}",
        nodes: 9,
        edges: 9,
        refusal: Some(BibRefusal::Expected(15)),
    },
    RefusalRow {
        text: b"@misc{k, a = \"{b\"}",
        nodes: 9,
        edges: 9,
        refusal: Some(BibRefusal::Expected(18)),
    },
    RefusalRow {
        text: b"@misc{k, a = {\"}}",
        nodes: 9,
        edges: 9,
        refusal: None,
    },
    RefusalRow {
        text: b"@misc{k, note = x}",
        nodes: 9,
        edges: 9,
        refusal: Some(BibRefusal::UnknownMacro(16)),
    },
    RefusalRow {
        text: b"@misc{k, note = x",
        nodes: 9,
        edges: 9,
        refusal: Some(BibRefusal::UnknownMacro(16)),
    },
    RefusalRow {
        text: b"@misc{k, note = x;",
        nodes: 9,
        edges: 9,
        refusal: Some(BibRefusal::UnknownMacro(16)),
    },
    RefusalRow {
        text: b"@misc{k, note = jan",
        nodes: 9,
        edges: 9,
        refusal: Some(BibRefusal::Expected(19)),
    },
    RefusalRow {
        text: b"@misc{k, a = s}@string{s = 1}",
        nodes: 9,
        edges: 9,
        refusal: Some(BibRefusal::UnknownMacro(13)),
    },
    RefusalRow {
        text: b"@string{s = 1}@misc{k, a = S}",
        nodes: 9,
        edges: 9,
        refusal: None,
    },
    RefusalRow {
        text: b"@string{s = s}",
        nodes: 9,
        edges: 9,
        refusal: Some(BibRefusal::UnknownMacro(12)),
    },
    RefusalRow {
        text: b"@string{s = 1} @string(t = s # s) @misc{k, a = t}",
        nodes: 9,
        edges: 9,
        refusal: None,
    },
    RefusalRow {
        text: b"@string{s}",
        nodes: 9,
        edges: 9,
        refusal: Some(BibRefusal::Expected(9)),
    },
    RefusalRow {
        text: b"@misc{k, a = {{{{{{{{{{{{{{{{{{{{{{{{{{{{{{{{{{{{{{{{{{{{{{{{{{{{{{{{{{{{{{{{}}}}}}}}}}}}}}}\
            }}}}}}}}}}}}}}}}}}}}}}}}}}}}}}}}}}}}}}}}}}}}}}}}}}",
        nodes: 9,
        edges: 9,
        refusal: None,
    },
    RefusalRow {
        text: b"@misc{k, a = {{{{{{{{{{{{{{{{{{{{{{{{{{{{{{{{{{{{{{{{{{{{{{{{{{{{{{{{{{{{{{{{{}}}}}}}}}}}}}}\
            }}}}}}}}}}}}}}}}}}}}}}}}}}}}}}}}}}}}}}}}}}}}}}}}}}}}",
        nodes: 9,
        edges: 9,
        refusal: Some(BibRefusal::TooDeep(77)),
    },
    RefusalRow {
        text: b"@misc{k, a = \"{{{{{{{{{{{{{{{{{{{{{{{{{{{{{{{{{{{{{{{{{{{{{{{{{{{{{{{{{{{{{{{}}}}}}}}}}}}}}\
            }}}}}}}}}}}}}}}}}}}}}}}}}}}}}}}}}}}}}}}}}}}}}}}}}\"}",
        nodes: 9,
        edges: 9,
        refusal: None,
    },
    RefusalRow {
        text: b"@misc{k, a = \"{{{{{{{{{{{{{{{{{{{{{{{{{{{{{{{{{{{{{{{{{{{{{{{{{{{{{{{{{{{{{{{{}}}}}}}}}}}}}\
            }}}}}}}}}}}}}}}}}}}}}}}}}}}}}}}}}}}}}}}}}}}}}}}}}}}\"}",
        nodes: 9,
        edges: 9,
        refusal: Some(BibRefusal::TooDeep(77)),
    },
    RefusalRow {
        text: b"@misc{k, a = {{}} # {{{{{{{{{{{{{{{{{{{{{{{{{{{{{{{{{{{{{{{{{{{{{{{{{{{{{{{{{{{{{{{{{",
        nodes: 9,
        edges: 9,
        refusal: Some(BibRefusal::TooDeep(84)),
    },
    RefusalRow {
        text: b"@comment{k",
        nodes: 9,
        edges: 9,
        refusal: None,
    },
    RefusalRow {
        text: b"@comment",
        nodes: 9,
        edges: 9,
        refusal: None,
    },
    RefusalRow {
        text: b"@comment @misc{",
        nodes: 9,
        edges: 9,
        refusal: Some(BibRefusal::Expected(15)),
    },
    RefusalRow {
        text: b"@commentary{k}",
        nodes: 9,
        edges: 9,
        refusal: None,
    },
    RefusalRow {
        text: b"@preamble{\"x\" # {y}}",
        nodes: 9,
        edges: 9,
        refusal: None,
    },
    RefusalRow {
        text: b"@preamble{x}",
        nodes: 9,
        edges: 9,
        refusal: Some(BibRefusal::UnknownMacro(10)),
    },
    RefusalRow {
        text: b"@preamble{}",
        nodes: 9,
        edges: 9,
        refusal: Some(BibRefusal::Expected(10)),
    },
    RefusalRow {
        text: b"@Preamble(\"x\")",
        nodes: 9,
        edges: 9,
        refusal: None,
    },
    RefusalRow {
        text: b"@misc{k, a = 1 # }",
        nodes: 9,
        edges: 9,
        refusal: Some(BibRefusal::Expected(17)),
    },
    RefusalRow {
        text: b"@misc{k, a = 1 # {b} # jan # \"c\"}",
        nodes: 9,
        edges: 9,
        refusal: None,
    },
    RefusalRow {
        text: b"@string{a={0123456789abcdef}}@string{b=a#a#a#a#a#a#a#a#a#a#a#a#a#a#a#a}@string{c=b#b#b#b#b#b#b#b#b#b#b#b#b#b#b#b}@string{d=c#c#c#c#c#c#c#c#c#c#c#c#c#c#c#c}@string{e=d#d#d#d#d#d#d#d#d#d#d#d#d#d#d#d}@misc{k, t = e # {}}",
        nodes: 9,
        edges: 9,
        refusal: None,
    },
    RefusalRow {
        text: b"@string{a={0123456789abcdef}}@string{b=a#a#a#a#a#a#a#a#a#a#a#a#a#a#a#a}@string{c=b#b#b#b#b#b#b#b#b#b#b#b#b#b#b#b}@string{d=c#c#c#c#c#c#c#c#c#c#c#c#c#c#c#c}@string{e=d#d#d#d#d#d#d#d#d#d#d#d#d#d#d#d}@misc{k, t = e # a}",
        nodes: 9,
        edges: 9,
        refusal: Some(BibRefusal::TooLarge(214)),
    },
    RefusalRow {
        text: b"@string{a={0123456789abcdef}}@string{b=a#a#a#a#a#a#a#a#a#a#a#a#a#a#a#a}@string{c=b#b#b#b#b#b#b#b#b#b#b#b#b#b#b#b}@string{d=c#c#c#c#c#c#c#c#c#c#c#c#c#c#c#c}@string{e=d#d#d#d#d#d#d#d#d#d#d#d#d#d#d#d}@string{f = e # {x} # e # y}",
        nodes: 9,
        edges: 9,
        refusal: Some(BibRefusal::TooLarge(219)),
    },
    RefusalRow {
        text: b"@string{a={0123456789abcdef}}@string{b=a#a#a#a#a#a#a#a#a#a#a#a#a#a#a#a}@string{c=b#b#b#b#b#b#b#b#b#b#b#b#b#b#b#b}@string{d=c#c#c#c#c#c#c#c#c#c#c#c#c#c#c#c}@string{e=d#d#d#d#d#d#d#d#d#d#d#d#d#d#d#d}@preamble{{x} # e}",
        nodes: 9,
        edges: 9,
        refusal: Some(BibRefusal::TooLarge(213)),
    },
    RefusalRow {
        text: b"",
        nodes: 0,
        edges: 0,
        refusal: None,
    },
    RefusalRow {
        text: b"no entry",
        nodes: 0,
        edges: 0,
        refusal: None,
    },
    RefusalRow {
        text: b"\xEF\xBB\xBF@misc{k",
        nodes: 9,
        edges: 9,
        refusal: Some(BibRefusal::Expected(10)),
    },
    RefusalRow {
        text: b"@misc{\xFF, a = {\xFE}}",
        nodes: 9,
        edges: 9,
        refusal: None,
    },
    RefusalRow {
        text: b"@misc{k, a = 1}",
        nodes: 1,
        edges: 3,
        refusal: None,
    },
    RefusalRow {
        text: b"@misc{k, a = 1}",
        nodes: 1,
        edges: 2,
        refusal: Some(BibRefusal::TooManyEdges(6)),
    },
    RefusalRow {
        text: b"@misc{k, a = 1}",
        nodes: 0,
        edges: 9,
        refusal: Some(BibRefusal::TooManyNodes(6)),
    },
    RefusalRow {
        text: b"@misc{k, a = 1}@misc{l}",
        nodes: 1,
        edges: 9,
        refusal: Some(BibRefusal::TooManyNodes(21)),
    },
    RefusalRow {
        text: b"@misc{k, a = x}",
        nodes: 0,
        edges: 0,
        refusal: Some(BibRefusal::UnknownMacro(13)),
    },
    RefusalRow {
        text: b"@misc{k}@",
        nodes: 0,
        edges: 0,
        refusal: Some(BibRefusal::TooManyNodes(6)),
    },
];

fn answer(alloc: Global, row: &RefusalRow) -> Result<Option<BibRefusal>, NoMemory> {
    let stem = Str::new(alloc, b"b")?;
    let mut graph = graph_for(alloc, row.nodes, row.edges);
    Ok(read_bibtex(alloc, BibRules::STRICT, &stem, row.text, &mut graph).err())
}

#[test]
fn texts_are_refused_at_their_places(rt: HostRuntime) -> Result<(), Fail> {
    for row in REFUSALS {
        check(answer(rt.alloc(), row)? == row.refusal, "another answer")?;
    }
    Ok(())
}

// After a refusal the graph has what the entries before its place state.
fn check_left(alloc: Global, text: &[u8], wanted: &[u8]) -> Result<(), Fail> {
    let stem = Str::new(alloc, b"b")?;
    let mut graph = graph_for(alloc, 9, 6);
    check(
        read_bibtex(alloc, BibRules::STRICT, &stem, text, &mut graph).is_err(),
        "not refused",
    )?;
    check_graph(alloc, graph, wanted)
}

#[test]
fn entries_before_a_fault_are_kept(rt: HostRuntime) -> Result<(), Fail> {
    check_left(
        rt.alloc(),
        b"@misc{k, a = 1} @misc{l, a = 1, b = x}",
        b"object \"k\" in \"b\", \"misc\" {\n  \"a\" 1\n}\n",
    )
}

#[test]
fn an_entry_is_kept_up_to_the_field_without_room(rt: HostRuntime) -> Result<(), Fail> {
    check_left(
        rt.alloc(),
        b"@misc{k, a = 1} @misc{l, a = 1, b = 2}",
        b"object \"k\" in \"b\", \"misc\" {\n  \"a\" 1\n}\nobject \"l\" in \"b\", \"misc\" {\n  \"a\" 1\n}\n",
    )
}
