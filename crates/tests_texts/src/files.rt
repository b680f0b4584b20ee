// Files that are read, with the graphs that they state.
use crate::graphs::{check_graph, graph_for};
use sd_value::Str;
use std::alloc::Global;
use std::test::Fail;
use text_source::read_text;

// The stem of a file, its folder (none if empty), its bytes, and the data text of what it states.
struct Row {
    stem: &'static str,
    folder: &'static str,
    text: &'static str,
    graph: &'static str,
}

// What most rows have.
const ROW: Row = Row {
    stem: "a",
    folder: "",
    text: "",
    graph: "",
};

const FILES: &[Row] = &[
    // front matter
    Row {
        stem: "hello",
        folder: "posts",
        text: "---\ntitle: \"Hello: you\"\ntags: [a, b c, 3]\n# a comment\n\nyear: 1999\n---\n# Hello\n\ntext\n",
        graph: "object \"hello\" in \"posts\", \"texts\" {\n  \"name\" \"hello\"\n  \"tags\" 3\n  \"tags\" \"a\"\n  \"tags\" \"b c\"\n  \"text\" \"# Hello\\n\\ntext\\n\"\n  \"title\" \"Hello: you\"\n  \"year\" 1999\n}\n",
    },
    // none
    Row {
        text: "one\r\ntwo\r\n",
        graph: "object \"a\" in \"texts\" {\n  \"name\" \"a\"\n  \"text\" \"one\\ntwo\\n\"\n}\n",
        ..ROW
    },
    Row {
        stem: "x.y",
        folder: "b.c",
        text: "<p>x</p>",
        graph: "object \"x.y\" in \"b.c\", \"texts\" {\n  \"name\" \"x.y\"\n  \"text\" \"<p>x</p>\"\n}\n",
    },
    // quotes keep a text a text, and a colon within the value stays
    Row {
        text: "---\nn: \"7\"\nm: 7\nu: http://x/\n---\n",
        graph: "object \"a\" in \"texts\" {\n  \"m\" 7\n  \"n\" \"7\"\n  \"name\" \"a\"\n  \"text\" \"\"\n  \"u\" \"http://x/\"\n}\n",
        ..ROW
    },
    // never closed, and not at the beginning
    Row {
        text: "---\ntitle: x\n",
        graph: "object \"a\" in \"texts\" {\n  \"name\" \"a\"\n  \"text\" \"---\\ntitle: x\\n\"\n}\n",
        ..ROW
    },
    Row {
        text: "\n---\ntitle: x\n---\n",
        graph: "object \"a\" in \"texts\" {\n  \"name\" \"a\"\n  \"text\" \"\\n---\\ntitle: x\\n---\\n\"\n}\n",
        ..ROW
    },
    // a list by lines
    Row {
        text: "---\ntags:\n- a\n- \"7\"\n- 7\n\n# c\n- b: c\nempty:\ntitle: x\n---\n",
        graph: "object \"a\" in \"texts\" {\n  \"name\" \"a\"\n  \"tags\" 7\n  \"tags\" \"7\"\n  \"tags\" \"a\"\n  \"tags\" \"b: c\"\n  \"text\" \"\"\n  \"title\" \"x\"\n}\n",
        ..ROW
    },
    // quotes, commas and empty values
    Row {
        text: "---\na: [\"x, y\", z, 7, \"7\", ]\nb: []\nc:\nd: \"\"\ne: \"a\"b\"\nf: \"a\n---\n",
        graph: "object \"a\" in \"texts\" {\n  \"a\" 7\n  \"a\" \"7\"\n  \"a\" \"x, y\"\n  \"a\" \"z\"\n  \"d\" \"\"\n  \"e\" \"a\\\"b\"\n  \"f\" \"\\\"a\"\n  \"name\" \"a\"\n  \"text\" \"\"\n}\n",
        ..ROW
    },
    // line ends
    Row {
        folder: "p",
        text: "---\r\ntitle: x\r\n---\r\na\r\nb\rc\r\n",
        graph: "object \"a\" in \"p\", \"texts\" {\n  \"name\" \"a\"\n  \"text\" \"a\\nb\\rc\\n\"\n  \"title\" \"x\"\n}\n",
        ..ROW
    },
    // a fence is three signs and no more
    Row {
        text: "--- \ntitle: x\n---\n",
        graph: "object \"a\" in \"texts\" {\n  \"name\" \"a\"\n  \"text\" \"--- \\ntitle: x\\n---\\n\"\n}\n",
        ..ROW
    },
    // a byte order mark
    Row {
        text: "\u{feff}x",
        graph: "object \"a\" in \"texts\" {\n  \"name\" \"a\"\n  \"text\" \"x\"\n}\n",
        ..ROW
    },
    // blanks round labels and values, and items that stand further in
    Row {
        text: "---\nmy label :\t x y \t\nk:\n  - 1\n\t- z\n   \n---",
        graph: "object \"a\" in \"texts\" {\n  \"k\" 1\n  \"k\" \"z\"\n  \"my label\" \"x y\"\n  \"name\" \"a\"\n  \"text\" \"\"\n}\n",
        ..ROW
    },
    // the label ends at a colon that stands apart
    Row {
        text: "---\na:b: c\n---\n",
        graph: "object \"a\" in \"texts\" {\n  \"a:b\" \"c\"\n  \"name\" \"a\"\n  \"text\" \"\"\n}\n",
        ..ROW
    },
];

fn check_row(alloc: Global, row: &Row) -> Result<(), Fail> {
    let stem = Str::new(alloc, row.stem.as_bytes())?;
    let folder = match row.folder {
        "" => None,
        name => Some(Str::new(alloc, name.as_bytes())?),
    };
    let mut graph = graph_for(alloc, 10, 100);
    match read_text(alloc, &stem, &folder, row.text.as_bytes(), &mut graph) {
        Ok(()) => check_graph(alloc, graph, row.graph.as_bytes()),
        Err(refusal) => Err(Fail::new(format_args!("{refusal:?} of {}", row.text))),
    }
}

#[test]
fn each_file_states_the_graph_of_its_row(rt: HostRuntime) -> Result<(), Fail> {
    for row in FILES {
        check_row(rt.alloc(), row)?;
    }
    Ok(())
}
