// Files that are refused, each at its place.
use crate::graphs::graph_for;
use sd_value::{NoMemory, Str};
use std::alloc::Global;
use std::test::Fail;
use text_source::{TextFileRefusal, read_text};

struct Row {
    text: &'static [u8],
    // the most nodes, and the most edges and members
    nodes: u64,
    edges: u64,
    refusal: TextFileRefusal,
}

// What most rows have.
const ROW: Row = Row {
    text: b"",
    nodes: 10,
    edges: 100,
    refusal: TextFileRefusal::Expected(13),
};

const REFUSED: &[Row] = &[
    // an item without a label above it, one below a label with a value, and a line that is neither
    Row {
        text: b"---\ntitle: x\n- a\n---\n",
        ..ROW
    },
    Row {
        text: b"---\ntags: [a]\n- b\n---\n",
        refusal: TextFileRefusal::Expected(14),
        ..ROW
    },
    Row {
        text: b"---\ntitle: x\njust words\n---\n",
        ..ROW
    },
    // lines that begin with a blank or a sign, a label without a blank after it, and none
    Row {
        text: b"---\ntitle: x\n y: 1\n---\n",
        ..ROW
    },
    Row {
        text: b"---\ntitle: x\n-y: 1\n---\n",
        ..ROW
    },
    Row {
        text: b"---\ntitle: x\ny:1\n---\n",
        ..ROW
    },
    Row {
        text: b"---\ntitle: x\n: y\n---\n",
        ..ROW
    },
    // places count a byte order mark, and bytes of CR LF
    Row {
        text: b"\xef\xbb\xbf---\nx\n---\n",
        refusal: TextFileRefusal::Expected(7),
        ..ROW
    },
    Row {
        text: b"---\r\ntitle: x\r\nx\r\n---\r\n",
        refusal: TextFileRefusal::Expected(15),
        ..ROW
    },
    // no text
    Row {
        text: b"ab\xff",
        refusal: TextFileRefusal::NotUtf8(2),
        ..ROW
    },
    Row {
        text: b"\xef\xbb\xbfx\xff",
        refusal: TextFileRefusal::NotUtf8(4),
        ..ROW
    },
    Row {
        text: b"---\nx\n---\n\xff",
        refusal: TextFileRefusal::NotUtf8(10),
        ..ROW
    },
    // no room
    Row {
        text: b"x",
        nodes: 0,
        refusal: TextFileRefusal::TooManyNodes(0),
        ..ROW
    },
    Row {
        text: b"---\nx: 1\ny: 2\n---\n",
        edges: 3,
        refusal: TextFileRefusal::TooManyEdges(9),
        ..ROW
    },
];

fn answer(alloc: Global, row: &Row) -> Result<Option<TextFileRefusal>, NoMemory> {
    let stem = Str::new(alloc, b"a")?;
    let mut graph = graph_for(alloc, row.nodes, row.edges);
    Ok(read_text(alloc, &stem, &None, row.text, &mut graph).err())
}

#[test]
fn files_are_refused_at_their_places(rt: HostRuntime) -> Result<(), Fail> {
    for row in REFUSED {
        let found = answer(rt.alloc(), row)?;
        let wanted = Some(row.refusal);
        if found != wanted {
            return Err(Fail::new(format_args!("{found:?} in place of {wanted:?}")));
        }
    }
    Ok(())
}
