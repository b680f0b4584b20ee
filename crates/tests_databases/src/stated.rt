// Databases, and the graphs that they state, worked out by hand.
use crate::databases::{ADDED, Database, LIBRARY, SELF};
use crate::graphs::{check_graph, graph_for};
use sd_value::Str;
use sqlite_source::read_sqlite;
use std::alloc::Global;
use std::test::Fail;

fn check_stated(alloc: Global, database: &Database, wanted: &[u8]) -> Result<(), Fail> {
    let stem = Str::new(alloc, b"d")?;
    let bytes = database.bytes(alloc)?;
    let mut graph = graph_for(alloc, 9, 99);
    if let Err(refusal) = read_sqlite(alloc, &stem, &bytes, &mut graph) {
        return Err(Fail::new(format_args!("{refusal:?}")));
    }
    check_graph(alloc, graph, wanted)
}

#[test]
fn a_library(rt: HostRuntime) -> Result<(), Fail> {
    check_stated(
        rt.alloc(),
        &LIBRARY,
        b"object \"d_author_1\" in \"author\" {\n  \"born\" 1965\n  \"id\" 1\n  \"name\" \"Mary\"\n}\n\
            object \"d_author_2\" in \"author\" {\n  \"id\" 2\n  \"name\" \"Dan\"\n}\n\
            object \"d_book_1\" in \"book\" {\n  \"author\" &\"d_author_1\"\n  \"isbn\" \"a-1\"\n  \
            \"price\" \"12.5\"\n  \"title\" \"Strudel\"\n  \"year\" 1998\n}\n\
            object \"d_book_2\" in \"book\" {\n  \"author\" &\"d_author_2\"\n  \"isbn\" \"a-2\"\n  \
            \"title\" \"Lorel\"\n  \"year\" 1997\n}\n\
            object \"d_book_3\" in \"book\" {\n  \"isbn\" \"b-9\"\n  \"price\" \"1.0e+20\"\n  \
            \"title\" \"No author\"\n}\n",
    )
}

#[test]
fn rows_from_before_a_column_have_its_default(rt: HostRuntime) -> Result<(), Fail> {
    check_stated(
        rt.alloc(),
        &ADDED,
        b"object \"d_t_1\" in \"t\" {\n  \"c\" 1\n  \"y\" \"q\"\n  \"z\" \"7.0\"\n}\n\
            object \"d_t_2\" in \"t\" {\n  \"c\" 2\n  \"y\" \"r\"\n}\n",
    )
}

#[test]
fn a_row_that_is_not_there_is_in_no_collection(rt: HostRuntime) -> Result<(), Fail> {
    check_stated(
        rt.alloc(),
        &SELF,
        b"object \"d_t_-1\" in \"t\" {\n  \"id\" -1\n  \"n\" \"x\"\n  \"to_name\" \"x\"\n  \
            \"up\" &\"d_t_7\"\n}\nobject \"d_t_7\" {\n}\n",
    )
}
