// BibTeX texts, and the graphs that they state, worked out by hand.
use crate::graphs::{check_graph, graph_for};
use bibtex_source::{BibRules, read_bibtex};
use sd_value::Str;
use std::alloc::Global;
use std::test::Fail;

fn check_stated(alloc: Global, text: &[u8], wanted: &[u8]) -> Result<(), Fail> {
    let stem = Str::new(alloc, b"b")?;
    let mut graph = graph_for(alloc, 9, 99);
    read_bibtex(alloc, BibRules::STRICT, &stem, text, &mut graph)?;
    check_graph(alloc, graph, wanted)
}

#[test]
fn the_worked_text(rt: HostRuntime) -> Result<(), Fail> {
    check_stated(
        rt.alloc(),
        b"@string{s = \"ACM\"}\n@article{k1, author = {Dan and {Mary and Co}}, title = \"A {B}\" # s, year = 1998, month = jan,}",
        b"object \"k1\" in \"article\", \"b\" {\n  \"author\" \"Dan\"\n  \"author\" \"{Mary and Co}\"\n  \
            \"month\" \"jan\"\n  \"title\" \"A {B}ACM\"\n  \"year\" 1998\n}\n",
    )
}

#[test]
fn types_and_names_are_lower_case(rt: HostRuntime) -> Result<(), Fail> {
    check_stated(
        rt.alloc(),
        b"@MISC(K:1/a, TITLE = {X})",
        b"object \"K:1/a\" in \"b\", \"misc\" {\n  \"title\" \"X\"\n}\n",
    )
}

#[test]
fn runs_of_blanks_are_a_space(rt: HostRuntime) -> Result<(), Fail> {
    check_stated(
        rt.alloc(),
        b"@misc{k, a = {\r\n x\t\r\n y }, b = \" \", c = {p} # { } # {q}}",
        b"object \"k\" in \"b\", \"misc\" {\n  \"a\" \"x y\"\n  \"c\" \"p q\"\n}\n",
    )
}

#[test]
fn blanks_of_a_macro_stand_between_pieces(rt: HostRuntime) -> Result<(), Fail> {
    check_stated(
        rt.alloc(),
        b"@string{s = \" of  it \"}@misc{k, a = {all} # s, b = s}",
        b"object \"k\" in \"b\", \"misc\" {\n  \"a\" \"all of it\"\n  \"b\" \"of it\"\n}\n",
    )
}

#[test]
fn people_are_split_outside_braces(rt: HostRuntime) -> Result<(), Fail> {
    check_stated(
        rt.alloc(),
        b"@misc{k, author = {A and B AND C and {D and E} and  and F and\nG}, editor = \"H and I\", note = {J and K}}",
        b"object \"k\" in \"b\", \"misc\" {\n  \"author\" \"A\"\n  \"author\" \"B AND C\"\n  \"author\" \
            \"F\"\n  \"author\" \"G\"\n  \"author\" \"{D and E}\"\n  \"editor\" \"H\"\n  \"editor\" \
            \"I\"\n  \"note\" \"J and K\"\n}\n",
    )
}

#[test]
fn empty_people_are_no_edges(rt: HostRuntime) -> Result<(), Fail> {
    check_stated(
        rt.alloc(),
        b"@misc{k, author = {and}, editor = {A and }}",
        b"object \"k\" in \"b\", \"misc\" {\n  \"author\" \"and\"\n  \"editor\" \"A and\"\n}\n",
    )
}

#[test]
fn integers_of_64_bits_are_numbers(rt: HostRuntime) -> Result<(), Fail> {
    check_stated(
        rt.alloc(),
        b"@misc{k, a = 9223372036854775807, b = 9223372036854775808, c = {-7}, d = 007, e = 1 # 2}",
        b"object \"k\" in \"b\", \"misc\" {\n  \"a\" 9223372036854775807\n  \"b\" \
            \"9223372036854775808\"\n  \"c\" -7\n  \"d\" \"007\"\n  \"e\" 12\n}\n",
    )
}

#[test]
fn a_key_twice_adds(rt: HostRuntime) -> Result<(), Fail> {
    check_stated(
        rt.alloc(),
        b"@misc{k, a = 1} @book{k, a = 2, b = 3, b = 4}",
        b"object \"k\" in \"b\", \"book\", \"misc\" {\n  \"a\" 1\n  \"a\" 2\n  \"b\" 3\n  \"b\" 4\n}\n",
    )
}

#[test]
fn junk_and_comments_are_passed(rt: HostRuntime) -> Result<(), Fail> {
    check_stated(
        rt.alloc(),
        b"x } @comment{ @misc{k, a = \"q {\"} b\"} y",
        b"object \"k\" in \"b\", \"misc\" {\n  \"a\" \"q {\\\"} b\"\n}\n",
    )
}

#[test]
fn macros_are_those_defined_before(rt: HostRuntime) -> Result<(), Fail> {
    check_stated(
        rt.alloc(),
        b"@string{a = {x}} @misc{k, v = a} @string{A = \"y\" # a} @misc{l, v = a # Jan}",
        b"object \"k\" in \"b\", \"misc\" {\n  \"v\" \"x\"\n}\nobject \"l\" in \"b\", \"misc\" {\n  \"v\" \"yxjan\"\n}\n",
    )
}
