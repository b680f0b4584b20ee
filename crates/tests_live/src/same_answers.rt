// Whether two stores answer each question alike.
use crate::checks::check;
use sd_graph::Store;
use sd_value::{NoMemory, Str, Value};
use std::alloc::Global;
use std::test::Fail;

// The names and values about which the stores are asked.
#[derive(Drop)]
pub(crate) struct Asked {
    pub(crate) values: Vec<Value>,
    pub(crate) labels: Vec<Str>,
    pub(crate) collections: Vec<Str>,
}

const MOST: usize = 2;

fn check_answers<T: PartialEq + Drop>(
    one: Result<T, NoMemory>,
    other: Result<T, NoMemory>,
    question: &str,
) -> Result<(), Fail> {
    check(one? == other?, question)
}

fn check_labels<A: Store, B: Store>(
    alloc: Global,
    one: &A,
    other: &B,
    labels: &[Str],
) -> Result<(), Fail> {
    for label in labels {
        check(one.is_label(label) == other.is_label(label), "is a label")?;
        check(one.edges_of(label) == other.edges_of(label), "edges of")?;
        let edges = one.edges_by(alloc, label);
        check_answers(edges, other.edges_by(alloc, label), "edges by")?;
        let first = one.first_edges(alloc, label, MOST);
        check_answers(first, other.first_edges(alloc, label, MOST), "first edges")?;
    }
    Ok(())
}

fn check_membership<A: Store, B: Store>(
    one: &A,
    other: &B,
    name: &Str,
    values: &[Value],
) -> Result<(), Fail> {
    for value in values {
        let is = one.is_member(name, value);
        check(is == other.is_member(name, value), "is a member")?;
    }
    Ok(())
}

fn check_collections<A: Store, B: Store>(
    alloc: Global,
    one: &A,
    other: &B,
    asked: &Asked,
) -> Result<(), Fail> {
    for name in &asked.collections {
        check(one.members_of(name) == other.members_of(name), "members of")?;
        let members = one.members(alloc, name);
        check_answers(members, other.members(alloc, name), "members")?;
        let first = one.first_members(alloc, name, MOST);
        let others = other.first_members(alloc, name, MOST);
        check_answers(first, others, "first members")?;
        check_membership(one, other, name, asked.values.as_slice())?;
    }
    Ok(())
}

fn check_edges<A: Store, B: Store>(
    one: &A,
    other: &B,
    from: &Value,
    label: &Str,
    values: &[Value],
) -> Result<(), Fail> {
    for to in values {
        let has = one.has_edge(from, label, to);
        check(has == other.has_edge(from, label, to), "has the edge")?;
    }
    Ok(())
}

fn check_value_labels<A: Store, B: Store>(
    alloc: Global,
    one: &A,
    other: &B,
    asked: &Asked,
    value: &Value,
) -> Result<(), Fail> {
    for label in &asked.labels {
        let out = one.out(alloc, value, label);
        check_answers(out, other.out(alloc, value, label), "out")?;
        let starts = one.incoming_by(alloc, value, label);
        check_answers(
            starts,
            other.incoming_by(alloc, value, label),
            "incoming by",
        )?;
        let count = one.count_out(value, label);
        check(count == other.count_out(value, label), "count out")?;
        let count = one.count_incoming(value, label);
        check(
            count == other.count_incoming(value, label),
            "count incoming",
        )?;
        let first = one.first_out(alloc, value, label, MOST);
        check_answers(
            first,
            other.first_out(alloc, value, label, MOST),
            "first out",
        )?;
        let first = one.first_incoming(alloc, value, label, MOST);
        let others = other.first_incoming(alloc, value, label, MOST);
        check_answers(first, others, "first incoming")?;
        check_edges(one, other, value, label, asked.values.as_slice())?;
    }
    Ok(())
}

fn check_values<A: Store, B: Store>(
    alloc: Global,
    one: &A,
    other: &B,
    asked: &Asked,
) -> Result<(), Fail> {
    for value in &asked.values {
        check(one.is_value(value) == other.is_value(value), "is a value")?;
        let degree = one.degree_out(value);
        check(degree == other.degree_out(value), "degree out")?;
        let degree = one.degree_incoming(value);
        check(degree == other.degree_incoming(value), "degree incoming")?;
        check_answers(
            one.out_all(alloc, value),
            other.out_all(alloc, value),
            "out all",
        )?;
        let incoming = one.incoming(alloc, value);
        check_answers(incoming, other.incoming(alloc, value), "incoming")?;
        check_value_labels(alloc, one, other, asked, value)?;
    }
    Ok(())
}

pub(crate) fn check_same<A: Store, B: Store>(
    alloc: Global,
    one: &A,
    other: &B,
    asked: &Asked,
) -> Result<(), Fail> {
    check(one.sizes() == other.sizes(), "sizes")?;
    check_answers(one.values(alloc), other.values(alloc), "values")?;
    check_answers(one.labels(alloc), other.labels(alloc), "labels")?;
    let first = one.first_values(alloc, MOST);
    check_answers(first, other.first_values(alloc, MOST), "first values")?;
    check_labels(alloc, one, other, asked.labels.as_slice())?;
    check_collections(alloc, one, other, asked)?;
    check_values(alloc, one, other, asked)
}
