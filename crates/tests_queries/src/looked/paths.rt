// The ends of walks, by the parts of their expression.
use rpe::Rpe;
use sd_graph::Graph;
use sd_value::{Datum, NoMemory, Str, Value, copied_list, copy, sort_and_dedup};
use std::alloc::Global;

/// Whether the value is the node of this name.
pub fn is_node(name: &Str, value: &Value) -> bool {
    match value {
        Value::Data(Datum::Node(other)) => name == other,
        _ => false,
    }
}

fn push_ends(
    alloc: Global,
    graph: &Graph,
    label: Option<&Str>,
    start: &Value,
    ends: &mut Vec<Value>,
) -> Result<(), NoMemory> {
    for edge in graph.edges() {
        let has_label = match label {
            Some(label) => edge.label == *label,
            None => true,
        };
        if has_label && is_node(&edge.from, start) {
            ends.push(copy(alloc, &edge.to)?)?;
        }
    }
    Ok(())
}

// One step from each of the values, by the label or any.
fn stepped(
    alloc: Global,
    graph: &Graph,
    label: Option<&Str>,
    starts: &[Value],
) -> Result<Vec<Value>, NoMemory> {
    let mut ends = Vec::new(alloc);
    for start in starts {
        push_ends(alloc, graph, label, start, &mut ends)?;
    }
    Ok(ends)
}

fn join(ends: &mut Vec<Value>, more: Vec<Value>) -> Result<(), NoMemory> {
    for value in more {
        ends.push(value)?;
    }
    sort_and_dedup(ends);
    Ok(())
}

/// Where words of the expression lead from the values. A walk that doesn't come back has at most as many steps as there
/// are edges.
pub fn ends(
    alloc: Global,
    graph: &Graph,
    expression: &Rpe,
    starts: &[Value],
) -> Result<Vec<Value>, NoMemory> {
    match expression {
        Rpe::Label(label) => stepped(alloc, graph, Some(label), starts),
        Rpe::Any => stepped(alloc, graph, None, starts),
        Rpe::Empty => copied_list(alloc, starts),
        Rpe::Seq(first, second) => {
            let middle = ends(alloc, graph, first, starts)?;
            ends(alloc, graph, second, middle.as_slice())
        }
        Rpe::Alt(one, other) => {
            let mut found = ends(alloc, graph, one, starts)?;
            join(&mut found, ends(alloc, graph, other, starts)?)?;
            Ok(found)
        }
        Rpe::Star(body) => {
            let mut reached = copied_list(alloc, starts)?;
            for _edge in graph.edges() {
                let more = ends(alloc, graph, body, reached.as_slice())?;
                join(&mut reached, more)?;
            }
            Ok(reached)
        }
    }
}
