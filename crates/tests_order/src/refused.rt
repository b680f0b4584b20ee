// ORDERs for whose edges there is no room, with the limit worked out by hand.
use crate::asked::{OrderRow, PlaceRow, ordered};
use graph_order::OrderFault;
use std::test::Fail;

// The most edges and members, and why the row's ORDERs are refused, or none.
struct RefusalRow {
    edges: u64,
    fault: Option<OrderFault>,
}

// Two members and three edges.
const DATA: &str = "object a in A { n 1 } object b in A { n 2 n 3 }";

// The first makes two edges, and the second three.
const ORDERS: &[OrderRow] = &[
    OrderRow {
        collection: "A",
        word: &["n"],
        fold: false,
        descend: false,
        places: &[PlaceRow::Position("p")],
    },
    OrderRow {
        collection: "A",
        word: &["n"],
        fold: false,
        descend: true,
        places: &[PlaceRow::Next("x"), PlaceRow::Page("y", 2)],
    },
];

const REFUSALS: &[RefusalRow] = &[
    RefusalRow {
        edges: 5,
        fault: Some(OrderFault::TooManyEdges(0)),
    },
    RefusalRow {
        edges: 6,
        fault: Some(OrderFault::TooManyEdges(0)),
    },
    RefusalRow {
        edges: 7,
        fault: Some(OrderFault::TooManyEdges(1)),
    },
    RefusalRow {
        edges: 9,
        fault: Some(OrderFault::TooManyEdges(1)),
    },
    RefusalRow {
        edges: 10,
        fault: None,
    },
];

#[test]
fn an_order_without_room_is_refused(rt: HostRuntime) -> Result<(), Fail> {
    let alloc = rt.alloc();
    for row in REFUSALS {
        let fault = ordered(alloc, row.edges, DATA, ORDERS)?.err();
        if fault == Some(OrderFault::NoMemory) {
            return Err(Fail::new("out of memory"));
        }
        if fault != row.fault {
            return Err(Fail::new(format_args!("at most {} edges: {fault:?}", row.edges)));
        }
    }
    Ok(())
}
