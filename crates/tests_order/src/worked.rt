// Graphs that were ordered by hand.
use crate::asked::{OrderRow, PlaceRow, check_graph, ordered};
use graph_order::OrderFault;
use sd_graph::MAX_EDGES;
use std::test::Fail;

// A data text, ORDERs, and the data text that they make.
struct WorkedRow {
    data: &'static str,
    orders: &'static [OrderRow],
    made: &'static str,
}

// Texts in capitals and small letters, equal numbers, and a member without either.
const FOUR: &str = "object a in A { name 'Zo' g 2 } object b in A { name 'abel' g 1 } \
    object c in A { name 'Bea' g 2 } object d in A {}";

const BY_NAME_FOLDED: OrderRow = OrderRow {
    collection: "A",
    word: &["name"],
    fold: true,
    descend: false,
    places: &[PlaceRow::Position("pos")],
};

const WORKED: &[WorkedRow] = &[
    WorkedRow {
        data: FOUR,
        orders: &[OrderRow {
            collection: "A",
            word: &["name"],
            fold: false,
            descend: false,
            places: &[
                PlaceRow::Position("pos"),
                PlaceRow::Next("nx"),
                PlaceRow::Previous("pv"),
                PlaceRow::Page("pg", 2),
            ],
        }],
        made: "object 'a' in 'A' {\n  'g' 2\n  'name' 'Zo'\n  'nx' &'b'\n  'pg' 1\n  'pos' 2\n  'pv' &'c'\n}\n\
            object 'b' in 'A' {\n  'g' 1\n  'name' 'abel'\n  'nx' &'d'\n  'pg' 2\n  'pos' 3\n  'pv' &'a'\n}\n\
            object 'c' in 'A' {\n  'g' 2\n  'name' 'Bea'\n  'nx' &'a'\n  'pg' 1\n  'pos' 1\n}\n\
            object 'd' in 'A' {\n  'pg' 2\n  'pos' 4\n  'pv' &'b'\n}\n",
    },
    WorkedRow {
        data: FOUR,
        orders: &[BY_NAME_FOLDED],
        made: "object 'a' in 'A' {\n  'g' 2\n  'name' 'Zo'\n  'pos' 3\n}\n\
            object 'b' in 'A' {\n  'g' 1\n  'name' 'abel'\n  'pos' 1\n}\n\
            object 'c' in 'A' {\n  'g' 2\n  'name' 'Bea'\n  'pos' 2\n}\nobject 'd' in 'A' {\n  'pos' 4\n}\n",
    },
    WorkedRow {
        data: FOUR,
        orders: &[OrderRow {
            collection: "A",
            word: &["g"],
            fold: false,
            descend: true,
            places: &[PlaceRow::Position("pos")],
        }],
        made: "object 'a' in 'A' {\n  'g' 2\n  'name' 'Zo'\n  'pos' 1\n}\n\
            object 'b' in 'A' {\n  'g' 1\n  'name' 'abel'\n  'pos' 3\n}\n\
            object 'c' in 'A' {\n  'g' 2\n  'name' 'Bea'\n  'pos' 2\n}\nobject 'd' in 'A' {\n  'pos' 4\n}\n",
    },
    WorkedRow {
        data: FOUR,
        orders: &[
            BY_NAME_FOLDED,
            OrderRow {
                collection: "A",
                word: &["pos"],
                fold: false,
                descend: true,
                places: &[PlaceRow::Position("back")],
            },
        ],
        made: "object 'a' in 'A' {\n  'back' 2\n  'g' 2\n  'name' 'Zo'\n  'pos' 3\n}\n\
            object 'b' in 'A' {\n  'back' 4\n  'g' 1\n  'name' 'abel'\n  'pos' 1\n}\n\
            object 'c' in 'A' {\n  'back' 3\n  'g' 2\n  'name' 'Bea'\n  'pos' 2\n}\n\
            object 'd' in 'A' {\n  'back' 1\n  'pos' 4\n}\n",
    },
    WorkedRow {
        data: "object a in A { to &p } object b in A { to &q } object p { name 'z' } object q { name 'y' }",
        orders: &[OrderRow {
            collection: "A",
            word: &["to", "name"],
            fold: false,
            descend: false,
            places: &[PlaceRow::Position("pos")],
        }],
        made: "object 'a' in 'A' {\n  'pos' 2\n  'to' &'p'\n}\nobject 'b' in 'A' {\n  'pos' 1\n  'to' &'q'\n}\n\
            object 'p' {\n  'name' 'z'\n}\nobject 'q' {\n  'name' 'y'\n}\n",
    },
    WorkedRow {
        data: "object a in A {}",
        orders: &[OrderRow {
            collection: "Z",
            word: &["name"],
            fold: false,
            descend: false,
            places: &[PlaceRow::Position("pos")],
        }],
        made: "object 'a' in 'A' {\n}\n",
    },
    WorkedRow {
        data: "object a in A, B { n 1 } object b in B { n 2 }",
        orders: &[
            OrderRow {
                collection: "A",
                word: &["n"],
                fold: false,
                descend: false,
                places: &[PlaceRow::Position("p")],
            },
            OrderRow {
                collection: "B",
                word: &["n"],
                fold: false,
                descend: true,
                places: &[PlaceRow::Position("p")],
            },
        ],
        made: "object 'a' in 'A', 'B' {\n  'n' 1\n  'p' 1\n  'p' 2\n}\nobject 'b' in 'B' {\n  'n' 2\n  'p' 1\n}\n",
    },
    WorkedRow {
        data: "object a in A { name 'Zoe' name 'abel' } object b in A { name 'Bea' }",
        orders: &[BY_NAME_FOLDED],
        made: "object 'a' in 'A' {\n  'name' 'Zoe'\n  'name' 'abel'\n  'pos' 1\n}\n\
            object 'b' in 'A' {\n  'name' 'Bea'\n  'pos' 2\n}\n",
    },
    WorkedRow {
        data: "object a in A { name 'ä' } object b in A { name 'a' } object c in A { name 'A' } \
            object d in A { name 7 }",
        orders: &[BY_NAME_FOLDED],
        made: "object 'a' in 'A' {\n  'name' 'ä'\n  'pos' 4\n}\nobject 'b' in 'A' {\n  'name' 'a'\n  'pos' 3\n}\n\
            object 'c' in 'A' {\n  'name' 'A'\n  'pos' 2\n}\nobject 'd' in 'A' {\n  'name' 7\n  'pos' 1\n}\n",
    },
];

#[test]
fn graphs_are_ordered_as_by_hand(rt: HostRuntime) -> Result<(), Fail> {
    let alloc = rt.alloc();
    for row in WORKED {
        match ordered(alloc, MAX_EDGES, row.data, row.orders)? {
            Ok(graph) => check_graph(alloc, &graph, row.made)?,
            Err(OrderFault::NoMemory) => return Err(Fail::new("out of memory")),
            Err(OrderFault::TooManyEdges(number)) => {
                return Err(Fail::new(format_args!("{}: ORDER {number}", row.data)));
            }
        }
    }
    Ok(())
}
