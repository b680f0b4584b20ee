// Queries at the limits of the grammar, which are printed as they are.
use crate::printed::queries::check_printed;
use std::test::Fail;

// A piece this many times.
struct Pieces {
    piece: &'static str,
    count: usize,
}

// A canonical text, with `'` for each quote: pieces before and behind a middle, between a head and an end.
struct Repeated {
    head: &'static str,
    before: Pieces,
    middle: &'static str,
    behind: Pieces,
    end: &'static str,
}

const LIMITS: &[Repeated] = &[
    // 1,023 signs, and 64 stars one directly within another.
    Repeated {
        head: "INPUT D\n{ WHERE x -> ()",
        before: Pieces {
            piece: ".()",
            count: 1023,
        },
        middle: "",
        behind: Pieces {
            piece: "",
            count: 0,
        },
        end: " -> y }\nOUTPUT S\n",
    },
    Repeated {
        head: "INPUT D\n{ WHERE x -> ()",
        before: Pieces {
            piece: "|()",
            count: 1023,
        },
        middle: "",
        behind: Pieces {
            piece: "",
            count: 0,
        },
        end: " -> y }\nOUTPUT S\n",
    },
    Repeated {
        head: "INPUT D\n{ WHERE x -> ()",
        before: Pieces {
            piece: "*",
            count: 64,
        },
        middle: "",
        behind: Pieces {
            piece: "",
            count: 0,
        },
        end: " -> y }\nOUTPUT S\n",
    },
    // Sixty-four parentheses one within another, each of them needed.
    Repeated {
        head: "INPUT D\n{ WHERE x -> ",
        before: Pieces {
            piece: "'a'.(",
            count: 64,
        },
        middle: "'b'.'c'",
        behind: Pieces {
            piece: ")",
            count: 64,
        },
        end: " -> y }\nOUTPUT S\n",
    },
    // Sixteen blocks, one within another.
    Repeated {
        head: "INPUT D\n",
        before: Pieces {
            piece: "{ ",
            count: 15,
        },
        middle: "{",
        behind: Pieces {
            piece: " }",
            count: 16,
        },
        end: "\nOUTPUT S\n",
    },
];

#[test]
fn queries_at_limits_are_printed(rt: HostRuntime) -> Result<(), Fail> {
    let alloc = rt.alloc();
    for row in LIMITS {
        let before = row.before.piece.repeat(alloc, row.before.count)?;
        let behind = row.behind.piece.repeat(alloc, row.behind.count)?;
        let parts = [row.head, &before, row.middle, &behind, row.end];
        let text = parts.concat(alloc)?;
        check_printed(&rt, &text, &text)?;
    }
    Ok(())
}
