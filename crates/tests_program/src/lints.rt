// What a query and its templates ask for and isn't there, by the word `lint`.
use crate::checks::FILES;
use crate::runs::{PLAIN, Run, check_runs};
use std::test::Fail;

const FOUND: &str = "q: 145 NoTemplate at 314\nslips: 141 UnknownCollection at 82\n";

const NOTES: &str = "note places: 157 UnsafePlace at 53\n\
    note places: 157 UnsafePlace at 75\n\
    note places: 157 UnsafePlace at 89\n\
    note places: 157 UnsafePlace at 119\n\
    note places: 158 ActiveAddress at 153\n\
    note places: 150 ShownRaw at 170\n";

const RUNS: &[Run] = &[
    // The lines are put, and nothing is reported.
    Run {
        words: &["lint", "q", "slips", "bib"],
        code: 1,
        out: FOUND,
        err: "",
        ..PLAIN
    },
    Run {
        words: &["lint", "q", "looks", "bib"],
        code: 0,
        out: "",
        err: "",
        ..PLAIN
    },
    // Notes are told, and the status doesn't count them.
    Run {
        words: &["lint", "homes", "places", "active"],
        code: 0,
        out: NOTES,
        err: "",
        ..PLAIN
    },
    // An active address is shown as text, and another as a link.
    Run {
        words: &["page", "homes", "linked", "/", "active"],
        code: 0,
        out: "\tJavaScript:f(), <a href=\"https://x.example/\">https://x.example/</a>",
        err: "",
        ..PLAIN
    },
    // The data are read first, then the query, and then the templates.
    Run {
        words: &["lint", "bib", "q", "q"],
        code: 3,
        out: "",
        err: "strudel: q: 31 Expected at 0\n",
        ..PLAIN
    },
    Run {
        words: &["lint", "bib", "lost", "bib"],
        code: 3,
        out: "",
        err: "strudel: bib: 71 Expected at 0\n",
        ..PLAIN
    },
    Run {
        words: &["lint", "q", "q", "bib"],
        code: 3,
        out: "",
        err: "strudel: q: 81 Expected at 0\n",
        ..PLAIN
    },
    Run {
        words: &["lint", "q", "lost", "bib"],
        code: 4,
        out: "",
        err: "strudel: cannot read lost\n",
        ..PLAIN
    },
];

#[test]
fn each_lint_ends_as_its_row_says(rt: HostRuntime) -> Result<(), Fail> {
    check_runs(&rt, FILES, RUNS)
}
