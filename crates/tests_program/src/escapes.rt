// Every byte that a text of UTF-8 has, in each way in which a value is written. What each way makes of them was worked
// out by a program of its own, from the ways as they are defined.
use crate::runs::{FileRow, PLAIN, Run, check_run};
use std::process::Abort;
use std::test::Fail;

const QUERY: &str = "INPUT D WHERE x -> \"a\" -> y CREATE F(x) LINK F(x) -> \"a\" -> y OUTPUT S";

// The bytes below 128, one after another, in a data text.
const ASCII: &str =
    "object o { a \"\x00\x01\x02\x03\x04\x05\x06\x07\x08\\t\\n\x0b\x0c\\r\x0e\x0f\x10\x11\x12\x13\x14\
        \x15\x16\x17\x18\x19\x1a\x1b\x1c\x1d\x1e\x1f !\\\"#$%&'()*+,-./0123456789:;<=>?@ABCDEFGHIJKLMNOP\
        QRSTUVWXYZ[\\\\]^_`abcdefghijklmnopqrstuvwxyz{|}~\x7f\" }";

// Characters that have every further byte that UTF-8 has.
const BEYOND: &str =
    "object o { a \"\u{80}\u{81}\u{82}\u{83}\u{84}\u{85}\u{86}\u{87}\u{88}\u{89}\u{8a}\u{8b}\u{8c}\
        \u{8d}\u{8e}\u{8f}\u{90}\u{91}\u{92}\u{93}\u{94}\u{95}\u{96}\u{97}\u{98}\u{99}\u{9a}\u{9b}\u{9c}\
        \u{9d}\u{9e}\u{9f}\u{a0}\u{a1}\u{a2}\u{a3}\u{a4}\u{a5}\u{a6}\u{a7}\u{a8}\u{a9}\u{aa}\u{ab}\u{ac}\
        \u{ad}\u{ae}\u{af}\u{b0}\u{b1}\u{b2}\u{b3}\u{b4}\u{b5}\u{b6}\u{b7}\u{b8}\u{b9}\u{ba}\u{bb}\u{bc}\
        \u{bd}\u{be}\u{bf}\u{c0}\u{100}\u{140}\u{180}\u{1c0}\u{200}\u{240}\u{280}\u{2c0}\u{300}\u{340}\
        \u{380}\u{3c0}\u{400}\u{440}\u{480}\u{4c0}\u{500}\u{540}\u{580}\u{5c0}\u{600}\u{640}\u{680}\
        \u{6c0}\u{700}\u{740}\u{780}\u{7c0}\u{801}\u{1001}\u{2001}\u{3001}\u{4001}\u{5001}\u{6001}\
        \u{7001}\u{8001}\u{9001}\u{a001}\u{b001}\u{c001}\u{d001}\u{e001}\u{f001}\u{10000}\u{40000}\
        \u{80000}\u{c0000}\u{100000}\" }";

// A way of writing, and what it makes of both.
struct WayRow {
    templates: &'static str,
    ascii: &'static str,
    beyond: &'static str,
}

const ASCII_ESCAPED: &str =
    "\x00\x01\x02\x03\x04\x05\x06\x07\x08\t\n\x0b\x0c\r\x0e\x0f\x10\x11\x12\x13\x14\x15\x16\x17\x18\
        \x19\x1a\x1b\x1c\x1d\x1e\x1f !&quot;#$%&amp;&#39;()*+,-./0123456789:;&lt;=&gt;?@ABCDEFGHIJKLMNOP\
        QRSTUVWXYZ[\\]^_`abcdefghijklmnopqrstuvwxyz{|}~\x7f";

const BEYOND_AS_IT_STANDS: &str =
    "\u{80}\u{81}\u{82}\u{83}\u{84}\u{85}\u{86}\u{87}\u{88}\u{89}\u{8a}\u{8b}\u{8c}\u{8d}\u{8e}\u{8f}\
        \u{90}\u{91}\u{92}\u{93}\u{94}\u{95}\u{96}\u{97}\u{98}\u{99}\u{9a}\u{9b}\u{9c}\u{9d}\u{9e}\u{9f}\
        \u{a0}\u{a1}\u{a2}\u{a3}\u{a4}\u{a5}\u{a6}\u{a7}\u{a8}\u{a9}\u{aa}\u{ab}\u{ac}\u{ad}\u{ae}\u{af}\
        \u{b0}\u{b1}\u{b2}\u{b3}\u{b4}\u{b5}\u{b6}\u{b7}\u{b8}\u{b9}\u{ba}\u{bb}\u{bc}\u{bd}\u{be}\u{bf}\
        \u{c0}\u{100}\u{140}\u{180}\u{1c0}\u{200}\u{240}\u{280}\u{2c0}\u{300}\u{340}\u{380}\u{3c0}\
        \u{400}\u{440}\u{480}\u{4c0}\u{500}\u{540}\u{580}\u{5c0}\u{600}\u{640}\u{680}\u{6c0}\u{700}\
        \u{740}\u{780}\u{7c0}\u{801}\u{1001}\u{2001}\u{3001}\u{4001}\u{5001}\u{6001}\u{7001}\u{8001}\
        \u{9001}\u{a001}\u{b001}\u{c001}\u{d001}\u{e001}\u{f001}\u{10000}\u{40000}\u{80000}\u{c0000}\
        \u{100000}";

const ASCII_AS_IT_STANDS: &str =
    "\x00\x01\x02\x03\x04\x05\x06\x07\x08\t\n\x0b\x0c\r\x0e\x0f\x10\x11\x12\x13\x14\x15\x16\x17\x18\
        \x19\x1a\x1b\x1c\x1d\x1e\x1f !\"#$%&'()*+,-./0123456789:;<=>?@ABCDEFGHIJKLMNOPQRSTUVWXYZ[\\]^_`a\
        bcdefghijklmnopqrstuvwxyz{|}~\x7f";

const ASCII_IN_LINES: &str =
    "\x00\x01\x02\x03\x04\x05\x06\x07\x08\t<br>\n\x0b\x0c<br>\n\x0e\x0f\x10\x11\x12\x13\x14\x15\x16\
        \x17\x18\x19\x1a\x1b\x1c\x1d\x1e\x1f !&quot;#$%&amp;&#39;()*+,-./0123456789:;&lt;=&gt;?@ABCDEFGH\
        IJKLMNOPQRSTUVWXYZ[\\]^_`abcdefghijklmnopqrstuvwxyz{|}~\x7f";

const ASCII_IN_URL: &str =
    "%00%01%02%03%04%05%06%07%08%09%0A%0B%0C%0D%0E%0F%10%11%12%13%14%15%16%17%18%19%1A%1B%1C%1D%1E%1F\
        %20!%22#$%25&amp;&#39;()*+,-./0123456789:;%3C=%3E?@ABCDEFGHIJKLMNOPQRSTUVWXYZ[%5C]%5E_%60abcdefg\
        hijklmnopqrstuvwxyz%7B%7C%7D~%7F";

const BEYOND_IN_URL: &str =
    "%C2%80%C2%81%C2%82%C2%83%C2%84%C2%85%C2%86%C2%87%C2%88%C2%89%C2%8A%C2%8B%C2%8C%C2%8D%C2%8E%C2%8F\
        %C2%90%C2%91%C2%92%C2%93%C2%94%C2%95%C2%96%C2%97%C2%98%C2%99%C2%9A%C2%9B%C2%9C%C2%9D%C2%9E%C2%9F\
        %C2%A0%C2%A1%C2%A2%C2%A3%C2%A4%C2%A5%C2%A6%C2%A7%C2%A8%C2%A9%C2%AA%C2%AB%C2%AC%C2%AD%C2%AE%C2%AF\
        %C2%B0%C2%B1%C2%B2%C2%B3%C2%B4%C2%B5%C2%B6%C2%B7%C2%B8%C2%B9%C2%BA%C2%BB%C2%BC%C2%BD%C2%BE%C2%BF\
        %C3%80%C4%80%C5%80%C6%80%C7%80%C8%80%C9%80%CA%80%CB%80%CC%80%CD%80%CE%80%CF%80%D0%80%D1%80%D2%80\
        %D3%80%D4%80%D5%80%D6%80%D7%80%D8%80%D9%80%DA%80%DB%80%DC%80%DD%80%DE%80%DF%80%E0%A0%81%E1%80%81\
        %E2%80%81%E3%80%81%E4%80%81%E5%80%81%E6%80%81%E7%80%81%E8%80%81%E9%80%81%EA%80%81%EB%80%81%EC%80\
        %81%ED%80%81%EE%80%81%EF%80%81%F0%90%80%80%F1%80%80%80%F2%80%80%80%F3%80%80%80%F4%80%80%80";

const ASCII_IN_JSON: &str =
    "\\u0000\\u0001\\u0002\\u0003\\u0004\\u0005\\u0006\\u0007\\b\\t\\n\\u000b\\f\\r\\u000e\\u000f\\u0\
        010\\u0011\\u0012\\u0013\\u0014\\u0015\\u0016\\u0017\\u0018\\u0019\\u001a\\u001b\\u001c\\u001d\\\
        u001e\\u001f !\\\"#$%&'()*+,-./0123456789:;\\u003c=>?@ABCDEFGHIJKLMNOPQRSTUVWXYZ[\\\\]^_`abcdefg\
        hijklmnopqrstuvwxyz{|}~\x7f";

const WAYS: &[WayRow] = &[
    WayRow {
        templates: "<TEMPLATE F><SFMT @a></TEMPLATE>",
        ascii: ASCII_ESCAPED,
        beyond: BEYOND_AS_IT_STANDS,
    },
    WayRow {
        templates: "<TEMPLATE F><SFMT @a RAW></TEMPLATE>",
        ascii: ASCII_AS_IT_STANDS,
        beyond: BEYOND_AS_IT_STANDS,
    },
    WayRow {
        templates: "<TEMPLATE F><SFMT @a PLAIN></TEMPLATE>",
        ascii: ASCII_AS_IT_STANDS,
        beyond: BEYOND_AS_IT_STANDS,
    },
    WayRow {
        templates: "<TEMPLATE F><SFMT @a LINES></TEMPLATE>",
        ascii: ASCII_IN_LINES,
        beyond: BEYOND_AS_IT_STANDS,
    },
    WayRow {
        templates: "<TEMPLATE F><SFMT @a URL></TEMPLATE>",
        ascii: ASCII_IN_URL,
        beyond: BEYOND_IN_URL,
    },
    WayRow {
        templates: "<TEMPLATE F><SFMT @a JSON></TEMPLATE>",
        ascii: ASCII_IN_JSON,
        beyond: BEYOND_AS_IT_STANDS,
    },
];

fn check_way<R: AllocGlobal + Abort>(
    rt: &R,
    data: &'static str,
    row: &WayRow,
    out: &str,
) -> Result<(), Fail> {
    let files = [
        FileRow {
            path: "d",
            text: data,
        },
        FileRow {
            path: "q",
            text: QUERY,
        },
        FileRow {
            path: "t",
            text: row.templates,
        },
    ];
    let words = ["page", "q", "t", "/F/no.html", "d"];
    let run = Run {
        name: row.templates,
        words: &words,
        out,
        ..PLAIN
    };
    check_run(rt, &files, &run)
}

#[test]
fn each_way_writes_every_byte_as_it_is_defined(rt: HostRuntime) -> Result<(), Fail> {
    for row in WAYS {
        check_way(&rt, ASCII, row, row.ascii)?;
        check_way(&rt, BEYOND, row, row.beyond)?;
    }
    Ok(())
}
