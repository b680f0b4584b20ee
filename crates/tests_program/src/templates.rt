// Worked rows of templates: layouts, fragments and notes, keys and limits, ways of writing, SAME, and byte order marks.
use crate::runs::{FileRow, PLAIN, Run, check_run};
use std::process::Abort;
use std::test::Fail;

// The files `q`, `t` and `d`, the address of the page, the exit code, and the output and the standard error. The name
// says what the row shows.
struct TemplateRow {
    name: &'static str,
    query: &'static str,
    templates: &'static str,
    data_text: &'static str,
    address: &'static str,
    code: u8,
    out: &'static str,
    err: &'static str,
}

const LINKED: &str =
    "INPUT D { CREATE R() } { WHERE A(x), x -> l -> v CREATE F(x) LINK F(x) -> l -> v, R() -> \"f\" -> F(x) } OUTPUT S";

const WHOLE: &str = "INPUT D CREATE COLLECTION() OUTPUT S";

const SHOWN: &str = "INPUT D WHERE A(x), x -> l -> v CREATE R() LINK R() -> l -> v OUTPUT S";

const FOUR: &str =
    "object a in A { t \"B\" n 1 } object b in A { t \"a\" n 2 } object c in A { t \"A\" n 2 } object d in A { n 10 }";

// What most rows have: a page of each member of A, and one that links to them.
const ROW: TemplateRow = TemplateRow {
    name: "",
    query: LINKED,
    templates: "",
    data_text: FOUR,
    address: "/",
    code: 0,
    out: "",
    err: "",
};

const LAYOUTS: &[TemplateRow] = &[
    TemplateRow {
        name: "a template in a layout, which is in another",
        templates: "<LAYOUT outer>[<SBODY>]</LAYOUT>\n<LAYOUT inner IN=outer>(<SBODY><SFMT @t>)</LAYOUT>\n<TEMPLATE F IN=inner>x</TEMPLATE>",
        address: "/F/na.html",
        out: "[(xB)]",
        ..ROW
    },
    TemplateRow {
        name: "fragments within fragments, notes",
        templates: "<SNOTE>of the file</SNOTE><FRAGMENT a>1</FRAGMENT><FRAGMENT b><SINCLUDE a>2<SNOTE></TEMPLATE>\
            </SNOTE></FRAGMENT><TEMPLATE R><SINCLUDE b>3<SNOTE> <SFMT> </SNOTE>4</TEMPLATE>",
        out: "1234",
        ..ROW
    },
    TemplateRow {
        name: "@ is the presented value within a fragment",
        templates: "<FRAGMENT f><SFMT @t></FRAGMENT><TEMPLATE R><SFOR x IN @f><SINCLUDE f></SFOR><SFMT @f EMBED></TEMPLATE><TEMPLATE F>(<SINCLUDE f>)</TEMPLATE>",
        out: "(B)(a)(A)()",
        ..ROW
    },
    TemplateRow {
        name: "what is no tag stays text",
        templates: "<TEMPLATE R><SBODYx> <SNOTES> <LAYOUT x> <FRAGMENT y> <sbody> <SINCLUDE></TEMPLATE>",
        out: "<SBODYx> <SNOTES> <LAYOUT x> <FRAGMENT y> <sbody> <SINCLUDE>",
        ..ROW
    },
    TemplateRow {
        name: "a note within an attribute",
        templates: "<TEMPLATE R><a href=\"<SNOTE>old: <SFMT @x></SNOTE>/x\">y</a></TEMPLATE>",
        out: "<a href=\"/x\">y</a>",
        ..ROW
    },
    TemplateRow {
        name: "the first </SNOTE> ends a note",
        templates: "<TEMPLATE R>a<SNOTE>b<SNOTE>c</SNOTE>d</TEMPLATE>",
        out: "ad",
        ..ROW
    },
    TemplateRow {
        name: "a closing tag that fits nothing",
        templates: "<TEMPLATE R>a</LAYOUT></TEMPLATE>",
        code: 3,
        err: "strudel: t: 81 Expected at 13\n",
        ..ROW
    },
    TemplateRow {
        name: "SBODY outside of a layout",
        templates: "<TEMPLATE R>a<SBODY></TEMPLATE>",
        code: 3,
        err: "strudel: t: 81 Expected at 13\n",
        ..ROW
    },
    TemplateRow {
        name: "a layout round a loop: loops are told apart by their texts",
        templates: "<LAYOUT a><SFOR v IN @f LIMIT=2><SBODY>:<SFMT v.n> </SFOR></LAYOUT><TEMPLATE R IN=a><SFOR v IN @f.n LIMIT=1><SFMT v></SFOR></TEMPLATE>",
        out: "1:1 1:2 ",
        ..ROW
    },
    TemplateRow {
        name: "85: a layout's loop is not known to the template",
        templates: "<LAYOUT a><SFOR v IN @f><SBODY></SFOR></LAYOUT><TEMPLATE R IN=a><SFMT v></TEMPLATE>",
        code: 3,
        err: "strudel: t: 85 UnknownVariable at 70\n",
        ..ROW
    },
    TemplateRow {
        name: "85: a fragment knows its own loops alone",
        templates: "<FRAGMENT f><SFMT v.t></FRAGMENT><TEMPLATE R><SFOR v IN @f><SINCLUDE f></SFOR></TEMPLATE>",
        code: 3,
        err: "strudel: t: 85 UnknownVariable at 18\n",
        ..ROW
    },
    TemplateRow {
        name: "86: a fragment names those above it",
        templates: "<FRAGMENT b><SINCLUDE a></FRAGMENT><FRAGMENT a>1</FRAGMENT><TEMPLATE R>x</TEMPLATE>",
        code: 3,
        err: "strudel: t: 86 Unknown at 22\n",
        ..ROW
    },
    TemplateRow {
        name: "86: no layout of this name",
        templates: "<TEMPLATE R IN=main>x</TEMPLATE>",
        code: 3,
        err: "strudel: t: 86 Unknown at 15\n",
        ..ROW
    },
    TemplateRow {
        name: "83: twice",
        templates: "<LAYOUT a><SBODY></LAYOUT><FRAGMENT a>1</FRAGMENT><LAYOUT a><SBODY></LAYOUT>",
        code: 3,
        err: "strudel: t: 83 Twice at 58\n",
        ..ROW
    },
    TemplateRow {
        name: "a layout with several SBODY",
        templates: "<LAYOUT a><SIF @f>(<SBODY>)<SELSE>[<SBODY>]</SIF>-<SBODY></LAYOUT><TEMPLATE R IN=a><SFMT @f COUNT></TEMPLATE><TEMPLATE F IN=a><SFMT @n></TEMPLATE>",
        out: "(4)-4",
        ..ROW
    },
    TemplateRow {
        name: "the same where the other branch is taken",
        templates: "<LAYOUT a><SIF @f>(<SBODY>)<SELSE>[<SBODY>]</SIF>-<SBODY></LAYOUT><TEMPLATE R IN=a><SFMT @f COUNT></TEMPLATE><TEMPLATE F IN=a><SFMT @n></TEMPLATE>",
        address: "/F/na.html",
        out: "[1]-1",
        ..ROW
    },
];

const LIMITS: &[TemplateRow] = &[
    TemplateRow {
        name: "a layout has at least one SBODY",
        templates: "<LAYOUT a>x</LAYOUT>",
        code: 3,
        err: "strudel: t: 81 Expected at 11\n",
        ..ROW
    },
    TemplateRow {
        name: "86: a template too names only what stands above it",
        templates: "<TEMPLATE R><SINCLUDE a></TEMPLATE><FRAGMENT a>1</FRAGMENT>",
        code: 3,
        err: "strudel: t: 86 Unknown at 22\n",
        ..ROW
    },
    TemplateRow {
        name: "86: a layout below",
        templates: "<TEMPLATE R IN=a>x</TEMPLATE><LAYOUT a><SBODY></LAYOUT>",
        code: 3,
        err: "strudel: t: 86 Unknown at 15\n",
        ..ROW
    },
    TemplateRow {
        name: "84 at the SBODY: 32 in the template, one in the layout",
        templates: "<LAYOUT a><SIF @f><SBODY></SIF></LAYOUT><TEMPLATE R IN=a><SIF @><SIF @><SIF @><SIF @><SIF @>\
            <SIF @><SIF @><SIF @><SIF @><SIF @><SIF @><SIF @><SIF @><SIF @><SIF @><SIF @><SIF @><SIF @>\
            <SIF @><SIF @><SIF @><SIF @><SIF @><SIF @><SIF @><SIF @><SIF @><SIF @><SIF @><SIF @><SIF @>\
            <SIF @>x</SIF></SIF></SIF></SIF></SIF></SIF></SIF></SIF></SIF></SIF></SIF></SIF></SIF>\
            </SIF></SIF></SIF></SIF></SIF></SIF></SIF></SIF></SIF></SIF></SIF></SIF></SIF></SIF></SIF>\
            </SIF></SIF></SIF></SIF></TEMPLATE>",
        code: 3,
        err: "strudel: t: 84 TooDeep at 18\n",
        ..ROW
    },
    TemplateRow {
        name: "31 and one are 32",
        templates: "<LAYOUT a><SIF @f><SBODY></SIF></LAYOUT><TEMPLATE R IN=a><SIF @><SIF @><SIF @><SIF @><SIF @>\
            <SIF @><SIF @><SIF @><SIF @><SIF @><SIF @><SIF @><SIF @><SIF @><SIF @><SIF @><SIF @><SIF @>\
            <SIF @><SIF @><SIF @><SIF @><SIF @><SIF @><SIF @><SIF @><SIF @><SIF @><SIF @><SIF @><SIF @>\
            x</SIF></SIF></SIF></SIF></SIF></SIF></SIF></SIF></SIF></SIF></SIF></SIF></SIF></SIF></SIF>\
            </SIF></SIF></SIF></SIF></SIF></SIF></SIF></SIF></SIF></SIF></SIF></SIF></SIF></SIF></SIF>\
            </SIF></TEMPLATE>",
        out: "x",
        ..ROW
    },
    TemplateRow {
        name: "84 at the SINCLUDE",
        templates: "<FRAGMENT a><SIF @><SIF @><SIF @><SIF @><SIF @><SIF @><SIF @><SIF @><SIF @><SIF @><SIF @>\
            <SIF @><SIF @><SIF @><SIF @><SIF @><SIF @><SIF @><SIF @><SIF @>x</SIF></SIF></SIF></SIF>\
            </SIF></SIF></SIF></SIF></SIF></SIF></SIF></SIF></SIF></SIF></SIF></SIF></SIF></SIF></SIF>\
            </SIF></FRAGMENT><TEMPLATE R><SIF @><SIF @><SIF @><SIF @><SIF @><SIF @><SIF @><SIF @><SIF @>\
            <SIF @><SIF @><SIF @><SIF @><SINCLUDE a></SIF></SIF></SIF></SIF></SIF></SIF></SIF></SIF>\
            </SIF></SIF></SIF></SIF></SIF></TEMPLATE>",
        code: 3,
        err: "strudel: t: 84 TooDeep at 387\n",
        ..ROW
    },
    TemplateRow {
        name: "templates of 8,388,608 bytes",
        templates: "<FRAGMENT a0>0123456789abcdef</FRAGMENT><FRAGMENT a1><SINCLUDE a0><SINCLUDE a0></FRAGMENT>\
            <FRAGMENT a2><SINCLUDE a1><SINCLUDE a1></FRAGMENT><FRAGMENT a3><SINCLUDE a2><SINCLUDE a2>\
            </FRAGMENT><FRAGMENT a4><SINCLUDE a3><SINCLUDE a3></FRAGMENT><FRAGMENT a5><SINCLUDE a4>\
            <SINCLUDE a4></FRAGMENT><FRAGMENT a6><SINCLUDE a5><SINCLUDE a5></FRAGMENT><FRAGMENT a7>\
            <SINCLUDE a6><SINCLUDE a6></FRAGMENT><FRAGMENT a8><SINCLUDE a7><SINCLUDE a7></FRAGMENT>\
            <FRAGMENT a9><SINCLUDE a8><SINCLUDE a8></FRAGMENT><FRAGMENT a10><SINCLUDE a9><SINCLUDE a9>\
            </FRAGMENT><FRAGMENT a11><SINCLUDE a10><SINCLUDE a10></FRAGMENT><FRAGMENT a12><SINCLUDE a11>\
            <SINCLUDE a11></FRAGMENT><FRAGMENT a13><SINCLUDE a12><SINCLUDE a12></FRAGMENT><FRAGMENT a14>\
            <SINCLUDE a13><SINCLUDE a13></FRAGMENT><FRAGMENT a15><SINCLUDE a14><SINCLUDE a14></FRAGMENT>\
            <FRAGMENT a16><SINCLUDE a15><SINCLUDE a15></FRAGMENT><FRAGMENT a17><SINCLUDE a16><SINCLUDE a16>\
            </FRAGMENT><FRAGMENT a18><SINCLUDE a17><SINCLUDE a17></FRAGMENT><FRAGMENT a19><SINCLUDE a18>\
            <SINCLUDE a18></FRAGMENT><TEMPLATE F><SINCLUDE a19></TEMPLATE>",
        code: 9,
        err: "strudel: not found\n",
        ..ROW
    },
    TemplateRow {
        name: "87: one byte more, in another template",
        templates: "<FRAGMENT a0>0123456789abcdef</FRAGMENT><FRAGMENT a1><SINCLUDE a0><SINCLUDE a0></FRAGMENT>\
            <FRAGMENT a2><SINCLUDE a1><SINCLUDE a1></FRAGMENT><FRAGMENT a3><SINCLUDE a2><SINCLUDE a2>\
            </FRAGMENT><FRAGMENT a4><SINCLUDE a3><SINCLUDE a3></FRAGMENT><FRAGMENT a5><SINCLUDE a4>\
            <SINCLUDE a4></FRAGMENT><FRAGMENT a6><SINCLUDE a5><SINCLUDE a5></FRAGMENT><FRAGMENT a7>\
            <SINCLUDE a6><SINCLUDE a6></FRAGMENT><FRAGMENT a8><SINCLUDE a7><SINCLUDE a7></FRAGMENT>\
            <FRAGMENT a9><SINCLUDE a8><SINCLUDE a8></FRAGMENT><FRAGMENT a10><SINCLUDE a9><SINCLUDE a9>\
            </FRAGMENT><FRAGMENT a11><SINCLUDE a10><SINCLUDE a10></FRAGMENT><FRAGMENT a12><SINCLUDE a11>\
            <SINCLUDE a11></FRAGMENT><FRAGMENT a13><SINCLUDE a12><SINCLUDE a12></FRAGMENT><FRAGMENT a14>\
            <SINCLUDE a13><SINCLUDE a13></FRAGMENT><FRAGMENT a15><SINCLUDE a14><SINCLUDE a14></FRAGMENT>\
            <FRAGMENT a16><SINCLUDE a15><SINCLUDE a15></FRAGMENT><FRAGMENT a17><SINCLUDE a16><SINCLUDE a16>\
            </FRAGMENT><FRAGMENT a18><SINCLUDE a17><SINCLUDE a17></FRAGMENT><FRAGMENT a19><SINCLUDE a18>\
            <SINCLUDE a18></FRAGMENT><TEMPLATE F><SINCLUDE a19></TEMPLATE><TEMPLATE R>x</TEMPLATE>",
        code: 3,
        err: "strudel: t: 87 TooLarge at 1065\n",
        ..ROW
    },
    TemplateRow {
        name: "87: a tag counts with its bytes",
        templates: "<FRAGMENT a0>0123456789abcdef</FRAGMENT><FRAGMENT a1><SINCLUDE a0><SINCLUDE a0></FRAGMENT>\
            <FRAGMENT a2><SINCLUDE a1><SINCLUDE a1></FRAGMENT><FRAGMENT a3><SINCLUDE a2><SINCLUDE a2>\
            </FRAGMENT><FRAGMENT a4><SINCLUDE a3><SINCLUDE a3></FRAGMENT><FRAGMENT a5><SINCLUDE a4>\
            <SINCLUDE a4></FRAGMENT><FRAGMENT a6><SINCLUDE a5><SINCLUDE a5></FRAGMENT><FRAGMENT a7>\
            <SINCLUDE a6><SINCLUDE a6></FRAGMENT><FRAGMENT a8><SINCLUDE a7><SINCLUDE a7></FRAGMENT>\
            <FRAGMENT a9><SINCLUDE a8><SINCLUDE a8></FRAGMENT><FRAGMENT a10><SINCLUDE a9><SINCLUDE a9>\
            </FRAGMENT><FRAGMENT a11><SINCLUDE a10><SINCLUDE a10></FRAGMENT><FRAGMENT a12><SINCLUDE a11>\
            <SINCLUDE a11></FRAGMENT><FRAGMENT a13><SINCLUDE a12><SINCLUDE a12></FRAGMENT><FRAGMENT a14>\
            <SINCLUDE a13><SINCLUDE a13></FRAGMENT><FRAGMENT a15><SINCLUDE a14><SINCLUDE a14></FRAGMENT>\
            <FRAGMENT a16><SINCLUDE a15><SINCLUDE a15></FRAGMENT><FRAGMENT a17><SINCLUDE a16><SINCLUDE a16>\
            </FRAGMENT><FRAGMENT a18><SINCLUDE a17><SINCLUDE a17></FRAGMENT><FRAGMENT a19><SINCLUDE a18>\
            <SINCLUDE a18></FRAGMENT><TEMPLATE F><SINCLUDE a19></TEMPLATE><TEMPLATE R><SFMT @f></TEMPLATE>",
        code: 3,
        err: "strudel: t: 87 TooLarge at 1065\n",
        ..ROW
    },
    TemplateRow {
        name: "a fragment that no template names may be as large as it likes",
        templates: "<FRAGMENT a0>0123456789abcdef</FRAGMENT><FRAGMENT a1><SINCLUDE a0><SINCLUDE a0></FRAGMENT>\
            <FRAGMENT a2><SINCLUDE a1><SINCLUDE a1></FRAGMENT><FRAGMENT a3><SINCLUDE a2><SINCLUDE a2>\
            </FRAGMENT><FRAGMENT a4><SINCLUDE a3><SINCLUDE a3></FRAGMENT><FRAGMENT a5><SINCLUDE a4>\
            <SINCLUDE a4></FRAGMENT><FRAGMENT a6><SINCLUDE a5><SINCLUDE a5></FRAGMENT><FRAGMENT a7>\
            <SINCLUDE a6><SINCLUDE a6></FRAGMENT><FRAGMENT a8><SINCLUDE a7><SINCLUDE a7></FRAGMENT>\
            <FRAGMENT a9><SINCLUDE a8><SINCLUDE a8></FRAGMENT><FRAGMENT a10><SINCLUDE a9><SINCLUDE a9>\
            </FRAGMENT><FRAGMENT a11><SINCLUDE a10><SINCLUDE a10></FRAGMENT><FRAGMENT a12><SINCLUDE a11>\
            <SINCLUDE a11></FRAGMENT><FRAGMENT a13><SINCLUDE a12><SINCLUDE a12></FRAGMENT><FRAGMENT a14>\
            <SINCLUDE a13><SINCLUDE a13></FRAGMENT><FRAGMENT a15><SINCLUDE a14><SINCLUDE a14></FRAGMENT>\
            <FRAGMENT a16><SINCLUDE a15><SINCLUDE a15></FRAGMENT><FRAGMENT a17><SINCLUDE a16><SINCLUDE a16>\
            </FRAGMENT><FRAGMENT a18><SINCLUDE a17><SINCLUDE a17></FRAGMENT><FRAGMENT a19><SINCLUDE a18>\
            <SINCLUDE a18></FRAGMENT><FRAGMENT b><SINCLUDE a19><SINCLUDE a19></FRAGMENT><TEMPLATE R>\
            x</TEMPLATE>",
        out: "x",
        ..ROW
    },
    TemplateRow {
        name: "a collection's template in a layout, and its quoted name",
        templates: "<LAYOUT a>(<SBODY>)</LAYOUT><TEMPLATE COLLECTION A IN=a><SFMT @n></TEMPLATE><TEMPLATE COLLECTION \"B b\">\
            x</TEMPLATE><TEMPLATE R><SFMT #A EMBED></TEMPLATE>",
        out: "(1)(2)(2)(10)",
        ..ROW
    },
    TemplateRow {
        name: "the template of the function COLLECTION",
        query: WHOLE,
        templates: "<LAYOUT a>(<SBODY>)</LAYOUT><TEMPLATE COLLECTION IN=a>x</TEMPLATE>",
        data_text: "",
        address: "/COLLECTION.html",
        out: "(x)",
        ..ROW
    },
    TemplateRow {
        name: "82 at a note that is never closed",
        templates: "<TEMPLATE R>x<SNOTE>y</TEMPLATE>",
        code: 3,
        err: "strudel: t: 82 Unclosed at 13\n",
        ..ROW
    },
    TemplateRow {
        name: "a fault within a layout is told in the layout",
        templates: "<LAYOUT a><SFMT b.c><SBODY></LAYOUT><TEMPLATE R IN=a>x</TEMPLATE>",
        code: 3,
        err: "strudel: t: 85 UnknownVariable at 16\n",
        ..ROW
    },
];

const KEYS: &[TemplateRow] = &[
    TemplateRow {
        name: "two keys (n: 10, then 2 twice, then 1; of the two with 2, A before a: folded they tie, then by bytes)",
        templates: "<TEMPLATE R><SFMT @f LINK=t KEY=n DESCEND KEY=t FOLD DELIM=\" \"></TEMPLATE>",
        out: "<a href=\"/F/nd.html\">/F/nd.html</a> <a href=\"/F/nc.html\">A</a> <a href=\"/F/nb.html\">a</a> <a href=\"/F/na.html\">B</a>",
        ..ROW
    },
    TemplateRow {
        name: "DESCEND: without a key last",
        templates: "<TEMPLATE R><SFOR x IN @f KEY=t DESCEND DELIM=\" \"><SFMT x.n></SFOR></TEMPLATE>",
        out: "2 1 2 10",
        ..ROW
    },
    TemplateRow {
        name: "LIMIT",
        templates: "<TEMPLATE R><SFOR x IN @f KEY=n LIMIT=2 DELIM=\" \"><SFMT x.n></SFOR></TEMPLATE>",
        out: "1 2",
        ..ROW
    },
    TemplateRow {
        name: "ORDER with two keys is refused",
        templates: "<TEMPLATE R><SFMT @f KEY=n KEY=t ORDER=descend></TEMPLATE>",
        code: 3,
        err: "strudel: t: 81 Expected at 33\n",
        ..ROW
    },
    TemplateRow {
        name: "a fifth key is refused",
        templates: "<TEMPLATE R><SFMT @f KEY=a KEY=b KEY=c KEY=d KEY=e></TEMPLATE>",
        code: 3,
        err: "strudel: t: 81 Expected at 45\n",
        ..ROW
    },
    TemplateRow {
        name: "LIMIT from 1",
        templates: "<TEMPLATE R><SFMT @f LIMIT=0></TEMPLATE>",
        code: 3,
        err: "strudel: t: 81 Expected at 27\n",
        ..ROW
    },
    TemplateRow {
        name: "COUNT counts all values",
        templates: "<TEMPLATE R><SFMT @f COUNT LIMIT=2> <SFMT @f COUNT KEY=n></TEMPLATE>",
        out: "4 4",
        ..ROW
    },
    TemplateRow {
        name: "FOLD stands before DESCEND",
        templates: "<TEMPLATE R><SFMT @f LINK=t KEY=t DESCEND FOLD></TEMPLATE>",
        code: 3,
        err: "strudel: t: 81 Expected at 42\n",
        ..ROW
    },
    TemplateRow {
        name: "ORDER with a key that has DESCEND is refused",
        templates: "<TEMPLATE R><SFMT @f KEY=t DESCEND ORDER=ascend></TEMPLATE>",
        code: 3,
        err: "strudel: t: 81 Expected at 35\n",
        ..ROW
    },
];

const WAYS: &[TemplateRow] = &[
    TemplateRow {
        name: "RAW, LINES, URL, JSON, PLAIN",
        query: SHOWN,
        templates: "<TEMPLATE R><SFMT @t>|<SFMT @t RAW>|<SFMT @w LINES>|<SFMT @u URL>|<SFMT @t JSON>|<SFMT @n JSON>|<SFMT @t PLAIN></TEMPLATE>",
        data_text: "object a in A { t \"<b>\\\"&\\n2\\\\\" n 7 u url \"http://x/a b?q=\\\"1\\\"&%20\" w \"x\\r\\ny\\nz\" }",
        out: "&lt;b&gt;&quot;&amp;\n2\\|<b>\"&\n2\\|x<br>\ny<br>\nz|http://x/a%20b?q=%221%22&amp;%20|\\u003cb>\\\"&\\n2\\\\|7|<b>\"&\n2\\",
        ..ROW
    },
    TemplateRow {
        name: "COUNT",
        templates: "<TEMPLATE R><SFMT @f COUNT> <SFMT @zz COUNT> <SFMT @f.n COUNT></TEMPLATE>",
        out: "4 0 3",
        ..ROW
    },
    TemplateRow {
        name: "SIF COUNT",
        templates: "<TEMPLATE R><SIF COUNT @f GT 3>many<SELSE>few</SIF> <SIF NOT COUNT @f EQ 4>x<SELSE>four</SIF></TEMPLATE>",
        out: "many four",
        ..ROW
    },
    TemplateRow {
        name: "SIF COUNT wants a comparison",
        templates: "<TEMPLATE R><SIF COUNT @f>many</SIF></TEMPLATE>",
        code: 3,
        err: "strudel: t: 81 Expected at 25\n",
        ..ROW
    },
    TemplateRow {
        name: "SIF COUNT wants an Int",
        templates: "<TEMPLATE R><SIF COUNT @f GT \"3\">many</SIF></TEMPLATE>",
        code: 3,
        err: "strudel: t: 81 Expected at 29\n",
        ..ROW
    },
    TemplateRow {
        name: "at most one mode",
        templates: "<TEMPLATE R><SFMT @f RAW URL></TEMPLATE>",
        code: 3,
        err: "strudel: t: 81 Expected at 25\n",
        ..ROW
    },
    TemplateRow {
        name: "URL: a percent sign",
        query: SHOWN,
        templates: "<TEMPLATE R><SFMT @t URL></TEMPLATE>",
        data_text: "object a in A { t \"100% %zz %2 %20 %fF%\" }",
        out: "100%25%20%25zz%20%252%20%20%20%fF%25",
        ..ROW
    },
    TemplateRow {
        name: "LINES: CR LF, LF, CR",
        query: SHOWN,
        templates: "<TEMPLATE R><SFMT @w LINES></TEMPLATE>",
        data_text: "object a in A { w \"a\\r\\nb\\nc\\rd\\n\\r<\" }",
        out: "a<br>\nb<br>\nc<br>\nd<br>\n<br>\n&lt;",
        ..ROW
    },
    TemplateRow {
        name: "LABEL with LINK= is refused",
        templates: "<TEMPLATE R><SFMT @f LINK=t LABEL=\"x\"></TEMPLATE>",
        code: 3,
        err: "strudel: t: 81 Expected at 28\n",
        ..ROW
    },
    TemplateRow {
        name: "LABEL",
        templates: "<TEMPLATE R><SFMT @f LINK LABEL=\"<more>\" LIMIT=1><SFMT @f.n LINK LABEL=\"n\" LIMIT=1></TEMPLATE>",
        out: "<a href=\"/F/na.html\">&lt;more&gt;</a>n",
        ..ROW
    },
];

const COMMON: &[TemplateRow] = &[
    TemplateRow {
        name: "a new word is no variable",
        templates: "<TEMPLATE R><SFOR URL IN @f>x</SFOR></TEMPLATE>",
        code: 3,
        err: "strudel: t: 81 Expected at 18\n",
        ..ROW
    },
    TemplateRow {
        name: "the current entry of a menu (the Int 2 is not the Text \"2\")",
        templates: "<TEMPLATE R>x</TEMPLATE><TEMPLATE F><SFOR m IN @n KEY=n DELIM=\" \"><SIF @t SAME m>[<SFMT m>]<SELSE><SFMT m></SIF></SFOR></TEMPLATE>",
        data_text: "object a in A { t \"B\" t 2 n 1 n 2 n \"2\" n \"B\" }",
        address: "/F/na.html",
        out: "1 [2] 2 [B]",
        ..ROW
    },
    TemplateRow {
        name: "NOT, and the presented value",
        templates: "<TEMPLATE R><SFOR m IN @f DELIM=\",\"><SIF NOT m SAME @f>a</SIF><SIF m SAME @>b<SELSE>c</SIF></SFOR></TEMPLATE>",
        out: "c,c,c,c",
        ..ROW
    },
    TemplateRow {
        name: "SAME and COUNT do not go together",
        templates: "<TEMPLATE R><SIF COUNT @f SAME @f>a</SIF></TEMPLATE>",
        code: 3,
        err: "strudel: t: 81 Expected at 26\n",
        ..ROW
    },
    TemplateRow {
        name: "a byte order mark",
        templates: "\u{feff}<TEMPLATE R>x</TEMPLATE>",
        out: "x",
        ..ROW
    },
    TemplateRow {
        name: "places count it",
        templates: "\u{feff}<TEMPLATE R>x</SIF></TEMPLATE>",
        code: 3,
        err: "strudel: t: 81 Expected at 16\n",
        ..ROW
    },
    TemplateRow {
        name: "one, and no second",
        templates: "\u{feff}\u{feff}<TEMPLATE R>x</TEMPLATE>",
        code: 3,
        err: "strudel: t: 81 Expected at 3\n",
        ..ROW
    },
];

fn check_row<R: AllocGlobal + Abort>(rt: &R, row: &TemplateRow) -> Result<(), Fail> {
    let files = [
        FileRow {
            path: "q",
            text: row.query,
        },
        FileRow {
            path: "t",
            text: row.templates,
        },
        FileRow {
            path: "d",
            text: row.data_text,
        },
    ];
    let run = Run {
        name: row.name,
        words: &["page", "q", "t", row.address, "d"],
        code: row.code,
        out: row.out,
        err: row.err,
        ..PLAIN
    };
    check_run(rt, &files, &run)
}

#[test]
fn layouts_and_fragments_are_as_their_rows_say(rt: HostRuntime) -> Result<(), Fail> {
    for row in LAYOUTS {
        check_row(&rt, row)?;
    }
    Ok(())
}

#[test]
fn limits_of_layouts_are_as_their_rows_say(rt: HostRuntime) -> Result<(), Fail> {
    for row in LIMITS {
        check_row(&rt, row)?;
    }
    Ok(())
}

#[test]
fn orders_are_as_their_rows_say(rt: HostRuntime) -> Result<(), Fail> {
    for row in KEYS {
        check_row(&rt, row)?;
    }
    Ok(())
}

#[test]
fn ways_of_writing_are_as_their_rows_say(rt: HostRuntime) -> Result<(), Fail> {
    for row in WAYS {
        check_row(&rt, row)?;
    }
    Ok(())
}

#[test]
fn common_values_and_words_are_as_their_rows_say(rt: HostRuntime) -> Result<(), Fail> {
    for row in COMMON {
        check_row(&rt, row)?;
    }
    Ok(())
}
