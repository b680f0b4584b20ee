// Sites by what their pages show: arcs of the data, labels, kinds of values, and collections.
use crate::sites::SiteRow;

/// Their sites, each with the outcomes of its pages.
pub const SITES: &[SiteRow] = &[
    // A page goes on along arcs of the data.
    SiteRow {
        data_text: "object p { title 'T' to &q } object q { title 'Q' n 1 n 2 }",
        query: "INPUT D WHERE x -> 'to' -> y CREATE F(x) LINK F(x) -> 'd' -> x OUTPUT S",
        templates: "<TEMPLATE F><SFMT @d.title>:<SFMT @d.to.title>:<SFMT @d.to.n DELIM=','>:<SFMT @d.to LINK=title></TEMPLATE>",
        outside: &["/F/nq.html"],
        outcomes: "/F/np.html T:Q:1,2:Q;/F/nq.html -;",
    },
    // Links by the labels of the data, and these labels as values.
    SiteRow {
        data_text: "object o { a 1 b 2 }",
        query: "INPUT D WHERE x -> l -> v CREATE F(x) LINK F(x) -> l -> v, F(x) -> 'label' -> l OUTPUT S",
        templates: "<TEMPLATE F><SFMT @a>,<SFMT @b>,<SFMT @label DELIM='/'></TEMPLATE>",
        outside: &["/F/to.html"],
        outcomes: "/F/no.html 1,2,a/b;/F/to.html -;",
    },
    // Labels as arguments of pages.
    SiteRow {
        data_text: "object o { a 1 a 2 b 'x' }",
        query: "INPUT D WHERE x -> l -> y CREATE F(l) LINK F(l) -> 'has' -> y OUTPUT S",
        templates: "<TEMPLATE F><SFMT @has DELIM=','></TEMPLATE>",
        outside: &["/F/tc.html", "/F/na.html"],
        outcomes: "/F/ta.html 1,2;/F/tb.html x;/F/tc.html -;/F/na.html -;",
    },
    // Each kind of value, as an argument and as a link.
    SiteRow {
        data_text: "object o { u url 'http://a/' f file 'x.txt' t 'T' i 5 n &p }",
        query: "INPUT D WHERE x -> l -> v CREATE F(v) LINK F(v) -> 'v' -> v OUTPUT S",
        templates: "<TEMPLATE F><SFMT @v LINK></TEMPLATE>",
        outside: &["/F/t5.html", "/F/tp.html"],
        outcomes: "/F/i5.html 5;/F/tT.html T;/F/uhttp~3A~2F~2Fa~2F.html <a \
            href='http://a/'>http://a/</a>;/F/fx~2Etxt.html <a href='x.txt'>x.txt</a>;/F/np.html \
            p;/F/t5.html -;/F/tp.html -;",
    },
    // Collected values, beside the members of the data.
    SiteRow {
        data_text: "object a in C { v 2 } object b { v 1 }",
        query: "INPUT D CREATE R() { WHERE C(x) CREATE F(x) COLLECT All(F(x)), C(F(x)) } { WHERE x -> 'v' -> y COLLECT Ends(y) } OUTPUT S",
        templates: "<TEMPLATE R><SFMT #All>|<SFMT #C DELIM=','>|<SFMT #Ends DELIM=','>|<SFMT #None></TEMPLATE><TEMPLATE F>f</TEMPLATE>",
        outside: &["/F/nb.html"],
        outcomes: "/F/na.html f;/R.html /F/na.html|a,/F/na.html|1,2|;/F/nb.html -;",
    },
    // A page that only a COLLECT names.
    SiteRow {
        data_text: "object a in C { } object b { e &a }",
        query: "INPUT D CREATE R() { WHERE C(x) CREATE F(x) } { WHERE x -> 'e' -> y COLLECT All(F(x)) } OUTPUT S",
        templates: "<TEMPLATE R><SFMT #All EMBED></TEMPLATE><TEMPLATE F>f</TEMPLATE>",
        outside: &["/F/nc.html"],
        outcomes: "/F/na.html f;/F/nb.html f;/R.html f;/F/nc.html -;",
    },
    // A text in each way of writing it.
    SiteRow {
        data_text: "object a { t '<b>\\'&\\n2\\\\' u 'http://x/a b?q=\\'1\\'&%20%zz%2' w 'x\\r\\ny\\nz\\n\\r<' n 7 }",
        query: "INPUT D WHERE x -> l -> v CREATE R() LINK R() -> l -> v OUTPUT S",
        templates: "<TEMPLATE R><SFMT @t>|<SFMT @t RAW>|<SFMT @t PLAIN>|<SFMT @w LINES>|<SFMT @u URL>|<SFMT @t JSON>|<SFMT @n JSON></TEMPLATE>",
        outside: &[],
        outcomes: "/R.html &lt;b&gt;&quot;&amp;\n2\\|<b>'&\n2\\|<b>'&\n2\\|x<br>\ny<br>\nz<br>\n<br>\n&lt;|\
            http://x/a%20b?q=%221%22&amp;%20%25zz%252|\\u003cb>\\'&\\n2\\\\|7;",
    },
    // The first values, how many there are, and labels of links.
    SiteRow {
        data_text: "object a in A { t 'B' n 1 } object b in A { t 'a' n 2 } object c in A { t 'A' n 2 } object d in A { n 10 }",
        query: "INPUT D CREATE R() { WHERE A(x), x -> l -> v CREATE F(x) LINK F(x) -> l -> v, R() -> 'f' -> F(x) } OUTPUT S",
        templates: "<TEMPLATE R><SFOR x IN @f KEY=n LIMIT=2 DELIM=' '><SFMT x.n></SFOR>|<SFMT @f EMBED LIMIT=3 \
            ORDER=descend>|<SFMT @f LIMIT=9 DELIM=','>|<SFMT @f COUNT LIMIT=2> <SFMT @f COUNT KEY=n>|<SFMT @zz COUNT> \
            <SFMT @f.n COUNT>|<SFMT @f LINK LABEL='<more>' LIMIT=1><SFMT @f.n LINK LABEL='n' LIMIT=1></TEMPLATE>\
            <TEMPLATE F>(<SFMT @n>)</TEMPLATE>",
        outside: &[],
        outcomes: "/F/na.html (1);/F/nb.html (2);/F/nc.html (2);/F/nd.html (10);/R.html 1 2|(10)(2)(2)|\
            /F/na.html,/F/nb.html,/F/nc.html,/F/nd.html|4 4|0 3|<a href='/F/na.html'>&lt;more&gt;</a>n;",
    },
    // Several keys, tests of numbers, and values in common.
    SiteRow {
        data_text: "object a in A { t 'B' n 1 } object b in A { t 'a' n 2 } object c in A { t 'A' n 2 } object d in A { n 10 }",
        query: "INPUT D CREATE R() { WHERE A(x), x -> l -> v CREATE F(x) LINK F(x) -> l -> v, R() -> 'f' -> F(x) } OUTPUT S",
        templates: "<TEMPLATE R><SFMT @f LINK=t KEY=n DESCEND KEY=t FOLD DELIM=' '>|<SFOR x IN @f KEY=t DESCEND DELIM=' '>\
            <SFMT x.n></SFOR>|<SFOR x IN @f KEY=t FOLD DELIM=','><SFMT x.t></SFOR>|<SIF COUNT @f GT 3>many<SELSE>few</SIF> \
            <SIF NOT COUNT @f EQ 4>x<SELSE>four</SIF>|<SFOR m IN @f DELIM=','><SIF NOT m SAME @f>a</SIF><SIF m SAME @>b\
            <SELSE>c</SIF></SFOR></TEMPLATE><TEMPLATE F>(<SFMT @n>)</TEMPLATE>",
        outside: &[],
        outcomes: "/F/na.html (1);/F/nb.html (2);/F/nc.html (2);/F/nd.html (10);/R.html <a href='/F/nd.html'>/F/nd.html</a> \
            <a href='/F/nc.html'>A</a> <a href='/F/nb.html'>a</a> <a href='/F/na.html'>B</a>|2 1 2 10|A,a,B,|many four|c,c,c,c;",
    },
    // The current entry of a menu: the Int 2 isn't the Text '2'.
    SiteRow {
        data_text: "object a in A { t 'B' t 2 n 1 n 2 n '2' n 'B' }",
        query: "INPUT D WHERE A(x), x -> l -> v CREATE F(x) LINK F(x) -> l -> v OUTPUT S",
        templates: "<TEMPLATE F><SFOR m IN @n KEY=n DELIM=' '><SIF @t SAME m>[<SFMT m>]<SELSE><SFMT m></SIF></SFOR></TEMPLATE>",
        outside: &[],
        outcomes: "/F/na.html 1 [2] 2 [B];",
    },
    // Loops, branches and keys.
    SiteRow {
        data_text: "object o { a 1 a 2 } object s { a &p a &q a &r } object p { k 2 } object q { k 1 } object r { }",
        query: "INPUT D WHERE x -> 'a' -> y CREATE F(x) LINK F(x) -> 'a' -> y OUTPUT S",
        templates: "<TEMPLATE F><SFOR v IN @a ORDER=descend DELIM=', '><SIF v GT 1>big<SELSE><SFMT \
            v></SIF></SFOR>;<SFMT @a KEY=k DELIM=' '></TEMPLATE>",
        outside: &["/F/np.html"],
        outcomes: "/F/no.html big, 1;1 2;/F/ns.html r, q, p;q p r;/F/np.html -;",
    },
];
