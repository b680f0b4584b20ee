// Worked sites: each kind of mistake, and beside it what is none. The places were counted in the texts.

/// A site, and the lines of its findings.
pub struct LintRow {
    pub data: &'static str,
    pub query: &'static str,
    pub templates: &'static str,
    pub lines: &'static str,
}

pub const ROWS: &[LintRow] = &[
    // A site without mistakes.
    LintRow {
        data: "object a in Papers { title \"One\" year 1998 } object b in Papers { title \"Two\" }",
        query: "INPUT D { CREATE Home() } { WHERE Papers(x), x -> \"title\" -> t CREATE Page(x) LINK Home() \
            -> \"paper\" -> Page(x), Page(x) -> \"title\" -> t } OUTPUT S",
        templates: "<TEMPLATE Home><SFMT @paper LINK=title></TEMPLATE><TEMPLATE Page><SFMT @title></TEMPLATE>",
        lines: "",
    },
    // A collection that the data don't have, and that no COLLECT names; so its block has no row.
    LintRow {
        data: "object a in Papers { title \"One\" year 1998 } object b in Papers { title \"Two\" }",
        query: "INPUT D { CREATE Home() } { WHERE Paper(x), x -> \"title\" -> t CREATE Page(x) LINK Home() -> \
            \"paper\" -> Page(x), Page(x) -> \"title\" -> t } OUTPUT S",
        templates: "<TEMPLATE Home><SFMT @paper LINK=title></TEMPLATE><TEMPLATE Page><SFMT @title></TEMPLATE>",
        lines: "site.struql: 148 NoRow at 26\nsite.struql: 141 UnknownCollection at 34\n",
    },
    // Collections with quoted names: one that the data have, with a template of its own, and one that they don't have.
    LintRow {
        data: "object a in \"my file\" { title \"One\" year 1998 } object b in \"my file\" { title \"Two\" }",
        query: "INPUT D { CREATE Home() } { WHERE \"my file\"(x), x -> \"title\" -> t CREATE Page(x) LINK \
            Home() -> \"paper\" -> Page(x), Page(x) -> \"title\" -> t } OUTPUT S",
        templates: "<TEMPLATE Home><SFMT #\"my file\".title><SFMT @paper LINK=title></TEMPLATE><TEMPLATE \
            Page><SFMT @title></TEMPLATE><TEMPLATE COLLECTION \"my file\">x</TEMPLATE>",
        lines: "",
    },
    LintRow {
        data: "object a in \"my file\" { title \"One\" year 1998 } object b in \"my file\" { title \"Two\" }",
        query: "INPUT D { CREATE Home() } { WHERE \"my files\"(x), x -> \"title\" -> t CREATE Page(x) LINK \
            Home() -> \"paper\" -> Page(x), Page(x) -> \"title\" -> t } OUTPUT S",
        templates: "<TEMPLATE Home><SFMT #\"my-file\".title><SFMT @paper LINK=title></TEMPLATE><TEMPLATE Page><SFMT @title></TEMPLATE>",
        lines: "site.struql: 148 NoRow at 26\nsite.struql: 141 UnknownCollection at 34\nsite.tmpl: 141 UnknownCollection at 22\n",
    },
    // A collection that a COLLECT fills is known, but a condition on it reads the data, which have no member of it.
    LintRow {
        data: "object a in Papers { title \"One\" year 1998 } object b in Papers { title \"Two\" }",
        query: "INPUT D { CREATE Home() } { WHERE Papers(x), x -> \"title\" -> t CREATE Page(x) LINK Home() \
            -> \"paper\" -> Page(x), Page(x) -> \"title\" -> t } { WHERE Recent(x) COLLECT Recent(x) } OUTPUT S",
        templates: "<TEMPLATE Home><SFMT @paper LINK=title></TEMPLATE><TEMPLATE Page><SFMT @title></TEMPLATE>",
        lines: "site.struql: 148 NoRow at 139\nsite.struql: 156 OnlyCollected at 147\n",
    },
    // Under `not` such a condition always holds.
    LintRow {
        data: "object a in Papers { title \"One\" year 1998 } object b in Papers { title \"Two\" }",
        query: "INPUT D { CREATE Home() } { WHERE Papers(x), x -> \"title\" -> t CREATE Page(x) LINK Home() -> \
            \"paper\" -> Page(x), Page(x) -> \"title\" -> t } { WHERE Papers(x), not(Kept(x)) COLLECT \
            Kept(x) } OUTPUT S",
        templates: "<TEMPLATE Home><SFMT @paper LINK=title></TEMPLATE><TEMPLATE Page><SFMT @title></TEMPLATE>",
        lines: "site.struql: 156 OnlyCollected at 162\n",
    },
    // A COLLECT into a collection of which the data have members.
    LintRow {
        data: "object a in Papers { title \"One\" year 1998 } object b in Papers { title \"Two\" }",
        query: "INPUT D { CREATE Home() } { WHERE Papers(x), x -> \"title\" -> t CREATE Page(x) LINK Home() -> \
            \"paper\" -> Page(x), Page(x) -> \"title\" -> t } { WHERE Papers(x), x -> \"year\" -> y COLLECT \
            Papers(Page(x)) } OUTPUT S",
        templates: "<TEMPLATE Home><SFMT @paper LINK=title></TEMPLATE><TEMPLATE Page><SFMT @title></TEMPLATE>",
        lines: "",
    },
    // A collection of a template.
    LintRow {
        data: "object a in Papers { title \"One\" year 1998 } object b in Papers { title \"Two\" }",
        query: "INPUT D { CREATE Home() } { WHERE Papers(x), x -> \"title\" -> t CREATE Page(x) LINK Home() \
            -> \"paper\" -> Page(x), Page(x) -> \"title\" -> t } OUTPUT S",
        templates: "<TEMPLATE Home><SFMT #Paper.title><SFMT #Papers.title><SFMT @paper \
            LINK=title></TEMPLATE><TEMPLATE Page><SFMT @title></TEMPLATE>",
        lines: "site.tmpl: 141 UnknownCollection at 22\n",
    },
    // A collection of a template that a COLLECT fills.
    LintRow {
        data: "object a in Papers { title \"One\" year 1998 } object b in Papers { title \"Two\" }",
        query: "INPUT D { CREATE Home() } { WHERE Papers(x), x -> \"title\" -> t CREATE Page(x) LINK Home() \
            -> \"paper\" -> Page(x), Page(x) -> \"title\" -> t } { WHERE Papers(x) COLLECT All(Page(x)) } \
            OUTPUT S",
        templates: "<TEMPLATE Home><SFMT #All.title><SFMT @paper LINK=title></TEMPLATE><TEMPLATE Page><SFMT @title></TEMPLATE>",
        lines: "",
    },
    // A label of a path expression; its block has no row.
    LintRow {
        data: "object a in Papers { title \"One\" year 1998 } object b in Papers { title \"Two\" }",
        query: "INPUT D { CREATE Home() } { WHERE Papers(x), x -> \"titel\" -> t CREATE Page(x) LINK Home() \
            -> \"paper\" -> Page(x), Page(x) -> \"title\" -> t } OUTPUT S",
        templates: "<TEMPLATE Home><SFMT @paper LINK=title></TEMPLATE><TEMPLATE Page><SFMT @title></TEMPLATE>",
        lines: "site.struql: 148 NoRow at 26\nsite.struql: 142 UnknownLabel at 50\n",
    },
    // One of two labels, either of which is enough.
    LintRow {
        data: "object a in Papers { title \"One\" year 1998 } object b in Papers { title \"Two\" }",
        query: "INPUT D { CREATE Home() } { WHERE Papers(x), x -> (\"title\" | \"name\") -> t CREATE Page(x) \
            LINK Home() -> \"paper\" -> Page(x), Page(x) -> \"title\" -> t } OUTPUT S",
        templates: "<TEMPLATE Home><SFMT @paper LINK=title></TEMPLATE><TEMPLATE Page><SFMT @title></TEMPLATE>",
        lines: "site.struql: 142 UnknownLabel at 50\n",
    },
    // A label with which an arc variable is compared; a text with which another is compared is none.
    LintRow {
        data: "object a in Papers { title \"One\" year 1998 } object b in Papers { title \"Two\" }",
        query: "INPUT D { CREATE Home() } { WHERE Papers(x), x -> \"title\" -> t CREATE Page(x) LINK Home() \
            -> \"paper\" -> Page(x), Page(x) -> \"title\" -> t } { WHERE Papers(x), x -> l -> v, l = \"titel\", v \
            = \"titel\" CREATE Other(x) LINK Home() -> \"paper\" -> Other(x) } OUTPUT S",
        templates: "<TEMPLATE Home><SFMT @paper LINK=title></TEMPLATE><TEMPLATE Other>x</TEMPLATE><TEMPLATE Page><SFMT @title></TEMPLATE>",
        lines: "site.struql: 148 NoRow at 139\nsite.struql: 142 UnknownLabel at 175\n",
    },
    // Labels that a list has.
    LintRow {
        data: "object a in Papers { title \"One\" year 1998 } object b in Papers { title \"Two\" }",
        query: "INPUT D { CREATE Home() } { WHERE Papers(x), x -> \"title\" -> t CREATE Page(x) LINK Home() \
            -> \"paper\" -> Page(x), Page(x) -> \"title\" -> t } { WHERE Papers(x), x -> l -> v, l in {\"title\", \
            \"name\"} LINK Page(x) -> \"more\" -> v } OUTPUT S",
        templates: "<TEMPLATE Home><SFMT @paper LINK=title></TEMPLATE><TEMPLATE Page><SFMT @title></TEMPLATE>",
        lines: "site.struql: 142 UnknownLabel at 171\n",
    },
    // A label that no link of the function may carry, though a link of another does.
    LintRow {
        data: "object a in Papers { title \"One\" year 1998 } object b in Papers { title \"Two\" }",
        query: "INPUT D { CREATE Home() } { WHERE Papers(x), x -> \"title\" -> t CREATE Page(x) LINK Home() \
            -> \"paper\" -> Page(x), Page(x) -> \"title\" -> t } OUTPUT S",
        templates: "<TEMPLATE Home><SFMT @paper LINK=title></TEMPLATE><TEMPLATE Page><SFMT @title><SFMT @paper></TEMPLATE>",
        lines: "site.tmpl: 143 NoSuchLink at 85\n",
    },
    // The same in a branch that is not taken, and as the text of a link.
    LintRow {
        data: "object a in Papers { title \"One\" year 1998 } object b in Papers { title \"Two\" }",
        query: "INPUT D { CREATE Home() } { WHERE Papers(x), x -> \"title\" -> t CREATE Page(x) LINK Home() \
            -> \"paper\" -> Page(x), Page(x) -> \"title\" -> t } OUTPUT S",
        templates: "<TEMPLATE Home><SFMT @paper LINK=titel></TEMPLATE><TEMPLATE Page><SIF NOT \
            @title>x<SELSE><SFMT @titel></SIF></TEMPLATE>",
        lines: "site.tmpl: 143 NoSuchLink at 33\nsite.tmpl: 143 NoSuchLink at 96\n",
    },
    // Behind a node a label of the data is there.
    LintRow {
        data: "object a in Papers { title \"One\" year 1998 } object b in Papers { title \"Two\" }",
        query: "INPUT D { CREATE Home() } { WHERE Papers(x), x -> \"title\" -> t CREATE Page(x) LINK Home() \
            -> \"paper\" -> Page(x), Page(x) -> \"title\" -> t, Page(x) -> \"node\" -> x } OUTPUT S",
        templates: "<TEMPLATE Home><SFMT @paper LINK=title></TEMPLATE><TEMPLATE Page><SFMT @node.year><SFMT @node.years></TEMPLATE>",
        lines: "site.tmpl: 143 NoSuchLink at 94\n",
    },
    // A link by an arc variable may carry every label that no condition keeps from it.
    LintRow {
        data: "object a in Papers { title \"One\" year 1998 } object b in Papers { title \"Two\" }",
        query: "INPUT D { CREATE Home() } { WHERE Papers(x), x -> \"title\" -> t CREATE Page(x) LINK Home() \
            -> \"paper\" -> Page(x), Page(x) -> \"title\" -> t { WHERE x -> l -> v, l != \"year\" LINK Page(x) -> \
            l -> v } } OUTPUT S",
        templates: "<TEMPLATE Home><SFMT @paper LINK=title></TEMPLATE><TEMPLATE Page><SFMT @title><SFMT @name><SFMT @year></TEMPLATE>",
        lines: "site.tmpl: 143 NoSuchLink at 97\n",
    },
    // A template of a function that no CREATE names.
    LintRow {
        data: "object a in Papers { title \"One\" year 1998 } object b in Papers { title \"Two\" }",
        query: "INPUT D { CREATE Home() } { WHERE Papers(x), x -> \"title\" -> t CREATE Page(x) LINK Home() \
            -> \"paper\" -> Page(x), Page(x) -> \"title\" -> t } OUTPUT S",
        templates: "<TEMPLATE Home><SFMT @paper LINK=title></TEMPLATE><TEMPLATE Page><SFMT \
            @title></TEMPLATE><TEMPLATE Pages>x</TEMPLATE><TEMPLATE COLLECTION Papers>x</TEMPLATE>",
        lines: "site.tmpl: 144 NeverCreated at 99\n",
    },
    // A function that links reach and no template presents.
    LintRow {
        data: "object a in Papers { title \"One\" year 1998 } object b in Papers { title \"Two\" }",
        query: "INPUT D { CREATE Home() } { WHERE Papers(x), x -> \"title\" -> t CREATE Page(x) LINK Home() \
            -> \"paper\" -> Page(x), Page(x) -> \"title\" -> t } OUTPUT S",
        templates: "<TEMPLATE Home><SFMT @paper LINK=title></TEMPLATE>",
        lines: "site.struql: 145 NoTemplate at 104\n",
    },
    // A function that only groups: a word goes on from its pages.
    LintRow {
        data: "object a in Papers { title \"One\" year 1998 } object b in Papers { title \"Two\" }",
        query: "INPUT D { CREATE Home() } { WHERE Papers(x), x -> \"title\" -> t CREATE Page(x) LINK Home() \
            -> \"paper\" -> Page(x), Page(x) -> \"title\" -> t { WHERE x -> \"year\" -> y CREATE Year(y) LINK \
            Home() -> \"group\" -> Year(y), Year(y) -> \"name\" -> y, Year(y) -> \"item\" -> Page(x) } } OUTPUT S",
        templates: "<TEMPLATE Home><SFOR g IN @group><SFMT g.name><SFMT g.item \
            LINK=title></SFOR></TEMPLATE><TEMPLATE Page><SFMT @title></TEMPLATE>",
        lines: "",
    },
    // Such a word in one step more.
    LintRow {
        data: "object a in Papers { title \"One\" year 1998 } object b in Papers { title \"Two\" }",
        query: "INPUT D { CREATE Home() } { WHERE Papers(x), x -> \"title\" -> t CREATE Page(x) LINK Home() \
            -> \"paper\" -> Page(x), Page(x) -> \"title\" -> t { WHERE x -> \"year\" -> y CREATE Year(y) LINK \
            Home() -> \"group\" -> Year(y), Year(y) -> \"name\" -> y, Year(y) -> \"item\" -> Page(x) } } OUTPUT S",
        templates: "<TEMPLATE Home><SFMT @group.item LINK=title></TEMPLATE><TEMPLATE Page><SFMT @title></TEMPLATE>",
        lines: "",
    },
    // The text of a link doesn't go on, nor does a key, and no link of the function may carry the label of another word.
    LintRow {
        data: "object a in Papers { title \"One\" year 1998 } object b in Papers { title \"Two\" }",
        query: "INPUT D { CREATE Home() } { WHERE Papers(x), x -> \"title\" -> t CREATE Page(x) LINK Home() \
            -> \"paper\" -> Page(x), Page(x) -> \"title\" -> t { WHERE x -> \"year\" -> y CREATE Year(y) LINK \
            Home() -> \"group\" -> Year(y), Year(y) -> \"name\" -> y, Year(y) -> \"item\" -> Page(x) } } OUTPUT S",
        templates: "<TEMPLATE Home><SFMT @group KEY=name LINK=name><SFMT @paper.title></TEMPLATE><TEMPLATE Page><SFMT @title></TEMPLATE>",
        lines: "site.struql: 145 NoTemplate at 203\n",
    },
    // The template of a collection presents nodes, and no pages.
    LintRow {
        data: "object a in Papers { title \"One\" year 1998 } object b in Papers { title \"Two\" }",
        query: "INPUT D { CREATE Home() } { WHERE Papers(x), x -> \"title\" -> t CREATE Page(x) LINK Home() \
            -> \"paper\" -> Page(x), Page(x) -> \"title\" -> t } { WHERE Papers(x) COLLECT All(Page(x)) } \
            OUTPUT S",
        templates: "<TEMPLATE Home><SFMT @paper LINK=title></TEMPLATE><TEMPLATE COLLECTION All>x</TEMPLATE>",
        lines: "site.struql: 145 NoTemplate at 104\nsite.struql: 145 NoTemplate at 169\n",
    },
    // A function that only a COLLECT has, and no template presents.
    LintRow {
        data: "object a in Papers { title \"One\" year 1998 } object b in Papers { title \"Two\" }",
        query: "INPUT D { CREATE Home() } { WHERE Papers(x), x -> \"title\" -> t CREATE Page(x) LINK Home() -> \
            \"paper\" -> Page(x), Page(x) -> \"title\" -> t } { WHERE Papers(x) CREATE Card(x) LINK Card(x) \
            -> \"name\" -> x COLLECT All(Card(x)) } OUTPUT S",
        templates: "<TEMPLATE Home><SFMT #All LINK><SFMT @paper LINK=title></TEMPLATE><TEMPLATE Page><SFMT \
            @title></TEMPLATE>",
        lines: "site.struql: 145 NoTemplate at 212\n",
    },
    // A word goes on from its pages.
    LintRow {
        data: "object a in Papers { title \"One\" year 1998 } object b in Papers { title \"Two\" }",
        query: "INPUT D { CREATE Home() } { WHERE Papers(x), x -> \"title\" -> t CREATE Page(x) LINK Home() -> \
            \"paper\" -> Page(x), Page(x) -> \"title\" -> t } { WHERE Papers(x), x -> \"title\" -> t CREATE \
            Card(x) LINK Card(x) -> \"name\" -> t COLLECT All(Card(x)) } OUTPUT S",
        templates: "<TEMPLATE Home><SFMT #All.name><SFMT @paper LINK=title></TEMPLATE><TEMPLATE Page><SFMT \
            @title></TEMPLATE>",
        lines: "",
    },
    // A created function that nothing reaches; the root's is reached by its address.
    LintRow {
        data: "object a in Papers { title \"One\" year 1998 } object b in Papers { title \"Two\" }",
        query: "INPUT D { CREATE Home() } { WHERE Papers(x), x -> \"title\" -> t CREATE Page(x), Lost(x) LINK \
            Home() -> \"paper\" -> Page(x), Page(x) -> \"title\" -> t } OUTPUT S",
        templates: "<TEMPLATE Home><SFMT @paper LINK=title></TEMPLATE><TEMPLATE Page><SFMT @title></TEMPLATE>",
        lines: "site.struql: 146 NeverReached at 79\n",
    },
    // A function that a template embeds, and one that a COLLECT has.
    LintRow {
        data: "object a in Papers { title \"One\" year 1998 } object b in Papers { title \"Two\" }",
        query: "INPUT D { CREATE Home() } { WHERE Papers(x), x -> \"title\" -> t CREATE Page(x), Part(x), \
            Kept(x) LINK Home() -> \"paper\" -> Page(x), Page(x) -> \"title\" -> t } { WHERE Papers(x) LINK \
            Page(x) -> \"part\" -> Part(x) COLLECT All(Kept(x)) } OUTPUT S",
        templates: "<TEMPLATE Home><SFMT @paper LINK=title></TEMPLATE><TEMPLATE Part>x</TEMPLATE><TEMPLATE \
            Kept>x</TEMPLATE><TEMPLATE Page><SFMT @title><SFMT @part EMBED></TEMPLATE>",
        lines: "",
    },
    // A variable that is under `not` alone.
    LintRow {
        data: "object a in Papers { title \"One\" year 1998 } object b in Papers { title \"Two\" }",
        query: "INPUT D { CREATE Home() } { WHERE Papers(x), x -> \"title\" -> t CREATE Page(x) LINK Home() \
            -> \"paper\" -> Page(x), Page(x) -> \"title\" -> t } { WHERE Papers(x), not(x -> \"year\" -> y), \
            not(x = \"a\") LINK Page(x) -> \"lacks\" -> y } OUTPUT S",
        templates: "<TEMPLATE Home><SFMT @paper LINK=title></TEMPLATE><TEMPLATE Page><SFMT @title></TEMPLATE>",
        lines: "site.struql: 147 Unbounded at 177\n",
    },
    // A block round the variable's that mentions it outside of `not` is enough.
    LintRow {
        data: "object a in Papers { title \"One\" year 1998 } object b in Papers { title \"Two\" }",
        query: "INPUT D { CREATE Home() } { WHERE Papers(x), x -> \"title\" -> t CREATE Page(x) LINK Home() \
            -> \"paper\" -> Page(x), Page(x) -> \"title\" -> t } { WHERE Papers(x), x -> \"year\" -> y { WHERE \
            not(y = 2000) LINK Page(x) -> \"year\" -> y } } OUTPUT S",
        templates: "<TEMPLATE Home><SFMT @paper LINK=title></TEMPLATE><TEMPLATE Page><SFMT @title></TEMPLATE>",
        lines: "",
    },
    // A block without rows, and one in it.
    LintRow {
        data: "object a in Papers { title \"One\" year 1998 } object b in Papers { title \"Two\" }",
        query: "INPUT D { CREATE Home() } { WHERE Papers(x), x -> \"title\" -> t CREATE Page(x) LINK Home() \
            -> \"paper\" -> Page(x), Page(x) -> \"title\" -> t } { WHERE Papers(x), x -> \"year\" -> 2000 { WHERE \
            x -> \"title\" -> t LINK Page(x) -> \"other\" -> t } } OUTPUT S",
        templates: "<TEMPLATE Home><SFMT @paper LINK=title></TEMPLATE><TEMPLATE Page><SFMT @title></TEMPLATE>",
        lines: "site.struql: 148 NoRow at 139\nsite.struql: 148 NoRow at 178\n",
    },
    // Tags in other letters, and such that there aren't; elements of HTML are none, nor are words in small letters.
    LintRow {
        data: "object a in Papers { title \"One\" year 1998 } object b in Papers { title \"Two\" }",
        query: "INPUT D { CREATE Home() } { WHERE Papers(x), x -> \"title\" -> t CREATE Page(x) LINK Home() \
            -> \"paper\" -> Page(x), Page(x) -> \"title\" -> t } OUTPUT S",
        templates: "<TEMPLATE Home><SFMT @paper LINK=title></TEMPLATE><TEMPLATE Page>a<sfmt \
            @title>b</Sif><SFMTX></SFRO><SELSE <SPAN></STRONG><S><sforest></TEMPLATE>",
        lines: "site.tmpl: 149 MisspelledTag at 66\nsite.tmpl: 149 MisspelledTag at 80\n\
            site.tmpl: 149 MisspelledTag at 86\nsite.tmpl: 149 MisspelledTag at 93\n\
            site.tmpl: 149 MisspelledTag at 100\n",
    },
];
