// Files of templates that are refused with their places, and others that are not.
use super::marked::{Reported, is_marked, report_of};
use crate::inputs::check;
use std::alloc::Global;
use std::test::Fail;

// Texts that are refused with the same number, each with `^` before the refused place and `'` for each quote. A text
// without a mark is a file of templates.
struct Row {
    number: u32,
    texts: &'static [&'static str],
}

const ROWS: &[Row] = &[
    // What is between templates, their names, and two of one name.
    Row {
        number: 81,
        texts: &[
            "^x",
            "<TEMPLATE F>ok</TEMPLATE> ^x",
            "<TEMPLATE ^>ok</TEMPLATE>",
            "<TEMPLATE F ^G>ok</TEMPLATE>",
            "<TEMPLATE ^'F'>ok</TEMPLATE>",
            "<TEMPLATE F ^'G'>ok</TEMPLATE>",
            "<TEMPLATE COLLECTION ^1>ok</TEMPLATE>",
            "<TEMPLATE COLLECTION 'F' ^G>ok</TEMPLATE>",
            "<TEMPLATE COLLECTION 'F' ^'G'>ok</TEMPLATE>",
            "<TEMPLATE COLLECTION ^'F",
            "<TEMPLATE COLLECTION 'F'^",
            "<TEMPLATE F^",
            "<TEMPLATE ^",
            "^<TEMPLATE",
            "^<TEMPLATES F>ok</TEMPLATE>",
            "^<template F>ok</TEMPLATE>",
            "<TEMPLATE F><TEMPLATE G>x</TEMPLATE>^</TEMPLATE>",
        ],
    },
    Row {
        number: 83,
        texts: &[
            "<TEMPLATE F>a</TEMPLATE><TEMPLATE ^F>b</TEMPLATE>",
            "<TEMPLATE F>a</TEMPLATE><TEMPLATE ^F>b",
            "<TEMPLATE COLLECTION F>a</TEMPLATE><TEMPLATE COLLECTION ^F>b</TEMPLATE>",
            "<TEMPLATE COLLECTION F>a</TEMPLATE><TEMPLATE COLLECTION ^'F'>b</TEMPLATE>",
            "<TEMPLATE COLLECTION 'F g'>a</TEMPLATE><TEMPLATE COLLECTION ^'F g'>b</TEMPLATE>",
        ],
    },
    // Expressions, and variables of no loop round them.
    Row {
        number: 81,
        texts: &[
            "<TEMPLATE F><SFMT ^></TEMPLATE>",
            "<TEMPLATE F><SFMT ^1></TEMPLATE>",
            "<TEMPLATE F><SFMT ^$></TEMPLATE>",
            "<TEMPLATE F><SFMT ^EMBED></TEMPLATE>",
            "<TEMPLATE F><SFMT #^></TEMPLATE>",
            "<TEMPLATE F><SFMT @a.^></TEMPLATE>",
            "<TEMPLATE F><SFMT @ ^a></TEMPLATE>",
            "<TEMPLATE F><SFMT @a ^.b></TEMPLATE>",
            "<TEMPLATE F><SFMT @a^",
        ],
    },
    Row {
        number: 85,
        texts: &[
            "<TEMPLATE F><SFMT ^v.a></TEMPLATE>",
            "<TEMPLATE F><SFMT ^embed></TEMPLATE>",
            "<TEMPLATE F><SFMT ^v>",
            "<TEMPLATE F><SFMT ^v",
            "<TEMPLATE F><SIF ^v EQ 1></SIF></TEMPLATE>",
            "<TEMPLATE F><SFOR v IN @a>x</SFOR><SFMT ^v></TEMPLATE>",
            "<TEMPLATE F><SFOR v IN ^v.a>x</SFOR></TEMPLATE>",
            "<TEMPLATE F><SFOR v IN @a><SFMT v></SFOR><SFOR w IN @a><SFMT ^v></SFOR></TEMPLATE>",
        ],
    },
    // Options of tags.
    Row {
        number: 81,
        texts: &[
            "<TEMPLATE F><SFMT @a EMBED ^LINK></TEMPLATE>",
            "<TEMPLATE F><SFMT @a EMBED ^EMBED></TEMPLATE>",
            "<TEMPLATE F><SFMT @a LINK=b ^EMBED></TEMPLATE>",
            "<TEMPLATE F><SFMT @a ORDER=^up></TEMPLATE>",
            "<TEMPLATE F><SFMT @a KEY^></TEMPLATE>",
            "<TEMPLATE F><SFMT @a KEY=^></TEMPLATE>",
            "<TEMPLATE F><SFMT @a KEY=^@b></TEMPLATE>",
            "<TEMPLATE F><SFMT @a DELIM=^x></TEMPLATE>",
            "<TEMPLATE F><SFMT @a DELIM=^'x></TEMPLATE>",
            "<TEMPLATE F><SFMT @a DELIM='x' ^DELIM='y'></TEMPLATE>",
            "<TEMPLATE F><SFMT @a ^foo></TEMPLATE>",
            "<TEMPLATE F><SFMT @a RAW ^URL></TEMPLATE>",
            "<TEMPLATE F><SFMT @a LINK ^JSON></TEMPLATE>",
            "<TEMPLATE F><SFMT @a PLAIN^=b></TEMPLATE>",
            "<TEMPLATE F><SFOR v IN @a ^LINES>x</SFOR></TEMPLATE>",
            "<TEMPLATE F><SFOR ^URL IN @a>x</SFOR></TEMPLATE>",
            "<TEMPLATE F><SFOR ^LIMIT IN @a>x</SFOR></TEMPLATE>",
            "<TEMPLATE F><SFOR v IN @a ^EMBED>x</SFOR></TEMPLATE>",
        ],
    },
    // How many values, and labels of links.
    Row {
        number: 81,
        texts: &[
            "<TEMPLATE F><SFMT @a LIMIT=^0></TEMPLATE>",
            "<TEMPLATE F><SFMT @a LIMIT=^-1></TEMPLATE>",
            "<TEMPLATE F><SFMT @a LIMIT=^'2'></TEMPLATE>",
            "<TEMPLATE F><SFMT @a LIMIT=^b></TEMPLATE>",
            "<TEMPLATE F><SFMT @a LIMIT^></TEMPLATE>",
            "<TEMPLATE F><SFMT @a LIMIT=2 ^LIMIT=3></TEMPLATE>",
            "<TEMPLATE F><SFOR v IN @a LIMIT=^0>x</SFOR></TEMPLATE>",
            "<TEMPLATE F><SFMT @a ^LABEL='x'></TEMPLATE>",
            "<TEMPLATE F><SFMT @a ^LABEL='x' LINK></TEMPLATE>",
            "<TEMPLATE F><SFMT @a LINK=b ^LABEL='x'></TEMPLATE>",
            "<TEMPLATE F><SFMT @a EMBED ^LABEL='x'></TEMPLATE>",
            "<TEMPLATE F><SFMT @a LINK LABEL^></TEMPLATE>",
            "<TEMPLATE F><SFMT @a LINK LABEL=^x></TEMPLATE>",
            "<TEMPLATE F><SFMT @a LINK LABEL='x' ^LABEL='y'></TEMPLATE>",
            "<TEMPLATE F><SFMT @a LINK LABEL='x' ^LINK></TEMPLATE>",
            "<TEMPLATE F><SFMT @a LINK ^COUNT></TEMPLATE>",
            "<TEMPLATE F><SFMT @a COUNT^=2></TEMPLATE>",
            "<TEMPLATE F><SFMT @a COUNT ^LABEL='x'></TEMPLATE>",
            "<TEMPLATE F><SFOR v IN @a ^COUNT>x</SFOR></TEMPLATE>",
            "<TEMPLATE F><SFOR v IN @a ^LABEL='x'>x</SFOR></TEMPLATE>",
            "<TEMPLATE F><SFOR ^COUNT IN @a>x</SFOR></TEMPLATE>",
        ],
    },
    // Keys: up to four, and with ORDER one that goes upwards; FOLD and DESCEND right after a key's word.
    Row {
        number: 81,
        texts: &[
            "<TEMPLATE F><SFMT @f KEY=n KEY=t ^ORDER=descend></TEMPLATE>",
            "<TEMPLATE F><SFMT @f ORDER=descend KEY=n ^KEY=t></TEMPLATE>",
            "<TEMPLATE F><SFMT @f KEY=a KEY=b KEY=c KEY=d ^KEY=e></TEMPLATE>",
            "<TEMPLATE F><SFOR v IN @f KEY=a KEY=b KEY=c KEY=d ^KEY=e>x</SFOR></TEMPLATE>",
            "<TEMPLATE F><SFMT @f KEY=t DESCEND ^FOLD></TEMPLATE>",
            "<TEMPLATE F><SFMT @f KEY=t DESCEND ^DESCEND></TEMPLATE>",
            "<TEMPLATE F><SFMT @f KEY=t FOLD ^FOLD></TEMPLATE>",
            "<TEMPLATE F><SFMT @f KEY=t DESCEND ^ORDER=ascend></TEMPLATE>",
            "<TEMPLATE F><SFMT @f ORDER=ascend KEY=t ^DESCEND></TEMPLATE>",
            "<TEMPLATE F><SFMT @f ORDER=ascend KEY=t FOLD ^DESCEND></TEMPLATE>",
            "<TEMPLATE F><SFMT @f KEY=t LIMIT=2 ^FOLD></TEMPLATE>",
            "<TEMPLATE F><SFMT @f ^FOLD></TEMPLATE>",
            "<TEMPLATE F><SFOR v IN @f ^DESCEND>x</SFOR></TEMPLATE>",
            "<TEMPLATE F><SFOR ^FOLD IN @f>x</SFOR></TEMPLATE>",
        ],
    },
    // Tests: COUNT with a comparison and an integer, and SAME with another expression.
    Row {
        number: 81,
        texts: &[
            "<TEMPLATE F><SIF COUNT @f^>x</SIF></TEMPLATE>",
            "<TEMPLATE F><SIF COUNT @f GT ^'3'>x</SIF></TEMPLATE>",
            "<TEMPLATE F><SIF COUNT @f GT 3 ^4>x</SIF></TEMPLATE>",
            "<TEMPLATE F><SIF COUNT @f ^SAME @f>x</SIF></TEMPLATE>",
            "<TEMPLATE F><SIF COUNT ^NOT @f EQ 1>x</SIF></TEMPLATE>",
            "<TEMPLATE F><SIF @f ^COUNT EQ 1>x</SIF></TEMPLATE>",
            "<TEMPLATE F><SIF @f SAME^>x</SIF></TEMPLATE>",
            "<TEMPLATE F><SIF @f SAME ^1>x</SIF></TEMPLATE>",
            "<TEMPLATE F><SIF @f SAME @g ^EQ 1>x</SIF></TEMPLATE>",
            "<TEMPLATE F><SIF @f EQ 1 ^SAME @g>x</SIF></TEMPLATE>",
            "<TEMPLATE F><SIF ^SAME @f>x</SIF></TEMPLATE>",
            "<TEMPLATE F><SFMT @f ^SAME @g></TEMPLATE>",
            "<TEMPLATE F><SFOR ^SAME IN @f>x</SFOR></TEMPLATE>",
        ],
    },
    Row {
        number: 85,
        texts: &[
            "<TEMPLATE F><SIF @f SAME ^v>x</SIF></TEMPLATE>",
            "<TEMPLATE F><SIF COUNT ^v EQ 1>x</SIF></TEMPLATE>",
        ],
    },
];

const TAG_ROWS: &[Row] = &[
    // Tags of branches and loops.
    Row {
        number: 81,
        texts: &[
            "<TEMPLATE F><SIF ^>x</SIF></TEMPLATE>",
            "<TEMPLATE F><SIF NOT ^>x</SIF></TEMPLATE>",
            "<TEMPLATE F><SIF @a EQ ^>x</SIF></TEMPLATE>",
            "<TEMPLATE F><SIF @a EQ ^b>x</SIF></TEMPLATE>",
            "<TEMPLATE F><SIF @a EQ 1 ^2>x</SIF></TEMPLATE>",
            "<TEMPLATE F><SIF @a ^eq 1>x</SIF></TEMPLATE>",
            "<TEMPLATE F><SFOR ^@a>x</SFOR></TEMPLATE>",
            "<TEMPLATE F><SFOR v ^@a>x</SFOR></TEMPLATE>",
            "<TEMPLATE F><SFOR v IN ^>x</SFOR></TEMPLATE>",
            "<TEMPLATE F><SFOR ^IN IN @a>x</SFOR></TEMPLATE>",
        ],
    },
    // Tags that close nothing, texts that end in a body, and tags one within another.
    Row {
        number: 81,
        texts: &[
            "<TEMPLATE F>a^</SIF></TEMPLATE>",
            "<TEMPLATE F>a^</SFOR></TEMPLATE>",
            "<TEMPLATE F>a^<SELSE>b</TEMPLATE>",
            "<TEMPLATE F><SIF @a>x<SELSE>y^<SELSE>z</SIF></TEMPLATE>",
            "<TEMPLATE F><SFOR v IN @a>x^</SIF></TEMPLATE>",
            "<TEMPLATE F><SFOR v IN @a>x^<SELSE>y</SFOR></TEMPLATE>",
            "<TEMPLATE F><SIF @a>^</TEMPLATE>",
        ],
    },
    Row {
        number: 82,
        texts: &[
            "^<TEMPLATE F>abc",
            "<TEMPLATE F>^<SIF @a>x",
            "<TEMPLATE F>^<SIF @a>x<SELSE>y",
            "<TEMPLATE F>^<SFOR v IN @a><SIF v>x</SIF>",
            "<TEMPLATE F><SIF @a>^<SFOR v IN @a></SIF",
            "<TEMPLATE G>x</TEMPLATE>^<TEMPLATE F>",
        ],
    },
    Row {
        number: 84,
        texts: &[
            "<TEMPLATE F><SIF @a><SIF @a><SIF @a><SIF @a><SIF @a><SIF @a><SIF @a><SIF @a><SIF @a><SIF \
                @a><SIF @a><SIF @a><SIF @a><SIF @a><SIF @a><SIF @a><SIF @a><SIF @a><SIF @a><SIF @a><SIF \
                @a><SIF @a><SIF @a><SIF @a><SIF @a><SIF @a><SIF @a><SIF @a><SIF @a><SIF @a><SIF @a><SIF \
                @a>^<SIF @a>",
            "<TEMPLATE F><SFOR v IN @a><SFOR v IN @a><SFOR v IN @a><SFOR v IN @a><SFOR v IN @a><SFOR v IN \
                @a><SFOR v IN @a><SFOR v IN @a><SFOR v IN @a><SFOR v IN @a><SFOR v IN @a><SFOR v IN \
                @a><SFOR v IN @a><SFOR v IN @a><SFOR v IN @a><SFOR v IN @a><SFOR v IN @a><SFOR v IN \
                @a><SFOR v IN @a><SFOR v IN @a><SFOR v IN @a><SFOR v IN @a><SFOR v IN @a><SFOR v IN \
                @a><SFOR v IN @a><SFOR v IN @a><SFOR v IN @a><SFOR v IN @a><SFOR v IN @a><SFOR v IN \
                @a><SFOR v IN @a><SFOR v IN @a>^<SIF v>",
            "<TEMPLATE F><SIF @a><SIF @a><SIF @a><SIF @a><SIF @a><SIF @a><SIF @a><SIF @a><SIF @a><SIF \
                @a><SIF @a><SIF @a><SIF @a><SIF @a><SIF @a><SIF @a><SIF @a><SIF @a><SIF @a><SIF @a><SIF \
                @a><SIF @a><SIF @a><SIF @a><SIF @a><SIF @a><SIF @a><SIF @a><SIF @a><SIF @a><SIF \
                @a></SIF><SFOR v IN @a><SFOR v IN @a>^<SFOR v IN v>",
        ],
    },
    // Notes, fragments, and what is put in.
    Row {
        number: 81,
        texts: &[
            "<TEMPLATE F>a^</FRAGMENT></TEMPLATE>",
            "<TEMPLATE F>a^</LAYOUT></TEMPLATE>",
            "<TEMPLATE F>a^<SBODY></TEMPLATE>",
            "<TEMPLATE F>a^</SNOTE></TEMPLATE>",
            "<SNOTE>a</SNOTE>^x",
            "<FRAGMENT f>x^</TEMPLATE>",
            "<FRAGMENT ^'f'>x</FRAGMENT>",
            "<FRAGMENT f ^g>x</FRAGMENT>",
            "<FRAGMENT COLLECTION ^g>x</FRAGMENT>",
            "<FRAGMENT f>x</FRAGMENT><TEMPLATE F><SINCLUDE ^'f'></TEMPLATE>",
            "<FRAGMENT f>x</FRAGMENT><TEMPLATE F><SINCLUDE f ^g></TEMPLATE>",
            "<FRAGMENT f>x</FRAGMENT><TEMPLATE F><SIF @a><SINCLUDE f>^</TEMPLATE>",
            "<TEMPLATE F><SFOR ^SINCLUDE IN @a>x</SFOR></TEMPLATE>",
        ],
    },
    Row {
        number: 82,
        texts: &[
            "<TEMPLATE F>x^<SNOTE>y</TEMPLATE>",
            "^<SNOTE>y",
            "^<FRAGMENT f>x",
        ],
    },
    Row {
        number: 83,
        texts: &[
            "<FRAGMENT a>1</FRAGMENT><TEMPLATE a>2</TEMPLATE><FRAGMENT ^a>3</FRAGMENT>",
            "<FRAGMENT a>1</FRAGMENT><FRAGMENT ^a b>3</FRAGMENT>",
        ],
    },
    Row {
        number: 84,
        texts: &[
            "<FRAGMENT f><SIF @a><SIF @a><SIF @a><SIF @a><SIF @a><SIF @a><SIF @a><SIF @a><SIF @a><SIF @a>\
                <SIF @a><SIF @a><SIF @a><SIF @a><SIF @a><SIF @a><SIF @a><SIF @a><SIF @a><SIF @a></SIF></SIF>\
                </SIF></SIF></SIF></SIF></SIF></SIF></SIF></SIF></SIF></SIF></SIF></SIF></SIF></SIF></SIF>\
                </SIF></SIF></SIF></FRAGMENT><TEMPLATE F><SIF @a><SIF @a><SIF @a><SIF @a><SIF @a><SIF @a>\
                <SIF @a><SIF @a><SIF @a><SIF @a><SIF @a><SIF @a><SIF @a>^<SINCLUDE f>",
        ],
    },
    Row {
        number: 85,
        texts: &[
            "<FRAGMENT f><SFMT ^v.t></FRAGMENT><TEMPLATE F><SFOR v IN @a><SINCLUDE f></SFOR></TEMPLATE>",
        ],
    },
    Row {
        number: 86,
        texts: &[
            "<FRAGMENT b><SINCLUDE ^a></FRAGMENT><FRAGMENT a>1</FRAGMENT>",
            "<TEMPLATE F><SINCLUDE ^a></TEMPLATE><FRAGMENT a>1</FRAGMENT>",
            "<FRAGMENT a><SINCLUDE ^a></FRAGMENT>",
            "<TEMPLATE F><SINCLUDE ^F><SFMT v></TEMPLATE>",
        ],
    },
    Row {
        number: 0,
        texts: &[
            "<SNOTE>of the file</SNOTE><FRAGMENT a>1</FRAGMENT><FRAGMENT b><SINCLUDE a>2<SNOTE></TEMPLATE></SNOTE>\
                </FRAGMENT><TEMPLATE R><SINCLUDE b>3<SNOTE> <SFMT> </SNOTE>4</TEMPLATE>",
            "<TEMPLATE R><SBODYx> <SNOTES> <LAYOUT x> <FRAGMENT y> <sbody> <SINCLUDE></TEMPLATE>",
            "<TEMPLATE R>a<SNOTE>b<SNOTE>c</SNOTE>d</TEMPLATE>",
            "<FRAGMENT f><SFOR v IN @f><SFMT v></SFOR></FRAGMENT><TEMPLATE R><SFOR v IN @f><SINCLUDE f></SFOR></TEMPLATE>",
            "<FRAGMENT f><SIF @a><SIF @a><SIF @a><SIF @a><SIF @a><SIF @a><SIF @a><SIF @a><SIF @a><SIF @a>\
                <SIF @a><SIF @a><SIF @a><SIF @a><SIF @a><SIF @a><SIF @a><SIF @a><SIF @a><SIF @a></SIF></SIF>\
                </SIF></SIF></SIF></SIF></SIF></SIF></SIF></SIF></SIF></SIF></SIF></SIF></SIF></SIF></SIF>\
                </SIF></SIF></SIF></FRAGMENT><TEMPLATE F><SIF @a><SIF @a><SIF @a><SIF @a><SIF @a><SIF @a>\
                <SIF @a><SIF @a><SIF @a><SIF @a><SIF @a><SIF @a><SINCLUDE f></SIF></SIF></SIF></SIF></SIF>\
                </SIF></SIF></SIF></SIF></SIF></SIF></SIF></TEMPLATE>",
        ],
    },
    // Layouts.
    Row {
        number: 81,
        texts: &[
            "<LAYOUT a>x^</LAYOUT>",
            "<LAYOUT a><SBODY>^</TEMPLATE>",
            "<FRAGMENT a>x^<SBODY></FRAGMENT>",
            "<LAYOUT ^'a'><SBODY></LAYOUT>",
            "<LAYOUT a ^b><SBODY></LAYOUT>",
            "<LAYOUT a><SBODY></LAYOUT><FRAGMENT f ^IN=a>x</FRAGMENT>",
            "<LAYOUT a><SBODY></LAYOUT><TEMPLATE F IN=^'a'>x</TEMPLATE>",
            "<LAYOUT a><SBODY></LAYOUT><TEMPLATE F IN=a ^b>x</TEMPLATE>",
            "<LAYOUT a><SBODY></LAYOUT><TEMPLATE F ^IN>x</TEMPLATE>",
            "<LAYOUT a><SIF @a><SBODY>^</LAYOUT>",
            "<LAYOUT a><SBODY></LAYOUT>^<SBODY>",
            "<LAYOUT a><SBODY></LAYOUT>^</LAYOUT>",
        ],
    },
    Row {
        number: 82,
        texts: &["^<LAYOUT a><SBODY>", "<LAYOUT a>^<SIF @a><SBODY>"],
    },
    Row {
        number: 83,
        texts: &[
            "<LAYOUT a><SBODY></LAYOUT><FRAGMENT a>1</FRAGMENT><LAYOUT ^a><SBODY></LAYOUT>",
            "<LAYOUT a><SBODY></LAYOUT><TEMPLATE F IN=a>1</TEMPLATE><TEMPLATE ^F IN=b>2</TEMPLATE>",
            "<TEMPLATE COLLECTION R>1</TEMPLATE><TEMPLATE R>2</TEMPLATE><FRAGMENT R>4</FRAGMENT>\
                <LAYOUT R><SBODY></LAYOUT><TEMPLATE COLLECTION ^'R'>5</TEMPLATE>",
        ],
    },
    Row {
        number: 84,
        texts: &[
            "<LAYOUT a><SIF @f>^<SBODY></SIF></LAYOUT><TEMPLATE R IN=a><SIF @><SIF @><SIF @><SIF @>\
                <SIF @><SIF @><SIF @><SIF @><SIF @><SIF @><SIF @><SIF @><SIF @><SIF @><SIF @><SIF @><SIF @>\
                <SIF @><SIF @><SIF @><SIF @><SIF @><SIF @><SIF @><SIF @><SIF @><SIF @><SIF @><SIF @><SIF @>\
                <SIF @><SIF @>x</SIF></SIF></SIF></SIF></SIF></SIF></SIF></SIF></SIF></SIF></SIF></SIF>\
                </SIF></SIF></SIF></SIF></SIF></SIF></SIF></SIF></SIF></SIF></SIF></SIF></SIF></SIF></SIF>\
                </SIF></SIF></SIF></SIF></SIF></TEMPLATE>",
            "<LAYOUT a><SIF @f><SBODY></SIF></LAYOUT><LAYOUT b IN=a><SIF @f><SBODY><SIF @f>^<SBODY></SIF>\
                </SIF></LAYOUT><TEMPLATE R IN=b><SIF @><SIF @><SIF @><SIF @><SIF @><SIF @><SIF @><SIF @>\
                <SIF @><SIF @><SIF @><SIF @><SIF @><SIF @><SIF @><SIF @><SIF @><SIF @><SIF @><SIF @><SIF @>\
                <SIF @><SIF @><SIF @><SIF @><SIF @><SIF @><SIF @><SIF @><SIF @>x</SIF></SIF></SIF></SIF>\
                </SIF></SIF></SIF></SIF></SIF></SIF></SIF></SIF></SIF></SIF></SIF></SIF></SIF></SIF></SIF>\
                </SIF></SIF></SIF></SIF></SIF></SIF></SIF></SIF></SIF></SIF></SIF></TEMPLATE>",
            "<LAYOUT a><SIF @f>^<SBODY></SIF></LAYOUT><LAYOUT b IN=a><SIF @><SIF @><SIF @><SIF @><SIF @>\
                <SIF @><SIF @><SIF @><SIF @><SIF @><SIF @><SIF @><SIF @><SIF @><SIF @><SIF @><SIF @><SIF @>\
                <SIF @><SIF @><SIF @><SIF @><SIF @><SIF @><SIF @><SIF @><SIF @><SIF @><SIF @><SIF @><SIF @>\
                <SIF @>x</SIF></SIF></SIF></SIF></SIF></SIF></SIF></SIF></SIF></SIF></SIF></SIF></SIF></SIF>\
                </SIF></SIF></SIF></SIF></SIF></SIF></SIF></SIF></SIF></SIF></SIF></SIF></SIF></SIF></SIF>\
                </SIF></SIF></SIF><SBODY></LAYOUT>",
        ],
    },
    Row {
        number: 85,
        texts: &[
            "<LAYOUT a><SFOR v IN @f><SBODY></SFOR></LAYOUT><TEMPLATE R IN=a><SFMT ^v></TEMPLATE>",
            "<LAYOUT a><SFMT ^b.c><SBODY></LAYOUT><TEMPLATE R IN=a>x</TEMPLATE>",
        ],
    },
    Row {
        number: 86,
        texts: &[
            "<TEMPLATE R IN=^main>x</TEMPLATE>",
            "<TEMPLATE R IN=^a>x</TEMPLATE><LAYOUT a><SBODY></LAYOUT>",
            "<LAYOUT a IN=^a><SBODY></LAYOUT>",
            "<FRAGMENT a>x</FRAGMENT><TEMPLATE R IN=^a>x</TEMPLATE>",
            "<LAYOUT a><SBODY></LAYOUT><TEMPLATE R><SINCLUDE ^a></TEMPLATE>",
        ],
    },
    Row {
        number: 0,
        texts: &[
            "<LAYOUT outer>[<SBODY>]</LAYOUT><LAYOUT inner IN=outer>(<SBODY><SFMT @t>)</LAYOUT>\
                <TEMPLATE F IN=inner>x</TEMPLATE>",
            "<LAYOUT a>(<SBODY>)</LAYOUT><TEMPLATE COLLECTION IN=a>x</TEMPLATE><TEMPLATE COLLECTION IN>y</TEMPLATE>\
                <TEMPLATE COLLECTION A IN = a>z</TEMPLATE><TEMPLATE IN IN=a>w</TEMPLATE>",
            "<LAYOUT a><SFOR v IN @f><SBODY>:<SFMT v.n> </SFOR></LAYOUT><TEMPLATE R IN=a><SFOR v IN @f.n><SFMT v></SFOR>\
                </TEMPLATE>",
            "<LAYOUT a><SIF @f><SBODY></SIF></LAYOUT><TEMPLATE R IN=a><SIF @><SIF @><SIF @><SIF @><SIF @>\
                <SIF @><SIF @><SIF @><SIF @><SIF @><SIF @><SIF @><SIF @><SIF @><SIF @><SIF @><SIF @><SIF @>\
                <SIF @><SIF @><SIF @><SIF @><SIF @><SIF @><SIF @><SIF @><SIF @><SIF @><SIF @><SIF @><SIF @>x\
                </SIF></SIF></SIF></SIF></SIF></SIF></SIF></SIF></SIF></SIF></SIF></SIF></SIF></SIF></SIF>\
                </SIF></SIF></SIF></SIF></SIF></SIF></SIF></SIF></SIF></SIF></SIF></SIF></SIF></SIF></SIF>\
                </SIF></TEMPLATE>",
        ],
    },
    // Files of templates that are near to those, and are not refused.
    Row {
        number: 0,
        texts: &[
            "",
            " <TEMPLATE F>a</TEMPLATE> <TEMPLATE COLLECTION F>b</TEMPLATE> ",
            "<TEMPLATE COLLECTION>a</TEMPLATE><TEMPLATE COLLECTION 'COLLECTION'>b</TEMPLATE>",
            "<TEMPLATE COLLECTION'F'>a</TEMPLATE><TEMPLATE COLLECTION '3166-1' ><SFMT #'my file'.'a'></TEMPLATE>",
            "<TEMPLATE F><SFMT @>=x <b>bold</b> <SIFT> <SFMT</TEMPLATE>",
            "<TEMPLATE F><SFMT @a.'b c' DELIM=', ' KEY=b.c ORDER=descend LINK=d></TEMPLATE>",
            "<TEMPLATE F><SFMT @RAW LINES KEY=JSON DELIM=','><SFMT @a.URL PLAIN></TEMPLATE>",
            "<TEMPLATE F><SFMT @LIMIT ORDER=ascend LINK LIMIT=1 DELIM='' LABEL='>' KEY=LABEL></TEMPLATE>",
            "<TEMPLATE F><SFOR v IN @a.COUNT LIMIT=9223372036854775807 KEY=n><SFMT v COUNT KEY=n></SFOR></TEMPLATE>",
            "<TEMPLATE F><SFMT @a KEY=b FOLD DESCEND KEY=c.d KEY=e FOLD LINK LABEL='x' KEY=DESCEND DESCEND LIMIT=3 \
                DELIM=','></TEMPLATE>",
            "<TEMPLATE F><SFMT @a ORDER=descend KEY=b FOLD><SFOR v IN @ KEY=a FOLD KEY=b KEY=c KEY=FOLD LIMIT=1 \
                DELIM=''><SIF v SAME #C.SAME>x</SIF></SFOR></TEMPLATE>",
            "<TEMPLATE F><SIF NOT COUNT @a GE -1>x<SELSE>y</SIF><SIF NOT @ SAME @>z</SIF></TEMPLATE>",
            "<TEMPLATE F><SIF NOT #C.a LE -1>x<SELSE>y</SIF></TEMPLATE>",
            "<TEMPLATE F><SFOR v IN #C><SFOR v IN v.a><SFMT v EMBED></SFOR></SFOR></TEMPLATE>",
            "<TEMPLATE F><SIF @a><SIF @a><SIF @a><SIF @a><SIF @a><SIF @a><SIF @a><SIF @a><SIF @a><SIF @a><SIF \
                @a><SIF @a><SIF @a><SIF @a><SIF @a><SIF @a><SIF @a><SIF @a><SIF @a><SIF @a><SIF @a><SIF @a><SIF \
                @a><SIF @a><SIF @a><SIF @a><SIF @a><SIF @a><SIF @a><SIF @a><SIF @a><SIF \
                @a></SIF></SIF></SIF></SIF></SIF></SIF></SIF></SIF></SIF></SIF></SIF></SIF></SIF></SIF></SIF></SIF>\
                </SIF></SIF></SIF></SIF></SIF></SIF></SIF></SIF></SIF></SIF></SIF></SIF></SIF></SIF></SIF></SIF>\
                </TEMPLATE>",
            "<TEMPLATE F><SFMT @a DELIM='>'></TEMPLATE>",
        ],
    },
];

fn check_row(alloc: Global, row: &Row) -> Result<(), Fail> {
    for text in row.texts {
        check(is_marked(alloc, row.number, text)?, text)?;
    }
    Ok(())
}

#[test]
fn templates_are_refused_at_their_places(rt: HostRuntime) -> Result<(), Fail> {
    for row in ROWS {
        check_row(rt.alloc(), row)?;
    }
    Ok(())
}

#[test]
fn tags_are_refused_at_their_places(rt: HostRuntime) -> Result<(), Fail> {
    for row in TAG_ROWS {
        check_row(rt.alloc(), row)?;
    }
    Ok(())
}

const WORKED_ROWS: &[Row] = &[
    Row {
        number: 81,
        texts: &[
            "<TEMPLATE R><SFOR ^URL IN @f>x</SFOR></TEMPLATE>",
            "<TEMPLATE R>a^</LAYOUT></TEMPLATE>",
            "<TEMPLATE R>a^<SBODY></TEMPLATE>",
            "<TEMPLATE R><SFMT @f KEY=n KEY=t ^ORDER=descend></TEMPLATE>",
            "<TEMPLATE R><SFMT @f KEY=a KEY=b KEY=c KEY=d ^KEY=e></TEMPLATE>",
            "<TEMPLATE R><SFMT @f LIMIT=^0></TEMPLATE>",
            "<TEMPLATE R><SFMT @f LINK=t KEY=t DESCEND ^FOLD></TEMPLATE>",
            "<TEMPLATE R><SFMT @f KEY=t DESCEND ^ORDER=ascend></TEMPLATE>",
            "<TEMPLATE R><SIF COUNT @f^>many</SIF></TEMPLATE>",
            "<TEMPLATE R><SIF COUNT @f GT ^'3'>many</SIF></TEMPLATE>",
            "<TEMPLATE R><SFMT @f RAW ^URL></TEMPLATE>",
            "<TEMPLATE R><SFMT @f LINK=t ^LABEL='x'></TEMPLATE>",
            "<TEMPLATE R><SIF COUNT @f ^SAME @f>a</SIF></TEMPLATE>",
        ],
    },
    Row {
        number: 82,
        texts: &["<TEMPLATE R>x^<SNOTE>y</TEMPLATE>"],
    },
    Row {
        number: 85,
        texts: &[
            "<FRAGMENT f><SFMT ^v.t></FRAGMENT><TEMPLATE R><SFOR v IN @f><SINCLUDE f></SFOR></TEMPLATE>",
        ],
    },
    Row {
        number: 86,
        texts: &[
            "<FRAGMENT b><SINCLUDE ^a></FRAGMENT><FRAGMENT a>1</FRAGMENT><TEMPLATE R>x</TEMPLATE>",
            "<TEMPLATE R><SINCLUDE ^a></TEMPLATE><FRAGMENT a>1</FRAGMENT>",
        ],
    },
];

#[test]
fn words_out_of_their_places_are_refused(rt: HostRuntime) -> Result<(), Fail> {
    for row in WORKED_ROWS {
        check_row(rt.alloc(), row)?;
    }
    Ok(())
}

// How many signs a text has, and what is reported of it.
struct SignsRow {
    name: &'static str,
    count: usize,
    reported: Reported,
}

const SIGNS: &[SignsRow] = &[
    SignsRow {
        name: "a text past the limit is too long",
        count: 4097,
        reported: Reported {
            number: 24,
            place: 4096,
        },
    },
    SignsRow {
        name: "the longest text is read",
        count: 4096,
        reported: Reported {
            number: 81,
            place: 0,
        },
    },
];

#[test]
fn a_text_is_read_up_to_the_limit(rt: HostRuntime) -> Result<(), Fail> {
    for row in SIGNS {
        let text = b"$".repeat(rt.alloc(), row.count)?;
        check(report_of(rt.alloc(), &text) == Some(row.reported), row.name)?;
    }
    Ok(())
}

// Behind a fragment of 2,048 bytes others, of which the last has as many bytes as the templates of a file may have
// together.
const LARGE: &str = "</FRAGMENT><FRAGMENT a1><SINCLUDE a0><SINCLUDE a0></FRAGMENT>\
    <FRAGMENT a2><SINCLUDE a1><SINCLUDE a1></FRAGMENT>\
    <FRAGMENT a3><SINCLUDE a2><SINCLUDE a2></FRAGMENT>\
    <FRAGMENT a4><SINCLUDE a3><SINCLUDE a3></FRAGMENT>\
    <FRAGMENT a5><SINCLUDE a4><SINCLUDE a4></FRAGMENT>\
    <FRAGMENT a6><SINCLUDE a5><SINCLUDE a5></FRAGMENT>\
    <FRAGMENT a7><SINCLUDE a6><SINCLUDE a6></FRAGMENT>\
    <FRAGMENT a8><SINCLUDE a7><SINCLUDE a7></FRAGMENT>\
    <FRAGMENT a9><SINCLUDE a8><SINCLUDE a8></FRAGMENT>\
    <FRAGMENT a10><SINCLUDE a9><SINCLUDE a9></FRAGMENT>\
    <FRAGMENT a11><SINCLUDE a10><SINCLUDE a10></FRAGMENT>\
    <FRAGMENT a12><SINCLUDE a11><SINCLUDE a11></FRAGMENT>";

// Templates behind these fragments, and what is reported of the file: its number, and the place behind the fragments.
struct LargeRow {
    text: &'static str,
    place: Option<u64>,
}

const LARGE_ROWS: &[LargeRow] = &[
    LargeRow {
        text: "<TEMPLATE R>x</TEMPLATE>",
        place: None,
    },
    LargeRow {
        text: "<TEMPLATE F>x<SINCLUDE a12></TEMPLATE>",
        place: Some(10),
    },
    LargeRow {
        text: "<TEMPLATE R>x</TEMPLATE><TEMPLATE COLLECTION F><SINCLUDE a12></TEMPLATE>",
        place: Some(45),
    },
    LargeRow {
        text: "<LAYOUT l><SBODY><SBODY></LAYOUT><TEMPLATE R IN=l><SINCLUDE a11></TEMPLATE>",
        place: None,
    },
    LargeRow {
        text: "<LAYOUT l><SBODY>x<SBODY></LAYOUT><TEMPLATE R IN=l><SINCLUDE a11></TEMPLATE>",
        place: Some(44),
    },
    LargeRow {
        text: "<LAYOUT l><SBODY>x</LAYOUT><LAYOUT m IN=l><SINCLUDE a12><SBODY></LAYOUT><TEMPLATE R IN=m></TEMPLATE>",
        place: Some(82),
    },
    LargeRow {
        text: "<TEMPLATE R><SFMT @></TEMPLATE><TEMPLATE F><SINCLUDE a12></TEMPLATE><TEMPLATE ",
        place: Some(41),
    },
];

#[test]
fn templates_have_so_many_bytes_together(rt: HostRuntime) -> Result<(), Fail> {
    for row in LARGE_ROWS {
        let mut text = Vec::new(rt.alloc());
        text.extend_from_slice(b"<FRAGMENT a0>")?;
        text.extend_from_slice(&b"x".repeat(rt.alloc(), 2048)?)?;
        text.extend_from_slice(LARGE.as_bytes())?;
        let behind = text.len() as u64;
        text.extend_from_slice(row.text.as_bytes())?;
        let reported = match row.place {
            Some(place) => Some(Reported {
                number: 87,
                place: behind.saturating_add(place),
            }),
            None => None,
        };
        check(report_of(rt.alloc(), &text) == reported, row.text)?;
    }
    Ok(())
}

// A text, and what is reported of it.
struct OrderMarkRow {
    text: &'static [u8],
    place: Option<u64>,
}

const ORDER_MARKS: &[OrderMarkRow] = &[
    OrderMarkRow {
        text: b"\xEF\xBB\xBF<TEMPLATE R>x</TEMPLATE>",
        place: None,
    },
    OrderMarkRow {
        text: b"\xEF\xBB\xBF<TEMPLATE R>x</SIF></TEMPLATE>",
        place: Some(16),
    },
    OrderMarkRow {
        text: b"\xEF\xBB\xBF\xEF\xBB\xBF<TEMPLATE R>x</TEMPLATE>",
        place: Some(3),
    },
    OrderMarkRow {
        text: b"\xEF\xBB<TEMPLATE R>x</TEMPLATE>",
        place: Some(0),
    },
];

#[test]
fn a_byte_order_mark_is_skipped(rt: HostRuntime) -> Result<(), Fail> {
    for row in ORDER_MARKS {
        let reported = match row.place {
            Some(place) => Some(Reported { number: 81, place }),
            None => None,
        };
        check(
            report_of(rt.alloc(), row.text) == reported,
            "a byte order mark",
        )?;
    }
    Ok(())
}
