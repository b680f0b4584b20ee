// The worked site of the bibliography.

/// Its data, of two papers.
pub const BIB: &str =
    "object pub1 in Publications { title \"Strudel\" year 1998 author \"Mary\" author \"Dan\" }\nobject \
        pub2 in Publications { title \"Lorel <1>\" year 1997 author \"Dan\" }\n";

/// Its query.
pub const SITE: &str =
    "INPUT Bib\n{ CREATE RootPage() }\n{ WHERE Publications(x), x -> l -> v\n  CREATE PaperPage(x)\n  LINK \
        PaperPage(x) -> l -> v, RootPage() -> \"Paper\" -> PaperPage(x)\n  { WHERE l = \"year\"\n    CREATE \
        YearPage(v)\n    LINK YearPage(v) -> \"Year\" -> v, YearPage(v) -> \"Paper\" -> \
        PaperPage(x),\n         RootPage() -> \"Year\" -> YearPage(v) } }\nOUTPUT Home\n";

/// Its templates.
pub const LOOKS: &str =
    "<TEMPLATE RootPage><h1>Home</h1><SFMT @Paper LINK=title DELIM=\", \"></TEMPLATE>\n<TEMPLATE \
        PaperPage><h1><SFMT @title></h1><SFMT @author DELIM=\" and \"></TEMPLATE>\n<TEMPLATE \
        YearPage><h1><SFMT @Year></h1><SFMT @Paper LINK=title DELIM=\", \"></TEMPLATE>\n";

/// The page of the year 1998.
pub const YEAR: &str = "<h1>1998</h1><a href=\"/PaperPage/npub1.html\">Strudel</a>";
