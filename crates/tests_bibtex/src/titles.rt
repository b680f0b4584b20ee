// Titles with accents, as bibliographies write them and as people read them.
use crate::checks::check_text;
use sd_value::{NoMemory, Str};
use std::alloc::Global;
use std::test::Fail;
use tex_text::readable;

// A title in TeX, and in Unicode.
struct Title {
    tex: &'static str,
    shown: &'static str,
}

const WESTERN: &[Title] = &[
    Title {
        tex: "{\\\"U}ber formal unentscheidbare S{\\\"a}tze der Principia Mathematica und verwandter Systeme {I}",
        shown: "Über formal unentscheidbare Sätze der Principia Mathematica und verwandter Systeme I",
    },
    Title {
        tex: "{\\\"U}ber die von der molekularkinetischen Theorie der W{\\\"a}rme geforderte Bewegung",
        shown: "Über die von der molekularkinetischen Theorie der Wärme geforderte Bewegung",
    },
    Title {
        tex: "Zur {E}lektrodynamik bewegter {K}{\\\"o}rper",
        shown: "Zur Elektrodynamik bewegter Körper",
    },
    Title {
        tex: "{\\\"U}ber eine neue Art von Strahlen",
        shown: "Über eine neue Art von Strahlen",
    },
    Title {
        tex: "Der gro{\\ss}e Gatsby",
        shown: "Der große Gatsby",
    },
    Title {
        tex: "{\\`A} la recherche du temps perdu",
        shown: "À la recherche du temps perdu",
    },
    Title {
        tex: "L'{\\^E}tre et le n{\\'e}ant",
        shown: "L'Être et le néant",
    },
    Title {
        tex: "{\\'E}l\\'ements de math\\'{e}matique",
        shown: "Éléments de mathématique",
    },
    Title {
        tex: "Th\\'eorie analytique de la chaleur",
        shown: "Théorie analytique de la chaleur",
    },
    Title {
        tex: "M\\'emoire sur les conditions de r\\'esolubilit\\'e des \\'equations par radicaux",
        shown: "Mémoire sur les conditions de résolubilité des équations par radicaux",
    },
    Title {
        tex: "{\\OE}uvres compl{\\`e}tes",
        shown: "Œuvres complètes",
    },
    Title {
        tex: "No{\\\"e}l et sa ma{\\^i}tresse",
        shown: "Noël et sa maîtresse",
    },
    Title {
        tex: "Le Malade imaginaire -- Com{\\'e}die m{\\^e}l{\\'e}e de musique",
        shown: "Le Malade imaginaire – Comédie mêlée de musique",
    },
    Title {
        tex: "Cien a{\\~n}os de soledad",
        shown: "Cien años de soledad",
    },
    Title {
        tex: "La regi{\\'o}n m{\\'a}s transparente",
        shown: "La región más transparente",
    },
    Title {
        tex: "Os Lus{\\'\\i}adas",
        shown: "Os Lusíadas",
    },
    Title {
        tex: "Mem{\\'o}rias p{\\'o}stumas de Br{\\'a}s Cubas",
        shown: "Memórias póstumas de Brás Cubas",
    },
    Title {
        tex: "Grande sert{\\~a}o: veredas",
        shown: "Grande sertão: veredas",
    },
    Title {
        tex: "La divina commedia: Paradiso, cos{\\`\\i}",
        shown: "La divina commedia: Paradiso, così",
    },
    Title {
        tex: "Tirant lo Blanch, {\\c c}o {\\'e}s",
        shown: "Tirant lo Blanch, ço és",
    },
];

const EASTERN: &[Title] = &[
    Title {
        tex: "Osudy dobr{\\'e}ho voj{\\'a}ka {\\v S}vejka za sv{\\v e}tov{\\'e} v{\\'a}lky",
        shown: "Osudy dobrého vojáka Švejka za světové války",
    },
    Title {
        tex: "Nesnesiteln{\\'a} lehkost byt{\\'\\i}",
        shown: "Nesnesitelná lehkost bytí",
    },
    Title {
        tex: "Ksi{\\k{e}}gi narodu polskiego",
        shown: "Księgi narodu polskiego",
    },
    Title {
        tex: "Cz{\\l}owiek z {\\.z}elaza",
        shown: "Człowiek z żelaza",
    },
    Title {
        tex: "Ch{\\l}opi",
        shown: "Chłopi",
    },
    Title {
        tex: "Sz{\\'a}z {\\'e}v mag{\\'a}ny",
        shown: "Száz év magány",
    },
    Title {
        tex: "Az ember trag{\\'e}di{\\'a}ja",
        shown: "Az ember tragédiája",
    },
    Title {
        tex: "Id{\\H{o}}s h{\\\"o}lgy",
        shown: "Idős hölgy",
    },
    Title {
        tex: "Na Drini {\\'c}uprija",
        shown: "Na Drini ćuprija",
    },
    Title {
        tex: "Amintiri din copil{\\u{a}}rie",
        shown: "Amintiri din copilărie",
    },
    Title {
        tex: "Fr{\\o}ken Smillas fornemmelse for sne",
        shown: "Frøken Smillas fornemmelse for sne",
    },
    Title {
        tex: "Br{\\o}drene L{\\o}vehjerte",
        shown: "Brødrene Løvehjerte",
    },
    Title {
        tex: "R{\\\"o}da rummet",
        shown: "Röda rummet",
    },
    Title {
        tex: "G{\\\"o}sta {B}erlings saga",
        shown: "Gösta Berlings saga",
    },
    Title {
        tex: "Seitsem{\\\"a}n veljest{\\\"a}",
        shown: "Seitsemän veljestä",
    },
    Title {
        tex: "Sj{\\'a}lfst{\\ae}tt f{\\'o}lk",
        shown: "Sjálfstætt fólk",
    },
    Title {
        tex: "{\\AA}ngstr{\\\"o}m och spektra",
        shown: "Ångström och spektra",
    },
    Title {
        tex: "Benim Ad{\\i}m K{\\i}rm{\\i}z{\\i}",
        shown: "Benim Adım Kırmızı",
    },
    Title {
        tex: "{\\.I}stanbul: Hat{\\i}ralar ve {\\c{S}}ehir",
        shown: "İstanbul: Hatıralar ve Şehir",
    },
    Title {
        tex: "{\\=A}ryabha{\\d{t}}{\\={\\i}}ya",
        shown: "Āryabhaṭīya",
    },
    Title {
        tex: "Kit{\\=a}b al-jabr wa-l-muq{\\=a}bala",
        shown: "Kitāb al-jabr wa-l-muqābala",
    },
    Title {
        tex: "Truy{\\d{\\^e}}n Ki{\\`{\\^e}}u",
        shown: "Truyện Kiều",
    },
];

// Of bibliographies in Debian's packages.
const PACKAGED: &[Title] = &[
    Title {
        tex: "La Gen{\\`{e}}se de l'Id{\\'{e}}e de Hasard chez l'Enfant",
        shown: "La Genèse de l'Idée de Hasard chez l'Enfant",
    },
    Title {
        tex: "Diccionario de la Lengua Espa\\~{n}ola",
        shown: "Diccionario de la Lengua Española",
    },
    Title {
        tex: "The Encyclop\\ae dia of Typefaces",
        shown: "The Encyclopædia of Typefaces",
    },
    Title {
        tex: "Dielektrische {T}heorie des elektronischen {E}nergieverlustes schwerer {I}onen in {F}estk\\\"orpern",
        shown: "Dielektrische Theorie des elektronischen Energieverlustes schwerer Ionen in Festkörpern",
    },
    Title {
        tex: "{Localidades fossil{\\'{i}}feras da Forma{\\c{c}}{\\~{a}}o Pirabas (Mioceno Inferior)}",
        shown: "Localidades fossilíferas da Formação Pirabas (Mioceno Inferior)",
    },
    Title {
        tex: "{Sur les T{\\'{e}}l{\\'{e}}ost{\\'{e}}ens du Rup{\\'{e}}lien}",
        shown: "Sur les Téléostéens du Rupélien",
    },
    Title {
        tex: "Le pass\\'{e} d'une illusion",
        shown: "Le passé d'une illusion",
    },
    Title {
        tex: "{Die sch\\\"one M\\\"ullerin} ({The} Maid of the Mill)",
        shown: "Die schöne Müllerin (The Maid of the Mill)",
    },
    Title {
        tex: "Unzeitgem{\\\"a}sse Betrachtungen. Zweites St{\\\"u}ck",
        shown: "Unzeitgemässe Betrachtungen. Zweites Stück",
    },
    Title {
        tex: "Die nordischen L{\\\"a}nder von der Mitte des 11.~Jahrhunderts bis 1448",
        shown: "Die nordischen Länder von der Mitte des 11. Jahrhunderts bis 1448",
    },
    Title {
        tex: "Autrement qu'\\^etre ou au-del\\`a de l'essence",
        shown: "Autrement qu'être ou au-delà de l'essence",
    },
    Title {
        tex: "Solutions p\\'{e}riodiques, du p\\'{e}riode donn\\'{e}e, des \\'{e}quations hamiltoniennes",
        shown: "Solutions périodiques, du période donnée, des équations hamiltoniennes",
    },
    Title {
        tex: "Cuando la fe mueve monta{\\~n}as",
        shown: "Cuando la fe mueve montañas",
    },
    Title {
        tex: "Histoire de l'{\\'e}dition fran{\\c{c}}aise",
        shown: "Histoire de l'édition française",
    },
    Title {
        tex: "{\\LaTeX}. Profesjonalny sk{\\l}ad publikacji",
        shown: "LaTeX. Profesjonalny skład publikacji",
    },
    Title {
        tex: "{\\TeX}nika {\\L}adnego Druku",
        shown: "TeXnika Ładnego Druku",
    },
    Title {
        tex: "Dzielenie wyraz{\\'o}w polskich w systemie {\\TeX}",
        shown: "Dzielenie wyrazów polskich w systemie TeX",
    },
    Title {
        tex: "{\\LaTeX} pro za{\\v{c}}{\\'a}te{\\v{c}}n{\\'\\i}ky",
        shown: "LaTeX pro začátečníky",
    },
    Title {
        tex: "Typografick{\\'y} syst{\\'e}m {\\TeX}",
        shown: "Typografický systém TeX",
    },
    Title {
        tex: "{V{\\\"a}ike Eesti {\\TeX}iraamat}",
        shown: "Väike Eesti TeXiraamat",
    },
    Title {
        tex: "Proze{\\ss}automatisierung",
        shown: "Prozeßautomatisierung",
    },
    Title {
        tex: "Elektrotehni{\\v{s}}ki Vestnik",
        shown: "Elektrotehniški Vestnik",
    },
];

const PLAIN: &[Title] = &[
    Title {
        tex: "A Mathematician's Apology",
        shown: "A Mathematician's Apology",
    },
    Title {
        tex: "Surreal Numbers: How Two Ex-Students Turned on to Pure Mathematics and Found Total Happiness",
        shown: "Surreal Numbers: How Two Ex-Students Turned on to Pure Mathematics and Found Total Happiness",
    },
    Title {
        tex: "The {\\TeX}book",
        shown: "The TeXbook",
    },
    Title {
        tex: "``Surely You're Joking, {Mr}. {F}eynman!''",
        shown: "“Surely You're Joking, Mr. Feynman!”",
    },
    Title {
        tex: "Structure and Interpretation of Computer Programs --- 2nd edition",
        shown: "Structure and Interpretation of Computer Programs — 2nd edition",
    },
    Title {
        tex: "{AT\\&T} {B}ell Laboratories Technical Journal",
        shown: "AT&T Bell Laboratories Technical Journal",
    },
    Title {
        tex: "100\\% {P}ure {J}ava",
        shown: "100% Pure Java",
    },
    Title {
        tex: "\\emph{Principia} by {\\textsc{Newton}}",
        shown: "Principia by Newton",
    },
];

fn shown(alloc: Global, title: &Title) -> Result<Str, NoMemory> {
    readable(alloc, title.tex.as_bytes())
}

fn check_titles(alloc: Global, titles: &[Title]) -> Result<(), Fail> {
    for title in titles {
        check_text(shown(alloc, title)?.bytes(), title.shown.as_bytes())?;
    }
    Ok(())
}

#[test]
fn titles_of_the_west_are_readable(rt: HostRuntime) -> Result<(), Fail> {
    check_titles(rt.alloc(), WESTERN)
}

#[test]
fn titles_of_the_east_and_north_are_readable(rt: HostRuntime) -> Result<(), Fail> {
    check_titles(rt.alloc(), EASTERN)
}

#[test]
fn titles_of_packaged_bibliographies_are_readable(rt: HostRuntime) -> Result<(), Fail> {
    check_titles(rt.alloc(), PACKAGED)
}

#[test]
fn titles_with_signs_and_commands_are_readable(rt: HostRuntime) -> Result<(), Fail> {
    check_titles(rt.alloc(), PLAIN)
}
