// Lists that are read, put and cleaned by, over files in memory.
use edge_io::{MemFile, MemFiles};
use file_list::{names_of, put_list, read_list, remove_left, text_of, union_of};
use files_spec::Stop;
use sd_value::{NoMemory, Str};
use std::alloc::Global;
use std::test::Fail;

// A list, and the same with those of its lines alone that are names of files.
struct ListRow {
    text: &'static str,
    names: &'static str,
}

const LISTS: [ListRow; 9] = [
    ListRow {
        text: "",
        names: "",
    },
    ListRow {
        text: "Home.html\nindex.html\n",
        names: "Home.html\nindex.html\n",
    },
    ListRow {
        text: "b\na",
        names: "b\na\n",
    },
    ListRow {
        text: "\n\na\n\n",
        names: "a\n",
    },
    ListRow {
        text: "../q\n/etc/x\na/\n",
        names: "",
    },
    ListRow {
        text: "a/./b\na/../b\na//b\n.\n..\n",
        names: "",
    },
    ListRow {
        text: "a/.b\n..a\n...\n.well-known/x\n",
        names: "a/.b\n..a\n...\n.well-known/x\n",
    },
    ListRow {
        text: ".strudel-files\na/.strudel-files\n",
        names: "a/.strudel-files\n",
    },
    ListRow {
        text: "a\r\nb c\n",
        names: "a\r\nb c\n",
    },
];

// A file in memory and its text.
type FileRow = (&'static str, &'static str);

const BEFORE: [FileRow; 5] = [
    (
        "out/.strudel-files",
        "Home.html\nP/nb.html\nindex.html\n../mine.html\n",
    ),
    ("out/Home.html", "old"),
    ("out/P/nb.html", "old"),
    ("out/mine.html", "mine"),
    ("mine.html", "mine"),
];

const UNION: &str = "Home.html\nP/na.html\nP/nb.html\nindex.html\n";

const NEW: &str = "Home.html\nP/na.html\nindex.html\n";

const LEFT: [(&str, Option<&str>); 5] = [
    ("out/.strudel-files", Some(NEW)),
    ("out/Home.html", Some("old")),
    ("out/P/nb.html", None),
    ("out/mine.html", Some("mine")),
    ("mine.html", Some("mine")),
];

fn files_of(alloc: Global, failing: u64) -> Result<MemFiles, NoMemory> {
    let mut files = Vec::new(alloc);
    for (path, text) in &BEFORE {
        files.push(MemFile {
            path: Str::new(alloc, path.as_bytes())?,
            bytes: Str::new(alloc, text.as_bytes())?,
        })?;
    }
    Ok(MemFiles::new(alloc, files, [failing].to_vec(alloc)?))
}

// What a build does with its list, but for the site's files; the list that stands after its first write.
fn cleaned(alloc: Global, files: &mut MemFiles, folder: &Str) -> Result<(Vec<u8>, bool), Stop> {
    let Ok(old) = read_list(alloc, files, folder) else {
        return Err(Stop::NoMemory);
    };
    let named = names_of(alloc, NEW.as_bytes())?;
    let union = union_of(alloc, &old, &named)?;
    put_list(alloc, files, folder, &union)?;
    let list = text_of(alloc, &union)?;
    let none = Vec::new(alloc);
    let new = union_of(alloc, &named, &none)?;
    let all = remove_left(alloc, files, folder, &old, &new)?;
    put_list(alloc, files, folder, &new)?;
    Ok((list, all))
}

// The path at which the files differ from these.
fn differing(alloc: Global, files: &MemFiles) -> Result<Option<&'static str>, NoMemory> {
    for (path, text) in &LEFT {
        let there = files.bytes(&Str::new(alloc, path.as_bytes())?);
        if there != text.map(|text| text.as_bytes()) {
            return Ok(Some(path));
        }
    }
    Ok(None)
}

#[test]
fn each_list_has_the_names_of_its_row(rt: HostRuntime) -> Result<(), Fail> {
    let alloc = rt.alloc();
    for row in &LISTS {
        let names = names_of(alloc, row.text.as_bytes())?;
        let text = text_of(alloc, &names)?;
        assert_eq!(rt; text.as_slice(), row.names.as_bytes(), "{}", row.text);
    }
    Ok(())
}

#[test]
fn what_the_site_no_longer_has_is_removed(rt: HostRuntime) -> Result<(), Fail> {
    let alloc = rt.alloc();
    let mut files = files_of(alloc, 99)?;
    let folder = Str::new(alloc, b"out")?;
    match cleaned(alloc, &mut files, &folder) {
        Ok((list, all)) => {
            assert_eq!(rt; list.as_slice(), UNION.as_bytes());
            assert_eq!(rt; all, true);
        }
        Err(_) => return Err(Fail::new("an end before the end")),
    }
    assert_eq!(rt; differing(alloc, &files)?, None);
    Ok(())
}

// The third call, after the read and the write of the union, is the removal.
#[test]
fn a_removal_that_fails_is_told(rt: HostRuntime) -> Result<(), Fail> {
    let alloc = rt.alloc();
    let mut files = files_of(alloc, 3)?;
    let folder = Str::new(alloc, b"out")?;
    match cleaned(alloc, &mut files, &folder) {
        Err(Stop::Unwritten { path }) => {
            assert_eq!(rt; path.bytes(), b"out/P/nb.html".as_slice());
        }
        _ => return Err(Fail::new("another end")),
    }
    let list = Str::new(alloc, b"out/.strudel-files")?;
    assert_eq!(rt; files.bytes(&list), Some(UNION.as_bytes()));
    Ok(())
}
