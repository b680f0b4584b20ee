// Databases as `sqlite3` made them (3.40, with pages of 512 bytes).
use sd_value::NoMemory;
use std::alloc::Global;

/// So many zeros, and then these bytes.
pub struct Run {
    pub zeros: usize,
    pub bytes: &'static [u8],
}

/// A file: its length, and all but the zeros at its end.
pub struct Database {
    pub length: usize,
    pub runs: &'static [Run],
}

impl Database {
    /// Its bytes.
    pub fn bytes(&self, alloc: Global) -> Result<Vec<u8>, NoMemory> {
        let mut bytes = Vec::new(alloc);
        for run in self.runs {
            let zeros = bytes.len().saturating_add(run.zeros);
            bytes.resize(zeros, 0)?;
            bytes.extend_from_slice(run.bytes)?;
        }
        bytes.resize(self.length, 0)?;
        Ok(bytes)
    }
}

/// Two tables, of which one refers to the rowids of the other, with a key of texts, a REAL and NULLs.
pub const LIBRARY: Database = Database {
    length: 2048,
    runs: &[
        Run {
            zeros: 0,
            bytes: b"SQLite format 3\0\x02\0\x01\x01\0@  \0\0\0\x04\0\0\0\x04",
        },
        Run {
            zeros: 11,
            bytes: b"\x02\0\0\0\x04",
        },
        Run {
            zeros: 11,
            bytes: b"\x01",
        },
        Run {
            zeros: 35,
            bytes: b"\x04\0.c\x01\x0d\x01\x8f\0\x03\0\xd0\0\x01\x97\0\xd0\x01f",
        },
        Run {
            zeros: 94,
            bytes: b"\x81\x13\x02\x07\x17\x15\x15\x01\x82\x09tablebookbook\x03CREATE TABLE book (isbn TEXT PRIMARY KEY, title TEXT NOT NULL, year INTEGER, price REAL, author INTEGER REFERENCES author(id))'\x03\x06\x17;\x15\x01\0indexsqlite_autoindex_book_1book\x04\0\0\0\x08\0\0\0\0g\x01\x07\x17\x19\x19\x01\x81)tableauthorauthor\x02CREATE TABLE author (id INTEGER PRIMARY KEY, name TEXT NOT NULL, born INTEGER)\x0d\0\0\0\x02\x01\xeb\0\x01\xf4\x01\xeb",
        },
        Run {
            zeros: 479,
            bytes: b"\x07\x02\x04\0\x13\0Dan\n\x01\x04\0\x15\x02Mary\x07\xad\x0d\0\0\0\x03\x01\xb5\0\x01\xe4\x01\xd1\x01\xb5",
        },
        Run {
            zeros: 423,
            bytes: b"\x1a\x03\x06\x13\x1f\0\x07\0b-9No authorD\x15\xaf\x1dx\xb5\x8c@\x11\x02\x06\x13\x17\x02\0\x01a-2Lorel\x07\xcd\x02\x1a\x01\x06\x13\x1b\x02\x07\x09a-1Strudel\x07\xce@)",
        },
        Run {
            zeros: 6,
            bytes: b"\n\0\0\0\x03\x01\xe9\0\x01\xf9\x01\xf1\x01\xe9",
        },
        Run {
            zeros: 475,
            bytes: b"\x07\x03\x13\x01b-9\x03\x07\x03\x13\x01a-2\x02\x06\x03\x13\x09a-1",
        },
    ],
};

/// A table with columns that were added to it, a view and an index.
pub const ADDED: Database = Database {
    length: 1536,
    runs: &[
        Run {
            zeros: 0,
            bytes: b"SQLite format 3\0\x02\0\x01\x01\0@  \0\0\0\x07\0\0\0\x03",
        },
        Run {
            zeros: 11,
            bytes: b"\x05\0\0\0\x04",
        },
        Run {
            zeros: 11,
            bytes: b"\x01",
        },
        Run {
            zeros: 35,
            bytes: b"\x07\0.c\x01\x0d\0\0\0\x03\x01d\0\x01\xb8\x01\x8a\x01d",
        },
        Run {
            zeros: 242,
            bytes: b"$\x03\x06\x17\x0f\x0f\x019indexit\x03CREATE INDEX i ON t(c),\x02\x06\x15\x0f\x0f\x08MviewvvCREATE VIEW v AS SELECT * FROM tF\x01\x06\x17\x0f\x0f\x01}tablett\x02CREATE TABLE t (c, z REAL DEFAULT 7, y TEXT DEFAULT 'q')\x0d\0\0\0\x02\x01\xf4\0\x01\xfc\x01\xf4",
        },
        Run {
            zeros: 488,
            bytes: b"\x06\x02\x04\x01\0\x0f\x02r\x02\x01\x02\x09\n\0\0\0\x02\x01\xf6\0\x01\xfc\x01\xf6",
        },
        Run {
            zeros: 490,
            bytes: b"\x05\x03\x01\x01\x02\x02\x03\x03\x09\x09",
        },
    ],
};

/// A table that refers to rows of its own, one of which is not there, and to a key of texts.
pub const SELF: Database = Database {
    length: 1536,
    runs: &[
        Run {
            zeros: 0,
            bytes: b"SQLite format 3\0\x02\0\x01\x01\0@  \0\0\0\x02\0\0\0\x03",
        },
        Run {
            zeros: 11,
            bytes: b"\x01\0\0\0\x04",
        },
        Run {
            zeros: 11,
            bytes: b"\x01",
        },
        Run {
            zeros: 35,
            bytes: b"\x02\0.c\x01\x0d\x01\xf8\0\x02\x01W\0\x01W\x01\xd5",
        },
        Run {
            zeros: 231,
            bytes: b"|\x01\x07\x17\x0f\x0f\x01\x81gtablett\x02CREATE TABLE t (id INTEGER PRIMARY KEY, up INTEGER REFERENCES t, to_name TEXT REFERENCES t(n), n TEXT UNIQUE)!\x02\x06\x175\x0f\x01\0indexsqlite_autoindex_t_1t\x03\0\0\0\x08\0\0\0\0\x0d\0\0\0\x01\x01\xee\0\x01\xee",
        },
        Run {
            zeros: 484,
            bytes: b"\x08\xff\xff\xff\xff\xff\xff\xff\xff\xff\x05\0\x01\x0f\x0f\x07xx\n\0\0\0\x01\x01\xfa\0\x01\xfa",
        },
        Run {
            zeros: 496,
            bytes: b"\x05\x03\x0f\x01x\xff",
        },
    ],
};

/// A table with a slash in its name, and a BLOB in its second row.
pub const BLOB: Database = Database {
    length: 1024,
    runs: &[
        Run {
            zeros: 0,
            bytes: b"SQLite format 3\0\x02\0\x01\x01\0@  \0\0\0\x03\0\0\0\x02",
        },
        Run {
            zeros: 11,
            bytes: b"\x01\0\0\0\x04",
        },
        Run {
            zeros: 11,
            bytes: b"\x01",
        },
        Run {
            zeros: 35,
            bytes: b"\x03\0.c\x01\x0d\0\0\0\x01\x01\xd3\0\x01\xd3",
        },
        Run {
            zeros: 357,
            bytes: b"+\x01\x06\x17\x13\x13\x01?tablea/ba/b\x02CREATE TABLE \"a/b\" (c, d)\x0d\0\0\0\x02\x01\xf2\0\x01\xfa\x01\xf2",
        },
        Run {
            zeros: 486,
            bytes: b"\x06\x02\x03\x01\x10\x02\0\xff\x04\x01\x03\x09\x0fx",
        },
    ],
};

/// A text that is not UTF-8.
pub const LATIN: Database = Database {
    length: 1024,
    runs: &[
        Run {
            zeros: 0,
            bytes: b"SQLite format 3\0\x02\0\x01\x01\0@  \0\0\0\x02\0\0\0\x02",
        },
        Run {
            zeros: 11,
            bytes: b"\x01\0\0\0\x04",
        },
        Run {
            zeros: 11,
            bytes: b"\x01",
        },
        Run {
            zeros: 35,
            bytes: b"\x02\0.c\x01\x0d\0\0\0\x01\x01\xd9\0\x01\xd9",
        },
        Run {
            zeros: 363,
            bytes: b"%\x01\x06\x17\x0f\x0f\x01;tablett\x02CREATE TABLE t (c TEXT)\x0d\0\0\0\x01\x01\xfb\0\x01\xfb",
        },
        Run {
            zeros: 497,
            bytes: b"\x03\x01\x02\x0f\xff",
        },
    ],
};

/// A table without rowids.
pub const WITHOUT_ROWID: Database = Database {
    length: 1024,
    runs: &[
        Run {
            zeros: 0,
            bytes: b"SQLite format 3\0\x02\0\x01\x01\0@  \0\0\0\x02\0\0\0\x02",
        },
        Run {
            zeros: 11,
            bytes: b"\x01\0\0\0\x04",
        },
        Run {
            zeros: 11,
            bytes: b"\x01",
        },
        Run {
            zeros: 35,
            bytes: b"\x02\0.c\x01\x0d\0\0\0\x01\x01\xb3\0\x01\xb3",
        },
        Run {
            zeros: 325,
            bytes: b"K\x01\x07\x17\x0f\x0f\x01\x81\x05tablett\x02CREATE TABLE t (a INTEGER PRIMARY KEY, b TEXT) WITHOUT ROWID\n\0\0\0\x01\x01\xfb\0\x01\xfb",
        },
        Run {
            zeros: 497,
            bytes: b"\x04\x03\x09\x0fx",
        },
    ],
};

/// A file with texts in UTF-16.
pub const UTF16: Database = Database {
    length: 1024,
    runs: &[
        Run {
            zeros: 0,
            bytes: b"SQLite format 3\0\x02\0\x01\x01\0@  \0\0\0\x01\0\0\0\x02",
        },
        Run {
            zeros: 11,
            bytes: b"\x01\0\0\0\x04",
        },
        Run {
            zeros: 11,
            bytes: b"\x02",
        },
        Run {
            zeros: 35,
            bytes: b"\x01\0.c\x01\x0d\0\0\0\x01\x01\xc5\0\x01\xc5",
        },
        Run {
            zeros: 343,
            bytes: b"9\x01\x06!\x11\x11\x01Ut\0a\0b\0l\0e\0t\0t\0\x02C\0R\0E\0A\0T\0E\0 \0T\0A\0B\0L\0E\0 \0t\0 \0(\0c\0)\0\x0d\0\0\0\0\x02",
        },
    ],
};
