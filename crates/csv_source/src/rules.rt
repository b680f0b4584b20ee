// How CSV texts are read.

/// How a CSV text is read.
#[derive(Clone, Copy, Debug, PartialEq, Eq)]
pub struct CsvRules {
    /// If the header has no comma, its first semicolon or tab separates fields.
    pub other_separators: bool,
    /// A record may have fewer fields than the header.
    pub short_records: bool,
    /// A text that begins with `http://` or `https://` is a URL.
    pub links: bool,
}

impl CsvRules {
    /// Commas separate fields, each record has a field for each label, and each text is a text.
    pub const STRICT: CsvRules = CsvRules {
        other_separators: false,
        short_records: false,
        links: false,
    };

    /// CSV as people have it.
    pub const LENIENT: CsvRules = CsvRules {
        other_separators: true,
        short_records: true,
        links: true,
    };
}
