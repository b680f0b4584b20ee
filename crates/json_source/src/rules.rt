// How JSON texts are read.

/// How a JSON text is read.
#[derive(Clone, Copy, Debug, PartialEq, Eq)]
pub struct JsonRules {
    /// A number that is no integer of 64 bits is a text, spelled as in the file.
    pub spelled_numbers: bool,
    /// Of an object at the top, the lists of objects alone are collections. One that has none is a
    /// record itself.
    pub tables: bool,
    /// A text that begins with `http://` or `https://` is a URL.
    pub links: bool,
    /// A list of two or more texts and numbers that is a key's own value has also an edge `KEY_list`
    /// to the text of its items in their order, with `, ` between them.
    pub orders: bool,
}

impl JsonRules {
    /// Each number is an integer of 64 bits, each member of an object at the top is a list of
    /// records, and each text is a text.
    pub const STRICT: JsonRules = JsonRules {
        spelled_numbers: false,
        tables: false,
        links: false,
        orders: false,
    };

    /// JSON as people have it.
    pub const LENIENT: JsonRules = JsonRules {
        spelled_numbers: true,
        tables: true,
        links: true,
        orders: true,
    };
}
