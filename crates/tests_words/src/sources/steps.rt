// What readers of data sources share.
use crate::checks::check_text;
use sd_value::Str;
use source_steps::{numbered_name, without_mark};
use std::test::Fail;

#[test]
fn names_are_numbered_and_whole_byte_order_marks_dropped(rt: HostRuntime) -> Result<(), Fail> {
    let stem = Str::new(rt.alloc(), b"bib")?;
    let name = numbered_name(rt.alloc(), &stem, 12)?;
    check_text(b"bib", name.bytes(), b"bib_12")?;
    check_text(b"a mark", without_mark(b"\xEF\xBB\xBFx"), b"x")?;
    check_text(
        b"a part of a mark",
        without_mark(b"\xEF\xBBx"),
        b"\xEF\xBBx",
    )
}
