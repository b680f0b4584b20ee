// What is handed out of the data for one page, as a number.
use crate::inputs::{asker_of, builder_of, push_terms};
use crate::sites::blocks::YEARS;
use crate::sites::check_clicks;
use std::test::Fail;

// The page of 1998 weighs 10.
#[test]
fn a_page_is_handed_at_most_its_weight(rt: HostRuntime) -> Result<(), Fail> {
    let alloc = rt.alloc();
    let asker = asker_of(alloc, builder_of(alloc, YEARS.data_text)?)?;
    let mut terms = Vec::new(alloc);
    push_terms(alloc, &["/YearPage/i1998.html"], &mut terms)?;
    let wanted = "/YearPage/i1998.html <h1>1998</h1><a href='/PaperPage/npub1.html'>Strudel</a>;";
    let given = check_clicks(&rt, asker, YEARS.query, YEARS.templates, &terms, wanted)?;
    assert!(rt; 0 < given && given <= 10);
    Ok(())
}
