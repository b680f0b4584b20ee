// A page of a site of 8,000,000,000 terms, which no run could make, from its own demand on the data.
use crate::inputs::{asker_of, push_terms};
use crate::sites::check_clicks;
use sd_graph::{GraphBuilder, PROGRAM_LIMITS};
use sd_value::Str;
use std::alloc::Global;
use std::test::Fail;

// The nodes a1 to a2000, in the collection A.
fn many_nodes(alloc: Global) -> Result<GraphBuilder, Fail> {
    let mut builder = GraphBuilder::new(alloc, PROGRAM_LIMITS);
    let collection = Str::new(alloc, b"A")?;
    for number in 1..=2000 {
        let name = format!(in alloc; "a{number}")?;
        let node = Str::new(alloc, name.as_bytes())?;
        builder.add_member(alloc, &collection, &node)?;
    }
    Ok(builder)
}

#[test]
fn a_page_of_a_site_that_is_never_made_is_built(rt: HostRuntime) -> Result<(), Fail> {
    let alloc = rt.alloc();
    let asker = asker_of(alloc, many_nodes(alloc)?)?;
    let query = "INPUT D WHERE A(x), A(y), A(z) CREATE F(x, y, z) OUTPUT S";
    let mut terms = Vec::new(alloc);
    push_terms(alloc, &["/F/na1/na2/na3.html"], &mut terms)?;
    let wanted = "/F/na1/na2/na3.html ok;";
    check_clicks(
        &rt,
        asker,
        query,
        "<TEMPLATE F>ok</TEMPLATE>",
        &terms,
        wanted,
    )?;
    Ok(())
}
