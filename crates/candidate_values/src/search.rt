// What a search works on.
use condition_tests::Goal;

/// A search for rows: the store that is asked, the version of the language, which variables stand for labels, and the
/// goals in their order.
#[derive(Drop)]
pub struct Search<'a, S> {
    pub store: &'a S,
    pub version: u8,
    pub arcs: &'a [bool],
    pub goals: &'a [Goal],
}
