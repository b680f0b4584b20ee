//! What stands above in a file.

ghost use Rattle.std.specs.Prelude.{◌≡◌, map, option_copied, option_map};
ghost use Rattle.template_layouts.specs.Together.{fragment_of, layout_of, find, find_layout};

use crate::measure::Measure;
use sd_value::Str;
use template_items::Item;

/// A fragment that was read, and its items with what it puts in.
#[derive(Drop)]
pub struct Fragment {
    pub name: Str,
    pub measure: Measure,
    pub items: Vec<Item>,
}

/// A layout that was read: the name of the one it is in, and its own items. Its measure is with those round it.
#[derive(Drop)]
pub struct Layout {
    pub name: Str,
    pub frame: Option<Str>,
    pub measure: Measure,
    pub items: Vec<Item>,
}

/// What stands above: layouts, fragments, templates with all that is put in and round, and how many bytes these have.
#[derive(Drop)]
pub struct Above {
    pub layouts: Vec<Layout>,
    pub fragments: Vec<Fragment>,
    pub bytes: u64,
    pub templates: Vec<Vec<Item>>,
}

pub fn find<'a>(fragments: &'a [Fragment], name: &Str) -> Option<&'a Fragment>
    ensures { option_map fragment_of (option_copied result)
        ≡ find (map fragment_of fragments.now) name.now }
{
    for fragment in fragments {
        if fragment.name.bytes() == name.bytes() {
            return Some(fragment);
        }
    }
    None
}

pub fn find_layout<'a>(layouts: &'a [Layout], name: &Str) -> Option<&'a Layout>
    ensures { option_map layout_of (option_copied result)
        ≡ find_layout (map layout_of layouts.now) name.now }
{
    for layout in layouts {
        if layout.name.bytes() == name.bytes() {
            return Some(layout);
        }
    }
    None
}
