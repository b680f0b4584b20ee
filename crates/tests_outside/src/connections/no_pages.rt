// Pages of a site without terms.
ghost use Rattle.tmpl.specs.Body.{TemplateFile};
ghost use Rattle.page_spec.specs.Site.{Site};
ghost use Rattle.tests_outside.specs.NoSite.{no_site, no_templates};

use page_spec::Outcome;
use sd_value::{NoMemory, Term};
use site_view::Pages;
use std::alloc::Global;

/// Pages of a site without terms: none is there.
#[derive(Drop)]
pub(crate) struct NoPages;

impl Pages for NoPages {
    ghost Fixed = { Unit {0} };

    ghost fixed = { λ p. record {} };

    ghost site = { λ f. no_site };

    ghost templates = { λ f. no_templates };

    ghost Own = { λ p. Unit {0} };

    fn page(&mut self, _alloc: Global, _term: &Term) -> Result<Outcome, NoMemory> {
        Ok(Outcome::Missing)
    }
}
