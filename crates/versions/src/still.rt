// Pages that no text changes.
ghost use Rattle.std.specs.Prelude.{false};

use crate::{Changed, Versions};
use page_spec::Outcome;
use sd_value::{NoMemory, Str, Term};
use site_view::Pages;
use std::alloc::Global;

/// Pages whose data do not change: no text is accepted. None is kept.
#[derive(Drop)]
pub struct Still<P> {
    pub pages: P,
}

impl<P: Pages> Versions for Still<P> {
    ghost State = { P.Fixed };

    ghost Cache = { Unit {0} };

    ghost state = { λ s. P.fixed s.pages };

    ghost cache = { λ s. record {} };

    ghost site = { P.site };

    ghost templates = { P.templates };

    ghost changed = { λ state text. state };

    ghost accepts = { λ state text. false };

    ghost stays = { λ state text term. false };

    ghost looks = { λ state before term after. Unit {0} };

    ghost renews = { λ state text before after. Unit {0} };

    ghost found = { λ cache. 0 };

    ghost Own = { λ s. P.Own s.pages };

    fn page(&mut self, alloc: Global, term: &Term) -> Result<Outcome, NoMemory> {
        self.pages.page(alloc, term)
    }

    fn change(&mut self, alloc: Global, _text: &Str, _kept: &[Term]) -> Result<Changed, NoMemory> {
        Ok(Changed::Refused)
    }

    fn hits(&self) -> u64 {
        0
    }
}
