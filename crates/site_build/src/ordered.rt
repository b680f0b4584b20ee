// What is in a site, in its order.
ghost use Rattle.std.specs.Prelude.{refl};
ghost use Rattle.std.specs.Ordering.{eq_by_cmp, as_partial_cmp};
ghost use Rattle.std.specs.Cmp.{partial_equiv_from_equiv, eq_by_cmp_equiv, partial_order_from_agreeing_total};
ghost use Rattle.site_build.specs.Ordered.{joined_cmp, joined_cmp-total, joined_cmp-exact, put_cmp, put_cmp-total, put_cmp-exact};
ghost use Rattle.site_build.specs.Hashes.{joined_writes, joined_fed, put_writes, put_fed};

use sd_value::{ExactOrd, Str, Term, Value};
use std::cmp::Ordering;
use std::hash::{Hash, Hasher};

/// A link of the site, from a page to a value. Links are ordered by their pages, then labels, then ends.
#[derive(Debug, Drop)]
pub struct Joined {
    pub from: Term,
    pub label: Str,
    pub to: Value,
}

impl PartialEq for Joined {
    ghost eq = { eq_by_cmp joined_cmp };

    ghost laws = { partial_equiv_from_equiv (eq_by_cmp_equiv joined_cmp-total) };

    fn eq(&self, other: &Joined) -> bool {
        self.cmp(other).is_eq()
    }
}

impl Eq for Joined {
    ghost laws = { eq_by_cmp_equiv joined_cmp-total };
}

impl PartialOrd for Joined {
    ghost partial_cmp = { as_partial_cmp joined_cmp };

    ghost laws = { partial_order_from_agreeing_total joined_cmp joined_cmp-total (λ a b. refl)
        (λ a b. refl) };

    fn partial_cmp(&self, other: &Joined) -> Option<Ordering> {
        Some(self.cmp(other))
    }
}

impl Ord for Joined {
    ghost cmp = { joined_cmp };

    ghost total = { joined_cmp-total };

    ghost matches_partial_cmp = { λ a b. refl };

    ghost matches_eq = { λ a b. refl };

    fn cmp(&self, other: &Joined) -> Ordering {
        let by_page = self.from.cmp(&other.from);
        if by_page.is_ne() {
            return by_page;
        }
        let by_label = self.label.cmp(&other.label);
        if by_label.is_ne() {
            return by_label;
        }
        self.to.cmp(&other.to)
    }
}

impl ExactOrd for Joined {
    ghost exact = { joined_cmp-exact };
}

impl Hash for Joined {
    ghost hash_input = { joined_writes };

    ghost respects_eq = { joined_fed };

    fn hash<H: Hasher>(&self, state: &mut H) {
        self.from.hash(state);
        self.label.hash(state);
        self.to.hash(state);
    }
}

/// A value that a COLLECT puts under a name. They are ordered by their names, then values.
#[derive(Debug, Drop)]
pub struct Put {
    pub collection: Str,
    pub value: Value,
}

impl PartialEq for Put {
    ghost eq = { eq_by_cmp put_cmp };

    ghost laws = { partial_equiv_from_equiv (eq_by_cmp_equiv put_cmp-total) };

    fn eq(&self, other: &Put) -> bool {
        self.cmp(other).is_eq()
    }
}

impl Eq for Put {
    ghost laws = { eq_by_cmp_equiv put_cmp-total };
}

impl PartialOrd for Put {
    ghost partial_cmp = { as_partial_cmp put_cmp };

    ghost laws = { partial_order_from_agreeing_total put_cmp put_cmp-total (λ a b. refl)
        (λ a b. refl) };

    fn partial_cmp(&self, other: &Put) -> Option<Ordering> {
        Some(self.cmp(other))
    }
}

impl Ord for Put {
    ghost cmp = { put_cmp };

    ghost total = { put_cmp-total };

    ghost matches_partial_cmp = { λ a b. refl };

    ghost matches_eq = { λ a b. refl };

    fn cmp(&self, other: &Put) -> Ordering {
        let by_name = self.collection.cmp(&other.collection);
        if by_name.is_ne() {
            return by_name;
        }
        self.value.cmp(&other.value)
    }
}

impl ExactOrd for Put {
    ghost exact = { put_cmp-exact };
}

impl Hash for Put {
    ghost hash_input = { put_writes };

    ghost respects_eq = { put_fed };

    fn hash<H: Hasher>(&self, state: &mut H) {
        self.collection.hash(state);
        self.value.hash(state);
    }
}
