//! Certificates: what shows of a query alone that its site meets a constraint over every data
//! graph.

ghost use Rattle.std.specs.Prelude.{◌≡◌};

use sd_value::Str;
use std::marker::Model;

/// A link of a query, by its number in the text, counted from 1, and for each variable of its chain
/// in their order the name of the variable that it is mapped to.
#[derive(Debug)]
pub struct LinkUse {
    link: usize,
    names: Vec<Str>,
}

// Written out, so that it is proved here once, and not again in each crate that drops one.
impl Drop for LinkUse {
    fn drop(self) {
        let LinkUse {
            link: _link,
            names: _names,
        } = self;
    }
}

impl Model for LinkUse {
    ghost use Rattle.constraint_spec.specs.Use.{LinkUse as PlainUse};

    ghost Value = { PlainUse };

    ghost view = { λ u. record { link = u.link; names = u.names.items } };
}

impl LinkUse {
    /// The use of the link of this number by these names.
    pub fn new(link: usize, names: Vec<Str>) -> LinkUse
        ensures { result ≡ record { link = link; names = names.items } }
    {
        LinkUse { link, names }
    }

    /// The link's number.
    pub fn link(&self) -> usize
        ensures { result ≡ self.now.link }
    {
        self.link
    }

    /// A name for each variable of the link's chain, in their order.
    pub fn names(&self) -> &[Str]
        ensures { result.now ≡ self.now.names }
    {
        self.names.as_slice()
    }
}

/// The uses that show the constraint of one mention of its function.
#[derive(Debug)]
pub struct MentionProof {
    uses: Vec<LinkUse>,
}

// Written out, so that it is proved here once, and not again in each crate that drops one.
impl Drop for MentionProof {
    fn drop(self) {
        let MentionProof { uses: _uses } = self;
    }
}

impl Model for MentionProof {
    ghost use Rattle.std.specs.Prelude.{List};
    ghost use Rattle.constraint_spec.specs.Use.{LinkUse as PlainUse};

    ghost Value = { List PlainUse };

    ghost view = { λ p. p.uses.items };
}

impl MentionProof {
    /// What shows it by these uses.
    pub fn new(uses: Vec<LinkUse>) -> MentionProof
        ensures { result ≡ uses.items }
    {
        MentionProof { uses }
    }

    /// The uses, in their order.
    pub fn uses(&self) -> &[LinkUse]
        ensures { result.now ≡ self.now }
    {
        self.uses.as_slice()
    }
}

/// For each mention of a constraint's function, in the query's order, the uses that show the
/// constraint of it.
#[derive(Debug)]
pub struct Certificate {
    proofs: Vec<MentionProof>,
}

// Written out, so that it is proved here once, and not again in each crate that drops one.
impl Drop for Certificate {
    fn drop(self) {
        let Certificate { proofs: _proofs } = self;
    }
}

impl Model for Certificate {
    ghost use Rattle.std.specs.Prelude.{List};
    ghost use Rattle.constraint_spec.specs.Use.{LinkUse as PlainUse};

    ghost Value = { List (List PlainUse) };

    ghost view = { λ c. c.proofs.items };
}

impl Certificate {
    /// The certificate of these proofs.
    pub fn new(proofs: Vec<MentionProof>) -> Certificate
        ensures { result ≡ proofs.items }
    {
        Certificate { proofs }
    }

    /// The proofs, one for each mention.
    pub fn proofs(&self) -> &[MentionProof]
        ensures { result.now ≡ self.now }
    {
        self.proofs.as_slice()
    }
}

/// What is known of a constraint: it is met over every data graph, or there is no certificate.
#[derive(Debug)]
pub enum Verdict {
    Yes(Certificate),
    Unknown,
}

// Written out, so that it is proved here once, and not again in each crate that drops one.
impl Drop for Verdict {
    fn drop(self) {
        match self {
            Verdict::Yes(_) => {}
            Verdict::Unknown => {}
        }
    }
}
