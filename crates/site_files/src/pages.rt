// Pages, each written to its file.
ghost use Rattle.std.specs.Prelude.{◌≡◌, ◌⊎◌, ℕ, List, Contains, OnOk};
ghost use Rattle.std.specs.Option.{ForSome, IsSomeAnd};
ghost use Rattle.sd_value.specs.declared.Term.{Term as AnyTerm};
ghost use Rattle.page_spec.specs.Page.{IsPresent};
ghost use Rattle.address.specs.Segments.{HasLongSegment};
ghost use Rattle.files_spec.specs.Paths.{file_name, page_path as path_of};
ghost use Rattle.site_files.specs.Puts.{PutEnds};
ghost use Rattle.site_files.specs.Traced.{PutAdds, PageAdds, AreSparing};
ghost use Rattle.files_spec.specs.Writes.{Adds, PagesWrite};
ghost use Rattle.files_spec.specs.Files.{IsPageText, PageEnds, PagesEnd};
ghost use Rattle.files_spec.specs.Causes.{WritesHaveCause, IsPagePath};

use crate::paths::page_path;
use edge_io::Files;
use files_spec::Stop;
use page_spec::Outcome;
use run_report::PageKind;
use sd_value::{NoMemory, Str, Term};
use site_view::Pages;
use std::alloc::Global;

// The page that has no text, or out of memory in saying so.
fn faulty(alloc: Global, term: &Term, kind: PageKind) -> Stop
    ensures { (result ≡ Stop.Faulty term.now kind) ⊎ (result ≡ Stop.NoMemory) }
{
    match term.copy(alloc) {
        Ok(term) => Stop::Faulty { term, kind },
        Err(NoMemory) => Stop::NoMemory,
    }
}

// Writes the text of the term's page.
fn put_page<F: Files>(
    alloc: Global,
    files: &mut F,
    folder: &Str,
    term: &Term,
    text: &Str,
) -> Result<(), Stop>
    ensures traced { PutAdds (F.contents files.old) (F.contents files.new)
        (path_of folder.now term.now) text.now (F.trace files.old) (F.trace files.new) result }
    ensures ends { ForSome (F.contents files.old) (λ old. IsSomeAnd (F.contents files.new) (λ new.
        PutEnds folder.now term.now text.now old new result)) }
    ensures named { OnOk result (HasLongSegment (file_name term.now) → ⊥) }
    ensures reads { F.failed_reads files.new ≡ F.failed_reads files.old }
    ensures cause { WritesHaveCause (λ path. path ≡ path_of folder.now term.now)
        (F.failed_writes files.old) (F.failed_writes files.new) result }
{
    let path = page_path(alloc, folder, term)?;
    match files.write(&path, text.bytes()) {
        Ok(_) => Ok(()),
        Err(_) => Err(Stop::Unwritten { path }),
    }
}

// Writes the term's page.
fn write_page<F: Files, P: Pages>(
    alloc: Global,
    files: &mut F,
    pages: &mut P,
    folder: &Str,
    term: &Term,
) -> Result<(), Stop>
    requires own { P.Own pages.old }
    requires present { IsPresent (P.site (P.fixed pages.old))
        (P.templates (P.fixed pages.old)) term.now }
    ensures own { P.Own pages.new }
    ensures fixed { P.fixed pages.new ≡ P.fixed pages.old }
    ensures text { OnOk result ((text : List ℕ)
        × IsPageText (P.site (P.fixed pages.old)) (P.templates (P.fixed pages.old)) term.now text) }
    ensures traced { PageAdds (F.contents files.old) (F.contents files.new)
        (P.site (P.fixed pages.old)) (P.templates (P.fixed pages.old))
        folder.now term.now (F.trace files.old) (F.trace files.new) result }
    ensures ends { ForSome (F.contents files.old) (λ old. IsSomeAnd (F.contents files.new) (λ new.
        PageEnds (P.site (P.fixed pages.old)) (P.templates (P.fixed pages.old))
        folder.now term.now old new result)) }
    ensures reads { F.failed_reads files.new ≡ F.failed_reads files.old }
    ensures cause { WritesHaveCause (λ path. path ≡ path_of folder.now term.now)
        (F.failed_writes files.old) (F.failed_writes files.new) result }
{
    match pages.page(alloc, term)? {
        Outcome::Page(text) => put_page(alloc, files, folder, term, &text),
        Outcome::Missing => unreachable!(),
        Outcome::Cyclic(value) => Err(faulty(alloc, term, PageKind::Cyclic(value))),
        Outcome::TooLong => Err(faulty(alloc, term, PageKind::TooLong)),
    }
}

/// Writes the pages of the terms, which are terms of the site whose function has a template.
pub fn write_pages<F: Files, P: Pages>(
    alloc: Global,
    files: &mut F,
    pages: &mut P,
    folder: &Str,
    terms: &[Term],
) -> Result<(), Stop>
    requires own { P.Own pages.old }
    requires present { (t : AnyTerm) → Contains terms.now t
        → IsPresent (P.site (P.fixed pages.old)) (P.templates (P.fixed pages.old)) t }
    ensures own { P.Own pages.new }
    ensures fixed { P.fixed pages.new ≡ P.fixed pages.old }
    ensures texts { OnOk result ((t : AnyTerm) → Contains terms.now t
        → (text : List ℕ)
        × IsPageText (P.site (P.fixed pages.old)) (P.templates (P.fixed pages.old)) t text) }
    ensures traced { Adds (F.trace files.old) (F.trace files.new) (λ part.
        PagesWrite (P.site (P.fixed pages.old)) (P.templates (P.fixed pages.old))
        folder.now terms.now part result
        × AreSparing (F.contents files.old) (F.contents files.new) part result) }
    ensures ends { ForSome (F.contents files.old) (λ old. IsSomeAnd (F.contents files.new) (λ new.
        PagesEnd (P.site (P.fixed pages.old)) (P.templates (P.fixed pages.old))
        folder.now terms.now old new result)) }
    ensures reads { F.failed_reads files.new ≡ F.failed_reads files.old }
    ensures cause { WritesHaveCause (IsPagePath folder.now terms.now)
        (F.failed_writes files.old) (F.failed_writes files.new) result }
{
    for term in terms {
        match write_page(alloc, files, pages, folder, term) {
            Ok(()) => {}
            Err(stop) => return Err(stop),
        }
    }
    Ok(())
}
