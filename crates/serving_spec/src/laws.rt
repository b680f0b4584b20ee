// Laws of the definitions, each the contract of a function that does nothing.
ghost use Rattle.std.specs.Prelude.{◌<◌, List};
ghost use Rattle.tmpl.specs.Body.{TemplateFile};
ghost use Rattle.page_spec.specs.Site.{Site};
ghost use Rattle.happenings.specs.declared.event.WireEvent.{WireEvent};
ghost use Rattle.serving_spec.specs.Changes.{Changes, AllKept};
ghost use Rattle.serving_spec.specs.Looks.{Kept, IsWithinRoom};
ghost use Rattle.serving_spec.specs.Made.{Made};
ghost use Rattle.serving_spec.specs.Serving.{none_kept};
ghost use Rattle.serving_spec.specs.declared.CacheRoom.{CacheRoom};

/// Pages of data that texts may change.
pub trait ChangingPages {
    ghost Data: { Type 0 };

    ghost site: { Data → Site };

    ghost templates: { Data → TemplateFile };

    ghost texts: { Changes Data };
}

/// After any events no more pages are kept than there is room for, and no more bytes, if none was kept at first.
pub fn kept_pages_have_room<P: ChangingPages>()
    ensures { (room : CacheRoom) → 0 < room.pages → (start : P.Data) (events : List WireEvent)
        (makes : List Made) (kept : Kept)
        → AllKept P.site P.templates P.texts start events makes (none_kept room) kept
        → IsWithinRoom kept }
{}
