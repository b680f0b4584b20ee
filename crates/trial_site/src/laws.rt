// The laws of a trial's texts: they are accepted.
ghost use Rattle.command_spec.specs.Limits.{text_limit};
ghost use Rattle.trial_spec.specs.Texts.{query_text, templates_text};
ghost use Rattle.trial_site.specs.Accepted.{IsQueryText, AreTemplatesText};

/// The query's text spells a query without faults, so that it is never refused but out of memory.
pub fn a_trials_query_is_accepted()
    ensures { IsQueryText text_limit query_text }
{}

/// The templates' text is answered by a file of templates, so that it is never refused.
pub fn a_trials_templates_are_accepted()
    ensures { AreTemplatesText text_limit templates_text }
{}
