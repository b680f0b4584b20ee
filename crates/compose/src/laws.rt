// Laws of a site's graph, each the contract of a function that does nothing.
ghost use Rattle.std.specs.Prelude.{◌≡◌, List};
ghost use Rattle.sd_value.specs.Names.{Name};
ghost use Rattle.sd_value.specs.declared.Value.{Value as AnyValue};
ghost use Rattle.compose_spec.specs.Composed as spec;

/// Two values are two in a site's graph. A page's address begins with `/` and a letter or `_`, and no node's name does.
pub fn encodings_differ()
    ensures { (v w : AnyValue) → spec.IsNameable v → spec.IsNameable w
        → spec.encoded v ≡ spec.encoded w → v ≡ w }
{}
