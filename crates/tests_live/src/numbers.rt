// Numbers by a fixed rule.
ghost use Rattle.std.specs.Prelude.{◌<◌};

#[derive(Drop)]
pub(crate) struct Numbers {
    pub(crate) state: u64,
}

impl Numbers {
    // A number below the bound.
    pub(crate) fn below(&mut self, bound: u64) -> u64
        requires { 0 < bound }
        ensures { result < bound }
    {
        self.state = self
            .state
            .wrapping_mul(6_364_136_223_846_793_005)
            .wrapping_add(1_442_695_040_888_963_407);
        (self.state >> 33) % bound
    }
}

pub(crate) fn one_of<'a>(numbers: &mut Numbers, names: &'a [&'static str]) -> &'static str {
    if names.is_empty() {
        return "";
    }
    names[numbers.below(names.len() as u64) as usize]
}
