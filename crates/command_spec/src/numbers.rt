// The options whose value is a number.
ghost use Rattle.std.specs.Prelude.{◌≡◌};
ghost use Rattle.command_spec.specs.Numbers as specs;
ghost use Rattle.command_spec.specs.Values.{number_name};

/// An option whose value is a number from 1 on.
#[derive(Clone, Copy, Debug, PartialEq, Eq)]
pub enum NumberOption {
    Port,
    Connections,
    Requests,
    Turns,
    Cache,
    CacheBytes,
    Idle,
    Stall,
    OpenAtOnce,
    Every,
}

impl NumberOption {
    /// The name of the option, without its dashes.
    pub fn name<'a>(self) -> &'a str
        ensures { result.now ≡ number_name self }
    {
        match self {
            NumberOption::Port => "port",
            NumberOption::Connections => "connections",
            NumberOption::Requests => "requests",
            NumberOption::Turns => "turns",
            NumberOption::Cache => "cache",
            NumberOption::CacheBytes => "cache-bytes",
            NumberOption::Idle => "idle",
            NumberOption::Stall => "stall",
            NumberOption::OpenAtOnce => "open",
            NumberOption::Every => "every",
        }
    }

    /// The greatest number that the option may have.
    pub fn greatest(self) -> u64
        ensures { result ≡ specs.greatest self }
    {
        match self {
            NumberOption::Port => 65_535,
            NumberOption::Connections
            | NumberOption::Requests
            | NumberOption::Turns
            | NumberOption::CacheBytes
            | NumberOption::Every => 4_294_967_296,
            NumberOption::Cache => 4_096,
            NumberOption::Idle | NumberOption::Stall => 4_294_967_295,
            NumberOption::OpenAtOnce => 16_384,
        }
    }

    /// The number where the option isn't given.
    pub fn otherwise(self) -> u64
        ensures { result ≡ specs.default_of self }
    {
        match self {
            NumberOption::Port => 8_080,
            NumberOption::Connections | NumberOption::Turns => 4_294_967_296,
            NumberOption::Requests | NumberOption::Every => 1,
            NumberOption::Cache => 256,
            NumberOption::CacheBytes => 67_108_864,
            NumberOption::Idle => 5_000,
            NumberOption::Stall => 10_000,
            NumberOption::OpenAtOnce => 16_384,
        }
    }
}
