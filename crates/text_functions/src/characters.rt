//! Texts by their characters.
ghost use Rattle.std.specs.Prelude.{◌≡◌};
ghost use Rattle.function_spec.specs.Characters.{count, first, rest, last};

/// How many characters the text has.
pub fn count(text: &str) -> usize
    ensures { result ≡ count text.now }
{
    text.chars().count()
}

/// All but its first n characters.
pub fn rest(text: &str, n: u64) -> &str
    ensures { result.now ≡ rest text.now n }
{
    let mut rest = text;
    for _i in 0..n {
        let mut characters = rest.chars();
        match characters.next() {
            Some(_) => rest = characters.as_str(),
            None => return rest,
        }
    }
    rest
}

/// Its first n characters, or all if it has fewer.
pub fn first(text: &str, n: u64) -> &str
    ensures { result.now ≡ first text.now n }
{
    let after = rest(text, n);
    let (front, _) = text.split_at(text.len() - after.len());
    front
}

/// Its last n characters, or all if it has fewer.
pub fn last(text: &str, n: u64) -> &str
    ensures { result.now ≡ last text.now n }
{
    let before = (count(text) as u64).saturating_sub(n);
    rest(text, before)
}
