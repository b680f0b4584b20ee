// Accents that wait for their letter.

/// Accents over a letter, the nearest first: of each the second byte of its combining character.
#[derive(Clone, Copy, Debug)]
pub enum Accents {
    Nothing,
    One(u8),
    Two(u8, u8),
}
