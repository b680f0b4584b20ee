//! Texts without marks and case.
ghost use Rattle.std.specs.Prelude.{◌≡◌, ◌++◌, ◌∷◌, [], IfOk, OnOk, MatchOption, flat_map, chars, string_bytes, encode_utf8_all};
ghost use Rattle.function_spec.specs.Folding.{is_mark, plain, unmarked, fold};

use caseless::default_case_fold_str;
use sd_value::NoMemory;
use std::alloc::Global;
use unicode::properties::{GeneralCategory, GeneralCategoryGroup};
use unicode_normalization::to_nfkd;

fn is_mark(character: char) -> bool
    ensures { result ≡ is_mark character }
{
    let category = GeneralCategory::for_char(character);
    GeneralCategoryGroup::Mark.contains(category)
}

fn push_plain(letter: char, text: &mut String) -> Result<(), NoMemory>
    ensures { OnOk result
        (string_bytes text.new ≡ string_bytes text.old ++ encode_utf8_all (plain letter)) }
{
    match letter {
        'Ł' | 'ł' => text.push('l')?,
        'Ø' | 'ø' => text.push('o')?,
        'Đ' | 'đ' | 'Ð' | 'ð' => text.push('d')?,
        'Þ' | 'þ' => text.push_str("th")?,
        'Æ' | 'æ' => text.push_str("ae")?,
        'Œ' | 'œ' => text.push_str("oe")?,
        'ı' => text.push('i')?,
        _ => text.push(letter)?,
    }
    Ok(())
}

fn push_unmarked(character: char, text: &mut String) -> Result<(), NoMemory>
    ensures { OnOk result
        (string_bytes text.new ≡ string_bytes text.old ++ encode_utf8_all (unmarked character)) }
{
    if is_mark(character) {
        return Ok(());
    }
    push_plain(character, text)?;
    Ok(())
}

// The text without its marks, and in plain letters.
fn unmarked(alloc: Global, text: &str) -> Result<String, NoMemory>
    ensures { IfOk result (λ t.
        string_bytes t ≡ encode_utf8_all (flat_map unmarked (chars text.now))) }
{
    let mut plain = String::new(alloc);
    for character in text.chars() {
        push_unmarked(character, &mut plain)?;
    }
    Ok(plain)
}

/// The text decomposed, without its marks, in plain letters, and case-folded.
pub fn fold(alloc: Global, text: &str) -> Result<String, NoMemory>
    ensures { IfOk result (λ t. string_bytes t ≡ fold text.now) }
{
    let decomposed = to_nfkd(alloc, text)?;
    let bare = unmarked(alloc, decomposed.as_str())?;
    let folded = default_case_fold_str(alloc, bare.as_str())?;
    Ok(folded)
}
