// The value that bytes are.
ghost use Rattle.std.specs.Prelude.{◌≡◌, ◌⊎◌, IfOk, IfErr, Some, None, MatchOption, true, false, map};
ghost use Rattle.std.specs.List.{list_any};
ghost use Rattle.std.specs.Str.{IsUtf8};
ghost use Rattle.json.specs.Lex.{tokens};
ghost use Rattle.json.specs.Print.{IsPrintable};
ghost use Rattle.json.specs.Reads.{token_of};
ghost use Rattle.serde_json.specs.Read.{read};
ghost use Rattle.serde_json.specs.View.{view};
ghost use Rattle.json_source.specs.Document.{is_bad, spelled_token, spelled_value, if_utf8, value_of};
ghost use Rattle.json_source.specs.declared.refusal.JsonRefusal.TheVariants.{NoMemory as OutOfMemory, NotJson as Unreadable};

use crate::refusal::JsonRefusal;
use crate::rules::JsonRules;
use json::{Reader, Scratch, Token, Writer};
use sd_value::NoMemory;
use serde_json::Value as Json;
use source_steps::{integer_of, without_mark};
use std::alloc::Global;
use std::str;

// The value of a text as `serde_json` reads it.
#[tactic(auto, using(crate::proofs::Documents::value_some, crate::proofs::Documents::value_none))]
fn read_plain(alloc: Global, text: &[u8]) -> Result<Json, JsonRefusal>
    ensures value { IfOk result (λ v. if_utf8 read text.now ≡ Some (view v)) }
    ensures fault { IfErr result
        (λ e. (e ≡ OutOfMemory) ⊎ ((e ≡ Unreadable) × (if_utf8 read text.now ≡ None))) }
{
    match Json::from_slice(alloc, text) {
        Ok(value) => Ok(value),
        Err(error) => {
            if error.is_memory() {
                return Err(JsonRefusal::NoMemory);
            }
            Err(JsonRefusal::NotJson)
        }
    }
}

// The token, and a string where it is a number that is no integer of 64 bits.
fn spelled<'a>(token: Token<'a>) -> Token<'a>
    requires { IsPrintable (token_of token) }
    ensures value { token_of result ≡ spelled_token (token_of token.entry) }
    ensures printable { IsPrintable (token_of result) }
{
    let Token::Number(digits) = token else {
        return token;
    };
    match integer_of(digits.as_bytes()) {
        Some(_) => token,
        None => Token::String(digits),
    }
}

// A text of these tokens, where none of them is bad.
fn spelled_text(alloc: Global, text: &str) -> Result<Option<Vec<u8>>, NoMemory>
    ensures { IfOk result (λ o. MatchOption o (list_any is_bad (tokens text.now) ≡ true)
        (λ bytes. (list_any is_bad (tokens text.now) ≡ false) × IsUtf8 bytes.items
        × (tokens bytes.items ≡ map spelled_token (tokens text.now)))) }
{
    let mut scratch = Scratch::new(alloc);
    let mut reader = Reader::new(text, &mut scratch)?;
    let mut writer = Writer::new(Vec::new(alloc));
    'tokens: while let Some(token) = reader.next() {
        if let Token::Bad = token {
            return Ok(None);
        }
        writer.token(spelled(token))?;
    }
    Ok(Some(writer.into_inner()))
}

// The value of a text in which each number that is no integer of 64 bits is a string.
fn read_spelled(alloc: Global, bytes: &[u8]) -> Result<Json, JsonRefusal>
    ensures value { IfOk result (λ v. if_utf8 spelled_value bytes.now ≡ Some (view v)) }
    ensures fault { IfErr result
        (λ e. (e ≡ OutOfMemory) ⊎ ((e ≡ Unreadable) × (if_utf8 spelled_value bytes.now ≡ None))) }
{
    let Ok(text) = str::from_utf8(bytes) else {
        return Err(JsonRefusal::NotJson);
    };
    let Some(spelled) = spelled_text(alloc, text)? else {
        return Err(JsonRefusal::NotJson);
    };
    let value = read_plain(alloc, spelled.as_slice())?;
    Ok(value)
}

/// The value that bytes are by the rules.
pub(crate) fn read_value(alloc: Global, rules: JsonRules, bytes: &[u8]) -> Result<Json, JsonRefusal>
    ensures value { IfOk result (λ v. value_of rules bytes.now ≡ Some (view v)) }
    ensures fault { IfErr result
        (λ e. (e ≡ OutOfMemory) ⊎ ((e ≡ Unreadable) × (value_of rules bytes.now ≡ None))) }
{
    let text = without_mark(bytes);
    if rules.spelled_numbers {
        read_spelled(alloc, text)
    } else {
        read_plain(alloc, text)
    }
}
