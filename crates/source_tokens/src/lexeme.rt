// What stands at the front of a text.
ghost use Rattle.std.specs.Prelude.{◌≡◌, ◌≤◌, ◌+◌, true, false, length, slice_index, IfOk, IfSome};
ghost use Rattle.std.specs.Prelude.{option_map};
ghost use Rattle.cloud_base.specs.Values.{IsName, is_letter, is_digit, is_name_byte};
ghost use Rattle.source_tokens.specs.Lexemes.{is_white, comment_length, word_at, digits_at};
ghost use Rattle.source_tokens.specs.Lexemes.{number_value, word_token, blank, lexeme, symbol_at};
ghost use Rattle.source_tokens.specs.Lexemes.{lexeme_at, is_plain, judged, literal_behind};
ghost use Rattle.source_tokens.specs.Lexemes.{literal_lexeme};
ghost use Rattle.source_tokens.specs.Terminals.{terminal_text};
ghost use Rattle.source_tokens.specs.declared.token.Token.TheVariants.{Number, Fixed};

use crate::identifier::Identifier;
use crate::token::Token;
use crate::words::{reserved, symbol_at};
use cloud_base::{Memory, Sequence};
use std::alloc::Global;

// What stands at the front of a text, and how many bytes it has. White space and comments are no
// token.
#[derive(Debug, Drop)]
pub struct Lexeme {
    pub token: Option<Token>,
    pub length: usize,
}

// The bytes of a text literal, and how many bytes of the source were read for it.
#[derive(Debug, Drop)]
struct Literal {
    bytes: Sequence<u8>,
    length: usize,
}

// What a byte between quotes is.
#[derive(Clone, Copy, Debug, PartialEq, Eq)]
enum InLiteral {
    Plain,
    Backslash,
    Close,
    Bad,
}

fn is_white(byte: u8) -> bool
    ensures { result ≡ is_white byte }
{
    byte == b' ' || byte == b'\t' || byte == b'\n' || byte == b'\r'
}

fn is_letter(byte: u8) -> bool
    ensures { result ≡ is_letter byte }
{
    (b'A' <= byte && byte <= b'Z') || (b'a' <= byte && byte <= b'z') || byte == b'_'
}

fn is_digit(byte: u8) -> bool
    ensures { result ≡ is_digit byte }
{
    b'0' <= byte && byte <= b'9'
}

fn is_name_byte(byte: u8) -> bool
    ensures { result ≡ is_name_byte byte }
{
    is_letter(byte) || is_digit(byte)
}

fn is_plain(byte: u8) -> bool
    ensures { result ≡ is_plain byte }
{
    b' ' <= byte && byte < 127
}

fn comment_length(text: &[u8]) -> usize
    ensures { result ≡ comment_length text.now }
{
    text.iter().take_while(|byte| **byte != b'\n').count()
}

fn word_length(text: &[u8]) -> usize
    ensures { result ≡ length (word_at text.now) }
{
    text.iter().take_while(|byte| is_name_byte(**byte)).count()
}

fn digits_length(text: &[u8]) -> usize
    ensures { result ≡ length (digits_at text.now) }
{
    text.iter().take_while(|byte| is_digit(**byte)).count()
}

fn number_value(digits: &[u8]) -> u64
    ensures { result ≡ number_value digits.now }
{
    digits.iter().fold(0u64, |value, digit| {
        value
            .saturating_mul(10)
            .saturating_add(u64::from(digit.saturating_sub(b'0')))
    })
}

// The word at the front: letters and digits as long as they go on.
#[tactic(auto, using(crate::proofs::Fronts::taken))]
fn word_at(text: &[u8]) -> &[u8]
    ensures { result.now ≡ word_at text.now }
{
    &text[..word_length(text)]
}

#[tactic(auto, using(crate::proofs::Fronts::taken))]
fn digits_at(text: &[u8]) -> &[u8]
    ensures { result.now ≡ digits_at text.now }
{
    &text[..digits_length(text)]
}

// The token of a word.
fn word_token(alloc: Global, word: &[u8]) -> Result<Token, Memory>
    requires { IsName word.now }
    ensures { IfOk result (λ token. token ≡ word_token word.now) }
{
    match reserved(word) {
        Some(terminal) => Ok(Token::Fixed(terminal)),
        None => Ok(Token::Name(Identifier::new(alloc, word)?)),
    }
}

fn blank(length: usize) -> Lexeme
    ensures { result ≡ blank length }
{
    Lexeme {
        token: None,
        length,
    }
}

#[tactic(auto, using(crate::proofs::Fronts::word_fits, crate::proofs::Fronts::word_is_name))]
fn word_lexeme(alloc: Global, text: &[u8]) -> Result<Lexeme, Memory>
    requires { is_letter (slice_index text.now 0) ≡ true }
    ensures lexeme { IfOk result
        (λ l. l ≡ lexeme (word_token (word_at text.now)) (length (word_at text.now))) }
    ensures within { IfOk result (λ l. (1 ≤ l.length) × (l.length ≤ length text.now)) }
{
    let word = word_at(text);
    Ok(Lexeme {
        token: Some(word_token(alloc, word)?),
        length: word.len(),
    })
}

#[tactic(auto, using(crate::proofs::Fronts::digits_fit))]
fn number_lexeme(text: &[u8]) -> Lexeme
    requires { is_digit (slice_index text.now 0) ≡ true }
    ensures lexeme { result
        ≡ lexeme (Number (number_value (digits_at text.now))) (length (digits_at text.now)) }
    ensures within { (1 ≤ result.length) × (result.length ≤ length text.now) }
{
    let digits = digits_at(text);
    Lexeme {
        token: Some(Token::Number(number_value(digits))),
        length: digits.len(),
    }
}

// What a byte between quotes is, behind a backslash or not.
fn judged(escaped: bool, byte: u8) -> InLiteral
    ensures { result ≡ judged escaped byte }
{
    match byte {
        b'"' | b'\\' if escaped => InLiteral::Plain,
        _ if escaped => InLiteral::Bad,
        b'"' => InLiteral::Close,
        b'\\' => InLiteral::Backslash,
        _ if is_plain(byte) => InLiteral::Plain,
        _ => InLiteral::Bad,
    }
}

// What a literal comes to behind its opening quote.
fn literal_behind(alloc: Global, text: &[u8]) -> Result<Option<Literal>, Memory>
    ensures literal { IfOk result (λ found. found ≡ literal_behind false text.now) }
    ensures within { IfOk result (λ found. IfSome found (λ l. l.length ≤ length text.now)) }
{
    let mut bytes = Sequence::new(alloc);
    let mut escaped = false;
    for (at, &byte) in text.iter().enumerate() {
        match judged(escaped, byte) {
            InLiteral::Plain => {
                bytes.push(byte)?;
                escaped = false;
            }
            InLiteral::Backslash => escaped = true,
            InLiteral::Close => {
                return Ok(Some(Literal {
                    bytes,
                    length: at + 1,
                }));
            }
            InLiteral::Bad => return Ok(None),
        }
    }
    Ok(None)
}

fn literal_lexeme(alloc: Global, behind: &[u8]) -> Result<Option<Lexeme>, Memory>
    ensures lexeme { IfOk result
        (λ found. found ≡ option_map literal_lexeme (literal_behind false behind.now)) }
    ensures within { IfOk result
        (λ found. IfSome found (λ l. (1 ≤ l.length) × (l.length ≤ length behind.now + 1))) }
{
    let Some(Literal { bytes, length }) = literal_behind(alloc, behind)? else {
        return Ok(None);
    };
    Ok(Some(Lexeme {
        token: Some(Token::Text(bytes)),
        length: length + 1,
    }))
}

#[tactic(auto, using(crate::proofs::Fronts::symbol_fits))]
fn symbol_lexeme(text: &[u8]) -> Option<Lexeme>
    ensures lexeme { result
        ≡ option_map (λ t. lexeme (Fixed t) (length (terminal_text t))) (symbol_at text.now) }
    ensures within { IfSome result (λ l. (1 ≤ l.length) × (l.length ≤ length text.now)) }
{
    let terminal = symbol_at(text)?;
    Some(Lexeme {
        token: Some(Token::Fixed(terminal)),
        length: terminal.text().len(),
    })
}

// What stands at the front of a text, and None where nothing does.
#[tactic(auto, using(crate::proofs::Fronts::comments), unfolding(crate::specs::Lexemes::lexeme_at))]
pub fn lexeme_at(alloc: Global, text: &[u8]) -> Result<Option<Lexeme>, Memory>
    ensures lexeme { IfOk result (λ found. found ≡ lexeme_at text.now) }
    ensures within { IfOk result
        (λ found. IfSome found (λ l. (1 ≤ l.length) × (l.length ≤ length text.now))) }
{
    let Some((&first, behind)) = text.split_first() else {
        return Ok(None);
    };
    if is_white(first) {
        return Ok(Some(blank(1)));
    }
    if text.starts_with(b"//") {
        return Ok(Some(blank(comment_length(text))));
    }
    if is_letter(first) {
        return Ok(Some(word_lexeme(alloc, text)?));
    }
    if is_digit(first) {
        return Ok(Some(number_lexeme(text)));
    }
    if first == b'"' {
        return literal_lexeme(alloc, behind);
    }
    Ok(symbol_lexeme(text))
}
