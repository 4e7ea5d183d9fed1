//! How long the words at the start of a text are.

ghost use Rattle.std.specs.Prelude.{◌≡◌, ◌≢◌, ◌+◌, ◌≤◌, ◌++◌, ℕ, List, length, take, drop};
ghost use Rattle.xml_model.specs.Chars.{is_space};
ghost use Rattle.xpath_tokens.specs.Tokens.{is_single, is_pair, is_quote, is_decimal_digit, after_space, IsNumber};
ghost use Rattle.xpath_tokens.specs.Words.{run, is_ncname_start, is_ncname_char, not_colon, is_other, ncname_length};
ghost use Rattle.xpath_tokens.specs.Words.{symbol_length, qname_length, any_in_length, number_length, literal_length};
ghost use Rattle.xpath_tokens.specs.Words.{variable_length, word_length};

use xml_chars::{is_name_char, is_name_start};

/// Whether the character is white space (XPath 1.0, production 39; XML 1.0, production 3).
#[tactic(auto, unfolding(xml_model::specs::Chars::is_space, xml_model::specs::Chars::in_ranges))]
pub fn is_space(c: char) -> bool
    ensures { result ≡ is_space c }
{
    matches!(c, ' ' | '\t' | '\n' | '\r')
}

/// Whether the character is a digit of a number (XPath 1.0, production 31).
pub fn is_digit(c: char) -> bool
    ensures { result ≡ is_decimal_digit c }
{
    matches!(c, '0'..='9')
}

/// Whether the character begins and ends a literal (XPath 1.0, production 29).
pub fn is_quote(c: char) -> bool
    ensures { result ≡ is_quote c }
{
    c == '"' || c == '\''
}

/// Whether the character can begin a name without a colon (Namespaces in XML 1.0, production 4).
pub fn is_ncname_start(c: char) -> bool
    ensures { result ≡ is_ncname_start c }
{
    c != ':' && is_name_start(c)
}

/// Whether the character can be in a name without a colon (Namespaces in XML 1.0, production 4).
pub fn is_ncname_char(c: char) -> bool
    ensures { result ≡ is_ncname_char c }
{
    c != ':' && is_name_char(c)
}

/// How many characters at the start can be in a name without a colon.
fn ncname_run(chars: &[char]) -> usize
    ensures count { result ≡ run is_ncname_char chars.now }
    ensures within { result ≤ length chars.now }
{
    let mut count: usize = 0;
    while count < chars.len() && is_ncname_char(chars[count]) {
        count += 1;
    }
    count
}

/// How many digits are at the start (XPath 1.0, production 31).
fn digit_run(chars: &[char]) -> usize
    ensures count { result ≡ run is_decimal_digit chars.now }
    ensures within { result ≤ length chars.now }
{
    let mut count: usize = 0;
    while count < chars.len() && is_digit(chars[count]) {
        count += 1;
    }
    count
}

/// How many characters are before the first `stop`: all of them where there is none.
pub fn run_before(stop: char, chars: &[char]) -> usize
    ensures count { result ≡ run (is_other stop) chars.now }
    ensures within { result ≤ length chars.now }
{
    let mut count: usize = 0;
    while count < chars.len() && chars[count] != stop {
        count += 1;
    }
    count
}

/// How many characters of white space are at the start (XPath 1.0, production 39).
pub fn space_run(chars: &[char]) -> usize
    ensures count { result ≡ run is_space chars.now }
    ensures within { result ≤ length chars.now }
{
    let mut count: usize = 0;
    while count < chars.len() && is_space(chars[count]) {
        count += 1;
    }
    count
}

/// How long the name without a colon at the start is (Namespaces in XML 1.0, production 4); 0 where there is none.
fn ncname_length(chars: &[char]) -> usize
    ensures count { result ≡ ncname_length chars.now }
    ensures within { result ≤ length chars.now }
{
    match chars {
        [first, rest @ ..] => {
            if is_ncname_start(*first) {
                ncname_run(rest) + 1
            } else {
                0
            }
        }
        [] => 0,
    }
}

/// Whether the character alone is a symbol: a bracket, `.`, `@`, `,`, `*` or an operator (XPath 1.0, productions 28, 32
/// and 34).
pub fn is_single(c: char) -> bool
    ensures { result ≡ is_single c }
{
    matches!(
        c,
        '(' | ')' | '[' | ']' | '.' | '@' | ',' | '*' | '|' | '+' | '-' | '=' | '<' | '>' | '/'
    )
}

/// Whether the two characters together are a symbol: `..`, `::`, `//`, `!=`, `<=` or `>=` (XPath 1.0, productions 28
/// and 32).
pub fn is_pair(c: char, d: char) -> bool
    ensures { result ≡ is_pair c d }
{
    (c == '.' && d == '.')
        || (c == ':' && d == ':')
        || (c == '/' && d == '/')
        || ((c == '!' || c == '<' || c == '>') && d == '=')
}

/// How long the symbol at the start is (XPath 1.0, productions 28, 32 and 34); 0 where there is none.
pub fn symbol_length(chars: &[char]) -> usize
    ensures count { result ≡ symbol_length chars.now }
    ensures within { result ≤ length chars.now }
{
    match chars {
        [] => 0,
        [c] => { if is_single(*c) { 1 } else { 0 } }
        [c, d, ..] => {
            if is_pair(*c, *d) {
                2
            } else if is_single(*c) {
                1
            } else {
                0
            }
        }
    }
}

/// What is after as many characters.
pub fn after(chars: &[char], count: usize) -> &[char]
    requires { count ≤ length chars.now }
    ensures { result.now ≡ drop count chars.now }
{
    &chars[count..]
}

/// How long the name at the start is, with a prefix where it has one (Namespaces in XML 1.0, production 7); 0 where
/// there is none.
fn qname_length(chars: &[char]) -> usize
    ensures count { result ≡ qname_length chars.now }
    ensures within { result ≤ length chars.now }
{
    let count = ncname_length(chars);
    if count == 0 {
        return 0;
    }
    match after(chars, count) {
        [':', rest @ ..] => {
            let more = ncname_length(rest);
            if more == 0 { count } else { count + 1 + more }
        }
        _ => count,
    }
}

/// How long the prefix with `:*` at the start is (XPath 1.0, production 37); 0 where there is none.
fn any_in_length(chars: &[char]) -> usize
    ensures count { result ≡ any_in_length chars.now }
    ensures within { result ≤ length chars.now }
{
    let count = ncname_length(chars);
    if count == 0 {
        return 0;
    }
    match after(chars, count) {
        [':', '*', ..] => count + 2,
        _ => 0,
    }
}

/// How long the number at the start is (XPath 1.0, production 30); 0 where there is none.
fn number_run(chars: &[char]) -> usize
    ensures count { result ≡ number_length chars.now }
    ensures within { result ≤ length chars.now }
{
    let count = digit_run(chars);
    match after(chars, count) {
        ['.', rest @ ..] => {
            let more = digit_run(rest);
            if count == 0 && more == 0 {
                0
            } else {
                count + 1 + more
            }
        }
        _ => count,
    }
}

/// How long the number at the start is (XPath 1.0, production 30): as long as it can be, and 0 where there is none. It
/// takes one pass over the number.
pub fn number_length(chars: &[char]) -> usize
    ensures within { result ≤ length chars.now }
    ensures spelled { result ≢ 0 → IsNumber (take result chars.now) }
    ensures longest { (w rest : List ℕ) → chars.now ≡ w ++ rest → IsNumber w → length w ≤ result }
{
    number_run(chars)
}

/// How long the literal at the start is, with its quotes (XPath 1.0, production 29); 0 where there is none.
fn literal_length(chars: &[char]) -> usize
    ensures count { result ≡ literal_length chars.now }
    ensures within { result ≤ length chars.now }
{
    match chars {
        [quote, rest @ ..] => {
            if !is_quote(*quote) {
                return 0;
            }
            let count = run_before(*quote, rest);
            if count < rest.len() { count + 2 } else { 0 }
        }
        [] => 0,
    }
}

/// How long the variable reference at the start is (XPath 1.0, production 36); 0 where there is none.
fn variable_length(chars: &[char]) -> usize
    ensures count { result ≡ variable_length chars.now }
    ensures within { result ≤ length chars.now }
{
    match chars {
        ['$', rest @ ..] => {
            let count = qname_length(rest);
            if count == 0 { 0 } else { count + 1 }
        }
        _ => 0,
    }
}

/// How long the longest word at the start is (XPath 1.0, production 28); 0 where there is none.
pub fn word_length(chars: &[char]) -> usize
    ensures count { result ≡ word_length chars.now }
    ensures within { result ≤ length chars.now }
{
    let name = symbol_length(chars).max(qname_length(chars).max(any_in_length(chars)));
    let other = literal_length(chars).max(number_run(chars).max(variable_length(chars)));
    name.max(other)
}
