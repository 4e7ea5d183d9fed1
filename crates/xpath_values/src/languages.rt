//! The test of `lang`: XPath 1.0, section 4.3.

ghost use Rattle.std.specs.Prelude.{◌≡◌};
ghost use Rattle.std.specs.Str.{chars};
ghost use Rattle.xpath_values.specs.Texts.{is_language};
ghost use Rattle.xpath_values.specs.Translating.{agrees, goes_on};

use vtd_text::Chars;
use vtd_words::Words;
use xml_chars::text::step;
use xml_model::Text;
use xml_model::texts::as_str;

/// Whether what follows the name of a language is one of its kinds: nothing, or a hyphen.
fn goes_on<W: Words>(left: Chars<'_, W>) -> bool
    ensures { result ≡ goes_on left.entry }
{
    let mut left = left;
    match left.next() {
        None => true,
        Some(c) => c == '-',
    }
}

/// Whether a value begins with the name of a language and is one of its kinds.
fn agrees<W: Words>(value: Chars<'_, W>, language: &str) -> bool
    ensures { result ≡ agrees value.entry (chars language.now) }
{
    let mut left = value;
    let mut name = language;
    while let Some((c, rest)) = step(name) {
        let Some(d) = left.next() else {
            return false;
        };
        if !d.eq_ignore_ascii_case(&c) {
            return false;
        }
        name = rest;
    }
    goes_on(left)
}

/// Whether a value of `xml:lang` is of a language: it is its name, or begins with it and `-`, the case of ASCII letters
/// aside (XPath 1.0, section 4.3). It takes one pass over as many characters as the name has, and no memory.
pub fn is_language<W: Words>(value: Chars<'_, W>, language: &Text) -> bool
    ensures { result ≡ is_language value.entry language.now }
{
    agrees(value, as_str(language))
}
