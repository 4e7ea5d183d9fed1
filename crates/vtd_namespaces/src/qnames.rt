//! Qualified names (Namespaces in XML 1.0, productions 7 to 11), by their bytes.

ghost use Rattle.std.specs.Prelude.{◌≡◌, ℕ, ◌≢◌, List, encode_utf8_all, true};
ghost use Rattle.xml_model.specs.Chars.{after_colon, is_name, is_ncname, is_qname, prefix_of, local_of, has_colon};
ghost use Rattle.xml_model.specs.Chars.{size};

use crate::records::{after, prefix};
use std::str::from_utf8;
use xml_chars::is_ncname;

/// The prefix of a name, by its length.
pub fn prefix_of(name: &[u8], prefix_len: u32) -> &[u8]
    ensures { (cs : List ℕ) → name.now ≡ encode_utf8_all cs → prefix_len ≡ size (prefix_of cs) →
        result.now ≡ encode_utf8_all (prefix_of cs) }
{
    prefix(name, prefix_len)
}

/// What follows the first colon of a name that has a prefix.
pub fn after_prefix(name: &[u8], prefix_len: u32) -> &[u8]
    ensures { (cs : List ℕ) → name.now ≡ encode_utf8_all cs → prefix_len ≡ size (prefix_of cs) → prefix_len ≢ 0 →
        result.now ≡ encode_utf8_all (after_colon cs) }
{
    after(after(name, prefix_len), 1)
}

/// Whether what follows a colon in a name is an NCName (Namespaces in XML 1.0, production 4).
fn is_local_part(text: &[u8]) -> bool
    ensures { (cs : List ℕ) → is_name cs ≡ true → text.now ≡ encode_utf8_all (after_colon cs) →
        result ≡ is_ncname (after_colon cs) }
{
    match from_utf8(text) {
        Ok(text) => is_ncname(text),
        Err(_) => false,
    }
}

/// Whether a name, whose prefix has a length, is a QName (Namespaces in XML 1.0, production 7).
pub fn is_qname(name: &[u8], prefix_len: u32) -> bool
    ensures { (cs : List ℕ) → is_name cs ≡ true → name.now ≡ encode_utf8_all cs → prefix_len ≡ size (prefix_of cs) →
        result ≡ is_qname cs }
{
    if prefix_len > 0 {
        return is_local_part(after_prefix(name, prefix_len));
    }
    name.is_empty() || name[0] != b':'
}

/// Whether a name has a colon.
pub fn has_colon(name: &[u8]) -> bool
    ensures { (cs : List ℕ) → name.now ≡ encode_utf8_all cs → result ≡ has_colon cs }
{
    name.contains(&b':')
}

/// The local part of a name, whose prefix has a length: what follows the first colon, or the whole.
pub fn local_of(name: &[u8], prefix_len: u32) -> &[u8]
    ensures { (cs : List ℕ) → is_name cs ≡ true → name.now ≡ encode_utf8_all cs → prefix_len ≡ size (prefix_of cs) →
        result.now ≡ encode_utf8_all (local_of cs) }
{
    if prefix_len > 0 {
        return after_prefix(name, prefix_len);
    }
    if is_qname(name, prefix_len) {
        return name;
    }
    after(name, 1)
}
