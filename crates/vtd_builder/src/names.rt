//! What a record says of a name: how long its prefix is, and whether it declares a namespace (Namespaces in XML 1.0,
//! productions 1 to 3 and 7 to 10). A colon is one byte, and so is each letter of `xmlns`: all is known by the bytes.

ghost use Rattle.std.specs.Prelude.{◌≡◌, ◌≤◌, ◌==◌, length, position};
ghost use Rattle.xml_model.specs.Chars.{prefix_of};
ghost use Rattle.xml_model.specs.Records.{declares, name_token};

use xml_model::TokenKind;

/// The place of the first colon.
#[inline(always)]
fn first_colon(name: &[u8]) -> Option<usize>
    ensures { result ≡ position (λ b. b == 58) name.now }
{
    name.iter().position(|b| *b == b':')
}

/// How many bytes are before the first colon; 0 where there is no colon.
#[inline(always)]
pub fn prefix_len(name: &[u8]) -> usize
    ensures value { result ≡ length (prefix_of name.now) }
    ensures within { result ≤ length name.now }
{
    first_colon(name).unwrap_or(0)
}

/// Whether the name declares a namespace: it is `xmlns` or begins with `xmlns:`.
#[inline(always)]
fn declares(name: &[u8]) -> bool
    ensures { result ≡ declares name.now }
{
    name == b"xmlns".as_slice() || name.starts_with(b"xmlns:")
}

/// The kind of the record of an attribute's name, by whether it declares a namespace.
#[inline(always)]
pub fn name_token(name: &[u8]) -> u8
    ensures { result ≡ name_token name.now }
{
    if declares(name) {
        TokenKind::NamespaceName as u8
    } else {
        TokenKind::AttributeName as u8
    }
}
