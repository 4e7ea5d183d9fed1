//! The URI of an expanded name (Namespaces in XML 1.0, section 2.1).

use vtd_text::Chars;
use vtd_words::Words;

/// The URI to which the prefix `xml` is bound for ever (Namespaces in XML 1.0, section 3).
pub const XML_URI: &str = "http://www.w3.org/XML/1998/namespace";

/// The URI to which the prefix `xmlns` is bound for ever (Namespaces in XML 1.0, section 3).
pub const XMLNS_URI: &str = "http://www.w3.org/2000/xmlns/";

/// The URI of an expanded name: none, the one to which `xml` is bound, or the value of a declaration, as its code
/// points.
#[derive(Drop)]
pub enum Uri<'a, W: Words> {
    None,
    Xml,
    Declared(Chars<'a, W>),
}
