//! Comparing the URIs of expanded names (Namespaces in XML 1.0, section 2.1): by their code points.

ghost use Rattle.std.specs.Prelude.{◌≡◌, [], bytes_eq};
ghost use Rattle.std.specs.Option.{unwrap_or};
ghost use Rattle.std.specs.Str.{chars};
ghost use Rattle.vtd_namespaces.specs.Reach.{same_uri};
ghost use Rattle.vtd_namespaces.specs.Uris.{uri_value};

use crate::uri::{Uri, XML_URI};
use vtd_text::{equals, equals_str};
use vtd_words::Words;

/// Whether two URIs are one, or both none.
pub fn same_uri<W: Words>(one: Uri<'_, W>, other: Uri<'_, W>) -> bool
    ensures { result ≡ same_uri (uri_value one.entry) (uri_value other.entry) }
{
    match (one, other) {
        (Uri::None, Uri::None) => true,
        (Uri::Xml, Uri::Xml) => true,
        (Uri::Declared(one), Uri::Declared(other)) => equals(one, other),
        (Uri::Declared(chars), Uri::Xml) => equals_str(chars, XML_URI),
        (Uri::Xml, Uri::Declared(chars)) => equals_str(chars, XML_URI),
        _ => false,
    }
}

/// Whether a URI is a text; the empty text stands for none (XPath 1.0, section 2.3).
pub fn is_uri<W: Words>(uri: Uri<'_, W>, text: &str) -> bool
    ensures { result ≡ bytes_eq (unwrap_or (uri_value uri.entry) []) (chars text.now) }
{
    match uri {
        Uri::None => text.is_empty(),
        Uri::Xml => text == XML_URI,
        Uri::Declared(chars) => equals_str(chars, text),
    }
}
