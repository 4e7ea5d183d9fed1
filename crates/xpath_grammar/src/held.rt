//! Maps from prefixes to URIs.

ghost use Rattle.std.specs.Prelude.{◌≡◌, OnOk, OnErr, option_map};
ghost use Rattle.std.specs.Str.{chars};
ghost use Rattle.xpath_grammar.specs.Bindings.{lookup, can_bind, bound_in};
ghost use Rattle.xpath_grammar.specs.Held.{shown};

use std::alloc::{AllocError, Global};
use std::collections::BTreeMap;
use xml_chars::is_ncname;
use xml_model::Text;
use xml_model::texts::{as_str, is_empty, make_text, same_str};

/// Whether a prefix may be bound to a URI: a name without a colon other than `xml` and `xmlns`, to a URI that is not
/// empty.
pub fn can_bind(prefix: &str, uri: &str) -> bool
    ensures { result ≡ can_bind (chars prefix.now) (chars uri.now) }
{
    is_ncname(prefix) && !same_str("xml", prefix) && !same_str("xmlns", prefix) && !is_empty(uri)
}

/// The URI that a prefix was bound to.
pub fn find<'a>(held: &'a BTreeMap<String, Text>, prefix: &str) -> Option<&'a str>
    ensures { option_map (λ uri. chars uri.now) result ≡ lookup (shown held.now.entries) (chars prefix.now) }
{
    match held.get(prefix) {
        Some(uri) => Some(as_str(uri)),
        None => None,
    }
}

/// Binds a prefix to a URI, in place of an earlier binding.
///
/// # Errors
/// Where memory was not to be had; the map is then unchanged.
pub fn put(
    alloc: Global,
    held: &mut BTreeMap<String, Text>,
    prefix: &str,
    uri: &str,
) -> Result<(), AllocError>
    ensures bound { OnOk result (
        shown held.new.entries ≡ bound_in (shown held.old.entries) (chars prefix.now) (chars uri.now)) }
    ensures unchanged { OnErr result (held.new.entries ≡ held.old.entries) }
{
    let key = String::from_str(alloc, prefix)?;
    let text = make_text(alloc, uri)?;
    held.insert(key, text)?;
    Ok(())
}
