//! An element with the declarations that it needs.

ghost use Rattle.std.specs.Prelude.{◌≡◌, IfOk};
ghost use Rattle.xml_model.specs.declared.Kind.TheVariants as kinds;
ghost use Rattle.vtd_words.specs.Table.{ForEachEntry, IsNodeOf, nodes_of};
ghost use Rattle.xml_fragments.specs.Fragment.{cut_of};
ghost use Rattle.vtd_fragment.specs.Document.{IsDocumentWith};

use crate::needed::{push_all, push_all_needed};
use crate::records::range;
use std::alloc::Global;
use vtd_cursor::{name_span, span};
use vtd_location::Nav;
use vtd_words::Words;
use xml_model::{NoMemory, Node};

/// An element as a document of its own: the bytes of its span with, directly after the name in its first tag, a space
/// and each declaration of an element round it that a name of it or in it is bound by (Namespaces in XML 1.0, section
/// 6), those of the outermost element first. The new bytes are an accepted document of at most the old length, whose
/// root element has the same kinds, names and contents, in the same order. It goes once over the records up to the
/// element's end, and once more over those of each element in it that declares a prefix; what it knows of the prefixes
/// round the element is in a map, which it asks once or twice for each name and each declaration.
///
/// # Errors
/// `NoMemory` where the memory for the new bytes, or for what is known of the prefixes, was not to be had.
pub fn cut<W: Words>(alloc: Global, nav: &Nav<'_, W>, node: Node) -> Result<Vec<u8>, NoMemory>
    requires node { IsNodeOf nav.now.bytes (W.lists nav.now.words) node }
    requires element { node.kind ≡ kinds.Element }
    ensures bytes { IfOk result (λ out. ForEachEntry nav.now.bytes (W.lists nav.now.words) node (λ nest e.
        out.items ≡ cut_of nav.now.bytes (nodes_of nav.now.bytes nest) e)) }
    ensures document { IfOk result (λ out. ForEachEntry nav.now.bytes (W.lists nav.now.words) node (λ nest e.
        IsDocumentWith nav.now.bytes nest e out.items)) }
{
    let table = nav.table();
    let bytes = table.bytes();
    let span = span(nav, node);
    let name_end = name_span(nav, node).end;
    let mut out = Vec::new(alloc);
    push_all(&mut out, range(bytes, span.start, name_end))?;
    push_all_needed(alloc, &mut out, table, node)?;
    push_all(&mut out, range(bytes, name_end, span.end))?;
    Ok(out)
}
