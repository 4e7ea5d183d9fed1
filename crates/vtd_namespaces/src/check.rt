//! The check of a document's names (XML 1.0, section 3.1, and Namespaces in XML 1.0).

ghost use Rattle.std.specs.Prelude.{◌≡◌, ◌≤◌, OnOk, IfErr};
ghost use Rattle.xml_model.specs.Nest.{Forest};
ghost use Rattle.xml_model.specs.Accepted.{layer, Accepted, IsRefusal};
ghost use Rattle.vtd_words.specs.Table.{IsNestOf};

use crate::repeats::first_repeat;
use crate::walk::first_offence;
use vtd_words::{Table, Words};
use xml_model::DocFault;

/// Whether the names of a document are accepted: no name of an attribute or a declaration repeats an earlier one of its
/// tag, or else `Twice` at the first that does, and then no name offends Namespaces in XML 1.0, or else `Namespace` at
/// the first that does, in the order of the records. A `Namespace` comes only where in no tag a name repeats an earlier
/// one. It takes no memory. It reads each record three times. The names of a tag are compared pairwise up to 64 of them;
/// more are sorted in rounds of 1,024, or of 16,384 where there are more than that, and k names in r rounds cost at most
/// 8 * k * (r + 1) comparisons besides the sorts, whatever they are, with 24 or 384 KiB of stack. For each prefix it
/// reads the names of the open tags that may declare it once, as long as 8,192 notes of prefixes have room. In a tag of
/// more than 64 names with a prefix among the later ones, the prefixes of 8,192 names at a time are sought together, in
/// sorted rounds of 2,048 of what the open tags declare: k names in r rounds cost at most 13 * k * r comparisons
/// besides the sorts.
pub fn check_names<W: Words>(table: &Table<'_, W>) -> Result<(), DocFault>
    ensures accepted { OnOk result ((nest : Forest) → IsNestOf table.now.bytes (W.lists table.now.words) nest →
        Accepted 8 table.now.bytes nest) }
    ensures layer { IfErr result (λ fault. 7 ≤ layer fault) }
    ensures refused { IfErr result (IsRefusal table.now.bytes) }
{
    if let Some(at) = first_repeat(table.bytes(), table.words()) {
        return Err(DocFault::Twice { at });
    }
    if let Some(at) = first_offence(table) {
        return Err(DocFault::Namespace { at });
    }
    Ok(())
}
