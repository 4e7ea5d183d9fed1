//! Whether bytes are an XML document, as far as the widths of records.
#![tactic(auto)]

ghost use Rattle.std.specs.Prelude.{◌≡◌, ◌*◌, ◌^◌, ◌≤◌, ◌<◌, length, IfErr, IfOk, OnOk};
ghost use Rattle.std.specs.Str.{IsCharBoundary, IsUtf8};
ghost use Rattle.xml_model.specs.Items.{first_place};
ghost use Rattle.xml_model.specs.Nest.{Forest};
ghost use Rattle.xml_model.specs.Records.{records};
ghost use Rattle.xml_model.specs.Accepted.{Accepted, IsRefusal, layer};
ghost use Rattle.xml_items.specs.Counted.{IsCountedAt};
ghost use Rattle.xml_acceptance.specs.Passes.{Passes};
ghost use Rattle.xml_acceptance.specs.Verdicts.{CountsLevelsOf};

use crate::findings::Findings;
use crate::nest_so_far::NestSoFar;
use xml_items::{Counted, first_place};
use xml_model::{Counts, DocFault};
use xml_swift::next_counted_swiftly;

/// What a pass over the items has found.
#[derive(Drop)]
struct Pass {
    found: Findings,
    nest: NestSoFar,
}

impl Pass {
    /// Before the first item, which is at `first`.
    fn new(bytes: &[u8], first: u32) -> Pass
        requires size { length bytes.now < 2 ^ 30 }
        requires within { first ≤ length bytes.now }
        requires first { first ≡ first_place bytes.now }
        ensures { Passes bytes.now result first }
    {
        Pass {
            found: Findings::new(bytes, first),
            nest: NestSoFar::new(),
        }
    }

    /// Takes the next item. All that takes it is inlined down to its kind and its spans, so that an item need not be
    /// stored, and the nest, which branches by the kind, comes first.
    fn take(&mut self, bytes: &[u8], counted: Counted)
        requires utf8 { IsUtf8 bytes.now }
        requires size { length bytes.now < 2 ^ 30 }
        requires answered { IsCountedAt bytes.now counted.item.span.start counted }
        requires so_far { Passes bytes.now self.old counted.item.span.start }
        ensures { Passes bytes.now self.new counted.item.span.end }
    {
        self.nest.take(bytes, counted);
        self.found.take(bytes, counted.item);
    }

    /// The answer at the end of the document, by the order of the layers.
    fn answer(&self, bytes: &[u8]) -> Result<Counts, DocFault>
        requires utf8 { IsUtf8 bytes.now }
        requires size { length bytes.now < 2 ^ 30 }
        requires passed { Passes bytes.now self.now (length bytes.now) }
        ensures accepted { OnOk result ((nest : Forest) × Accepted 6 bytes.now nest) }
        ensures records { IfOk result (λ counts. (nest : Forest) → Accepted 6 bytes.now nest →
            counts.records ≡ length (records nest (first_place bytes.now))) }
        ensures half { IfOk result (λ counts. 2 * counts.records ≤ length bytes.now) }
        ensures levels { IfOk result (CountsLevelsOf bytes.now) }
        ensures refused { IfErr result (IsRefusal bytes.now) }
        ensures layers { IfErr result (λ fault. layer fault ≤ 6) }
    {
        if let Some(at) = self.found.entity {
            return Err(DocFault::Entity { at });
        }
        if let Some(at) = self.found.encoding {
            return Err(DocFault::Encoding { at });
        }
        if let Some(fault) = self.nest.fault {
            return Err(fault);
        }
        if !self.nest.tags.is_complete() {
            return Err(DocFault::Nesting {
                at: bytes.len() as u32,
            });
        }
        if let Some((field, at)) = self.nest.wide {
            return Err(DocFault::Width { field, at });
        }
        Ok(Counts {
            records: self.nest.records,
            ..self.nest.levels
        })
    }
}

/// Whether the bytes are UTF-8.
fn check_utf8(bytes: &[u8]) -> Result<(), DocFault>
    requires { length bytes.now < 2 ^ 30 }
    ensures ok { OnOk result (IsUtf8 bytes.now) }
    ensures refused { IfErr result (IsRefusal bytes.now) }
    ensures layers { IfErr result (λ fault. layer fault ≤ 6) }
{
    match simdutf8::compat::from_utf8(bytes) {
        Ok(_) => Ok(()),
        Err(error) => Err(DocFault::Utf8 {
            at: error.valid_up_to() as u32,
        }),
    }
}

/// Passes over the items of UTF-8 bytes, from the first to the end.
fn pass_over(bytes: &[u8]) -> Result<Pass, DocFault>
    requires utf8 { IsUtf8 bytes.now }
    requires size { length bytes.now < 2 ^ 30 }
    ensures passed { IfOk result (λ pass. Passes bytes.now pass (length bytes.now)) }
    ensures refused { IfErr result (IsRefusal bytes.now) }
    ensures layers { IfErr result (λ fault. layer fault ≤ 6) }
{
    let mut at = first_place(bytes);
    let mut pass = Pass::new(bytes, at);
    'items: loop {
        match next_counted_swiftly(bytes, at) {
            Ok(Some(counted)) => {
                pass.take(bytes, counted);
                at = counted.item.span.end;
            }
            Ok(None) => return Ok(pass),
            Err(_) => return Err(DocFault::Syntax { at }),
        }
    }
}

/// Whether bytes are an XML document as far as the widths of its records: UTF-8, whole items, known entities, a known
/// encoding, items that nest, records with room for their tokens. It takes no memory. The counts are those of its
/// records and of the elements of its levels.
///
/// # Errors
/// The one refusal of the bytes, where it is of these layers: the first of them that refuses, over the whole document,
/// with its place.
pub fn check(bytes: &[u8]) -> Result<Counts, DocFault>
    requires size { length bytes.now < 2 ^ 30 }
    ensures accepted { OnOk result ((nest : Forest) × Accepted 6 bytes.now nest) }
    ensures records { IfOk result (λ counts. (nest : Forest) → Accepted 6 bytes.now nest →
        counts.records ≡ length (records nest (first_place bytes.now))) }
    ensures half { IfOk result (λ counts. 2 * counts.records ≤ length bytes.now) }
    ensures levels { IfOk result (CountsLevelsOf bytes.now) }
    ensures refused { IfErr result (IsRefusal bytes.now) }
    ensures layers { IfErr result (λ fault. layer fault ≤ 6) }
{
    check_utf8(bytes)?;
    let pass = pass_over(bytes)?;
    pass.answer(bytes)
}
