//! Other bytes in the place of a range of a document.

ghost use Rattle.std.specs.Prelude.{◌≡◌, ◌+◌, ◌<◌, ◌≤◌, ◌^◌, ◌++◌, length, IfErr, IfOk, OnOk, OnErr};
ghost use Rattle.xml_model.specs.declared.DocFault.{DocFault};
ghost use Rattle.xml_model.specs.Accepted.{IsRefusal};
ghost use Rattle.vtd_history.specs.Versions.{IsAcceptedDocument};
ghost use Rattle.vtd_history.specs.Steps.{range, with_range};

use std::alloc::Global;
use vtd_builder::{BuildFault, Doc, build};
use xml_model::{Bytes, NoMemory};

/// A range of a document, up to `end`, which is left out, and bytes for it. Places count bytes.
#[derive(Drop)]
pub struct Segment {
    pub start: u32,
    pub end: u32,
    pub bytes: Bytes,
}

/// Appends bytes.
fn append(out: &mut Vec<u8>, bytes: &[u8]) -> Result<(), NoMemory>
    ensures { OnOk result (out.new.items ≡ out.old.items ++ bytes.now) }
{
    if out.extend_from_slice(bytes).is_err() {
        return Err(NoMemory);
    }
    Ok(())
}

/// The bytes with others in the place of a range.
fn joined(
    alloc: Global,
    bytes: &[u8],
    start: usize,
    end: usize,
    new: &[u8],
) -> Result<Vec<u8>, NoMemory>
    requires start { start ≤ end }
    requires end { end ≤ length bytes.now }
    ensures { IfOk result (λ out. out.items ≡ with_range start end new.now bytes.now) }
{
    let mut out = Vec::new(alloc);
    append(&mut out, &bytes[..start])?;
    append(&mut out, new)?;
    append(&mut out, &bytes[end..])?;
    Ok(out)
}

/// The bytes of a range.
fn copied(alloc: Global, bytes: &[u8], start: usize, end: usize) -> Result<Bytes, NoMemory>
    requires start { start ≤ end }
    requires end { end ≤ length bytes.now }
    ensures { IfOk result (λ copy. copy ≡ range start end bytes.now) }
{
    let mut held = Vec::new(alloc);
    append(&mut held, &bytes[start..end])?;
    Ok(Bytes { held })
}

/// Puts the segment's bytes in the place of its range of the document, and the old bytes into the segment, whose range
/// is then that of what was put in. The range is within the document. The new document is built anew, so this takes the
/// time and the memory of one `build`.
///
/// # Errors
/// `Doc` only with the refusal of the new bytes; `NoMemory` may come in place of any other answer. Document and segment
/// are as before with each fault.
pub fn try_exchange(
    alloc: Global,
    document: &mut Doc,
    segment: &mut Segment,
) -> Result<(), BuildFault>
    requires start { segment.old.start ≤ segment.old.end }
    requires end { segment.old.end ≤ length document.old.bytes }
    requires few { length (with_range segment.old.start segment.old.end segment.old.bytes document.old.bytes) < 2 ^ 30 }
    ensures document { OnOk result (document.new.bytes
        ≡ with_range segment.old.start segment.old.end segment.old.bytes document.old.bytes) }
    ensures start { OnOk result (segment.new.start ≡ segment.old.start) }
    ensures end { OnOk result (segment.new.end ≡ segment.old.start + length segment.old.bytes) }
    ensures bytes { OnOk result
        (segment.new.bytes ≡ range segment.old.start segment.old.end document.old.bytes) }
    ensures refused { IfErr result (λ e. (fault : DocFault) → e ≡ BuildFault.Doc fault → IsRefusal
        (with_range segment.old.start segment.old.end segment.old.bytes document.old.bytes) fault) }
    ensures document_stays { OnErr result (document.new ≡ document.old) }
    ensures segment_stays { OnErr result (segment.new ≡ segment.old) }
{
    let start = segment.start as usize;
    let end = segment.end as usize;
    let new = segment.bytes.held.as_slice();
    let Ok(bytes) = joined(alloc, document.bytes(), start, end, new) else {
        return Err(BuildFault::NoMemory);
    };
    let Ok(old) = copied(alloc, document.bytes(), start, end) else {
        return Err(BuildFault::NoMemory);
    };
    match build(alloc, bytes) {
        Ok(built) => {
            segment.end = segment.start + segment.bytes.held.len() as u32;
            segment.bytes = old;
            *document = built;
            Ok(())
        }
        Err((_, fault)) => Err(fault),
    }
}

/// Does what `try_exchange` does, where what results is a document that no check refuses.
///
/// # Errors
/// `NoMemory`; document and segment are as before then.
pub fn exchange(alloc: Global, document: &mut Doc, segment: &mut Segment) -> Result<(), NoMemory>
    requires start { segment.old.start ≤ segment.old.end }
    requires end { segment.old.end ≤ length document.old.bytes }
    requires accepted { IsAcceptedDocument
        (with_range segment.old.start segment.old.end segment.old.bytes document.old.bytes) }
    ensures document { OnOk result (document.new.bytes
        ≡ with_range segment.old.start segment.old.end segment.old.bytes document.old.bytes) }
    ensures start { OnOk result (segment.new.start ≡ segment.old.start) }
    ensures end { OnOk result (segment.new.end ≡ segment.old.start + length segment.old.bytes) }
    ensures bytes { OnOk result
        (segment.new.bytes ≡ range segment.old.start segment.old.end document.old.bytes) }
    ensures document_stays { OnErr result (document.new ≡ document.old) }
    ensures segment_stays { OnErr result (segment.new ≡ segment.old) }
{
    match try_exchange(alloc, document, segment) {
        Ok(()) => Ok(()),
        Err(BuildFault::NoMemory) => Err(NoMemory),
        Err(BuildFault::Doc(_)) => unreachable!(),
    }
}
