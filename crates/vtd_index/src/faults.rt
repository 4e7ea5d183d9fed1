//! What is wrong with an index file.

use xml_model::DocFault;

/// Why a file is no index file. The faults are tried in this order, but `Doc` is tried in two parts: a refusal by
/// layers 1 to 6 before `Records`, one by layers 7 and 8 after it.
#[derive(Clone, Copy, Debug, PartialEq, Eq)]
pub enum IndexFault {
    /// The file has fewer than 32 bytes, or begins with `VTDIDX02` and has fewer than 40.
    Short,
    /// The file begins neither with `VTDIDX01` nor with `VTDIDX02`.
    Magic,
    /// The parts by their lengths do not fill the file, or the document has more than 1,073,741,823 bytes.
    Size,
    /// A byte of the file that is to be zero is not: the place of the first one, in bytes of the file.
    Padding { at: u32 },
    /// The document is refused.
    Doc(DocFault),
    /// The stored records are not those of the document: the first that differs, is missing or is surplus.
    Records { at: u32 },
    /// The stored levels are not those that the file's version has for the records: the first level that differs, and in
    /// it the first entry that differs, is missing or is surplus.
    Caches { level: u8, at: u32 },
}
