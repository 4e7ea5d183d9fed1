//! Laws of index files. Each function does nothing; its contract is the law, which the check proves. Other crates cite
//! the lemmas of `proofs/Verdicts.antt`, which say the same.

ghost use Rattle.vtd_index.specs.Laws.{NotBoth, OneDocument, OneFault, OneIndex, OneVersion, PrefixesRefused};
ghost use Rattle.vtd_index.specs.Laws.{SomeAnswer, SomeIndex};

/// Each document that no check refuses, of fewer than 2 to the power 30 bytes, has an index file of each version.
pub fn some_index()
    ensures { SomeIndex }
{}

/// A document has one index file alone of each version.
pub fn one_index()
    ensures { OneIndex }
{}

/// The index file of one document, of either version, is that of no other.
pub fn one_document()
    ensures { OneDocument }
{}

/// No file is an index file of both versions.
pub fn one_version()
    ensures { OneVersion }
{}

/// No file is an index file and has a fault.
pub fn not_both()
    ensures { NotBoth }
{}

/// A file has at most one fault: one variant, with one refusal and one place.
pub fn one_fault()
    ensures { OneFault }
{}

/// Each file is the index file of a document or has a fault.
pub fn some_answer()
    ensures { SomeAnswer }
{}

/// What is left of an index file that is cut off is Short below 40 bytes, of the first version below 32, and else has the
/// wrong size.
pub fn prefixes_refused()
    ensures { PrefixesRefused }
{}
