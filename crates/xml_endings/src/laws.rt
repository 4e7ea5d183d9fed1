//! Laws over the definitions. Each function does nothing; its contract is the law, which the check proves.

ghost use Rattle.xml_endings.specs.Endings.{CutShort};

/// A document that ends before its root element does is refused: for not being UTF-8, for its syntax, or for its
/// nesting at the place where it ends.
pub fn cut_short()
    ensures { CutShort }
{}
