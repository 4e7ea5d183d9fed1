//! Where the parts of a node are, in bytes.

use vtd_cursor::Tags;
use xml_model::Span;

/// What a node is, and where its parts are.
#[derive(Clone, Copy)]
pub(crate) enum Part {
    Root,
    Element {
        span: Span,
        tags: Tags,
    },
    /// `before` is where the white space before it begins.
    Attribute {
        before: u32,
        span: Span,
        name: Span,
        value: Span,
        quote: u8,
    },
    Text {
        span: Span,
    },
    Comment {
        span: Span,
    },
    Instruction {
        span: Span,
        target: Span,
    },
}
