//! Operations on nodes, and why they are refused.

/// What is done to nodes. Texts are raw markup, but for that of `Set`, which is escaped; `Rename` takes a QName.
#[derive(Clone, Copy)]
pub enum Operation<'t> {
    /// The node goes; an attribute with the white space before it.
    Remove,
    /// The text takes the place of the node.
    Replace(&'t str),
    /// The text is put in before the node.
    Before(&'t str),
    /// The text is put in after the node.
    After(&'t str),
    /// The text is put in as the first thing in an element.
    First(&'t str),
    /// The text is put in as the last thing in an element.
    Last(&'t str),
    /// The text is put in after the name in an element's first tag, with a space before it.
    Attr(&'t str),
    /// The node says the text: the value of an attribute, a text, what is in an element.
    Set(&'t str),
    /// The element, attribute or instruction gets the name.
    Rename(&'t str),
}

/// Why an operation on nodes is refused.
#[derive(Clone, Copy, Debug, PartialEq, Eq)]
pub enum EditFault {
    /// The new name is no QName (Namespaces in XML 1.0, production 7).
    Name,
    /// The operation does not take the kind of a node; `at` is where the first such node begins, in bytes.
    Kind { at: u32 },
    /// Memory was not to be had.
    NoMemory,
}
