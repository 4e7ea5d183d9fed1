//! The attributes of a tag, or the parts of the XML declaration, one after another.
#![tactic(auto)]

mod list;

ghost use Rattle.std.specs.Prelude.{◌≡◌, ◌<◌, ◌+◌, ◌^◌, true, length, is_some};
ghost use Rattle.std.specs.Str.{chars};
ghost use Rattle.xml_items.specs.Reading.{read_attributes};

/// The attributes of a tag, or the parts of the XML declaration, in their order.
#[derive(Drop)]
pub struct Attributes<'a> {
    rest: &'a str,
    at: u32,
    ghost read: { is_some (read_attributes (chars rest.now)) ≡ true },
    ghost room: { at + length rest.now < 2 ^ 32 },
}
