//! Which attributes come.
#![tactic(auto)]

ghost use Rattle.std.specs.Prelude.{◌≡◌, ◌<◌, ◌^◌, true, length};
ghost use Rattle.std.specs.Str.{IsUtf8};
ghost use Rattle.xml_model.specs.Items.{Item as ModelItem, begins_at};
ghost use Rattle.xml_items.specs.Shown.{IsItemAt, item_shown};
ghost use Rattle.xml_items.specs.AttributeList.{attributes_left, attributes_shown, item_attributes, has_attributes};

use crate::attributes::Attributes;
use crate::spans::span_between;
use crate::tags::bare_attribute_of;
use crate::{AttributeItem, Item};
use xml_chars::names::begins_name;
use xml_chars::text::{space_of, text_at};

impl<'a> Attributes<'a> {
    /// The attributes of an item that is a tag or an XML declaration and that `next_item` answers at the start of its
    /// span. An end tag has none.
    #[inline(always)]
    pub fn of(bytes: &'a [u8], item: Item) -> Attributes<'a>
        requires utf8 { IsUtf8 bytes.now }
        requires size { length bytes.now < 2 ^ 32 }
        requires kind { has_attributes item.kind ≡ true }
        requires answered { IsItemAt bytes.now item.span.start item }
        ensures { (i : ModelItem) → begins_at bytes.now item.span.start i ≡ true →
            item ≡ item_shown item.span.start i →
            attributes_left result ≡ attributes_shown item.content.start (item_attributes i) }
    {
        Attributes {
            rest: text_at(bytes, item.content.start),
            at: item.content.start,
        }
    }
}

impl<'a> Iterator for Attributes<'a> {
    type Item = AttributeItem;

    ghost use Rattle.std.specs.Iterator.{YieldsFirst, item_count};
    ghost use Rattle.xml_items.specs.AttributeList.{attributes_left};

    ghost next_gives = { YieldsFirst attributes_left };

    ghost remaining = { item_count attributes_left };

    fn next(&mut self) -> Option<AttributeItem> {
        let text = self.rest;
        let (_, bare) = space_of(text);
        if !begins_name(bare) {
            return None;
        }
        let attribute = bare_attribute_of(bare)?;
        let item = AttributeItem {
            name: span_between(self.at, text, attribute.after_space, attribute.after_name),
            value: span_between(self.at, text, attribute.value, attribute.after_value),
        };
        self.at += (text.len() - attribute.rest.len()) as u32;
        self.rest = attribute.rest;
        Some(item)
    }
}
