//! Texts (XML 1.0, production 14, with references).
#![tactic(auto)]

ghost use Rattle.std.specs.Prelude.{◌≡◌, ◌<◌, ◌+◌, ◌^◌, length, option_map};
ghost use Rattle.std.specs.Str.{chars};
ghost use Rattle.xml_items.specs.Reading.{read_text};
ghost use Rattle.xml_items.specs.Shown.{item_shown};

use crate::pieces::{after_pieces, ends_text};
use crate::spans::span_between;
use crate::{Item, ItemKind};

/// The text at the start of a text that begins at the place: to the next `<` or the end.
#[inline(always)]
pub fn text_item_at(text: &str, at: u32) -> Option<Item>
    requires { at + length text.now < 2 ^ 32 }
    ensures { result ≡ option_map (λ p. item_shown at p.0) (read_text (chars text.now)) }
{
    let rest = after_pieces(text)?;
    if rest.len() == text.len() {
        return None;
    }
    if !ends_text(rest) {
        return None;
    }
    Some(Item {
        kind: ItemKind::Text,
        span: span_between(at, text, text, rest),
        name: span_between(at, text, text, text),
        content: span_between(at, text, text, rest),
    })
}
