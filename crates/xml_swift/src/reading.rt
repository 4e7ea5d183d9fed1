//! The reader of items by the swift one, and by the reader of all items where that gives up.

ghost use Rattle.std.specs.Prelude.{◌≡◌, ◌<◌, ◌^◌, ◌↔◌, length, IfSome, IfOk, IfErr};
ghost use Rattle.std.specs.Str.{IsUtf8, IsCharBoundary};
ghost use Rattle.xml_items.specs.Shown.{HasTextSpans, HasNoItem};
ghost use Rattle.xml_items.specs.Counted.{IsCountedAt};

use crate::items::common_item;
use xml_items::{Counted, ItemFault, next_counted};

/// The item that begins at the place, with the number of its attributes, where it is of a common form; None says nothing.
#[inline(always)]
pub fn swift(bytes: &[u8], at: u32) -> Option<Counted>
    requires utf8 { IsUtf8 bytes.now }
    requires place { IsCharBoundary bytes.now at }
    requires size { length bytes.now < 2 ^ 32 }
    ensures item { IfSome result (IsCountedAt bytes.now at) }
    ensures start { IfSome result (λ counted. counted.item.span.start ≡ at) }
    ensures before { IfSome result (λ _. at < length bytes.now) }
    ensures place { IfSome result (λ counted. IsCharBoundary bytes.now counted.item.span.end) }
    ensures spans { IfSome result (λ counted. HasTextSpans bytes.now counted.item) }
{
    common_item(bytes, at as usize)
}

/// `next_counted`, out of line.
#[inline(never)]
fn any_item(bytes: &[u8], at: u32) -> Result<Option<Counted>, ItemFault>
    requires utf8 { IsUtf8 bytes.now }
    requires place { IsCharBoundary bytes.now at }
    requires size { length bytes.now < 2 ^ 32 }
    ensures end { (result ≡ Ok None) ↔ (at ≡ length bytes.now) }
    ensures item { IfOk result (λ found. IfSome found (IsCountedAt bytes.now at)) }
    ensures start { IfOk result (λ found. IfSome found (λ counted. counted.item.span.start ≡ at)) }
    ensures fault { IfErr result (λ _. (at < length bytes.now) × HasNoItem bytes.now at) }
    ensures place { IfOk result (λ found. IfSome found (λ counted. IsCharBoundary bytes.now counted.item.span.end)) }
    ensures spans { IfOk result (λ found. IfSome found (λ counted. HasTextSpans bytes.now counted.item)) }
{
    next_counted(bytes, at)
}

/// The item that begins at the place, with the number of its attributes: what `next_counted` of `xml_items` answers, which is
/// asked only where the item is of no common form.
#[inline(always)]
pub fn next_counted_swiftly(bytes: &[u8], at: u32) -> Result<Option<Counted>, ItemFault>
    requires utf8 { IsUtf8 bytes.now }
    requires place { IsCharBoundary bytes.now at }
    requires size { length bytes.now < 2 ^ 32 }
    ensures end { (result ≡ Ok None) ↔ (at ≡ length bytes.now) }
    ensures item { IfOk result (λ found. IfSome found (IsCountedAt bytes.now at)) }
    ensures start { IfOk result (λ found. IfSome found (λ counted. counted.item.span.start ≡ at)) }
    ensures fault { IfErr result (λ _. (at < length bytes.now) × HasNoItem bytes.now at) }
    ensures place { IfOk result (λ found. IfSome found (λ counted. IsCharBoundary bytes.now counted.item.span.end)) }
    ensures spans { IfOk result (λ found. IfSome found (λ counted. HasTextSpans bytes.now counted.item)) }
{
    match swift(bytes, at) {
        Some(counted) => Ok(Some(counted)),
        None => any_item(bytes, at),
    }
}
