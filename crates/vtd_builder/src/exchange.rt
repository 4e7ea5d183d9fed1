//! Bytes in the place of others, for which there is room.

ghost use Rattle.std.specs.Prelude.{◌≡◌, ℕ, ◌+◌, ◌-◌, ◌^◌, ◌<◌, ◌≤◌, ◌++◌, List, length, take, drop};
ghost use Rattle.std.specs.Prelude.{vec_len, vec_capacity, replicate};
ghost use Rattle.vtd_builder.specs.Exchanges.{growth, with_range};

/// Appends zeros, for which there is room.
fn grow(items: &mut Vec<u8>, count: usize)
    requires { vec_len items.old + count ≤ vec_capacity items.old }
    ensures items { items.new.items ≡ items.old.items ++ replicate count 0 }
    ensures capacity { vec_capacity items.old ≤ vec_capacity items.new }
{
    for _ in 0..count {
        if items.push(0).is_err() {
            unreachable!()
        }
    }
}

/// Puts other bytes for those from `start` to `end`; there is room for the growth.
pub(crate) fn put(items: &mut Vec<u8>, start: usize, end: usize, new: &[u8])
    requires start { start ≤ end }
    requires end { end ≤ vec_len items.old }
    requires room { vec_len items.old - (end - start) + length new.now ≤ vec_capacity items.old }
    ensures { items.new.items ≡ with_range start end new.now items.old.items }
{
    let len = items.len();
    if new.len() > end - start {
        grow(items, new.len() - (end - start));
    }
    items.copy_within(end..len, start + new.len());
    items.truncate(len - (end - start) + new.len());
    items[start..start + new.len()].copy_from_slice(new);
}

/// By how much a count grows.
pub(crate) fn growth(new: usize, old: u32) -> i64
    requires { new < 2 ^ 63 }
    ensures { result ≡ growth new old }
{
    new as i64 - i64::from(old)
}
