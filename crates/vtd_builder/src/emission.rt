//! The records of an accepted document, handed over in order.

ghost use Rattle.std.specs.Prelude.{◌≡◌, ℕ, ◌+◌, ◌<◌, ◌≤◌, ◌^◌, ◌++◌, ◌↔◌, length, take, Err, IfErr, OnOk};
ghost use Rattle.xml_model.specs.Items.{first_place};
ghost use Rattle.xml_model.specs.Nest.{Forest};
ghost use Rattle.xml_model.specs.Accepted.{Accepted};
ghost use Rattle.vtd_builder.specs.Offered.{IsFirstRefused, offer, outcome, record_words};

use crate::offers::{offer, offer_item};
use crate::sink::RecordSink;
use vtd_words::Parts;
use xml_items::first_place;
use xml_model::TokenKind;

/// The record of the document, which comes first.
const DOCUMENT: Parts = Parts {
    token: TokenKind::Document as u8,
    depth: 255,
    prefix: 0,
    length: 0,
    offset: 0,
};

/// Offers all records, and answers how many there are, or the number of the record that the sink refused.
fn offer_records<R: RecordSink>(bytes: &[u8], into: &mut R) -> Result<u32, u32>
    requires size { length bytes.now < 2 ^ 30 }
    requires accepted { (nest : Forest) × Accepted 6 bytes.now nest }
    ensures outcome { (nest : Forest) → Accepted 6 bytes.now nest →
        outcome (R.taken into.new) result
        ≡ offer (R.refuses into.old) (R.taken into.old) 0 (record_words bytes.now nest) }
    ensures rest { R.rest into.new ≡ R.rest into.old }
    ensures test { R.refuses into.new ≡ R.refuses into.old }
{
    let mut count = offer(DOCUMENT, 0, into)?;
    let mut level = 0;
    let mut at = first_place(bytes);
    while (at as usize) < bytes.len() {
        let passed = offer_item(bytes, at, level, count, into)?;
        count = passed.count;
        level = passed.level;
        at = passed.at;
    }
    Ok(count)
}

/// Hands over the words of all records of an accepted document, in order. It takes no memory.
///
/// # Errors
/// `Err(k)` exactly where the sink refuses record k, after what it had taken and the records before k; these were then
/// taken.
pub fn emit<R: RecordSink>(bytes: &[u8], into: &mut R) -> Result<(), u32>
    requires size { length bytes.now < 2 ^ 30 }
    requires accepted { (nest : Forest) × Accepted 6 bytes.now nest }
    ensures refused { (nest : Forest) → Accepted 6 bytes.now nest →
        (k : ℕ) → (result ≡ Err k)
        ↔ IsFirstRefused (R.refuses into.old) (R.taken into.old) (record_words bytes.now nest) k }
    ensures taken_before { (nest : Forest) → Accepted 6 bytes.now nest →
        IfErr result (λ k. R.taken into.new ≡ R.taken into.old ++ take k (record_words bytes.now nest)) }
    ensures taken { (nest : Forest) → Accepted 6 bytes.now nest →
        OnOk result (R.taken into.new ≡ R.taken into.old ++ record_words bytes.now nest) }
    ensures rest { R.rest into.new ≡ R.rest into.old }
    ensures test { R.refuses into.new ≡ R.refuses into.old }
{
    offer_records(bytes, into)?;
    Ok(())
}
