//! The document and the script of a generated run, which measures and shows the program without a file.
#![tactic(auto)]

ghost use Rattle.std.specs.Prelude.{◌≡◌, ℕ, ◌+◌, ◌-◌, ◌*◌, ◌^◌, ◌%◌, ◌<◌, ◌≤◌, ◌++◌, codes, vec_len, OnOk, IfOk};
ghost use Rattle.std.specs.Fmt.{decimal};
ghost use Rattle.vtd_generator.specs.Generated.{generated, generated_script, item, order, orders};

use std::alloc::Global;
use vtd_listing::{push_decimal, push_text};
use xml_model::NoMemory;

/// Adds what follows the number of an order.
#[tactic(auto, unfolding(crate::specs::Generated::item))]
fn push_item(document: &mut Vec<u8>, number: u64) -> Result<(), NoMemory>
    requires { number < 2 ^ 32 }
    ensures { OnOk result (document.new.items ≡ document.old.items ++ item number) }
{
    push_text(document, b"\"><item qty=\"")?;
    push_decimal(document, number % 7)?;
    push_text(document, b"\">")?;
    push_decimal(document, 7 * number % 100)?;
    push_text(document, b"</item></order>")
}

/// Adds the order of a number.
#[tactic(auto, unfolding(crate::specs::Generated::order))]
fn push_order(document: &mut Vec<u8>, number: u64) -> Result<(), NoMemory>
    requires { number < 2 ^ 32 }
    ensures { OnOk result (document.new.items ≡ document.old.items ++ order number) }
{
    push_text(document, b"<order n=\"")?;
    push_decimal(document, number)?;
    push_item(document, number)
}

/// The document of so many orders. It takes linear time, and has at most 53 bytes for each order and 17 more.
///
/// # Errors
/// `NoMemory` where the memory for it was not to be had.
#[tactic(auto, using(crate::proofs::Sizes::generated_size), unfolding(crate::specs::Generated::generated))]
pub fn generated_document(alloc: Global, count: u32) -> Result<Vec<u8>, NoMemory>
    ensures document { IfOk result (λ bytes. bytes.items ≡ generated count) }
    ensures size { IfOk result (λ bytes. vec_len bytes ≤ 53 * count + 17) }
{
    let mut document = Vec::new(alloc);
    push_text(&mut document, b"<orders>")?;
    for number in 0..count {
        push_order(&mut document, u64::from(number) + 1)?;
    }
    push_text(&mut document, b"</orders>")?;
    Ok(document)
}

/// The script of a generated run: it counts and sums, stages an edit, applies it, and asks again.
#[tactic(auto, unfolding(crate::specs::Generated::generated_script))]
pub fn generated_script() -> &'static [u8]
    ensures { result.now ≡ generated_script }
{
    b"value\tcount(//order)\n\
      value\tsum(//@qty)\n\
      value\tcount(//item[@qty = 3])\n\
      set\t//item[@qty = 3]/@qty\t9\n\
      apply\n\
      value\tsum(//@qty)\n\
      value\tcount(//item[. > 50])\n"
}
