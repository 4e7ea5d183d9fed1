//! The classes of bytes in texts, values and comments, and the lengths of their runs.
#![tactic(auto)]

ghost use Rattle.std.specs.Prelude.{◌≡◌, ◌≤◌, ◌+◌, ◌-◌, ◌<◌, length};
ghost use Rattle.std.specs.List.{prefix_len, list_all};
ghost use Rattle.xml_items.specs.Plain.{is_plain_byte, is_text_byte, is_value_byte, is_char_byte};
ghost use Rattle.xml_items.specs.Runs.{goes_on};

const TEXT: u8 = 1;

const VALUE: u8 = 2;

const CHAR: u8 = 4;

/// For each byte a digit, whose low three bits are the flags above.
static CLASSES: [u8; 256] = *b"\
    00000000077007000000000000000000\
    77577745777777777777777777774777\
    77777777777777777777777777777677\
    77777777777777777777777777777777\
    77777777777777777777777777777777\
    77777777777777777777777777777777\
    77777777777777777777777777777777\
    77777777777777707777777777777777";

/// Whether only Chars that may be anywhere in a text have the byte.
#[inline(always)]
fn is_text_byte(byte: u8) -> bool
    ensures { result ≡ is_text_byte byte }
{
    CLASSES[byte as usize] & TEXT != 0
}

/// Whether only Chars that may be anywhere in a value have the byte.
#[inline(always)]
fn is_value_byte(byte: u8) -> bool
    ensures { result ≡ is_value_byte byte }
{
    CLASSES[byte as usize] & VALUE != 0
}

/// Whether only Chars have the byte.
#[inline(always)]
fn is_char_byte(byte: u8) -> bool
    ensures { result ≡ is_char_byte byte }
{
    CLASSES[byte as usize] & CHAR != 0
}

/// The bytes that end a run, besides those that other characters than Chars have too.
#[derive(Clone, Copy)]
struct Stops {
    first: u8,
    second: u8,
    third: u8,
    fourth: u8,
}

/// Whether only Chars have the byte, without a table, so that many bytes are tested at once.
#[inline(always)]
fn is_plain_byte(byte: u8) -> bool
    ensures { result ≡ is_plain_byte byte }
{
    ((byte >= 32) | (byte == b'\n') | (byte == b'\t') | (byte == b'\r')) & (byte != 0xEF)
}

/// Whether a run goes on over the byte.
#[inline(always)]
fn is_run_byte(byte: u8, stops: Stops) -> bool
    ensures { result ≡ goes_on stops byte }
{
    is_plain_byte(byte)
        & (byte != stops.first)
        & (byte != stops.second)
        & (byte != stops.third)
        & (byte != stops.fourth)
}

/// Whether a run goes on over all bytes of the block.
#[inline(always)]
fn is_run(block: &[u8], stops: Stops) -> bool
    ensures { result ≡ list_all (goes_on stops) block.now }
{
    let mut all = true;
    for byte in block {
        all &= is_run_byte(*byte, stops);
    }
    all
}

/// How many bytes are tested at once.
const BLOCK: usize = 32;

/// What follows the whole blocks at the start over which a run goes on.
#[inline(always)]
fn after_blocks(bytes: &[u8], stops: Stops) -> &[u8]
    ensures run { prefix_len (goes_on stops) bytes.now ≡ length bytes.now - length result.now + prefix_len
        (goes_on stops) result.now }
    ensures shorter { length result.now ≤ length bytes.now }
{
    let mut rest = bytes;
    while rest.len() >= BLOCK {
        let (block, after) = rest.split_at(BLOCK);
        if !is_run(block, stops) {
            return rest;
        }
        rest = after;
    }
    rest
}

/// The length of the longest run at the start, byte by byte.
#[inline(always)]
fn short_run_len(bytes: &[u8], stops: Stops) -> usize
    ensures value { result ≡ prefix_len (goes_on stops) bytes.now }
    ensures within { result ≤ length bytes.now }
{
    for (i, b) in bytes.iter().enumerate() {
        if !is_run_byte(*b, stops) {
            return i;
        }
    }
    bytes.len()
}

/// The length of the longest run at the start.
#[inline(never)]
fn run_len(bytes: &[u8], stops: Stops) -> usize
    ensures value { result ≡ prefix_len (goes_on stops) bytes.now }
    ensures within { result ≤ length bytes.now }
{
    let rest = after_blocks(bytes, stops);
    bytes.len() - rest.len() + short_run_len(rest, stops)
}

/// How many bytes are tested one by one before blocks are.
const SHORT: usize = 16;

/// The length of the longest prefix of bytes that only Chars have that may be anywhere in a text, byte by byte.
#[inline(always)]
fn short_text_len(bytes: &[u8]) -> usize
    ensures value { result ≡ prefix_len is_text_byte bytes.now }
    ensures within { result ≤ length bytes.now }
{
    for (i, b) in bytes.iter().enumerate() {
        if !is_text_byte(*b) {
            return i;
        }
    }
    bytes.len()
}

/// The length of the longest prefix of bytes that only Chars have that may be anywhere in a text.
#[inline(always)]
pub fn plain_text_len(bytes: &[u8]) -> usize
    ensures value { result ≡ prefix_len is_text_byte bytes.now }
    ensures within { result ≤ length bytes.now }
{
    let (prefix, back) = bytes.split_at(bytes.len().min(SHORT));
    let len = short_text_len(prefix);
    if len < SHORT {
        return len;
    }
    let stops = Stops {
        first: b'<',
        second: b'&',
        third: b']',
        fourth: b']',
    };
    len + run_len(back, stops)
}

/// The length of the longest prefix of bytes that only Chars have that may be anywhere in a value.
#[inline(always)]
pub fn plain_value_len(bytes: &[u8]) -> usize
    ensures value { result ≡ prefix_len is_value_byte bytes.now }
    ensures within { result ≤ length bytes.now }
{
    for (i, b) in bytes.iter().enumerate() {
        if !is_value_byte(*b) {
            return i;
        }
    }
    bytes.len()
}

/// The length of the longest prefix of bytes that only Chars have.
pub fn plain_char_len(bytes: &[u8]) -> usize
    ensures value { result ≡ prefix_len is_char_byte bytes.now }
    ensures within { result ≤ length bytes.now }
{
    let stops = Stops {
        first: 0xEF,
        second: 0xEF,
        third: 0xEF,
        fourth: 0xEF,
    };
    run_len(bytes, stops)
}
