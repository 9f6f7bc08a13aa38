// The check values of the links: the CRC of MDU and PCS from sixteen constants, that of the expansion link by tables, and the sum of PCS.
#![tactic(auto)]

mod braid_table;
mod table;

ghost use Rattle.std.specs.Prelude.{◌≡◌, ◌++◌, ℕ, ◌*◌, ◌^◌, ◌≤◌, ◌<◌, length, map};
ghost use Rattle.runs.specs.Number.{little_endian};
ghost use Rattle.packing.specs.Seven.{sent};
ghost use Rattle.checksum.specs.Crc.{shifts, byte_step, run, crc16_from, crc32_of};
ghost use Rattle.checksum.specs.Tables.{SixteenConstants, Rows, NibbleTable, BraidTable};
ghost use Rattle.checksum.specs.Braids.{both, run_words, StandsFor};
ghost use Rattle.checksum.specs.Sum.{lowered, sum_of};

use braid_table::BRAID32;
use table::{CONSTANTS16, NIBBLES32};

// The constants of the 16-bit CRC.
fn table16() -> &'static [u16; 16]
    ensures { SixteenConstants result.now }
{
    &CONSTANTS16
}

// Half a byte: four bits leave the register.
fn half_step(c: usize) -> usize
    ensures { result ≡ shifts 0xA001 4 c }
{
    usize::from(table16()[c % 16]) ^ (c / 16)
}

// One byte: its low half leaves first, then its high half.
fn byte_step(c: usize, byte: u8) -> usize
    ensures { result ≡ byte_step 0xA001 c byte }
{
    let low = c ^ usize::from(byte);
    let high = half_step(low);
    half_step(high)
}

// The 16-bit CRC of these bytes, from a start: 0 on MDU and PCS, or the value that the bytes before them have reached.
pub fn crc16(start: u16, bytes: &[u8]) -> u16
    ensures { result ≡ crc16_from start bytes.now }
{
    let value = bytes
        .iter()
        .fold(usize::from(start), |value, byte| byte_step(value, *byte));
    value as u16
}

// From so many bytes on, the 32-bit CRC is taken by registers side by side.
const LONG: usize = 96;

// The table of the CRC of the expansion link. Each of the two tables has a function, whose clause is what the entries are.
fn table32() -> &'static [[u32; 16]; 8]
    ensures rows { length result.now ≡ 8 }
    ensures right { NibbleTable 0xEDB8_8320 result.now }
{
    &NIBBLES32
}

// The table of the CRC of the expansion link for long runs.
fn braid32() -> &'static [[u32; 256]; 4]
    ensures { BraidTable 0xEDB8_8320 result.now }
{
    &BRAID32
}

// Bits leave a register by rows of the table, four for each row, from the lowest up.
fn by_rows(rows: &[[u32; 16]], c: u32) -> u32
    ensures { (n : ℕ) → length rows.now * 4 ≤ n → c < 2 ^ (4 * length rows.now)
        → Rows 0xEDB8_8320 4 (length rows.now) n rows.now → result ≡ shifts 0xEDB8_8320 n c }
{
    let mut all = 0;
    let mut rest = c as usize;
    for row in rows {
        all ^= row[rest % 16];
        rest /= 16;
    }
    all
}

// Eight bits leave the register.
fn shift8(c: u32) -> u32
    ensures { result ≡ shifts 0xEDB8_8320 8 c }
{
    by_rows(&table32()[6..], c % 256) ^ (c / 256)
}

// All bits of a word leave the register.
fn shift32(c: u32) -> u32
    ensures { result ≡ shifts 0xEDB8_8320 32 c }
{
    by_rows(table32(), c)
}

// All bits of a word leave the register, and those of the five words behind it. With a loop over the rows long runs take 1.07 times as long.
fn shift192(c: u32) -> u32
    ensures { result ≡ shifts 0xEDB8_8320 192 c }
{
    let rows = braid32();
    let c1 = c / 256;
    let c2 = c1 / 256;
    let upper = rows[2][(c2 % 256) as usize] ^ rows[3][(c2 / 256) as usize];
    rows[0][(c % 256) as usize] ^ (rows[1][(c1 % 256) as usize] ^ upper)
}

// The number of four bytes, low byte first.
fn word(bytes: &[u8; 4]) -> u32
    ensures { result ≡ little_endian bytes.now }
{
    u32::from_le_bytes(*bytes)
}

// The register after words of four bytes.
fn after_words(start: u32, words: &[[u8; 4]]) -> u32
    ensures { result ≡ run_words 0xEDB8_8320 start (map little_endian words.now) }
{
    words
        .iter()
        .fold(start, |c, bytes| shift32(c ^ word(bytes)))
}

// The register after bytes, one by one.
fn after_bytes(start: u32, bytes: &[u8]) -> u32
    ensures { result ≡ run 0xEDB8_8320 start bytes.now }
{
    bytes
        .iter()
        .fold(start, |c, byte| shift8(c ^ u32::from(*byte)))
}

// The register after the bytes: as many as make whole words, and those behind them.
fn after(start: u32, bytes: &[u8]) -> u32
    ensures { result ≡ run 0xEDB8_8320 start bytes.now }
{
    let (words, rest) = bytes.as_chunks::<4>();
    after_bytes(after_words(start, words), rest)
}

// Registers side by side, each of which takes every sixth word: one block on, once the bits of a block have left.
fn take_block(braid: &mut [u32; 6], block: &[[u8; 4]; 6])
    ensures { braid.new ≡ map (shifts 0xEDB8_8320 192) (both braid.old (map little_endian block.now)) }
{
    for k in 0..6 {
        braid[k] = shift192(braid[k] ^ word(&block[k]));
    }
}

// The register after the last block, from registers side by side: each word in turn, with its register.
fn join(braid: [u32; 6], block: &[[u8; 4]; 6]) -> u32
    ensures { (c : ℕ) → StandsFor 0xEDB8_8320 braid c → result ≡ run_words 0xEDB8_8320 c (map little_endian block.now) }
{
    braid.iter().zip(block).fold(
        0,
        |c, (register, bytes)| shift32(c ^ (register ^ word(bytes))),
    )
}

// The register after the bytes of a long run: all blocks but the last by registers side by side.
fn after_long(start: u32, bytes: &[u8]) -> u32
    ensures { result ≡ run 0xEDB8_8320 start bytes.now }
{
    let (words, rest) = bytes.as_chunks::<4>();
    let (blocks, behind) = words.as_chunks::<6>();
    let Some((last, before)) = blocks.split_last() else {
        return after(start, bytes);
    };
    let mut braid = [start, 0, 0, 0, 0, 0];
    for block in before {
        take_block(&mut braid, block);
    }
    after_bytes(after_words(join(braid, last), behind), rest)
}

// The register of the CRC of the expansion link after the bytes.
fn after32(start: u32, bytes: &[u8]) -> u32
    ensures { result ≡ run 0xEDB8_8320 start bytes.now }
{
    if bytes.len() < LONG {
        after(start, bytes)
    } else {
        after_long(start, bytes)
    }
}

// The CRC of the expansion link, of these bytes.
pub fn crc32(bytes: &[u8]) -> u32
    ensures { result ≡ crc32_of bytes.now }
{
    after32(0xFFFF_FFFF, bytes) ^ 0xFFFF_FFFF
}

// The CRC of the expansion link, of two parts, one after the other.
pub fn crc32_joined(first: &[u8], second: &[u8]) -> u32
    ensures { result ≡ crc32_of (first.now ++ second.now) }
{
    after32(after(0xFFFF_FFFF, first), second) ^ 0xFFFF_FFFF
}

// Above 250, 128 is taken away.
fn lower(r: u8) -> u8
    ensures { result ≡ lowered r }
{
    if r > 250 { r - 128 } else { r }
}

// The sum of PCS, from the total of the bytes that it covers.
pub fn sum_of_total(total: u8) -> u8
    ensures { result ≡ sent (lowered total) }
{
    packing::sent_as(lower(total))
}

// The sum of PCS, of these bytes as sent.
pub fn sum(bytes: &[u8]) -> u8
    ensures { result ≡ sum_of bytes.now }
{
    sum_of_total(runs::total(0, bytes))
}
