// PCS packing: data bytes in groups of up to seven, as bytes from 1 to 128, and back in place.
#![tactic(auto)]

ghost use Rattle.std.specs.Prelude.{◌≡◌, ◌+◌, ◌*◌, ◌/◌, ◌%◌, ◌^◌, ◌<◌, ◌≤◌, length, take, drop, nat_le};
ghost use Rattle.std.proofs.lemmas.List.Edits.{sets};
ghost use Rattle.runs.specs.Total.{total_from};
ghost use Rattle.framing.specs.Answer.{outcome_of, stored_at};
ghost use Rattle.packing.specs.Seven.{sent, is_sent, value_of};
ghost use Rattle.packing.specs.Packed.{last_place, packed_group, packed, packed_length};
ghost use Rattle.packing.specs.Unpacked.{unpacked_group, data_in_groups, all_sent, unused_clear, well_ended, well_packed};
ghost use Rattle.packing.specs.Contract.{summed_at, unpacked_in};

use framing::{Answer, Refusal};

// A value as it goes out: 0 as 128, any other as itself.
pub fn sent_as(v: u8) -> u8
    ensures { result ≡ sent v }
{
    if v == 0 { 128 } else { v }
}

// Whether some seven-bit value goes out as b: 1 to 128.
#[tactic(auto, unfolding(crate::specs::Seven::is_sent))]
pub fn is_sent(b: u8) -> bool
    ensures { result ≡ is_sent b }
{
    (1..=128).contains(&b)
}

// The seven-bit value that a byte stands for.
pub fn value_of(b: u8) -> u8
    ensures { result ≡ value_of b }
{
    b % 128
}

// The place of the last byte's top bit in a group of k bytes. `k ≤ 7` has no type of its own, which each group would make and take apart.
#[tactic(auto, unfolding(crate::specs::Packed::last_place))]
fn last_place(k: usize) -> u8
    requires { k ≤ 7 }
    ensures { result ≡ last_place k }
{
    (7 - k) as u8
}

// The byte that carries the top bits of a group of k bytes.
#[tactic(auto, using(crate::proofs::Tops::place_room))]
fn tops_sent(top: u8, k: usize) -> u8
    requires { (k ≤ 7) × (top * 2 ^ last_place k < 128) }
    ensures { result ≡ sent (top * 2 ^ last_place k) }
{
    sent_as(top << last_place(k))
}

// Stores the group g, packed, from place at on, and carries a total on over what it stores.
fn pack_group(start: u8, g: &[u8], out: &mut [u8], at: usize) -> u8
    requires { (length g.now ≤ 7) × (at + length g.now < length out.old) }
    ensures total { result ≡ total_from start (packed_group g.now) }
    ensures stored { out.new ≡ sets out.old at (packed_group g.now) }
{
    let mut top: u8 = 0;
    let mut total = start;
    // by the place: with an iterator over g the compiler packs long data slower, by a twenty-fifth
    for j in 0..g.len() {
        let b = g[j];
        let low = sent_as(b % 128);
        out[at + j] = low;
        total = total.wrapping_add(low);
        top = 2 * top + b / 128;
    }
    let tops = tops_sent(top, g.len());
    out[at + g.len()] = tops;
    total.wrapping_add(tops)
}

// How many groups the data make. `div_ceil` tests the remainder too, which takes a few cycles more.
fn group_count(data: &[u8]) -> usize
    ensures { result ≡ (length «data».now + 6) / 7 }
{
    (data.len() + 6) / 7
}

// Stores the data, packed, from place at on: all groups but the last, in a loop where the compiler knows their size, then the last one.
// A total is carried on over what is stored. That of the last group is not read back from memory, which is slow just after a store.
fn pack_all(start: u8, data: &[u8], out: &mut [u8], at: usize) -> u8
    requires { at + packed_length (length «data».now) ≤ length out.old }
    ensures total { result ≡ total_from start (packed «data».now) }
    ensures stored { out.new ≡ sets out.old at (packed «data».now) }
{
    if data.is_empty() {
        return start;
    }
    let groups = group_count(data) - 1;
    for i in 0..groups {
        let begin = 7 * i;
        let end = begin + 7;
        pack_group(0, &data[begin..end], out, at + 8 * i);
    }
    let front = at + 8 * groups;
    let total = runs::total(start, &out[at..front]);
    pack_group(total, &data[7 * groups..], out, front)
}

// How many bytes the data pack to.
pub fn packed_length(data: &[u8]) -> usize
    ensures { result ≡ packed_length (length «data».now) }
{
    data.len() + group_count(data)
}

// Whether the packed data fit into a memory of this size from place at on.
fn has_room(data: &[u8], size: usize, at: usize) -> bool
    ensures { result ≡ nat_le (at + packed_length (length «data».now)) size }
{
    runs::fits(at, packed_length(data), size)
}

// Packs the data into out from place at on and answers the count of bytes. Where they do not fit nothing is written.
pub fn pack_into(data: &[u8], out: &mut [u8], at: usize) -> Answer
    ensures { (outcome_of result, out.new) ≡ stored_at (packed «data».now) out.old at }
{
    if !has_room(data, out.len(), at) {
        return Err(Refusal::OutputShort);
    }
    pack_all(0, data, out, at);
    Ok(packed_length(data))
}

// Packs the data into out from place at on and carries a total on over the packed bytes. Where they do not fit nothing is written or added.
pub fn pack_summed(start: u8, data: &[u8], out: &mut [u8], at: usize) -> u8
    ensures { (result, out.new) ≡ summed_at start (packed «data».now) out.old at }
{
    if has_room(data, out.len(), at) {
        pack_all(start, data, out, at)
    } else {
        start
    }
}

// Whether every byte of p lies in 1 to 128.
fn all_sent(p: &[u8]) -> bool
    ensures { result ≡ all_sent p.now }
{
    p.iter().all(|b| is_sent(*b))
}

// Whether the top bits v of a group of k bytes set no unused place.
fn unused_clear(v: u8, k: usize) -> bool
    requires { (k ≤ 7) × (v < 128) }
    ensures { result ≡ unused_clear k v }
{
    let lowest: u8 = 1 << last_place(k); // the last byte's bit
    v % lowest == 0
}

// Whether n packed bytes, the last of them b, end in a group with a data byte and no unused place set.
#[tactic(auto, unfolding(crate::specs::Unpacked::well_ended))]
fn well_ended(n: usize, b: u8) -> bool
    ensures { result ≡ well_ended n b }
{
    n % 8 != 1 && unused_clear(b % 128, (n % 8 + 7) % 8)
}

// Whether p is well packed.
#[tactic(auto, using(crate::proofs::WellPacked::well_empty), unfolding(crate::specs::Unpacked::well_packed))]
fn well_packed(p: &[u8]) -> bool
    ensures { result ≡ well_packed p.now }
{
    match p.last() {
        None => true,
        Some(last) => all_sent(p) && well_ended(p.len(), *last),
    }
}

// A data byte, from the byte that carries its low bits and from its place in the top bits.
fn data_byte(low: u8, tops: u8, place: usize) -> u8
    requires { place < 8 }
    ensures { result ≡ low % 128 + 128 * (tops / 2 ^ place % 2) }
{
    low % 128 + 128 * ((tops >> place) % 2)
}

// Unpacks the group of k data bytes that stands at place from, to place to and on. The top bits are read before the first store.
fn unpack_group(store: &mut [u8], to: usize, from: usize, k: usize)
    requires { (k ≤ 7) × (to ≤ from) × (from + k < length store.old) }
    ensures { store.new ≡ sets store.old to (unpacked_group k (drop from store.old)) }
{
    let tops = value_of(store[from + k]);
    for j in 0..k {
        store[to + j] = data_byte(store[from + j], tops, 6 - j);
    }
}

// Unpacks the count bytes from place from on, group by group, to place 0 and on: full groups in a loop where the compiler knows their
// size, then a shorter last one. No byte is overwritten before it is read, since a group is stored no further on than it stood.
fn unpack_all(store: &mut [u8], from: usize, count: usize) -> usize
    requires { from + count ≤ length store.old }
    ensures counted { result ≡ length (data_in_groups (take count (drop from store.old))) }
    ensures stored { store.new ≡ sets store.old 0 (data_in_groups (take count (drop from store.old))) }
{
    let groups = count / 8;
    for i in 0..groups {
        unpack_group(store, 7 * i, from + 8 * i, 7);
    }
    let n = 7 * groups;
    let rest = count % 8;
    if rest == 0 {
        return n;
    }
    unpack_group(store, n, from + 8 * groups, rest - 1);
    n + rest - 1
}

// Unpacks the count bytes from place from on, as far as they lie in the store, to place 0 and on, and answers the count of data bytes.
// All bytes are checked before the first store, so badly packed ones leave the store as it came.
pub fn unpack_in_place(store: &mut [u8], from: usize, count: usize) -> Answer
    ensures { (outcome_of result, store.new) ≡ unpacked_in store.old from count }
{
    let start = from.min(store.len());
    let size = count.min(store.len() - start);
    let end = start + size;
    if !well_packed(&store[start..end]) {
        return Err(Refusal::BadlyPacked);
    }
    Ok(unpack_all(store, start, size))
}
