// The check values and the packing, exported for the benchmark alone: of these the C interface of linebox has the 16-bit check only.
#![tactic(auto)]

ghost use Rattle.std.specs.Prelude.{◌≡◌};
ghost use Rattle.framing.specs.Answer.{count_of, stored_at};
ghost use Rattle.packing.specs.Packed.{packed};
ghost use Rattle.packing.specs.Contract.{unpacked_in};
ghost use Rattle.checksum.specs.Crc.{crc16_from, crc32_of};
ghost use Rattle.checksum.specs.Sum.{sum_of};

#[unsafe(no_mangle)]
pub extern "C" fn bench_crc16(start: u16, bytes: &[u8]) -> u16
    ensures { result ≡ crc16_from start bytes.now }
{
    checksum::crc16(start, bytes)
}

#[unsafe(no_mangle)]
pub extern "C" fn bench_crc32(bytes: &[u8]) -> u32
    ensures { result ≡ crc32_of bytes.now }
{
    checksum::crc32(bytes)
}

#[unsafe(no_mangle)]
pub extern "C" fn bench_sum(bytes: &[u8]) -> u8
    ensures { result ≡ sum_of bytes.now }
{
    checksum::sum(bytes)
}

// Packs the data into out and answers the count of bytes, 0 where they do not fit.
#[unsafe(no_mangle)]
pub extern "C" fn bench_pack(data: &[u8], out: &mut [u8]) -> usize
    ensures count { result ≡ count_of (stored_at (packed «data».now) out.old 0).0 }
    ensures put { out.new ≡ (stored_at (packed «data».now) out.old 0).1 }
{
    framing::count_of(packing::pack_into(data, out, 0))
}

// Unpacks the count bytes from place from on to place 0 and answers the count of data bytes, 0 where they are badly packed.
#[unsafe(no_mangle)]
pub extern "C" fn bench_unpack(store: &mut [u8], from: usize, count: usize) -> usize
    ensures count { result ≡ count_of (unpacked_in store.old from «count»).0 }
    ensures put { store.new ≡ (unpacked_in store.old from «count»).1 }
{
    framing::count_of(packing::unpack_in_place(store, from, count))
}
