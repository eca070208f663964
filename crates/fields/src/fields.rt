// Bit fields, most significant bit first, read and written as numbers of whole bytes.
ghost use Rattle.std.specs.Prelude.{◌≡◌, ◌+◌, ◌-◌, ◌*◌, ◌^◌, ◌<◌, ◌≤◌, min, true, false, length, drop, slice_index};
ghost use Rattle.fields.specs.Fields.{field, with_field, fits, Packed};

// A byte, or 0 past the end.
fn byte_at(bytes: &[u8], k: usize) -> u8
    ensures { result ≡ slice_index bytes.now k }
{
    bytes.get(k).copied().unwrap_or(0)
}

// Eight bytes from the front as one number, with 0 for those past the end.
fn eight_bytes(rest: &[u8]) -> u64
    ensures { result ≡ field rest.now 0 64 }
{
    match rest.first_chunk() {
        Some(eight) => u64::from_be_bytes(*eight),
        // written out, since of `array::from_fn` the proof doesn't see that these are the eight bytes
        None => u64::from_be_bytes([
            byte_at(rest, 0),
            byte_at(rest, 1),
            byte_at(rest, 2),
            byte_at(rest, 3),
            byte_at(rest, 4),
            byte_at(rest, 5),
            byte_at(rest, 6),
            byte_at(rest, 7),
        ]),
    }
}

// What is left from a place on, which may lie past the end.
fn rest_from(bytes: &[u8], first: usize) -> &[u8]
    ensures { result.now ≡ drop first bytes.now }
{
    bytes.get(first..).unwrap_or(&[])
}

// Five bytes from a place on as one number. They hold 32 bits at any offset.
fn five_bytes(bytes: &[u8], first: usize) -> u64
    ensures { result ≡ field bytes.now (8 * first) 40 }
{
    eight_bytes(rest_from(bytes, first)) >> 24
}

// Offset and width are two numbers, no struct: callers write both out, as docs/LINEUP.md has them.
// The field of `width` bits that begins at bit `offset`. A width over 32 counts as 32, and bits past the end are 0.
pub fn read_field(bytes: &[u8], offset: u32, width: u32) -> u32
    ensures { result ≡ field bytes.now offset (min width 32) }
{
    let bits = width.min(32);
    let first = offset as usize / 8;
    let lead = offset % 8;
    let tail = 40 - (lead + bits);
    ((five_bytes(bytes, first) >> tail) & ((1u64 << bits) - 1)) as u32
}

// Writes a number over the bytes, most significant byte first.
fn store_number(bytes: &mut [u8], value: u64)
    requires few { length bytes.old ≤ 8 }
    requires fits { value < 2 ^ (8 * length bytes.old) }
    ensures { field bytes.new 0 (8 * length bytes.old) ≡ value }
{
    let eight = value.to_be_bytes();
    bytes.copy_from_slice(&eight[8 - bytes.len()..]);
}

// The number with another field in it, behind which stand `tail` bits.
fn with_field(number: u64, tail: u32, width: u32, value: u32) -> u64
    requires small { (number < 2 ^ 40) × ((tail < 8) × (width ≤ 32)) }
    requires fits { value < 2 ^ width }
    ensures { result ≡ with_field number tail width value }
{
    let old = (number >> tail) & ((1u64 << width) - 1);
    number - (old << tail) + (u64::from(value) << tail)
}

// Whether so many bytes have the field, and the field can hold the value.
fn field_fits(size: usize, offset: u32, width: u32, value: u32) -> bool
    ensures { result ≡ fits size offset width value }
{
    let end = offset as usize + width as usize;
    width <= 32 && (end + 7) / 8 <= size && u64::from(value) < 1u64 << width
}

// Writes a field over the bits that it has, and changes no other bit.
fn place_field(bytes: &mut [u8], offset: u32, width: u32, value: u32)
    requires sized { width ≤ 32 }
    requires within { offset + width ≤ 8 * length bytes.old }
    requires fits { value < 2 ^ width }
    ensures { Packed bytes.old bytes.new offset width value }
{
    let start = offset as usize;
    let end = start + width as usize;
    let first = start / 8;
    let past = (end + 7) / 8;
    let number = five_bytes(bytes, first) >> (40 - 8 * (past - first));
    let packed = with_field(number, (8 * past - end) as u32, width, value);
    store_number(&mut bytes[first..past], packed);
}

// Writes a field of `width` bits at bit `offset`, and changes no other bit.
// A field that passes the end, has more than 32 bits or cannot hold the value is not written; the answer says so.
pub fn pack_field(bytes: &mut [u8], offset: u32, width: u32, value: u32) -> bool
    ensures answer { result ≡ fits (length bytes.old) offset width value }
    ensures packed { result ≡ true → Packed bytes.old bytes.new offset width value }
    ensures kept { result ≡ false → bytes.new ≡ bytes.old }
{
    let fits = field_fits(bytes.len(), offset, width, value);
    if fits {
        place_field(bytes, offset, width, value);
    }
    fits
}
