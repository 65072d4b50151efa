// The main file's header, page 0: what it holds, and its bytes in both directions.
#![tactic(auto)]

ghost use Rattle.std.specs.Prelude.{◌≡◌, ◌≤◌, length, take};
ghost use Rattle.le.specs.Le.{same_bytes};
ghost use Rattle.header.specs.Header.{magic, decode_header, header_fields, encode_answer, encode_after};

use page::PAGE_SIZE;
use refusal::Refusal;

// The leading bytes of every main file.
pub const MAGIC: [u8; 16] = *b"SQLRiteFormat\0\0\0";

pub const FORMAT_VERSION_V4: u16 = 4;

pub const FORMAT_VERSION_V5: u16 = 5;

pub const FORMAT_VERSION_V6: u16 = 6;
// The version that a new store is written with.
pub const FORMAT_VERSION_BASELINE: u16 = FORMAT_VERSION_V4;

// What the header says. The page count includes page 0.
#[repr(C)]
#[derive(Clone, Copy)]
pub struct DbHeader {
    pub page_count: u32,
    pub schema_root_page: u32,
    pub format_version: u16,
    pub freelist_head: u32,
}

// The header's fields: the first 32 bytes of its page.
pub fn encode_fields(h: DbHeader) -> [u8; 32]
    ensures { result ≡ header_fields h }
{
    let mut fields: [u8; 32] = [0; 32];
    let _ = le::write_bytes(&mut fields, 0, &MAGIC);
    let _ = le::write_u16(&mut fields, 16, h.format_version);
    let _ = le::write_u16(&mut fields, 18, PAGE_SIZE as u16);
    let _ = le::write_u32(&mut fields, 20, h.page_count);
    let _ = le::write_u32(&mut fields, 24, h.schema_root_page);
    let _ = le::write_u32(&mut fields, 28, h.freelist_head);
    fields
}

// Writes the header's page into a buffer; one that has not a page's length is refused (Short).
pub fn encode_header(h: DbHeader, buf: &mut [u8]) -> Result<(), Refusal>
    ensures { (result ≡ encode_answer buf.old) × (buf.new ≡ encode_after h buf.old) }
{
    if buf.len() != PAGE_SIZE {
        return Err(Refusal::Short);
    }
    let fields = encode_fields(h);
    let _ = le::write_bytes(buf, 0, &fields);
    let _ = le::write_zeros(buf, 32, PAGE_SIZE - 32);
    Ok(())
}

// Whether a page begins with the magic bytes. They are compared by halves, for the compiler makes one comparison of eight bytes.
fn has_magic(page: &[u8]) -> bool
    requires { 16 ≤ length page.now }
    ensures { result ≡ same_bytes (take 16 page.now) magic }
{
    if !page.starts_with(&MAGIC[..8]) {
        return false;
    }
    page[8..].starts_with(&MAGIC[8..])
}

// Reads the header from its page, or answers the first of its refusals. Inlined, so that the answer doesn't go through memory.
#[inline(always)]
pub fn decode_header(buf: &[u8]) -> Result<DbHeader, Refusal>
    ensures { result ≡ decode_header buf.now }
{
    if buf.len() != PAGE_SIZE {
        return Err(Refusal::Short);
    }
    if !has_magic(buf) {
        return Err(Refusal::Magic);
    }
    let version = le::read_u16(buf, 16);
    if version < FORMAT_VERSION_V4 {
        return Err(Refusal::Version);
    }
    if FORMAT_VERSION_V6 < version {
        return Err(Refusal::Version);
    }
    let page_size = usize::from(le::read_u16(buf, 18));
    if page_size != PAGE_SIZE {
        return Err(Refusal::PageSize);
    }
    Ok(DbHeader {
        page_count: le::read_u32(buf, 20),
        schema_root_page: le::read_u32(buf, 24),
        format_version: version,
        freelist_head: le::read_u32(buf, 28),
    })
}
