// Page sizes, and the empty table page that a new store starts with.
#![tactic(auto)]

ghost use Rattle.std.specs.Prelude.{◌≡◌};
ghost use Rattle.page.specs.Page.{empty_answer, empty_after};

use refusal::Refusal;

// Size of every page in bytes.
pub const PAGE_SIZE: usize = 4096;
// Bytes of a page's heading: type, next page, payload length.
pub const PAGE_HEADER_SIZE: usize = 7;
// Bytes of a page behind its heading.
pub const PAYLOAD_PER_PAGE: usize = PAGE_SIZE - PAGE_HEADER_SIZE;

// The type of a table's leaf page.
pub const TABLE_LEAF: u8 = 2;

// A table's leaf page: a slot directory and cells behind the page's heading.
#[derive(Clone, Copy)]
pub struct TablePage {}

impl TablePage {
    // Writes a page without cells, with its heading as creation writes page 1.
    pub fn empty(page: &mut [u8]) -> Result<(), Refusal>
        ensures { (result ≡ empty_answer page.old) × (page.new ≡ empty_after page.old) }
    {
        if page.len() != PAGE_SIZE {
            return Err(Refusal::Area);
        }
        page[0] = TABLE_LEAF;
        let _ = le::write_u32(page, 1, 0);
        let _ = le::write_u16(page, 5, 0);
        let _ = le::write_u16(page, 7, 0);
        let _ = le::write_u16(page, 9, PAYLOAD_PER_PAGE as u16);
        let _ = le::write_zeros(page, 11, PAGE_SIZE - 11);
        Ok(())
    }
}
