// Document 01's table of refusals. Every answer that can be one is a `Result` with it as the error.
// A new refusal is a row of the enum, one of `row_of`, and one of the definition.
#![tactic(auto)]

ghost use Rattle.std.specs.Prelude.{◌≡◌};
ghost use Rattle.refusal.specs.Refusal.{plain, row_of, number, lowest_page};

#[derive(Clone, Copy)]
pub enum Refusal {
    // A wrong area length, or a file length above its area.
    Area,
    // Main under 4,096, log under 32, batch body under 18, a header buffer not 4,096.
    Short,
    // Wrong leading bytes.
    Magic,
    // Not 4..6 (main) or 1..3 (log).
    Version,
    // Not 4,096.
    PageSize,
    // Opening: a page count above 1,024.
    Limit,
    // Main below page count × 4,096.
    MainShort,
    // The log's page 0 has refusal 3, 4 or 5.
    PageZero,
    // A commit or checkpoint is part done and a call other than the next step or an opening comes.
    Busy,
    // Commit, checkpoint, batch append or clean opening, read-only.
    ReadOnly,
    // Staging above 1,023.
    Page,
    // As many other pages are staged as can be.
    Staging,
    // Commit count 0 or above 1,024, version not 4..6.
    NewHeader,
    // A page, 1 or higher, from old count to below new count isn't staged: the lowest.
    Joining(usize),
    // Length + 4,112 × frames to add is above 4,210,720.
    LogFull,
    // Set below the present clock.
    Clock,
    // A batch field runs past the body.
    Truncated,
    // Unknown op or value tag.
    Tag,
    // Not UTF-8.
    Text,
    // A batch being built would pass 4,096 bytes.
    Fit,
    // A column with no present record last.
    NoRecord,
}

// What the table gives a refusal: its number, and beside 14 the lowest page; beside every other 0.
#[derive(Clone, Copy)]
pub struct Row {
    pub number: u32,
    pub page: usize,
}

fn plain(number: u32) -> Row
    ensures { result ≡ plain number }
{
    Row { number, page: 0 }
}

fn row_of(refusal: Refusal) -> Row
    ensures { result ≡ row_of refusal }
{
    match refusal {
        Refusal::Area => plain(1),
        Refusal::Short => plain(2),
        Refusal::Magic => plain(3),
        Refusal::Version => plain(4),
        Refusal::PageSize => plain(5),
        Refusal::Limit => plain(6),
        Refusal::MainShort => plain(7),
        Refusal::PageZero => plain(8),
        Refusal::Busy => plain(9),
        Refusal::ReadOnly => plain(10),
        Refusal::Page => plain(11),
        Refusal::Staging => plain(12),
        Refusal::NewHeader => plain(13),
        Refusal::Joining(page) => Row { number: 14, page },
        Refusal::LogFull => plain(15),
        Refusal::Clock => plain(16),
        Refusal::Truncated => plain(17),
        Refusal::Tag => plain(18),
        Refusal::Text => plain(19),
        Refusal::Fit => plain(20),
        Refusal::NoRecord => plain(21),
    }
}

pub fn number(refusal: Refusal) -> u32
    ensures { result ≡ number refusal }
{
    row_of(refusal).number
}

pub fn lowest_page(refusal: Refusal) -> usize
    ensures { result ≡ lowest_page refusal }
{
    row_of(refusal).page
}
