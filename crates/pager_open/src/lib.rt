// Creating a store, and opening one: plainly, as the Rust does, or cleanly, which cuts the log at its commit point and takes a clock that is no
// older than a batch in it.
// All refusals are judged before any area is written. Every public function is total.
#![tactic(auto)]

ghost use Rattle.std.specs.Prelude.{◌≡◌, true, false, [], ◌+◌, ◌-◌, ◌*◌, ◌/◌, ◌≤◌, ◌<◌, ◌^◌, leb, length};
ghost use Rattle.le.specs.Choice.{pick};
ghost use Rattle.le.specs.Le.{put};
ghost use Rattle.page.specs.Page.{empty_table_page, page_size};
ghost use Rattle.frame.specs.Frame.{frame_size, frame_at};
ghost use Rattle.header.specs.Header.{encode_header};
ghost use Rattle.wal.specs.Header.{header_size, decode_wal_header};
ghost use Rattle.wal.specs.Recovery.{chunks, recovered, wal_of, wal_area};
ghost use Rattle.wal.specs.Write.{empty_wal, created_header, with_header};
ghost use Rattle.pager_state.specs.World.{lengths_fine, page_limit};
ghost use Rattle.pager_state.specs.Overlay.{entry};
ghost use Rattle.pager_state.specs.Stores.{File};
ghost use Rattle.pager_state.specs.Commit.{with_entry};
ghost use Rattle.pager_state.specs.Opening.{has_page, table_of, opens_as, create, create_table, create_log, create_main, writes, commit_times, greatest, found_in, found_fresh, main_header_of, judged_log, recounted, header_by, opening_of, open_pager, opened_answer, open_table, open_log_area, no_pager};
ghost use Rattle.pager_state.specs.Opened.{Refused};
ghost use Rattle.pager_open.specs.Given.{how, how_of, files};
ghost use Rattle.pager_open.specs.Judging.{time_of, committed_wal, kept_wal, is_clean_read_only, opened_with, judged_found, judged_behind, judged_files};

use frame::FRAME_SIZE;
use header::DbHeader;
use mvcc::MVCC_FRAME_MARKER;
use page::PAGE_SIZE;
use pager_state::{
    AccessMode, FileStorage, Job, MAIN_AREA, Opening, Outcome, PAGES, Pager, STAGED_PAGES,
    STAGING_AREA, Staged,
};
use refusal::Refusal;
use wal::{WAL_AREA, WAL_HEADER_SIZE, Wal, WalHeader};

// How a store is to be opened.
#[derive(Clone, Copy)]
struct OpenOptions {
    clean: bool,
    access_mode: AccessMode,
    log_exists: bool,
    salt: u32,
}

// Whether the areas have their lengths and the files lie within them.
fn are_fine(
    table: usize,
    log_area: usize,
    log: usize,
    main_area: usize,
    main: usize,
    staging: usize,
) -> bool
    ensures { result ≡ lengths_fine table log_area log main_area main staging }
{
    pager_state::are_files_inside(table, log_area, log, main_area, main) && staging == STAGING_AREA
}

fn writes(access_mode: AccessMode) -> bool
    ensures { result ≡ writes access_mode }
{
    matches!(access_mode, AccessMode::ReadWrite)
}

// The entry of a page that the log does not have: 1 if the main file has it.
fn main_entry(header: DbHeader, n: usize) -> u32
    ensures { result ≡ entry 0 (has_page header n) }
{
    u32::from(1 <= n && n < header.page_count as usize)
}

// Makes the table that of a store without frames.
fn clear_table(table: &mut [u32], main_header: DbHeader)
    requires { length table.old ≡ page_limit }
    ensures { table.new ≡ table_of main_header [] }
{
    for (n, entry) in table.iter_mut().enumerate() {
        *entry = main_entry(main_header, n);
    }
}

// Enters the frame at `at` for its page; page numbers that the table does not have do not matter.
fn enter_frame(table: &mut [u32], page_num: u32, at: usize)
    requires { 2 * at + 1 < 2 ^ 32 }
    ensures { table.new ≡ with_entry table.old page_num at }
{
    let n = page_num as usize;
    if n < table.len() {
        table[n] = (2 * at) as u32 + table[n] % 2;
    }
}

// How many frames stand wholly inside a log of a length.
fn frames_in(len: usize) -> usize
    ensures { result ≡ (len - header_size) / frame_size }
{
    len.saturating_sub(WAL_HEADER_SIZE) / FRAME_SIZE
}

// Fills the table from the committed frames' headings, each over those before it.
fn fill_table(table: &mut [u32], file: &[u8], main_header: DbHeader)
    requires { (length table.old ≡ page_limit) × (length file.now ≤ wal_area) }
    ensures { table.new ≡ table_of main_header (chunks file.now) }
{
    clear_table(table, main_header);
    for index in 0..frames_in(file.len()) {
        let at = WAL_HEADER_SIZE + FRAME_SIZE * index;
        let header = frame::read_frame_header(file, at);
        enter_frame(table, header.page_num, at);
    }
}

// The commit time of the batch whose frame is at `at`; 0 if a page's is.
fn batch_time(file: &[u8], at: usize) -> u64
    requires { at + frame_size ≤ length file.now }
    ensures { result ≡ time_of (frame_at at file.now) }
{
    let header = frame::read_frame_header(file, at);
    if header.page_num != MVCC_FRAME_MARKER {
        return 0;
    }
    mvcc::commit_ts(frame::frame_body(file, at))
}

// The greatest commit time of a log's batches, 0 for none: of each frame the heading is read, and of a batch its time.
fn greatest_commit_ts(file: &[u8]) -> u64
    requires { length file.now ≤ wal_area }
    ensures { result ≡ greatest (commit_times (chunks file.now)) }
{
    let mut greatest: u64 = 0;
    for index in 0..frames_in(file.len()) {
        let time = batch_time(file, WAL_HEADER_SIZE + FRAME_SIZE * index);
        greatest = greatest.max(time);
    }
    greatest
}

// An open log that ends with its last commit frame.
fn committed_wal(header: WalHeader, end: usize, last: Option<u32>) -> Wal
    requires { header_size ≤ end }
    ensures { result ≡ committed_wal header end last }
{
    Wal {
        header,
        len: end,
        good_end: end,
        last_commit_offset: end,
        last_commit_page_count: last,
        frame_count: (end - WAL_HEADER_SIZE) / FRAME_SIZE,
    }
}

// A log of its header alone.
fn empty_wal(salt: u32) -> Wal
    ensures { result ≡ empty_wal (created_header salt) }
{
    let header = WalHeader {
        version: wal::WAL_FORMAT_VERSION,
        salt,
        checkpoint_seq: 0,
        clock_high_water: 0,
    };
    committed_wal(header, WAL_HEADER_SIZE, None)
}

// The log cut at its commit point, with the larger of its header's clock and the greatest commit time in it.
fn cut_at_commit(file: &[u8], wal: Wal) -> Wal
    requires { (header_size ≤ wal.last_commit_offset) × (length file.now ≤ wal_area) }
    ensures { result ≡ kept_wal true file.now wal }
{
    let last = wal.last_commit_page_count;
    let end = wal.last_commit_offset;
    let greatest = greatest_commit_ts(le::part(file, 0, end));
    let header = WalHeader {
        clock_high_water: wal.header.clock_high_water.max(greatest),
        ..wal.header
    };
    committed_wal(header, end, last)
}

// The log as it is then open: a clean opening cuts it and takes its clock, a plain one keeps the tail and the header's clock.
fn kept(file: &[u8], wal: Wal, clean: bool) -> Wal
    requires { (header_size ≤ wal.last_commit_offset) × (length file.now ≤ wal_area) }
    ensures { result ≡ kept_wal clean file.now wal }
{
    if clean {
        return cut_at_commit(file, wal);
    }
    wal
}

// An open store with nothing staged and nothing part done; the batches that were found end at the log's commit point.
fn open_store(header: DbHeader, storage: FileStorage, wal: Wal, opening: Opening) -> Pager
    ensures { result ≡ opens_as header storage.header storage.len wal wal.last_commit_offset opening }
{
    Pager {
        current_header: header,
        wal,
        recovered: wal.last_commit_offset,
        storage,
        staged: Staged {
            count: 0,
            pages: [0; STAGED_PAGES],
        },
        job: Job::Idle,
        opening,
    }
}

// The store beside a refusal.
fn no_store() -> Pager
    ensures { result ≡ no_pager }
{
    let header = DbHeader {
        page_count: 0,
        schema_root_page: 0,
        format_version: 0,
        freelist_head: 0,
    };
    open_store(
        header,
        FileStorage { len: 0, header },
        empty_wal(0),
        Opening::NoLog,
    )
}

fn refused(refusal: Refusal) -> Outcome<()>
    ensures { result ≡ opened_answer (Refused refusal) }
{
    Outcome {
        answer: Err(refusal),
        pager: no_store(),
    }
}

// What the store remembers of its opening.
fn opening_of(options: OpenOptions) -> Opening
    ensures { result ≡ opening_of (how_of options) }
{
    match (
        writes(options.access_mode),
        options.clean,
        options.log_exists,
    ) {
        (true, true, _) => Opening::Clean,
        (true, false, _) => Opening::Plain,
        (false, _, true) => Opening::ReadOnly,
        (false, _, false) => Opening::NoLog,
    }
}

// Whether the opening is clean and read-only.
fn is_clean_read_only(options: OpenOptions) -> bool
    ensures { result ≡ is_clean_read_only (how_of options) }
{
    options.clean && !writes(options.access_mode)
}

// Whether a header's pages lie within a length.
fn covers(len: usize, header: DbHeader) -> bool
    ensures { result ≡ leb (page_size * header.page_count) len }
{
    PAGE_SIZE * (header.page_count as usize) <= len
}

// Judges refusals 6 and 10; `header` is the one that counts.
fn opened_with(
    options: OpenOptions,
    storage: FileStorage,
    wal: Wal,
    header: DbHeader,
) -> Outcome<()>
    ensures { result ≡ opened_answer (opened_with (how_of options) storage.len storage.header wal header) }
{
    if !covers(MAIN_AREA, header) {
        return refused(Refusal::Limit);
    }
    if is_clean_read_only(options) {
        return refused(Refusal::ReadOnly);
    }
    let opening = opening_of(options);
    Outcome {
        answer: Ok(()),
        pager: open_store(header, storage, wal, opening),
    }
}

// The header with the last commit count, if there is one.
fn recounted(header: DbHeader, last: Option<u32>) -> DbHeader
    ensures { result ≡ recounted header last }
{
    match last {
        None => header,
        Some(count) => DbHeader {
            page_count: count,
            ..header
        },
    }
}

// The header that counts: page 0's in the log, else the main file's with the last commit count.
fn header_by(file: &[u8], wal: Wal, main_header: DbHeader) -> Result<DbHeader, Refusal>
    requires { wal ≡ wal_of (length file.now) (recovered file.now) }
    ensures { result ≡ header_by main_header (found_in false file.now) }
{
    let zero = wal::read_page(file, wal, 0);
    if zero.len() == 0 {
        let last = wal.last_commit_page_count;
        return Ok(recounted(main_header, last));
    }
    header::decode_header(zero)
}

// Judges refusal 8 and those behind it.
fn judge_found(file: &[u8], wal: Wal, storage: FileStorage, options: OpenOptions) -> Outcome<()>
    requires { (wal ≡ wal_of (length file.now) (recovered file.now)) × (header_size ≤ length file.now) × (length file.now ≤ wal_area) }
    ensures { result ≡ opened_answer (judged_found (how_of options) storage.len storage.header (found_in options.clean file.now)) }
{
    match header_by(file, wal, storage.header) {
        Ok(header) => { opened_with(options, storage, kept(file, wal, options.clean), header) }
        Err(_) => refused(Refusal::PageZero),
    }
}

// Judges a log that exists: reads it once, with its checksums.
fn judge_log(file: &[u8], storage: FileStorage, options: OpenOptions) -> Outcome<()>
    requires { length file.now ≤ wal_area }
    ensures { let o = how_of options in
        let x = found_in options.clean file.now in
        result ≡ opened_answer (judged_log (decode_wal_header file.now) (judged_found o storage.len storage.header x)) }
{
    match Wal::open(file) {
        Ok(wal) => judge_found(file, wal, storage, options),
        Err(refusal) => refused(refusal),
    }
}

// A log that does not exist: a fresh one, or read-only an empty one.
fn fresh_wal(options: OpenOptions) -> Wal
    ensures { result ≡ (found_fresh (how_of options)).log }
{
    if writes(options.access_mode) {
        return empty_wal(options.salt);
    }
    empty_wal(0)
}

// Judges refusal 7 and those behind it.
fn judge_behind(
    log: &[u8],
    log_len: usize,
    storage: FileStorage,
    options: OpenOptions,
) -> Outcome<()>
    requires { log_len ≤ wal_area }
    ensures { (let f : File = record { area = log.now; len = log_len } in
        result ≡ opened_answer (judged_behind (how_of options) storage.len f storage.header)) }
{
    if !covers(storage.len, storage.header) {
        return refused(Refusal::MainShort);
    }
    if options.log_exists {
        return judge_log(le::part(log, 0, log_len), storage, options);
    }
    opened_with(options, storage, fresh_wal(options), storage.header)
}

// The main file's own header.
fn read_header(main: &[u8], main_len: usize) -> Result<DbHeader, Refusal>
    ensures { result ≡ main_header_of (record { area = main.now; len = main_len }) }
{
    if main_len < PAGE_SIZE {
        return Err(Refusal::Short);
    }
    header::decode_header(le::part(main, 0, PAGE_SIZE))
}

// Judges every refusal but 1, and changes nothing.
fn judge(
    log: &[u8],
    main: &[u8],
    log_len: usize,
    main_len: usize,
    options: OpenOptions,
) -> Outcome<()>
    requires { log_len ≤ wal_area }
    ensures { result ≡ opened_answer (judged_files (how_of options) (files main.now main_len log.now log_len)) }
{
    match read_header(main, main_len) {
        Ok(header) => {
            let storage = FileStorage {
                len: main_len,
                header,
            };
            judge_behind(log, log_len, storage, options)
        }
        Err(refusal) => refused(refusal),
    }
}

// Stores a fresh log's header where there is no log and it may be written.
fn store_log(log: &mut [u8], options: OpenOptions)
    ensures { let l = log.old in
        log.new ≡ pick options.log_exists l (pick (writes options.access_mode) (with_header l (created_header options.salt)) l) }
{
    if !options.log_exists && writes(options.access_mode) {
        let _ = wal::create(log, options.salt);
    }
}

// Either opening.
fn open(
    table: &mut [u32],
    log: &mut [u8],
    main: &[u8],
    staging: &[u8],
    main_len: usize,
    log_len: usize,
    options: OpenOptions,
) -> Outcome<()>
    ensures result_value { let d = files main.now main_len log.old log_len in
        let o = how_of options in
        result ≡ opened_answer (open_pager o table.old d staging.now) }
    ensures table_after { let d = files main.now main_len log.old log_len in
        let o = how_of options in
        table.new ≡ open_table o table.old d staging.now }
    ensures log_after { let d = files main.now main_len log.old log_len in
        let o = how_of options in
        log.new ≡ open_log_area o table.old d staging.now }
{
    if !are_fine(
        table.len(),
        log.len(),
        log_len,
        main.len(),
        main_len,
        staging.len(),
    ) {
        return refused(Refusal::Area);
    }
    let opened = judge(log, main, log_len, main_len, options);
    let answer = opened.answer;
    let Ok(()) = answer else {
        return opened;
    };
    let pager = opened.pager;
    fill_table(
        table,
        le::part(log, 0, pager.recovered),
        pager.storage.header,
    );
    store_log(log, options);
    opened
}

// Opens a store as the Rust does, which keeps what stands in the log behind the commit point.
pub fn open_with_mode(
    table: &mut [u32],
    log: &mut [u8],
    main: &[u8],
    staging: &[u8],
    main_len: usize,
    log_len: usize,
    access_mode: AccessMode,
    log_exists: bool,
    salt: u32,
) -> Outcome<()>
    ensures result_value { let d = files main.now main_len log.old log_len in
        let o = how false access_mode log_exists salt in
        result ≡ opened_answer (open_pager o table.old d staging.now) }
    ensures table_after { let d = files main.now main_len log.old log_len in
        let o = how false access_mode log_exists salt in
        table.new ≡ open_table o table.old d staging.now }
    ensures log_after { let d = files main.now main_len log.old log_len in
        let o = how false access_mode log_exists salt in
        log.new ≡ open_log_area o table.old d staging.now }
{
    let options = OpenOptions {
        clean: false,
        access_mode,
        log_exists,
        salt,
    };
    open(table, log, main, staging, main_len, log_len, options)
}

// Opens a store cleanly: the log ends at its commit point, and the clock is the larger of the log header's and the greatest commit time up to there.
pub fn open_clean(
    table: &mut [u32],
    log: &mut [u8],
    main: &[u8],
    staging: &[u8],
    main_len: usize,
    log_len: usize,
    access_mode: AccessMode,
    log_exists: bool,
    salt: u32,
) -> Outcome<()>
    ensures result_value { let d = files main.now main_len log.old log_len in
        let o = how true access_mode log_exists salt in
        result ≡ opened_answer (open_pager o table.old d staging.now) }
    ensures table_after { let d = files main.now main_len log.old log_len in
        let o = how true access_mode log_exists salt in
        table.new ≡ open_table o table.old d staging.now }
    ensures log_after { let d = files main.now main_len log.old log_len in
        let o = how true access_mode log_exists salt in
        log.new ≡ open_log_area o table.old d staging.now }
{
    let options = OpenOptions {
        clean: true,
        access_mode,
        log_exists,
        salt,
    };
    open(table, log, main, staging, main_len, log_len, options)
}

// Stores the header's page and an empty table page behind it.
fn store_pages(main: &mut [u8], header: DbHeader)
    requires { 2 * page_size ≤ length main.old }
    ensures { main.new ≡ put (put main.old 0 (encode_header header)) page_size empty_table_page }
{
    let _ = header::encode_header(header, &mut main[0..PAGE_SIZE]);
    let _ = page::TablePage::empty(&mut main[PAGE_SIZE..2 * PAGE_SIZE]);
}

// Makes the areas a new store: a header, an empty table page, and a log without frames.
pub fn create(
    table: &mut [u32],
    log: &mut [u8],
    main: &mut [u8],
    staging: &[u8],
    salt: u32,
) -> Outcome<()>
    ensures value { result ≡ create table.old log.old main.old staging.now salt }
    ensures table_after { table.new ≡ create_table table.old log.old main.old staging.now }
    ensures log_after { log.new ≡ create_log table.old log.old main.old staging.now salt }
    ensures main_after { main.new ≡ create_main table.old log.old main.old staging.now salt }
{
    if !are_fine(table.len(), log.len(), 0, main.len(), 0, staging.len()) {
        return Outcome {
            answer: Err(Refusal::Area),
            pager: no_store(),
        };
    }
    let header = DbHeader {
        page_count: 2,
        schema_root_page: 1,
        format_version: header::FORMAT_VERSION_BASELINE,
        freelist_head: 0,
    };
    store_pages(main, header);
    let _ = wal::create(log, salt);
    clear_table(table, header);
    let storage = FileStorage {
        len: 2 * PAGE_SIZE,
        header,
    };
    Outcome {
        answer: Ok(()),
        pager: open_store(header, storage, empty_wal(salt), Opening::Clean),
    }
}
