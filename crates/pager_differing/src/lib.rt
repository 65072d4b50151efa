// Which pages a commit stores: the staged pages that differ, one after another or all at once, and the first that is missing.
#![tactic(auto)]

ghost use Rattle.std.specs.Prelude.{◌≡◌, ◌+◌, ◌<◌, ◌≤◌, not, length, take, drop, IfSome, IfNone, MatchOption, ◌==◌};
ghost use Rattle.le.specs.Choice.{both};
ghost use Rattle.le.specs.Le.{same_bytes};
ghost use Rattle.pager_state.specs.World.{page_limit, staged_limit};
ghost use Rattle.pager_state.specs.Overlay.{find_in, slot_of, is_staged, committed_in};
ghost use Rattle.pager_state.specs.Pages.{pages_from, first_of, differs_in, lacks};
ghost use Rattle.pager_differing.specs.Differing.{next_in, slot_differs, counts_at, Found, Marks};

use page::PAGE_SIZE;
use pager_state::{Areas, PAGES, STAGED_PAGES, Staged};

// A staged page and its slot.
#[derive(Clone, Copy)]
pub struct Slot {
    pub page: usize,
    pub index: usize,
}

// The lowest page from `page` on among the first n; 1,024 if there is none. It is the one that rises least above `page`, where those below
// wrap round: the compiler takes the least of eight differences at once.
fn lowest(s: &[u16], n: usize, page: usize) -> usize
    requires { page < page_limit }
    ensures { result ≡ next_in (take n s.now) page }
{
    let from = page as u16;
    let mut least = u16::MAX;
    for number in &s[..n.min(s.len())] {
        least = least.min(number.wrapping_sub(from));
    }
    PAGES.min(page + usize::from(least))
}

// The first page from `page` on among the first n numbers, and where it stands.
pub fn next_of(s: &[u16; STAGED_PAGES], n: usize, page: usize) -> Option<Slot>
    ensures none { IfNone result (next_in (take n s.now) page ≡ page_limit) }
    ensures found { IfSome result (λ slot. Found (next_in (take n s.now) page) (find_in (take n s.now)) slot) }
{
    if PAGES <= page {
        return None;
    }
    let found = lowest(s, n, page);
    if PAGES <= found {
        return None;
    }
    let index = pager_state::find_among(s, n, found);
    Some(Slot { page: found, index })
}

// The bytes that a page was last committed with: the log's, else the main file's, else none.
fn committed_page<'a>(areas: Areas<'a>, page: usize) -> &'a [u8]
    requires { page < page_limit }
    ensures { let a = areas.entry in
        result.now ≡ committed_in a.table.now a.log.now a.main.now page }
{
    let at = pager_state::frame_of(areas.table, page);
    if at != 0 {
        return frame::frame_body(areas.log, at);
    }
    if pager_state::on_main(areas.table, page) {
        return pager_state::page_from(areas.main, PAGE_SIZE * page);
    }
    &areas.log[..0]
}

// Whether the 64 bytes from `at` on differ in two pages.
fn part_differs(new: &[u8], old: &[u8], at: usize) -> bool
    ensures { result ≡ not (same_bytes (take 64 (drop at new.now)) (take 64 (drop at old.now))) }
{
    !le::same(le::part(new, at, 64), le::part(old, at, 64))
}

// Whether a slot's bytes differ from those of a page. A page fills from both ends, and most changes show at one of them: there it is
// looked at first.
fn is_differing(areas: Areas, page: usize, slot: usize) -> bool
    requires { (page < page_limit) × (slot < staged_limit) }
    ensures { let a = areas.entry in
        result ≡ slot_differs a.staging.now a.table.now a.log.now a.main.now page slot }
{
    let new = pager_state::page_from(areas.staging, PAGE_SIZE * slot);
    let old = committed_page(areas, page);
    if part_differs(new, old, 0) {
        return true;
    }
    if part_differs(new, old, PAGE_SIZE - 64) {
        return true;
    }
    !le::same(new, old)
}

// The first differing page from `page` on.
pub fn next_differing(staged: Staged, areas: Areas, page: usize) -> Option<Slot>
    ensures none { let a = areas.entry in
        let differs = differs_in staged a.staging.now a.table.now a.log.now a.main.now in
        IfNone result (first_of (pages_from differs page) ≡ page_limit) }
    ensures found { let a = areas.entry in
        let differs = differs_in staged a.staging.now a.table.now a.log.now a.main.now in
        IfSome result (λ slot. Found (first_of (pages_from differs page)) (slot_of staged) slot) }
    ensures index_lt_staged_limit { IfSome result (λ slot. slot.index < staged_limit) }
{
    let mut from = page;
    while let Some(found) = next_of(&staged.pages, staged.count, from) {
        if is_differing(areas, found.page, found.index) {
            return Some(found);
        }
        from = found.page + 1;
    }
    None
}

// Whether a slot has a differing page; `first` is the slot in which that page stands first.
#[tactic(auto, unfolding(crate::specs::Differing::counts_at))]
fn is_counted(first: usize, areas: Areas, page: usize, slot: usize) -> bool
    requires { slot < staged_limit }
    ensures { let a = areas.entry in
        result ≡ counts_at first a.staging.now a.table.now a.log.now a.main.now page slot }
{
    page < PAGES && first == slot && is_differing(areas, page, slot)
}

// The staged pages that differ, each in its slot, and in the other slots a number that is no page's; and how many they are.
#[derive(Clone, Copy)]
pub struct Marked {
    pub pages: [u16; STAGED_PAGES],
    pub count: usize,
}

// Compares every staged page, once.
pub fn mark_differing(staged: Staged, areas: Areas) -> Marked
    ensures count_value { let a = areas.entry in
        let differs = differs_in staged a.staging.now a.table.now a.log.now a.main.now in
        result.count ≡ length (pages_from differs 0) }
    ensures count_le_staged_limit { (result.count ≤ staged_limit) × (length result.pages ≡ staged_limit) }
    ensures fact { let a = areas.entry in
        let differs = differs_in staged a.staging.now a.table.now a.log.now a.main.now in
        Marks differs staged (take staged.count result.pages) }
{
    let end = staged.count.min(STAGED_PAGES);
    let mut pages = [u16::MAX; STAGED_PAGES];
    let mut count: usize = 0;
    for i in 0..end {
        let number = staged.pages[i];
        let page = usize::from(number);
        let first = pager_state::find_among(&staged.pages, staged.count, page);
        if is_counted(first, areas, page, i) {
            pages[i] = number;
            count += 1;
        }
    }
    Marked { pages, count }
}

// Whether a page is staged.
fn is_staged(staged: Staged, page: usize) -> bool
    ensures { result ≡ is_staged staged page }
{
    let slots = staged.count.min(STAGED_PAGES);
    pager_state::find_among(&staged.pages, staged.count, page) < slots
}

// The first page that joins and isn't staged.
pub fn first_lacking(staged: Staged, old: u32, new: u32) -> Option<usize>
    ensures { let first = first_of (pages_from (lacks staged old new) 0) in
        MatchOption result (first ≡ page_limit) (λ p. (p ≡ first) × (p < page_limit)) }
{
    let start = (old as usize).max(1);
    let end = (new as usize).min(PAGES);
    (start..end).find(|p| !is_staged(staged, *p))
}
