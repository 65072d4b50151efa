// The open store, an open log and what is part done, in numbers, and back. Any numbers make a store: a kind of job that there is
// not is none, and a kind of opening that there is not writes nothing.
// Numbers for kinds, and counts with a flag beside them: the C interface.
#![tactic(auto)]

ghost use Rattle.std.specs.Prelude.{◌≡◌};
ghost use Rattle.pager_state.specs.Opening.{no_header};
ghost use Rattle.capi_numbers.specs.Numbers.{last_in, wal_in, committed_of, last_commit_count, numbers_of_wal, job_in, plain_job, job_of, opening_in, opening_number, pager_in, store_of};

use header::DbHeader;
use pager_state::{FileStorage, Job, Opening, Pager, Staged};
use wal::{Wal, WalHeader};

#[repr(C)]
#[derive(Clone, Copy)]
pub struct WalNumbers {
    pub header: WalHeader,
    pub len: usize,
    pub good_end: usize,
    pub last_commit_offset: usize,
    pub frame_count: usize,
    // 0: nothing is committed.
    pub committed: u32,
    pub last_commit_page_count: u32,
}

#[repr(C)]
#[derive(Clone, Copy)]
pub struct JobNumbers {
    // 0 none, 1 commit, 2 checkpoint, 3 main length, 4 log length, 5 log header.
    pub kind: u32,
    pub salt: u32,
    pub page: usize,
    pub answer: usize,
    pub header: DbHeader,
}

#[repr(C)]
#[derive(Clone, Copy)]
pub struct Store {
    pub current_header: DbHeader,
    pub wal: WalNumbers,
    pub recovered: usize,
    pub storage: FileStorage,
    pub staged: Staged,
    pub job: JobNumbers,
    // 0 created or clean, 1 plain, 2 read-only, 3 read-only without a log.
    pub opening: u32,
}

fn last_in(committed: u32, count: u32) -> Option<u32>
    ensures { result ≡ last_in committed count }
{
    if committed == 0 {
        return None;
    }
    Some(count)
}

impl From<WalNumbers> for Wal {
    ghost from_gives = { λ w result. result ≡ wal_in w };

    #[tactic(auto, unfolding(crate::specs::Numbers::wal_in))]
    fn from(w: WalNumbers) -> Wal {
        Wal {
            header: w.header,
            len: w.len,
            good_end: w.good_end,
            last_commit_offset: w.last_commit_offset,
            last_commit_page_count: last_in(w.committed, w.last_commit_page_count),
            frame_count: w.frame_count,
        }
    }
}

fn committed_of(last: Option<u32>) -> u32
    ensures { result ≡ committed_of last }
{
    u32::from(last.is_some())
}

fn count_of(last: Option<u32>) -> u32
    ensures { result ≡ last_commit_count last }
{
    last.unwrap_or(0)
}

impl From<Wal> for WalNumbers {
    ghost from_gives = { λ w result. result ≡ numbers_of_wal w };

    #[tactic(auto, unfolding(crate::specs::Numbers::numbers_of_wal))]
    fn from(w: Wal) -> WalNumbers {
        WalNumbers {
            header: w.header,
            len: w.len,
            good_end: w.good_end,
            last_commit_offset: w.last_commit_offset,
            frame_count: w.frame_count,
            committed: committed_of(w.last_commit_page_count),
            last_commit_page_count: count_of(w.last_commit_page_count),
        }
    }
}

impl From<JobNumbers> for Job {
    ghost from_gives = { λ j result. result ≡ job_in j };

    #[tactic(auto, unfolding(crate::specs::Numbers::job_in))]
    fn from(j: JobNumbers) -> Job {
        let salt = j.salt;
        let page = j.page;
        let answer = j.answer;
        match j.kind {
            1 => Job::Commit {
                header: j.header,
                salt,
                page,
                answer,
            },
            2 => Job::Checkpoint { salt, page, answer },
            3 => Job::MainLength { salt, answer },
            4 => Job::LogLength { salt, answer },
            5 => Job::LogHeader { salt, answer },
            _ => Job::Idle,
        }
    }
}

pub fn no_header() -> DbHeader
    ensures { result ≡ no_header }
{
    DbHeader {
        page_count: 0,
        schema_root_page: 0,
        format_version: 0,
        freelist_head: 0,
    }
}

fn plain_job(kind: u32, salt: u32, page: usize, answer: usize) -> JobNumbers
    ensures { result ≡ plain_job kind salt page answer }
{
    JobNumbers {
        kind,
        salt,
        page,
        answer,
        header: no_header(),
    }
}

impl From<Job> for JobNumbers {
    ghost from_gives = { λ job result. result ≡ job_of job };

    #[tactic(auto, unfolding(crate::specs::Numbers::job_of))]
    fn from(job: Job) -> JobNumbers {
        match job {
            Job::Idle => plain_job(0, 0, 0, 0),
            Job::Commit {
                header,
                salt,
                page,
                answer,
            } => JobNumbers {
                kind: 1,
                salt,
                page,
                answer,
                header,
            },
            Job::Checkpoint { salt, page, answer } => plain_job(2, salt, page, answer),
            Job::MainLength { salt, answer } => plain_job(3, salt, 0, answer),
            Job::LogLength { salt, answer } => plain_job(4, salt, 0, answer),
            Job::LogHeader { salt, answer } => plain_job(5, salt, 0, answer),
        }
    }
}

// Neither type is of this crate, so that an impl of From cannot stand here.
fn opening_in(n: u32) -> Opening
    ensures { result ≡ opening_in n }
{
    match n {
        0 => Opening::Clean,
        1 => Opening::Plain,
        2 => Opening::ReadOnly,
        _ => Opening::NoLog,
    }
}

// A function for the same reason.
fn opening_of(opening: Opening) -> u32
    ensures { result ≡ opening_number opening }
{
    match opening {
        Opening::Clean => 0,
        Opening::Plain => 1,
        Opening::ReadOnly => 2,
        Opening::NoLog => 3,
    }
}

impl From<Store> for Pager {
    ghost from_gives = { λ s result. result ≡ pager_in s };

    #[tactic(auto, unfolding(crate::specs::Numbers::pager_in))]
    fn from(s: Store) -> Pager {
        Pager {
            current_header: s.current_header,
            wal: Wal::from(s.wal),
            recovered: s.recovered,
            storage: s.storage,
            staged: s.staged,
            job: Job::from(s.job),
            opening: opening_in(s.opening),
        }
    }
}

impl From<Pager> for Store {
    ghost from_gives = { λ p result. result ≡ store_of p };

    #[tactic(auto, unfolding(crate::specs::Numbers::store_of))]
    fn from(p: Pager) -> Store {
        Store {
            current_header: p.current_header,
            wal: WalNumbers::from(p.wal),
            recovered: p.recovered,
            storage: p.storage,
            staged: p.staged,
            job: JobNumbers::from(p.job),
            opening: opening_of(p.opening),
        }
    }
}
