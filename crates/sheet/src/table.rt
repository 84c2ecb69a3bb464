// The tables in which a sheet keeps its jobs and links, and what they always keep to.
ghost use Rattle.sheet.specs.Sound.{Sound};

use crate::limits::{MAX_JOBS, MAX_LINKS};
use crate::records::{Job, Link};
use arrayvec::ArrayVec;

/// Jobs and links in order of entry.
#[derive(Drop)]
pub struct Sheet {
    pub(crate) jobs: ArrayVec<Job, MAX_JOBS>,
    pub(crate) links: ArrayVec<Link, MAX_LINKS>,
    ghost sound: { Sound (record { jobs = jobs.items; links = links.items }) },
}
