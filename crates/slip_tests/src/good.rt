// Good slips, and what the sheet then holds.
use crate::checks::check_taken;
use sheet::records::{Job, Link};
use std::test::Fail;

fn job(station: u32, duration: u32, release: u32, due: u32) -> Job {
    Job {
        station,
        duration,
        release,
        due,
    }
}

fn link(from: usize, to: usize, wait: u32) -> Link {
    Link { from, to, wait }
}

#[test]
fn good_slips_are_taken(rt: HostRuntime) -> Result<(), Fail> {
    check_taken(&rt, b"E 0 0 0\n", &[], &[])?;
    check_taken(&rt, b"J 0 5 0 12\nE 1 0 11\n", &[job(0, 5, 0, 12)], &[])?;
    check_taken(
        &rt,
        b"J 0 5 0 12\nJ 0 4 0 9\nL 0 1 0\nE 2 1 21\n",
        &[job(0, 5, 0, 12), job(0, 4, 0, 9)],
        &[link(0, 1, 0)],
    )
}

#[test]
fn limits_are_taken(rt: HostRuntime) -> Result<(), Fail> {
    check_taken(
        &rt,
        b"J 7 2000 0 2000\nJ 0 1 39999 40000\nL 0 1 2000\nL 1 0 0\nE 2 2 34\n",
        &[job(7, 2_000, 0, 2_000), job(0, 1, 39_999, 40_000)],
        &[link(0, 1, 2_000), link(1, 0, 0)],
    )
}
