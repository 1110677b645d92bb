//! How many processes have ended, wait or are stopped.
ghost use Rattle.std.specs.Prelude.{◌≡◌};
ghost use Rattle.herm_system.specs.ProcessFates.{has_ended, is_waiting, is_stopped};
ghost use Rattle.herm_system.specs.Summary.{how_many};
ghost use Rattle.herm_report.specs.View.{proc_end_view, proc_ends_view};

use herm_report::{End, ProcEnd, Spent};

fn is_end(end: &ProcEnd) -> bool
    ensures is { result ≡ has_ended (proc_end_view end.now) }
{
    match end {
        ProcEnd::Ended(End::Normal) => true,
        ProcEnd::Ended(End::By(_)) => true,
        ProcEnd::Waiting(_) => false,
        ProcEnd::Stopped(Spent::Steps(_)) => false,
        ProcEnd::Stopped(Spent::Actions(_)) => false,
    }
}

fn is_wait(end: &ProcEnd) -> bool
    ensures is { result ≡ is_waiting (proc_end_view end.now) }
{
    match end {
        ProcEnd::Ended(End::Normal) => false,
        ProcEnd::Ended(End::By(_)) => false,
        ProcEnd::Waiting(_) => true,
        ProcEnd::Stopped(Spent::Steps(_)) => false,
        ProcEnd::Stopped(Spent::Actions(_)) => false,
    }
}

fn is_stop(end: &ProcEnd) -> bool
    ensures is { result ≡ is_stopped (proc_end_view end.now) }
{
    match end {
        ProcEnd::Ended(End::Normal) => false,
        ProcEnd::Ended(End::By(_)) => false,
        ProcEnd::Waiting(_) => false,
        ProcEnd::Stopped(Spent::Steps(_)) => true,
        ProcEnd::Stopped(Spent::Actions(_)) => true,
    }
}

/// How many processes have ended.
pub fn ended(ends: &[ProcEnd]) -> u64
    ensures ended { result ≡ how_many has_ended (proc_ends_view ends.now) }
{
    let mut count = 0;
    for end in ends {
        if is_end(end) {
            count += 1;
        }
    }
    count
}

/// How many processes wait.
pub fn waiting(ends: &[ProcEnd]) -> u64
    ensures waiting { result ≡ how_many is_waiting (proc_ends_view ends.now) }
{
    let mut count = 0;
    for end in ends {
        if is_wait(end) {
            count += 1;
        }
    }
    count
}

/// How many processes a limit has stopped.
pub fn stopped(ends: &[ProcEnd]) -> u64
    ensures stopped { result ≡ how_many is_stopped (proc_ends_view ends.now) }
{
    let mut count = 0;
    for end in ends {
        if is_stop(end) {
            count += 1;
        }
    }
    count
}
