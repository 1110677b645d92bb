//! Worlds along schedules and by steps.
use crate::led::{Most, Turned, USUAL, ending_of, turn_of};
use crate::programs::{
    CREATES_IDLE, ENDLESS, GREETING, IDLE, IDLE_PORTS, ITEMS, RECEIVER, SENDER, TWO_RECEIVES,
};
use herm_text::Asked;
use herm_world::WorldStep;
use std::alloc::{AllocError, Global};
use std::test::Fail;

#[test]
fn the_greeting_goes_along_its_schedule(rt: HostRuntime) -> Result<(), Fail> {
    let schedules: [&[u32]; 2] = [&[1, 1, 1, 1], &[2, 1, 1, 1, 0, 1, 1, 1, 1, 1]];
    for schedule in schedules {
        let Some(found) = ending_of(rt.alloc(), &[GREETING], USUAL, schedule, Asked::WithSummary)?
        else {
            assert_eq!(rt; "refused", "accepted");
            return Ok(());
        };
        let wanted =
            "hi\nsummary: processes 1 ended 1 waiting 0 stopped 0\nsummary: ports 2 open 1\nsummary: steps 3 actions 3\nsummary: cells made 6 held 1 queued 1 finalised 4\n";
        assert_eq!(rt; found.text.as_slice(), wanted.as_bytes());
        assert_eq!(rt; found.status, 0);
    }
    Ok(())
}

/// So many turns of process 1.
fn turns_of_main(alloc: Global, count: usize) -> Result<Vec<u32>, AllocError> {
    let mut schedule = Vec::new(alloc);
    for _ in 0..count {
        schedule.push(1)?;
    }
    Ok(schedule)
}

#[test]
fn two_senders_wait_for_their_receiver(rt: HostRuntime) -> Result<(), Fail> {
    let schedule = turns_of_main(rt.alloc(), 3000)?;
    let Some(found) = ending_of(
        rt.alloc(),
        &[ITEMS, SENDER, RECEIVER],
        USUAL,
        schedule.as_slice(),
        Asked::Plain,
    )?
    else {
        assert_eq!(rt; "refused", "accepted");
        return Ok(());
    };
    assert_eq!(rt; found.text.as_slice(), b"100 100\n".as_slice());
    assert_eq!(rt; found.status, 0);
    Ok(())
}

#[test]
fn a_journal_tells_each_action(rt: HostRuntime) -> Result<(), Fail> {
    let rows: [(&[&[u8]], &str); 2] = [
        (
            &[GREETING],
            "journal: 1 1 port 1 take 0 {\"\",>0}\njournal: 2 1 port 0 put 0 \"hi\"\njournal: 3 1 port 1 close 0\n",
        ),
        (
            &[IDLE_PORTS, IDLE, CREATES_IDLE],
            "journal: 1 1 port 1 take 0 {\"\",>0}\njournal: 2 1 book process 2 2 0\njournal: 3 1 port 1 close 0\njournal: 3 2 port 2 close 0\n",
        ),
    ];
    for (files, wanted) in rows {
        let Some(found) = ending_of(rt.alloc(), files, USUAL, &[], Asked::Journal)? else {
            assert_eq!(rt; "refused", wanted);
            continue;
        };
        assert_eq!(rt; found.text.as_slice(), wanted.as_bytes());
        assert_eq!(rt; found.status, 0);
    }
    Ok(())
}

/// A turn of a process that makes no event, since it cannot step.
fn idle(step: WorldStep) -> Turned {
    Turned {
        before: false,
        step,
        behind: false,
    }
}

#[test]
fn a_turn_makes_an_event_or_says_why_not(rt: HostRuntime) -> Result<(), Fail> {
    let made = Turned {
        before: true,
        step: WorldStep::Stepped,
        behind: true,
    };
    let last = Turned {
        behind: false,
        ..made
    };
    let two = Most { steps: 2, ..USUAL };
    let rows: [(&[u8], Most, &[u32], Turned); 6] = [
        (GREETING, USUAL, &[], made),
        (GREETING, USUAL, &[1, 1, 1], last),
        (GREETING, USUAL, &[1, 1, 1, 1], idle(WorldStep::Ended)),
        (TWO_RECEIVES, USUAL, &[], last),
        (TWO_RECEIVES, USUAL, &[1], idle(WorldStep::Waiting)),
        (ENDLESS, two, &[1, 1], idle(WorldStep::Stopped)),
    ];
    for (file, most, schedule, wanted) in rows {
        let Some((found, _)) = turn_of(rt.alloc(), &[file], most, schedule, Asked::Plain)? else {
            assert_eq!(rt; "refused", "accepted");
            continue;
        };
        assert_eq!(rt; found, wanted);
    }
    Ok(())
}

#[test]
fn a_turn_without_an_event_changes_nothing(rt: HostRuntime) -> Result<(), Fail> {
    let two = Most { steps: 2, ..USUAL };
    let rows: [(&[u8], Most, &[u32]); 3] = [
        (GREETING, USUAL, &[1, 1, 1, 1]),
        (TWO_RECEIVES, USUAL, &[1]),
        (ENDLESS, two, &[1, 1]),
    ];
    for (file, most, schedule) in rows {
        for asked in [Asked::WithSummary, Asked::Journal] {
            let Some((_, found)) = turn_of(rt.alloc(), &[file], most, schedule, asked)? else {
                assert_eq!(rt; "refused", "accepted");
                continue;
            };
            let Some(wanted) = ending_of(rt.alloc(), &[file], most, schedule, asked)? else {
                continue;
            };
            assert_eq!(rt; found.text.as_slice(), wanted.text.as_slice());
            assert_eq!(rt; found.status, wanted.status);
        }
    }
    Ok(())
}
