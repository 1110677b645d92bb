//! What programs write, with their status and their numbers.
use crate::led::{Most, USUAL, ending_of, faults_of};
use crate::programs::*;
use herm_text::Asked;
use herm_world::Counts;
use std::alloc::{AllocError, Global};
use std::process::Abort;
use std::test::Fail;

/// A program's files and limits, and what it is to come to.
#[derive(Clone, Copy)]
struct Row<'a> {
    files: &'a [&'a [u8]],
    most: Most,
    text: &'a str,
    status: u8,
    counts: Option<Counts>,
}

/// The numbers of processes, of ports, of steps and actions, and of cells, in the order of the summary.
fn counts(processes: [u64; 4], ports: [u64; 2], work: [u64; 2], cells: [u64; 4]) -> Option<Counts> {
    Some(Counts {
        processes: processes[0],
        ended: processes[1],
        waiting: processes[2],
        stopped: processes[3],
        ports: ports[0],
        unclosed: ports[1],
        steps: work[0],
        actions: work[1],
        made: cells[0],
        held: cells[1],
        queued: cells[2],
        finalised: cells[3],
    })
}

/// A program with the usual limits, of which one process is made and ends, and which writes this.
fn alone<'a>(files: &'a [&'a [u8]], text: &'a str, counts: Option<Counts>) -> Row<'a> {
    Row {
        files,
        most: USUAL,
        text,
        status: 0,
        counts,
    }
}

/// Each program comes to what its row says, by rounds.
fn hold(rt: &impl Abort, alloc: Global, rows: &[Row<'_>]) -> Result<(), AllocError> {
    for row in rows {
        let Some(found) = ending_of(alloc, row.files, row.most, &[], Asked::Plain)? else {
            assert_eq!(rt; "refused", row.text);
            continue;
        };
        assert_eq!(rt; found.text.as_slice(), row.text.as_bytes());
        assert_eq!(rt; found.status, row.status);
        if let Some(wanted) = row.counts {
            assert_eq!(rt; found.counts, wanted);
        }
    }
    Ok(())
}

#[test]
fn one_process_ends(rt: HostRuntime) -> Result<(), Fail> {
    let rows = [
        alone(
            &[GREETING],
            "hi\n",
            counts([1, 1, 0, 0], [2, 1], [3, 3], [6, 1, 1, 4]),
        ),
        alone(
            &[EMPTY],
            "",
            counts([1, 1, 0, 0], [2, 1], [0, 1], [5, 1, 0, 4]),
        ),
        alone(
            &[BRANCH],
            "",
            counts([1, 1, 0, 0], [2, 1], [4, 2], [6, 1, 0, 5]),
        ),
        alone(&[VARIANTS, REVEALS], "", None),
        alone(&[WRAPS], "16\n", None),
    ];
    hold(&rt, rt.alloc(), &rows)?;
    Ok(())
}

#[test]
fn tables_keep_their_rows(rt: HostRuntime) -> Result<(), Fail> {
    let rows = [
        alone(
            &[TABLES, INSERTED_TWICE],
            "1\n",
            counts([1, 1, 0, 0], [2, 1], [10, 3], [11, 1, 1, 9]),
        ),
        alone(
            &[TABLES, LEFT_EARLY],
            "1\n",
            counts([1, 1, 0, 0], [2, 1], [12, 3], [15, 1, 1, 13]),
        ),
    ];
    hold(&rt, rt.alloc(), &rows)?;
    Ok(())
}

#[test]
fn ports_close_with_what_they_hold(rt: HostRuntime) -> Result<(), Fail> {
    let rows = [
        Row {
            most: Most { ports: 3, ..USUAL },
            ..alone(
                &[INTEGER_PORTS, THREE_PORTS],
                "full\n",
                counts([1, 1, 0, 0], [4, 1], [6, 8], [8, 1, 1, 6]),
            )
        },
        Row {
            most: Most { ports: 4, ..USUAL },
            ..alone(&[INTEGER_PORTS, THREE_PORTS], "", None)
        },
        alone(
            &[POLYMORPH_PORTS, SENT_TO_ITSELF],
            "",
            counts([1, 1, 0, 0], [3, 2], [4, 3], [8, 1, 2, 5]),
        ),
        alone(
            &[BOTH_PORTS, CLOSES_A_QUEUE],
            "",
            counts([1, 1, 0, 0], [4, 1], [17, 10], [16, 1, 0, 15]),
        ),
    ];
    hold(&rt, rt.alloc(), &rows)?;
    Ok(())
}

#[test]
fn calls_are_answered_or_lost(rt: HostRuntime) -> Result<(), Fail> {
    let called = counts([2, 2, 0, 0], [3, 1], [8, 9], [11, 1, 1, 9]);
    let untaken = counts([2, 2, 0, 0], [3, 1], [6, 6], [11, 1, 1, 9]);
    let rows = [
        alone(&[ASKS, DISCARDS, CALLS], "q\n", called),
        alone(&[ASKS, TAKES_NOTHING, CALLS], "q\n", untaken),
        alone(&[ASKS, RETURNS, CALLS_AND_WRITES], "w\n", called),
        alone(&[ASKS_KEEPING, DENIES, CALLS_FOR_KEPT], "w\n", called),
        alone(
            &[ASKS_KEEPING, DENIES_BY_DISCARD, CALLS_FOR_KEPT],
            "q\n",
            None,
        ),
    ];
    hold(&rt, rt.alloc(), &rows)?;
    Ok(())
}

#[test]
fn processes_wait(rt: HostRuntime) -> Result<(), Fail> {
    let rows = [
        Row {
            status: 7,
            ..alone(
                &[PEERS, PEER, CALLS_ITS_PEER],
                "hermes: process 1 waits for a reply\n",
                counts([2, 0, 2, 0], [5, 5], [12, 7], [16, 9, 7, 0]),
            )
        },
        Row {
            status: 7,
            ..alone(
                &[INTEGER_PORTS, SELECTS],
                "hermes: process 1 waits on port 3 2\n",
                counts([1, 0, 1, 0], [4, 4], [2, 2], [7, 4, 3, 0]),
            )
        },
        Row {
            status: 7,
            ..alone(&[TWO_RECEIVES], "hermes: process 1 waits on port 1\n", None)
        },
    ];
    hold(&rt, rt.alloc(), &rows)?;
    Ok(())
}

#[test]
fn limits_and_exceptions_end_a_run(rt: HostRuntime) -> Result<(), Fail> {
    let rows = [
        Row {
            most: Most { steps: 3, ..USUAL },
            status: 8,
            ..alone(
                &[BRANCH],
                "hermes: process 1 spent 3 steps\n",
                counts([1, 0, 0, 1], [2, 2], [3, 1], [6, 5, 0, 1]),
            )
        },
        Row {
            most: Most {
                steps: 1000,
                ..USUAL
            },
            status: 8,
            ..alone(&[ENDLESS], "hermes: process 1 spent 1000 steps\n", None)
        },
        Row {
            status: 6,
            ..alone(&[OVERFLOWS], "hermes: main ended by Overflow\n", None)
        },
        Row {
            most: Most {
                processes: 1,
                ..USUAL
            },
            status: 6,
            ..alone(
                &[ASKS, DISCARDS, CALLS],
                "hermes: main ended by Depletion\n",
                None,
            )
        },
    ];
    hold(&rt, rt.alloc(), &rows)?;
    Ok(())
}

#[test]
fn two_senders_are_heard_in_order(rt: HostRuntime) -> Result<(), Fail> {
    let sums = counts([3, 3, 0, 0], [5, 1], [2425, 413], [1223, 1, 1, 1221]);
    let rows = [alone(&[ITEMS, SENDER, RECEIVER], "100 100\n", sums)];
    hold(&rt, rt.alloc(), &rows)?;
    Ok(())
}

/// The main of a ring of so many nodes, whose token makes so many hops.
fn ring(alloc: Global, nodes: &[u8], hops: &[u8]) -> Result<Vec<u8>, AllocError> {
    let mut text = Vec::new(alloc);
    for piece in [RING, nodes, RING_TOKEN, hops, RING_END] {
        text.extend_from_slice(piece)?;
    }
    Ok(text)
}

/// The token of a ring of so many nodes comes home, with these numbers.
fn comes_home(
    rt: &impl Abort,
    alloc: Global,
    nodes: &[u8],
    hops: &[u8],
    sums: Option<Counts>,
) -> Result<(), AllocError> {
    let main = ring(alloc, nodes, hops)?;
    let files = [RINGS, NODE, main.as_slice()];
    let home = alone(&files, "token home\n", sums);
    hold(rt, alloc, &[home])
}

#[test]
fn a_token_comes_home(rt: HostRuntime) -> Result<(), Fail> {
    let alloc = rt.alloc();
    let sums = counts([2, 2, 0, 0], [4, 1], [624, 212], [117, 1, 1, 115]);
    comes_home(&rt, alloc, b"1", b"100", sums)?;
    let sums = counts([4, 4, 0, 0], [8, 1], [1862, 628], [337, 1, 1, 335]);
    comes_home(&rt, alloc, b"3", b"300", sums)?;
    Ok(())
}

#[test]
fn a_ring_of_64_nodes_wants_65_processes(rt: HostRuntime) -> Result<(), Fail> {
    let alloc = rt.alloc();
    let main = ring(alloc, b"64", b"6400")?;
    let files = [RINGS, NODE, main.as_slice()];
    let home = alone(
        &files,
        "token home\n",
        counts([65, 65, 0, 0], [130, 1], [39621, 13316], [7047, 1, 1, 7045]),
    );
    let rows = [
        Row {
            most: Most {
                processes: 65,
                ..USUAL
            },
            ..home
        },
        Row {
            text: "hermes: main ended by Depletion\n",
            status: 6,
            counts: None,
            ..home
        },
    ];
    hold(&rt, alloc, &rows)?;
    Ok(())
}

#[test]
fn refused_programs_have_their_faults(rt: HostRuntime) -> Result<(), Fail> {
    let rows: [(&[&[u8]], (u32, u32, u8)); 3] = [
        (&[ASKS, DISCARDS, CALLS_AND_WRITES_LOST], (2, 190, 13)),
        (&[VARIANTS, DISSOLVES], (1, 102, 13)),
        (&[TOO_LONG], (0, 56, 3)),
    ];
    for (files, wanted) in rows {
        let found = faults_of(rt.alloc(), files)?;
        assert_eq!(rt; found.as_slice(), [wanted].as_slice());
    }
    Ok(())
}
