ghost use Rattle.std.specs.Prelude.{◌≡◌, ◌≢◌, ℕ, ◌≤◌, None, IfSome, take};
ghost use Rattle.herm_edge.specs.Faults.{Rose};
ghost use Rattle.herm_edge.specs.Shelf.{file_at};
ghost use Rattle.herm_edge.specs.Sink.{written_after};

use herm_edge::{
    DirShelf, Loaded, MemShelf, MemSink, Shelf, Sink, Unwritten, WriteBuffer, WriteFault,
    WriteSink, Wrote, flush, put, write_whole,
};
use std::alloc::{AllocError, Global};
use std::fs::Permissions;
use std::io::{self, ErrorKind, Write};
use std::os::unix::fs::{PermissionsExt, symlink};
use std::process::Abort;
use std::rt::Files;
use std::test::Fail;
use std::{env, fs};

// Loads a file and writes it. The answers of a program over any outside are stated and proved so.
fn copy_out<F: Shelf, S: Sink>(name: &str, limit: usize, shelf: &mut F, sink: &mut S) -> u8
    ensures done { result ≡ 0 → IfSome (F.contents shelf.old) (λ files. IfSome (file_at files name.now)
        (λ bytes. S.written sink.new ≡ written_after (S.written sink.old) (take limit bytes))) }
    ensures there { result ≡ 0 → IfSome (F.contents shelf.old) (λ files. file_at files name.now ≢ None) }
    ensures read_fault { result ≡ 3 → Rose (F.faults shelf.old) (F.faults shelf.new) }
    ensures write_fault { result ≡ 4 → Rose (S.faults sink.old) (S.faults sink.new) }
    ensures memory { result ≡ 5 → S.written sink.new ≡ S.written sink.old }
    ensures missing { result ≡ 10 → IfSome (F.contents shelf.old) (λ files. file_at files name.now ≡ None) }
    ensures shelf_count_never_falls { F.faults shelf.old ≤ F.faults shelf.new }
    ensures sink_count_never_falls { S.faults sink.old ≤ S.faults sink.new }
    ensures shelf_same { F.contents shelf.new ≡ F.contents shelf.old }
{
    match shelf.load(name, limit) {
        Loaded::Missing => 10,
        Loaded::Failed => 3,
        Loaded::Memory => 5,
        Loaded::Here(bytes) => match write_whole(sink, &bytes) {
            Ok(()) => 0,
            Err(_) => 4,
        },
    }
}

// What a load is to answer.
#[derive(Clone, Copy, Debug, PartialEq, Eq)]
enum Want<'a> {
    Bytes(&'a [u8]),
    Missing,
    Failed,
    Memory,
}

// Loads a file and compares the answer.
fn loads<F: Shelf>(rt: &impl Abort, shelf: &mut F, name: &str, limit: usize, want: Want<'_>) {
    let answer = shelf.load(name, limit);
    let got = match &answer {
        Loaded::Here(bytes) => Want::Bytes(bytes.as_slice()),
        Loaded::Missing => Want::Missing,
        Loaded::Failed => Want::Failed,
        Loaded::Memory => Want::Memory,
    };
    // A comparison that fails is not to print a MiB of bytes.
    assert!(rt; got == want, "at {name}");
}

// Writes a text and compares the answer.
fn writes<S: Sink>(rt: &impl Abort, sink: &mut S, text: &[u8], want: Result<(), WriteFault>) {
    let got = write_whole(sink, text);
    assert_eq!(rt; got, want);
}

// A sink that takes two bytes at each call, and keeps how many it was handed at each.
#[derive(Drop)]
struct Handed {
    counts: [usize; 4],
    calls: usize,
}

impl Sink for Handed {
    ghost written = { λ _. None };

    ghost faults = { λ _. 0 };

    fn write(&mut self, bytes: &[u8]) -> Wrote {
        if self.calls < 4 {
            self.counts[self.calls] = bytes.len();
            self.calls += 1;
        }
        Wrote::Took(bytes.len().min(2))
    }
}

// A writer that takes one byte at its first call, and fails at the next.
#[derive(Drop)]
struct Breaks {
    broken: bool,
}

impl Write for Breaks {
    fn write(&mut self, buf: &[u8]) -> io::Result<usize> {
        if self.broken {
            return Err(io::Error::from(ErrorKind::BrokenPipe));
        }
        self.broken = true;
        Ok(buf.len().min(1))
    }

    fn flush(&mut self) -> io::Result<()> {
        Ok(())
    }
}

// A shelf of two files.
fn two_files(alloc: Global, failing: Vec<u64>) -> Result<MemShelf, AllocError> {
    let hello = (String::from_str(alloc, "a.hm")?, b"hello".to_vec(alloc)?);
    let empty = (String::from_str(alloc, "b.hm")?, Vec::new(alloc));
    let mut files = Vec::new(alloc);
    files.push(hello)?;
    files.push(empty)?;
    Ok(MemShelf::new(files, failing))
}

#[test]
fn a_shelf_in_memory_answers_by_name_limit_and_number(rt: HostRuntime) -> Result<(), Fail> {
    let alloc = rt.alloc();
    let mut shelf = two_files(alloc, vec![in alloc; 3, 5]?)?;
    loads(&rt, &mut shelf, "a.hm", 10, Want::Bytes(b"hello"));
    loads(&rt, &mut shelf, "a.hm", 4, Want::Bytes(b"hell"));
    loads(&rt, &mut shelf, "a.hm", 4, Want::Failed);
    loads(&rt, &mut shelf, "c.hm", 4, Want::Missing);
    loads(&rt, &mut shelf, "c.hm", 4, Want::Failed);
    loads(&rt, &mut shelf, "b.hm", 4, Want::Bytes(b""));
    Ok(())
}

#[test]
fn a_second_failing_write_leaves_the_first_piece(rt: HostRuntime) -> Result<(), Fail> {
    let alloc = rt.alloc();
    let mut sink = MemSink::new(alloc, 2, vec![in alloc; 2]?)?;
    writes(&rt, &mut sink, b"hi\n", Err(WriteFault { taken: 2 }));
    assert_eq!(rt; sink.written(), b"hi".as_slice());
    writes(&rt, &mut sink, b"\nyou", Ok(()));
    assert_eq!(rt; sink.written(), b"hi\nyou".as_slice());
    Ok(())
}

#[test]
fn the_room_of_a_sink_in_memory_is_one_mib(rt: HostRuntime) -> Result<(), Fail> {
    let alloc = rt.alloc();
    let mut sink = MemSink::new(alloc, usize::MAX, Vec::new(alloc))?;
    let text = vec![in alloc; b'x'; (1 << 20) + 1]?;
    writes(&rt, &mut sink, &text, Err(WriteFault { taken: 1 << 20 }));
    assert_eq!(rt; sink.written().len(), 1 << 20);
    assert_eq!(rt; sink.write(b"a"), Wrote::Failed);
    Ok(())
}

#[test]
fn each_write_is_handed_all_that_is_left(rt: HostRuntime) {
    let mut sink = Handed {
        counts: [0; 4],
        calls: 0,
    };
    writes(&rt, &mut sink, b"", Ok(()));
    assert_eq!(rt; sink.calls, 0);
    writes(&rt, &mut sink, b"seven..", Ok(()));
    assert_eq!(rt; sink.counts, [7, 5, 3, 1]);
}

#[test]
fn a_file_is_copied_out_of_memory_into_memory(rt: HostRuntime) -> Result<(), Fail> {
    let alloc = rt.alloc();
    let mut shelf = two_files(alloc, vec![in alloc; 2]?)?;
    let mut sink = MemSink::new(alloc, 3, vec![in alloc; 4]?)?;
    for (name, status) in [("a.hm", 0), ("a.hm", 3), ("c.hm", 10), ("a.hm", 4)] {
        assert_eq!(rt; copy_out(name, 9, &mut shelf, &mut sink), status);
    }
    assert_eq!(rt; sink.written(), b"hellohel".as_slice());
    Ok(())
}

#[test]
fn a_shelf_over_the_system_reads_files_by_their_names(rt: HostRuntime) -> Result<(), Fail> {
    let alloc = rt.alloc();
    let folder = env::temp_dir(&rt)?;
    let folder = folder.to_string_lossy();
    let name = format!(in alloc; "{folder}/herm_edge a shelf reads")?;
    let beneath = format!(in alloc; "{name}/x")?;
    let absent = format!(in alloc; "{name}_absent")?;
    let text = vec![in alloc; b'x'; 10_000]?;
    fs::write(&rt, &name, &text)?;
    let mut shelf = DirShelf::new(&rt);
    loads(&rt, &mut shelf, &name, 20_000, Want::Bytes(&text));
    loads(&rt, &mut shelf, &name, 5_000, Want::Bytes(&text[..5_000]));
    loads(&rt, &mut shelf, &name, 0, Want::Bytes(b""));
    loads(&rt, &mut shelf, &absent, 9, Want::Missing);
    loads(&rt, &mut shelf, folder, 9, Want::Failed);
    loads(&rt, &mut shelf, &beneath, 9, Want::Failed);
    loads(&rt, &mut shelf, "a\0b", 9, Want::Failed);
    fs::remove_file(&rt, &name)?;
    Ok(())
}

// Writes a file with so many bytes, loads it, and compares.
fn reads_length<R: Files + AllocGlobal + Abort>(
    rt: &R,
    name: &str,
    length: usize,
    limit: usize,
) -> Result<(), Fail> {
    let text = vec![in rt.alloc(); b'y'; length]?;
    fs::write(rt, name, &text)?;
    let mut shelf = DirShelf::new(rt);
    loads(
        rt,
        &mut shelf,
        name,
        limit,
        Want::Bytes(&text[..length.min(limit)]),
    );
    Ok(())
}

// The largest source file, and one byte more, are read whole.
#[test]
fn a_shelf_over_the_system_reads_a_mib_and_a_byte(rt: HostRuntime) -> Result<(), Fail> {
    let folder = env::temp_dir(&rt)?;
    let folder = folder.to_string_lossy();
    let name = format!(in rt.alloc(); "{folder}/herm_edge_a_mib")?;
    for more in 0..3 {
        reads_length(&rt, &name, (1 << 20) + more, (1 << 20) + 1)?;
    }
    fs::remove_file(&rt, &name)?;
    Ok(())
}

// A link to itself can be opened by nobody. A file that no one may read is opened by the administrator alone, so
// the answer that is wanted of it depends on who runs the tests.
#[test]
fn a_shelf_over_the_system_fails_where_a_file_is_out_of_reach(rt: HostRuntime) -> Result<(), Fail> {
    let alloc = rt.alloc();
    let folder = env::temp_dir(&rt)?;
    let folder = folder.to_string_lossy();
    let circle = format!(in alloc; "{folder}/herm_edge_circle")?;
    let closed = format!(in alloc; "{folder}/herm_edge_closed")?;
    let mut shelf = DirShelf::new(&rt);
    // A run that was cut off may have left its files behind.
    let _ = fs::remove_file(&rt, &circle);
    let _ = fs::remove_file(&rt, &closed);
    symlink(&rt, &circle, &circle)?;
    loads(&rt, &mut shelf, &circle, 9, Want::Failed);
    fs::remove_file(&rt, &circle)?;
    fs::write(&rt, &closed, b"text")?;
    fs::set_permissions(&rt, &closed, Permissions::from_mode(0))?;
    let want = if fs::open(&rt, &closed).is_ok() {
        Want::Bytes(b"text")
    } else {
        Want::Failed
    };
    loads(&rt, &mut shelf, &closed, 9, want);
    fs::remove_file(&rt, &closed)?;
    Ok(())
}

#[test]
fn a_sink_over_a_writer_fails_where_the_writer_does(rt: HostRuntime) {
    let mut text = Vec::new(rt.alloc());
    let mut sink = WriteSink::new(&mut text);
    writes(&rt, &mut sink, b"hi\n", Ok(()));
    assert_eq!(rt; text.as_slice(), b"hi\n".as_slice());
    let mut room = [0u8; 2];
    let mut sink = WriteSink::new(room.as_mut_slice());
    writes(&rt, &mut sink, b"hi\n", Err(WriteFault { taken: 2 }));
    let mut sink = WriteSink::new(Breaks { broken: false });
    writes(&rt, &mut sink, b"hi\n", Err(WriteFault { taken: 1 }));
    writes(&rt, &mut sink, b"\n", Err(WriteFault { taken: 0 }));
}

// Puts each piece, and writes what is held at the end.
fn puts(sink: &mut MemSink, room: Vec<u8>, pieces: &[&[u8]]) -> Result<(), Unwritten> {
    let mut buffer = WriteBuffer::over(room);
    for piece in pieces {
        put(sink, &mut buffer, piece)?;
    }
    flush(sink, &mut buffer)
}

// A room of 4 bytes: `abc` is held, `de` has no room beside it, `fghijk` none at all, and nothing is left behind. The numbers are those of the
// writes that fail, and what stands afterwards.
const PUT: [(usize, u64, &str); 5] = [
    (4, 0, "abcdefghijkl"),
    (0, 0, "abcdefghijkl"),
    (4, 1, ""),
    (4, 2, "abc"),
    (4, 3, "abcde"),
];

#[test]
fn pieces_are_written_by_way_of_a_buffer(rt: HostRuntime) -> Result<(), Fail> {
    let alloc = rt.alloc();
    for (room, failing, want) in PUT {
        let mut sink = MemSink::new(alloc, 100, vec![in alloc; failing]?)?;
        let room = vec![in alloc; 0; room]?;
        let said = puts(&mut sink, room, &[b"abc", b"", b"de", b"fghijk", b"l"]);
        assert_eq!(rt; said.is_ok(), failing == 0, "{failing}");
        assert_eq!(rt; sink.written(), want.as_bytes(), "{failing}");
    }
    Ok(())
}
