//! Which files a call loads, shown by a shelf that tells nothing and records each load.
ghost use Rattle.std.specs.Prelude.{◌≡◌, ◌≤◌, None, ⊤, length};
ghost use Rattle.herm_edge.specs.Faults.{next_count};
ghost use Rattle.herm_edge.specs.Shelf.{IfHere, OnFailed};

use crate::call::strings_of;
use herm_driver::hermes;
use herm_edge::{FreeGate, Loaded, MemSink, Shelf};
use std::alloc::{AllocError, Global};
use std::test::Fail;

const HELLO: &[u8] = b"process main(start: main_start) {
  var m: main_message, s: string;
  receive m from start;
  s := \"hi\";
  send s to m.out;
}
";

/// A shelf that keeps the name and the limit of each load, in order, and fails for one name.
#[derive(Drop)]
struct Recording<'a> {
    alloc: Global,
    failing: &'a str,
    loads: Vec<(String, usize)>,
    faults: u64,
}

/// One more, where there is room for it.
fn next_count(count: u64) -> u64
    ensures { result ≡ next_count count }
{
    count.saturating_add(1)
}

impl<'a> Recording<'a> {
    fn record(&mut self, name: &str, limit: usize) -> Result<(), AllocError>
        ensures { self.new.faults ≡ self.old.faults }
    {
        let name = String::from_str(self.alloc, name)?;
        self.loads.push((name, limit))?;
        Ok(())
    }
}

/// The first bytes of a file that each name but one has.
fn file_at(alloc: Global, name: &str, limit: usize) -> Loaded
    ensures within { IfHere result (λ bytes. length bytes ≤ limit) }
    ensures read { OnFailed result ⊥ }
{
    if name == "gone.hm" {
        return Loaded::Missing;
    }
    match HELLO[..HELLO.len().min(limit)].to_vec(alloc) {
        Ok(bytes) => Loaded::Here(bytes),
        Err(_) => Loaded::Memory,
    }
}

impl<'a> Shelf for Recording<'a> {
    ghost contents = { λ _. None };

    ghost faults = { λ s. s.faults };

    ghost loads = { λ _ _ _. ⊤ };

    fn load(&mut self, name: &str, limit: usize) -> Loaded {
        if self.record(name, limit).is_err() {
            return Loaded::Memory;
        }
        if name == self.failing {
            self.faults = next_count(self.faults);
            return Loaded::Failed;
        }
        file_at(self.alloc, name, limit)
    }
}

/// A call with these words over a shelf that fails for one name: its status, and the loads that it made.
fn loads_of(alloc: Global, failing: &str, words: &[&str]) -> Result<(u8, String), AllocError> {
    let words = strings_of(alloc, words)?;
    let mut shelf = Recording {
        alloc,
        failing,
        loads: Vec::new(alloc),
        faults: 0,
    };
    let mut sink = MemSink::new(alloc, 1 << 20, Vec::new(alloc))?;
    let outcome = hermes(alloc, &words, &mut shelf, &mut sink, &FreeGate);
    let mut text = String::new(alloc);
    for (name, limit) in &shelf.loads {
        text.push_str(name.as_str())?;
        let limit = format!(in alloc; " {limit}|")?;
        text.push_str(limit.as_str())?;
    }
    Ok((outcome.status, text))
}

#[test]
fn exactly_the_named_files_are_loaded_once(rt: HostRuntime) -> Result<(), Fail> {
    let rows: [(&str, &[&str], u8, &str); 13] = [
        ("", &["run", "a.hm"], 0, "a.hm 1048577|"),
        (".", &["run", "a.hm"], 0, "a.hm 1048577|"),
        ("a.hm", &["run", "a.hm"], 3, "a.hm 1048577|"),
        ("", &["run", "gone.hm"], 10, "gone.hm 1048577|"),
        ("gone.hm", &["run", "gone.hm"], 3, "gone.hm 1048577|"),
        ("", &["run", "-"], 0, "- 1048577|"),
        (
            "",
            &["run", "a.hm", "b.hm"],
            1,
            "a.hm 1048577|b.hm 1048577|",
        ),
        (
            "",
            &["run", "a.hm", "gone.hm"],
            10,
            "a.hm 1048577|gone.hm 1048577|",
        ),
        ("a.hm", &["run", "a.hm", "b.hm"], 3, "a.hm 1048577|"),
        ("", &["check", "gone.hm", "a.hm"], 10, "gone.hm 1048577|"),
        ("", &["run", "a.hm", "a.hm"], 2, ""),
        ("", &["make", "3"], 0, ""),
        ("", &["run", "--make", "3"], 0, ""),
    ];
    for (failing, words, status, loads) in rows {
        let got = loads_of(rt.alloc(), failing, words)?;
        assert_eq!(rt; got.0, status, "where {failing} fails");
        assert_eq!(rt; got.1.as_str(), loads, "where {failing} fails");
    }
    Ok(())
}
