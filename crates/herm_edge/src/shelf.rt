// Where files are read from.
ghost use Rattle.std.specs.Prelude.{◌≡◌, ℕ, ◌≤◌, List, Option, Some, None, IfSome, length, option_map, take};
ghost use Rattle.herm_edge.specs.Faults.{Rose};
ghost use Rattle.herm_edge.specs.Shelf.{File, Load, file_at, IfHere, OnMissing, OnFailed, UnlessFailed};
ghost use Rattle.herm_edge.specs.View.{loaded_view};

/// What a shelf answers when a file is asked for.
#[derive(Debug, Drop)]
pub enum Loaded {
    /// The first bytes of the file, up to the limit.
    Here(Vec<u8>),
    /// No file has the name.
    Missing,
    /// The file could not be read.
    Failed,
    /// Memory was wanting.
    Memory,
}

/// Files by their names.
///
/// A shelf means its contents, which may be told or not and which no call changes, a count of
/// faults that never falls, and what a load does to it. (Language reference, "The outside".)
pub trait Shelf {
    /// The files, where they are told.
    ghost contents: { Self → Option (List File) };

    /// How many faults there were.
    ghost faults: { Self → ℕ };

    /// What a load does: the shelf before it, the load with its answer, and the shelf after it. A caller that is
    /// generic over the shelf shows by a chain of these which loads it made, in which order, and what they answered.
    ghost loads: { Self → Load → Self → Type 0 };

    /// Loads the first `limit` bytes of a file, or all where there are fewer. It takes memory.
    ///
    /// Told contents decide between `Here` and `Missing`. `Failed` comes only where the count of
    /// faults rose in this call; any other answer leaves the count.
    fn load(&mut self, name: &str, limit: usize) -> Loaded
        ensures within { IfHere result (λ bytes. length bytes ≤ limit) }
        ensures here { IfHere result (λ bytes. IfSome (contents self.old)
            (λ files. option_map (take limit) (file_at files name.now) ≡ Some bytes)) }
        ensures missing { OnMissing result (IfSome (contents self.old)
            (λ files. file_at files name.now ≡ None)) }
        ensures failed { OnFailed result (Rose (faults self.old) (faults self.new)) }
        ensures kept { UnlessFailed result (faults self.new ≡ faults self.old) }
        ensures never_falls { faults self.old ≤ faults self.new }
        ensures loaded { loads self.old (record { name = name.now; limit = limit; answer = loaded_view result }) self.new }
        ensures same { contents self.new ≡ contents self.old };
}
