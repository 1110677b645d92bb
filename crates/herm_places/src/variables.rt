//! The variables of a process.
ghost use Rattle.std.specs.Prelude.{◌≡◌, true, IfSome, IfOk, IfErr, OnOk, OnErr, is_ok, option_map};
ghost use Rattle.herm_model.specs.Values.{cell_at, read_at, clear_at, put_at, has_place, has_value, change_at};
ghost use Rattle.herm_types.specs.View.{path_view};
ghost use Rattle.herm_values.specs.Keyed.{keyed_view};
ghost use Rattle.herm_values.specs.View.{value_view};
ghost use Rattle.herm_values.specs.Whole.{IsWhole, AllWhole};
ghost use Rattle.herm_places.specs.Held.{keyed_places, seen_places};
ghost use Rattle.herm_places.specs.Plain.{IsPlain, has_replaceable};

use crate::exchanging::exchange_at;
use crate::placing;
use crate::reading::{read_at, value_at};
use crate::replacing::replace_at;
use crate::taking::take_at;
use herm_types::Path;
use herm_values::Value;
use std::marker::Model;

/// The variables of a process by number, each with a value or empty. Contracts see them as such a list: `keyed_places`
/// are their trees with the fields that are the keys of tables, `seen_places` those without. Each value is whole.
#[derive(Drop)]
pub struct Variables {
    places: Vec<Option<Value>>,
}

impl Model for Variables {
    ghost use Rattle.std.specs.Coded.{codes};
    ghost use Rattle.herm_values.specs.Whole.{AllWhole};
    ghost use Rattle.herm_values.specs.contracts.value.Value as held;
    ghost use Rattle.herm_places.specs.HeldPlaces.{HeldPlaces};

    ghost Value = { HeldPlaces };

    ghost coded = { Prim.hlevel (codes, held.the_row.coded) };

    ghost view = { λ s. s.places.items };

    ghost invariant = { λ s. AllWhole s.places.items };
}

impl Variables {
    /// These variables. It takes no memory, as no call below does.
    pub fn of(places: Vec<Option<Value>>) -> Variables
        requires whole { AllWhole places.items }
        ensures places { result ≡ places.items }
    {
        Variables { places }
    }

    /// The places, by number.
    pub fn places(&self) -> &[Option<Value>]
        ensures places { result.now ≡ self.now }
    {
        self.places.as_slice()
    }

    /// What is read at a path, which may pass through components.
    #[inline(always)]
    #[tactic(auto, using(crate::proofs::Forgotten::told))]
    pub fn read(&self, path: &Path) -> Option<&Value>
        ensures keyed { option_map (λ v. keyed_view v.now) result ≡ read_at (path_view path.now) (keyed_places self.now) }
        ensures seen { option_map (λ v. value_view v.now) result ≡ read_at (path_view path.now) (seen_places self.now) }
        ensures whole { IfSome result (λ v. IsWhole v.now) }
    {
        self.read_keyed(path)
    }

    /// What stands at a path, reached through records and callmessages alone.
    #[tactic(auto, using(crate::proofs::Forgotten::told))]
    pub fn at(&self, path: &Path) -> Option<&Value>
        ensures keyed { option_map (λ v. keyed_view v.now) result ≡ cell_at (path_view path.now) (keyed_places self.now) }
        ensures seen { option_map (λ v. value_view v.now) result ≡ cell_at (path_view path.now) (seen_places self.now) }
        ensures whole { IfSome result (λ v. IsWhole v.now) }
    {
        self.at_keyed(path)
    }

    /// Takes out what stands at a path, if anything does.
    #[tactic(auto, using(crate::proofs::Forgotten::told))]
    pub fn take(&mut self, path: &Path) -> Option<Value>
        ensures keyed { option_map keyed_view result ≡ cell_at (path_view path.now) (keyed_places self.old) }
        ensures seen { option_map value_view result ≡ cell_at (path_view path.now) (seen_places self.old) }
        ensures left { keyed_places self.new ≡ clear_at (path_view path.now) (keyed_places self.old) }
        ensures left_seen { seen_places self.new ≡ clear_at (path_view path.now) (seen_places self.old) }
        ensures whole { IfSome result IsWhole }
    {
        self.take_keyed(path)
    }

    /// Puts a value at a path. The answer is what stood there, or the value itself where there is no such place.
    #[tactic(auto, using(crate::proofs::Forgotten::told))]
    pub fn put(&mut self, path: &Path, v: Value) -> Result<Option<Value>, Value>
        requires whole { IsWhole v }
        ensures there { is_ok result ≡ has_place (seen_places self.old) (path_view path.now) }
        ensures old { IfOk result (λ o. option_map keyed_view o ≡ cell_at (path_view path.now) (keyed_places self.old)) }
        ensures old_seen { IfOk result (λ o. option_map value_view o ≡ cell_at (path_view path.now) (seen_places self.old)) }
        ensures put { OnOk result (keyed_places self.new ≡ put_at (path_view path.now) (keyed_view v) (keyed_places self.old)) }
        ensures put_seen { OnOk result (seen_places self.new ≡ put_at (path_view path.now) (value_view v) (seen_places self.old)) }
        ensures kept { OnErr result (keyed_places self.new ≡ keyed_places self.old) }
        ensures handed_back { IfErr result (λ w. w ≡ v) }
        ensures old_whole { IfOk result (λ o. IfSome o IsWhole) }
    {
        self.put_keyed(path, v)
    }

    /// Puts a value at a path that is a variable by itself or a field of a record in one, where nothing stands, or a scalar or an outport, which is gone. The
    /// answer is whether something stood there, or the value itself where there is no such place: then all is as it was.
    #[inline(always)]
    #[tactic(auto, using(crate::proofs::Forgotten::told))]
    pub fn replace(&mut self, path: &Path, v: Value) -> Result<bool, Value>
        requires whole { IsWhole v }
        ensures done { is_ok result ≡ has_replaceable (seen_places self.old) (path_view path.now) }
        ensures there { OnOk result (has_place (seen_places self.old) (path_view path.now) ≡ true) }
        ensures held { IfOk result (λ b. b ≡ has_value (seen_places self.old) (path_view path.now)) }
        ensures plain { OnOk result (IfSome (cell_at (path_view path.now) (seen_places self.old)) IsPlain) }
        ensures put { OnOk result (keyed_places self.new ≡ put_at (path_view path.now) (keyed_view v) (keyed_places self.old)) }
        ensures put_seen { OnOk result (seen_places self.new ≡ put_at (path_view path.now) (value_view v) (seen_places self.old)) }
        ensures kept { OnErr result (keyed_places self.new ≡ keyed_places self.old) }
        ensures kept_seen { OnErr result (seen_places self.new ≡ seen_places self.old) }
        ensures handed_back { IfErr result (λ w. w ≡ v) }
    {
        self.replace_keyed(path, v)
    }

    /// Puts a value in place of what is read at a path, which may pass through components. The answer is what was there.
    /// Where nothing is there all is as it was, and the value is gone.
    #[tactic(auto, using(crate::proofs::Forgotten::told))]
    pub fn exchange(&mut self, path: &Path, v: Value) -> Option<Value>
        requires whole { IsWhole v }
        ensures old { option_map keyed_view result ≡ read_at (path_view path.now) (keyed_places self.old) }
        ensures old_seen { option_map value_view result ≡ read_at (path_view path.now) (seen_places self.old) }
        ensures new { keyed_places self.new ≡ change_at (path_view path.now) (λ d. keyed_view v) (keyed_places self.old) }
        ensures new_seen { seen_places self.new ≡ change_at (path_view path.now) (λ d. value_view v) (seen_places self.old) }
        ensures whole { IfSome result IsWhole }
    {
        self.exchange_keyed(path, v)
    }

    #[inline(always)]
    fn replace_keyed(&mut self, path: &Path, v: Value) -> Result<bool, Value>
        requires whole { IsWhole v }
        ensures done { is_ok result ≡ has_replaceable (seen_places self.old) (path_view path.now) }
        ensures held { IfOk result (λ b. b ≡ has_value (seen_places self.old) (path_view path.now)) }
        ensures plain { OnOk result (IfSome (cell_at (path_view path.now) (seen_places self.old)) IsPlain) }
        ensures put { OnOk result (keyed_places self.new ≡ put_at (path_view path.now) (keyed_view v) (keyed_places self.old)) }
        ensures kept { OnErr result (keyed_places self.new ≡ keyed_places self.old) }
        ensures handed_back { IfErr result (λ w. w ≡ v) }
    {
        replace_at(&mut self.places, path.var.0, path.parts.as_slice(), v)
    }

    fn exchange_keyed(&mut self, path: &Path, v: Value) -> Option<Value>
        requires whole { IsWhole v }
        ensures old { option_map keyed_view result ≡ read_at (path_view path.now) (keyed_places self.old) }
        ensures new { keyed_places self.new ≡ change_at (path_view path.now) (λ d. keyed_view v) (keyed_places self.old) }
        ensures whole { IfSome result IsWhole }
    {
        exchange_at(&mut self.places, path.var.0, path.parts.as_slice(), v)
    }

    #[inline(always)]
    fn read_keyed(&self, path: &Path) -> Option<&Value>
        ensures keyed { option_map (λ v. keyed_view v.now) result ≡ read_at (path_view path.now) (keyed_places self.now) }
        ensures whole { IfSome result (λ v. IsWhole v.now) }
    {
        read_at(self.places.as_slice(), path.var.0, path.parts.as_slice())
    }

    fn at_keyed(&self, path: &Path) -> Option<&Value>
        ensures keyed { option_map (λ v. keyed_view v.now) result ≡ cell_at (path_view path.now) (keyed_places self.now) }
        ensures whole { IfSome result (λ v. IsWhole v.now) }
    {
        value_at(self.places.as_slice(), path.var.0, path.parts.as_slice())
    }

    fn take_keyed(&mut self, path: &Path) -> Option<Value>
        ensures keyed { option_map keyed_view result ≡ cell_at (path_view path.now) (keyed_places self.old) }
        ensures left { keyed_places self.new ≡ clear_at (path_view path.now) (keyed_places self.old) }
        ensures whole { IfSome result IsWhole }
    {
        take_at(&mut self.places, path.var.0, path.parts.as_slice())
    }

    fn put_keyed(&mut self, path: &Path, v: Value) -> Result<Option<Value>, Value>
        requires whole { IsWhole v }
        ensures there { is_ok result ≡ has_place (keyed_places self.old) (path_view path.now) }
        ensures old { IfOk result (λ o. option_map keyed_view o ≡ cell_at (path_view path.now) (keyed_places self.old)) }
        ensures put { OnOk result (keyed_places self.new ≡ put_at (path_view path.now) (keyed_view v) (keyed_places self.old)) }
        ensures kept { OnErr result (keyed_places self.new ≡ keyed_places self.old) }
        ensures handed_back { IfErr result (λ w. w ≡ v) }
        ensures old_whole { IfOk result (λ o. IfSome o IsWhole) }
    {
        placing::put_at(&mut self.places, path.var.0, path.parts.as_slice(), v)
    }
}
