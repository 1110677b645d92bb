//! The stack of values of a process.
ghost use Rattle.std.specs.Prelude.{◌≡◌, ◌∷◌, ◌++◌, [], ◌<◌, IfOk, IfSome, IfNone, OnOk, option_to_list, option_map, IsTrue, reverse, slice_get, Some, ℕ, List, ⊤, false};
ghost use Rattle.std.specs.Vec.{vec_len, vec_capacity};
ghost use Rattle.std.specs.List.{All};
ghost use Rattle.herm_journal.specs.Renaming.{forget_name};
ghost use Rattle.herm_model.specs.Expressions.{concatenated};
ghost use Rattle.herm_model.specs.Paths.{Path};
ghost use Rattle.herm_model.specs.Values as model;
ghost use Rattle.herm_model.specs.Values.{read_at};
ghost use Rattle.herm_forms.specs.Frames as frames;
ghost use Rattle.herm_forms.specs.Frames.{Frame, goes};
ghost use Rattle.herm_model.specs.Outcomes.{ok};
ghost use Rattle.herm_instructions.specs.Instructions as instructions;
ghost use Rattle.herm_instructions.specs.Instructions.{Apply, Combine, Load, Size, as_text};
ghost use Rattle.herm_code.specs.View.{const_view};
ghost use Rattle.herm_code_machine.specs.ReadyCode.{ReadyCode};
ghost use Rattle.herm_code_machine.specs.Stacks.{pushing, leaving, no_effect, pop, with_key, with_key_of};
ghost use Rattle.herm_code_machine.specs.Effects.{effect};
ghost use Rattle.herm_values.specs.View.{value_view, key_view};
ghost use Rattle.herm_values.specs.Keyed.{keyed_view};
ghost use Rattle.herm_values.specs.Whole.{IsWhole};
ghost use Rattle.herm_values.specs.declared.value.Value.TheVariants as held;
ghost use Rattle.herm_stack.specs.Answers.{evaluated, written, binary_view, unary_view, effect_of, on_stack, popped, literal_cell, IsPushed, IsCopied, IsLetGo, AreLetGo, IsPushedAs};
ghost use Rattle.herm_stack.specs.Memory.{takes_no_memory, top_takes_no_memory, two_take_no_memory};

use crate::answers::{Completion, Evaluation, Written};
use crate::operators::{Binary, Unary, applied_at_end, combined_at_end};
use crate::scalars::{row_count, scalars_of};
use crate::texts::{concatenation, text_of};
use herm_base::Word;
use herm_code::Const;
use herm_values::{Scalar, Value, copy_of};
use std::alloc::{AllocError, Global};
use std::marker::Model;
use std::mem;

/// The values of one expression, the last pushed one on top. Contracts see them from the top on. Each is whole.
#[derive(Drop)]
pub struct Stack {
    values: Vec<Value>,
}

impl Model for Stack {
    ghost use Rattle.std.specs.Prelude.{reverse};
    ghost use Rattle.std.specs.Coded.{codes};
    ghost use Rattle.std.specs.List.{All};
    ghost use Rattle.herm_values.specs.Whole.{IsWhole};
    ghost use Rattle.herm_values.specs.contracts.value.Value as held;
    ghost use Rattle.herm_stack.specs.HeldValues.{HeldValues};

    ghost Value = { HeldValues };

    ghost coded = { Prim.hlevel (codes, held.the_row.coded) };

    ghost view = { λ s. reverse s.values.items };

    ghost invariant = { λ s. All IsWhole s.values.items };
}

impl Stack {
    /// An empty stack. It takes no memory.
    pub fn new(alloc: Global) -> Stack
        ensures empty { result ≡ [] }
    {
        Stack {
            values: Vec::new(alloc),
        }
    }

    /// Pushes a value.
    pub fn push(&mut self, v: Value) -> Result<(), AllocError>
        requires whole { IsWhole v }
        ensures pushed { OnOk result (self.new ≡ v ∷ self.old) }
    {
        push(&mut self.values, v)
    }

    /// Takes the top, if there is one.
    pub fn pop(&mut self) -> Option<Value>
        ensures popped { self.old ≡ option_to_list result ++ self.new }
        ensures none { IfNone result (self.old ≡ []) }
        ensures whole { IfSome result IsWhole }
    {
        pop(&mut self.values)
    }

    /// The top, if there is one.
    pub fn top(&self) -> Option<&Value>
        ensures top { option_map (λ v. v.now) result ≡ slice_get self.now 0 }
    {
        self.values.last()
    }

    /// Lets the top go, if there is one. False where there is none.
    #[inline(always)]
    pub fn let_go(&mut self) -> bool
        ensures gone { IsLetGo result self.old self.new }
        ensures kept { result ≡ false → self.new ≡ self.old }
    {
        let_go(&mut self.values)
    }

    /// Nothing is on the stack then.
    pub fn clear(&mut self)
        ensures empty { self.new ≡ [] }
    {
        self.values.clear();
    }

    /// Pushes a constant.
    #[inline(always)]
    #[tactic(auto, using(crate::proofs::Stacked::pushes))]
    pub fn constant(&mut self, constant: &Const) -> Result<(), AllocError>
        ensures effect { OnOk result ((c : ReadyCode) (k : ℕ) (b : Frame ⊤) → slice_get c.constants k ≡ Some (const_view constant.now) → effect forget_name c (instructions.Const k) (on_stack self.old) b ≡ leaving (on_stack self.new) (goes ok b)) }
    {
        push_constant(&mut self.values, constant)
    }

    /// Pushes a copy of what was read at a path, and is stuck where nothing was.
    #[inline(always)]
    #[tactic(auto, using(crate::proofs::Stacked::pushes))]
    pub fn load(&mut self, alloc: Global, read: Option<&Value>) -> Result<Completion, AllocError>
        requires whole { IfSome read (λ v. IsWhole v.now) }
        ensures effect { IfOk result (λ r. (c : ReadyCode) (p : Path) (b : Frame ⊤) → read_at p b.variables ≡ option_map (λ v. value_view v.now) read.entry → effect forget_name c (Load p) (on_stack self.old) b ≡ effect_of r (on_stack self.new) b) }
        ensures keyed { IfOk result (λ r. IfSome read.entry (λ v. IsPushedAs (keyed_view v.now) self.old self.new)) }
    {
        let Some(v) = read else {
            return Ok(Completion::Stuck);
        };
        push_copy(&mut self.values, alloc, v)?;
        Ok(Completion::Next)
    }

    /// Pushes the number of rows of a table that was read at a path, and is stuck where none was.
    #[tactic(auto, using(crate::proofs::Stacked::pushes))]
    pub fn size(&mut self, read: Option<&Value>) -> Result<Completion, AllocError>
        ensures effect { IfOk result (λ r. (c : ReadyCode) (p : Path) (b : Frame ⊤) → read_at p b.variables ≡ option_map (λ v. value_view v.now) read.entry → effect forget_name c (Size p) (on_stack self.old) b ≡ effect_of r (on_stack self.new) b) }
    {
        let Some(v) = read else {
            return Ok(Completion::Stuck);
        };
        let Some(rows) = row_count(v) else {
            return Ok(Completion::Stuck);
        };
        push(&mut self.values, Value::Int(rows))?;
        Ok(Completion::Next)
    }

    /// Replaces the top by what an operator gives of it. It takes no memory.
    #[tactic(auto, using(crate::proofs::Stacked::operands_gone))]
    pub fn apply(&mut self, o: Unary) -> Completion
        ensures effect { (c : ReadyCode) (b : Frame ⊤) → effect forget_name c (Apply (unary_view o)) (on_stack self.old) b ≡ effect_of result (on_stack self.new) b }
    {
        let e = applied_at_end(o, self.values.as_slice());
        if !let_go(&mut self.values) {
            return Completion::Stuck;
        }
        put(&mut self.values, e)
    }

    /// Replaces the top two by what an operator gives of them, the right operand on top. It takes no memory.
    #[inline(always)]
    #[tactic(auto, using(crate::proofs::Stacked::operands_gone))]
    pub fn combine(&mut self, o: Binary) -> Completion
        ensures effect { (c : ReadyCode) (b : Frame ⊤) → effect forget_name c (Combine (binary_view o)) (on_stack self.old) b ≡ effect_of result (on_stack self.new) b }
    {
        let e = combined_at_end(o, self.values.as_slice());
        if !let_two_go(&mut self.values) {
            return Completion::Stuck;
        }
        put(&mut self.values, e)
    }

    /// Replaces the top by its decimal text.
    #[tactic(auto, using(crate::proofs::Stacked::one_popped))]
    pub fn text(&mut self, alloc: Global) -> Result<Completion, AllocError>
        ensures effect { IfOk result (λ r. (c : ReadyCode) (b : Frame ⊤) → effect forget_name c (Apply as_text) (on_stack self.old) b ≡ effect_of r (on_stack self.new) b) }
    {
        let Some(v) = pop(&mut self.values) else {
            return Ok(Completion::Stuck);
        };
        let text = text_of(alloc, &v)?;
        Ok(put_text(&mut self.values, text))
    }

    /// Replaces the top two strings by the one behind the other.
    #[tactic(auto, using(crate::proofs::Stacked::two_popped))]
    pub fn concatenate(&mut self, alloc: Global) -> Result<Completion, AllocError>
        ensures effect { IfOk result (λ r. (c : ReadyCode) (b : Frame ⊤) → effect forget_name c (Combine concatenated) (on_stack self.old) b ≡ effect_of r (on_stack self.new) b) }
    {
        let Some(right) = pop(&mut self.values) else {
            return Ok(Completion::Stuck);
        };
        let Some(left) = pop(&mut self.values) else {
            return Ok(Completion::Stuck);
        };
        let joined = concatenation(alloc, &left, &right)?;
        Ok(put_text(&mut self.values, joined))
    }

    /// Takes so many values, the first pushed one first, and none where there are fewer.
    pub fn take(&mut self, n: usize) -> Result<Option<Vec<Value>>, AllocError>
        ensures popped { IfOk result (λ r. pop n (on_stack self.old) ≡ popped r (on_stack self.new)) }
        ensures whole { IfOk result (λ r. IfSome r (λ vs. All IsWhole vs.items)) }
        ensures kept { IfOk result (λ r. IfNone r (self.new ≡ self.old)) }
    {
        split(&mut self.values, n)
    }

    #[tactic(auto, using(crate::proofs::Taken::taking))]
    /// Takes the scalars of a key of so many, the first pushed one first, and none where one is not there or no scalar.
    pub fn take_key(&mut self, alloc: Global, n: usize) -> Result<Option<Vec<Scalar>>, AllocError>
        ensures key { IfOk result (λ r. (next : List model.Scalar → frames.Completion ⊤) → with_key n next (on_stack self.old) ≡ with_key_of next (on_stack self.new) (option_map (λ k. key_view k.items) r)) }
    {
        let taken = split(&mut self.values, n)?;
        match taken {
            Some(values) => scalars_of(alloc, values.as_slice()),
            None => Ok(None),
        }
    }
}

/// Takes so many values from the end, and none where there are fewer.
#[tactic(auto, using(crate::proofs::Taken::taking))]
fn split(values: &mut Vec<Value>, n: usize) -> Result<Option<Vec<Value>>, AllocError>
    ensures popped { IfOk result (λ r. pop n (on_stack (reverse values.old.items)) ≡ popped r (on_stack (reverse values.new.items))) }
    ensures whole { All IsWhole values.old.items → IfOk result (λ r. IfSome r (λ vs. All IsWhole vs.items)) }
    ensures kept { IfOk result (λ r. IfNone r (values.new.items ≡ values.old.items)) }
    ensures left_whole { All IsWhole values.old.items → All IsWhole values.new.items }
{
    if n > values.len() {
        return Ok(None);
    }
    let taken = values.split_off(values.len() - n)?;
    Ok(Some(taken))
}

/// Makes room for one value more, if there is none.
#[inline(always)]
fn make_room(values: &mut Vec<Value>) -> Result<(), AllocError>
    ensures items { values.new.items ≡ values.old.items }
    ensures room { OnOk result (vec_len values.new < vec_capacity values.new) }
{
    if values.len() < values.capacity() {
        return Ok(());
    }
    values.reserve(1)
}

/// Pushes a value.
#[tactic(auto, using(crate::proofs::Stacked::stacking))]
fn push(values: &mut Vec<Value>, v: Value) -> Result<(), AllocError>
    requires whole { IsWhole v }
    ensures pushed { OnOk result (reverse values.new.items ≡ v ∷ reverse values.old.items) }
    ensures whole { All IsWhole values.old.items → All IsWhole values.new.items }
{
    make_room(values)?;
    values.push_reserved(v);
    Ok(())
}

/// Pushes the value that a constant is.
#[inline(always)]
#[tactic(auto, using(crate::proofs::Stacked::constants_pushed))]
fn push_constant(values: &mut Vec<Value>, constant: &Const) -> Result<(), AllocError>
    ensures pushed { OnOk result (IsPushed (literal_cell (const_view constant.now)) (reverse values.old.items) (reverse values.new.items)) }
    ensures whole { All IsWhole values.old.items → All IsWhole values.new.items }
{
    make_room(values)?;
    match constant {
        Const::Bool(b) => values.push_reserved(Value::Bool(*b)),
        Const::Int(n) => values.push_reserved(Value::Int(*n)),
        Const::Text(text) => push_text(values, text)?,
        Const::Tag(_, place) => values.push_reserved(Value::Tag(*place)),
    }
    Ok(())
}

/// Pushes a string of these bytes.
#[inline(never)]
#[tactic(auto, using(crate::proofs::Stacked::constants_pushed))]
fn push_text(values: &mut Vec<Value>, text: &Word) -> Result<(), AllocError>
    ensures pushed { OnOk result (reverse values.new.items ≡ held.Text text.now ∷ reverse values.old.items) }
    ensures whole { All IsWhole values.old.items → All IsWhole values.new.items }
{
    make_room(values)?;
    let text = text.clone()?;
    values.push_reserved(Value::Text(text));
    Ok(())
}

/// Pushes an equal value, whose tables have the same fields as their keys. One that takes no memory is written where it goes.
#[inline(always)]
#[tactic(auto, using(crate::proofs::Stacked::copies_pushed))]
fn push_copy(values: &mut Vec<Value>, alloc: Global, v: &Value) -> Result<(), AllocError>
    requires whole { IsWhole v.now }
    ensures pushed { OnOk result (IsCopied v.now (reverse values.old.items) (reverse values.new.items)) }
    ensures whole { All IsWhole values.old.items → All IsWhole values.new.items }
{
    make_room(values)?;
    match v {
        Value::Bool(b) => values.push_reserved(Value::Bool(*b)),
        Value::Int(n) => values.push_reserved(Value::Int(*n)),
        Value::Tag(place) => values.push_reserved(Value::Tag(*place)),
        Value::Inport(port) => values.push_reserved(Value::Inport(*port)),
        Value::Outport(port) => values.push_reserved(Value::Outport(*port)),
        _ => push_whole_copy(values, alloc, v)?,
    }
    Ok(())
}

/// The same, of any value.
#[inline(never)]
#[tactic(auto, using(crate::proofs::Stacked::copies_pushed))]
fn push_whole_copy(values: &mut Vec<Value>, alloc: Global, v: &Value) -> Result<(), AllocError>
    requires whole { IsWhole v.now }
    ensures pushed { OnOk result (IsCopied v.now (reverse values.old.items) (reverse values.new.items)) }
    ensures whole { All IsWhole values.old.items → All IsWhole values.new.items }
{
    make_room(values)?;
    let copy = copy_of(alloc, v)?;
    values.push_reserved(copy);
    Ok(())
}

/// Takes the last value, if there is one. The place that it leaves is room for another.
#[tactic(auto, using(crate::proofs::Stacked::stacking))]
fn pop(values: &mut Vec<Value>) -> Option<Value>
    ensures popped { reverse values.old.items ≡ option_to_list result ++ reverse values.new.items }
    ensures none { IfNone result (reverse values.old.items ≡ []) }
    ensures room { IfSome result (λ v. vec_len values.new < vec_capacity values.new) }
    ensures whole { All IsWhole values.old.items → IfSome result IsWhole }
    ensures left_whole { All IsWhole values.old.items → All IsWhole values.new.items }
{
    values.pop()
}

/// Lets the last value go, if there is one. The place that it leaves is room for another.
#[inline(always)]
fn let_go(values: &mut Vec<Value>) -> bool
    ensures gone { IsLetGo result (reverse values.old.items) (reverse values.new.items) }
    ensures kept { result ≡ false → values.new.items ≡ values.old.items }
    ensures room { IsTrue result → vec_len values.new < vec_capacity values.new }
    ensures left_whole { All IsWhole values.old.items → All IsWhole values.new.items }
{
    if ends_without_memory(values.as_slice()) {
        return forget_last(values);
    }
    drop_last(values)
}

/// Whether the last value is there and is of a kind that holds no memory, so that it need not be dropped.
#[inline(always)]
fn ends_without_memory(values: &[Value]) -> bool
    ensures { result ≡ top_takes_no_memory (reverse values.now) }
{
    let [.., last] = values else {
        return false;
    };
    is_without_memory(last)
}

/// Whether a value is of a kind that holds no memory.
#[inline(always)]
fn is_without_memory(v: &Value) -> bool
    ensures { result ≡ takes_no_memory v.now }
{
    match v {
        Value::Bool(_) | Value::Int(_) | Value::Tag(_) => true,
        Value::Inport(_) | Value::Outport(_) => true,
        _ => false,
    }
}

/// Forgets the last value, which holds no memory: nothing is given back.
#[inline(always)]
fn forget_last(values: &mut Vec<Value>) -> bool
    requires memory { IsTrue (top_takes_no_memory (reverse values.old.items)) }
    ensures gone { IsLetGo result (reverse values.old.items) (reverse values.new.items) }
    ensures kept { result ≡ false → values.new.items ≡ values.old.items }
    ensures room { IsTrue result → vec_len values.new < vec_capacity values.new }
    ensures left_whole { All IsWhole values.old.items → All IsWhole values.new.items }
{
    match pop(values) {
        Some(v) => {
            mem::forget(v);
            true
        }
        None => false,
    }
}

/// Drops the last value, if there is one.
#[inline(never)]
fn drop_last(values: &mut Vec<Value>) -> bool
    ensures gone { IsLetGo result (reverse values.old.items) (reverse values.new.items) }
    ensures kept { result ≡ false → values.new.items ≡ values.old.items }
    ensures room { IsTrue result → vec_len values.new < vec_capacity values.new }
    ensures left_whole { All IsWhole values.old.items → All IsWhole values.new.items }
{
    match pop(values) {
        Some(_) => true,
        None => false,
    }
}

/// Lets the last two values go, if there are two. The places that they leave are room for others.
#[inline(always)]
fn let_two_go(values: &mut Vec<Value>) -> bool
    ensures gone { AreLetGo result (reverse values.old.items) (reverse values.new.items) }
    ensures room { IsTrue result → vec_len values.new < vec_capacity values.new }
    ensures left_whole { All IsWhole values.old.items → All IsWhole values.new.items }
{
    if both_end_without_memory(values.as_slice()) {
        return forget_two(values);
    }
    drop_two(values)
}

/// Whether the last two values are there and neither holds memory.
#[inline(always)]
fn both_end_without_memory(values: &[Value]) -> bool
    ensures { result ≡ two_take_no_memory (reverse values.now) }
{
    let [.., left, right] = values else {
        return false;
    };
    is_without_memory(left) && is_without_memory(right)
}

/// Forgets the last two values, neither of which holds memory.
#[inline(always)]
#[tactic(auto, using(crate::proofs::Stacked::letting_go))]
fn forget_two(values: &mut Vec<Value>) -> bool
    requires memory { IsTrue (two_take_no_memory (reverse values.old.items)) }
    ensures gone { AreLetGo result (reverse values.old.items) (reverse values.new.items) }
    ensures room { IsTrue result → vec_len values.new < vec_capacity values.new }
    ensures left_whole { All IsWhole values.old.items → All IsWhole values.new.items }
{
    if !forget_last(values) {
        return false;
    }
    if !forget_last(values) {
        return false;
    }
    true
}

/// Drops the last two values, if there are two.
#[inline(never)]
#[tactic(auto, using(crate::proofs::Stacked::letting_go))]
fn drop_two(values: &mut Vec<Value>) -> bool
    ensures gone { AreLetGo result (reverse values.old.items) (reverse values.new.items) }
    ensures room { IsTrue result → vec_len values.new < vec_capacity values.new }
    ensures left_whole { All IsWhole values.old.items → All IsWhole values.new.items }
{
    if !drop_last(values) {
        return false;
    }
    if !drop_last(values) {
        return false;
    }
    true
}

/// Pushes what an operator gives, for which there is room. Behind an exception nothing is on the stack.
#[tactic(auto, using(crate::proofs::Stacked::stacking))]
fn put(values: &mut Vec<Value>, e: Evaluation) -> Completion
    requires room { vec_len values.old < vec_capacity values.old }
    ensures effect { (b : Frame ⊤) → pushing (evaluated e) (on_stack (reverse values.old.items)) b ≡ effect_of result (on_stack (reverse values.new.items)) b }
    ensures whole { All IsWhole values.old.items → All IsWhole values.new.items }
{
    match e {
        Evaluation::Boolean(b) => {
            values.push_reserved(Value::Bool(b));
            Completion::Next
        }
        Evaluation::Integer(z) => {
            values.push_reserved(Value::Int(z));
            Completion::Next
        }
        Evaluation::Raises(e) => {
            values.clear();
            Completion::Raised(e)
        }
        Evaluation::Stuck => Completion::Stuck,
    }
}

/// Pushes what an operator that makes a string gives, for which there is room.
#[tactic(auto, using(crate::proofs::Stacked::stacking))]
fn put_text(values: &mut Vec<Value>, w: Written) -> Completion
    requires room { vec_len values.old < vec_capacity values.old }
    ensures effect { (b : Frame ⊤) → pushing (written w) (on_stack (reverse values.old.items)) b ≡ effect_of result (on_stack (reverse values.new.items)) b }
    ensures whole { All IsWhole values.old.items → All IsWhole values.new.items }
{
    match w {
        Written::Gives(text) => {
            values.push_reserved(Value::Text(text));
            Completion::Next
        }
        Written::Raises(e) => put(values, Evaluation::Raises(e)),
        Written::Stuck => Completion::Stuck,
    }
}
