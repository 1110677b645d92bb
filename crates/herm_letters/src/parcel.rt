//! Messages that wait at a port.
ghost use Rattle.std.specs.Prelude.{◌≡◌, ◌++◌, ◌∷◌, [], ◌<◌, ◌≤◌, ◌-◌, IfOk, IfSome, IfNone, OnOk, length, map};
ghost use Rattle.herm_model.specs.ValueTexts.{text_of};
ghost use Rattle.herm_values.specs.View.{value_view};
ghost use Rattle.herm_letters.specs.Letters.{IsParcel};

use herm_events::Trace;
use herm_values::Value;
use std::alloc::{AllocError, Global};
use std::collections::VecDeque;
use std::marker::Model;

/// A message with its number at the port, from 0 on, and the text of its value.
#[derive(Drop)]
pub struct Parcel {
    pub number: u64,
    pub value: Value,
    pub trace: Trace,
}

/// Messages in the order in which they were placed, each whole and with its text, and for how many more memory has been
/// taken.
#[derive(Drop)]
pub struct Parcels {
    waiting: VecDeque<Parcel>,
}

impl Model for Parcels {
    ghost use Rattle.std.specs.Prelude.{◌-◌, All};
    ghost use Rattle.std.specs.Coded.{codes};
    ghost use Rattle.herm_letters.specs.contracts.parcel.Parcel as held;
    ghost use Rattle.std.specs.VecDeque.{deque_len, deque_capacity};
    ghost use Rattle.herm_letters.specs.Letters.{IsParcel};
    ghost use Rattle.herm_letters.specs.LettersInOrder.{QueueState};

    ghost Value = { QueueState };

    ghost coded = { Prim.hlevel (codes, held.the_row.coded) };

    ghost view = { λ q. record { parcels = q.waiting.items; room = deque_capacity q.waiting - deque_len q.waiting } };

    ghost invariant = { λ q. All IsParcel q.waiting.items };
}

/// Appends a further text of each message.
fn push_traces(texts: &mut Vec<Trace>, parcels: &[Parcel]) -> Result<(), AllocError>
    ensures { OnOk result (texts.new.items ≡ texts.old.items ++ map (λ p. p.trace) parcels.now) }
{
    'parcels: for parcel in parcels {
        let text = parcel.trace.again()?;
        texts.push(text)?;
    }
    Ok(())
}

impl Parcels {
    /// No messages. It takes no memory.
    pub fn new(alloc: Global) -> Parcels
        ensures parcels { result.parcels ≡ [] }
    {
        Parcels {
            waiting: VecDeque::new(alloc),
        }
    }

    /// Makes room for one message.
    pub fn reserve(&mut self) -> Result<(), AllocError>
        ensures parcels { self.new.parcels ≡ self.old.parcels }
        ensures ok { OnOk result (1 ≤ self.new.room) }
        ensures room { self.old.room ≤ self.new.room }
    {
        self.waiting.reserve(1)
    }

    /// Puts a message behind the others, for which there is room.
    pub fn push(&mut self, parcel: Parcel)
        requires room { 0 < self.old.room }
        requires parcel { IsParcel parcel }
        ensures pushed { self.new ≡ record { parcels = self.old.parcels ++ parcel ∷ []; room = self.old.room - 1 } }
    {
        self.waiting.push_back_reserved(parcel);
    }

    /// Takes the first message out, if there is one.
    pub fn take(&mut self) -> Option<Parcel>
        ensures first { IfSome result (λ p. self.old.parcels ≡ p ∷ self.new.parcels) }
        ensures parcel { IfSome result IsParcel }
        ensures room { self.old.room ≤ self.new.room }
        ensures empty { IfNone result (self.old.parcels ≡ []) }
        ensures unchanged { IfNone result (self.new ≡ self.old) }
    {
        self.waiting.pop_front()
    }

    /// How many messages there are.
    pub fn len(&self) -> usize
        ensures number { result ≡ length self.now.parcels }
    {
        self.waiting.len()
    }

    /// A further text of each message, in order. The bytes of long ones are shared.
    pub fn traces(&self) -> Result<Vec<Trace>, AllocError>
        ensures texts { IfOk result (λ texts. texts.items ≡ map (λ p. text_of (value_view p.value)) self.now.parcels) }
    {
        let mut texts = Vec::new(*self.waiting.allocator());
        let (first, second) = self.waiting.as_slices();
        push_traces(&mut texts, first)?;
        push_traces(&mut texts, second)?;
        Ok(texts)
    }
}
