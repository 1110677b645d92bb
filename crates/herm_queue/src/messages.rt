//! The messages that wait at a port, each with a further text.
ghost use Rattle.std.specs.Prelude.{◌≡◌, ◌++◌, ◌∷◌, [], ◌<◌, ◌≤◌, ◌-◌, IfSome, IfNone, OnOk, length};
ghost use Rattle.herm_letters.specs.Letters.{IsParcel};
ghost use Rattle.herm_queue.specs.CellStates.{value_text};
ghost use Rattle.herm_queue.specs.MessageStates.{texts_of_parcels};

use herm_events::{Trace, Traces};
use herm_letters::{Parcel, Parcels};
use std::alloc::{AllocError, Global};
use std::collections::VecDeque;
use std::marker::Model;
use std::mem;

/// Messages in queue order, with a further text of each, for the entry that takes it out or closes the port.
#[derive(Drop)]
pub struct Messages {
    waiting: Parcels,
    texts: VecDeque<Trace>,
}

impl Model for Messages {
    ghost use Rattle.std.specs.Prelude.{◌≡◌, ◌-◌};
    ghost use Rattle.std.specs.Coded.{codes};
    ghost use Rattle.std.specs.VecDeque.{deque_len, deque_capacity};
    ghost use Rattle.herm_letters.specs.contracts.parcel.Parcel as held;
    ghost use Rattle.herm_queue.specs.MessageStates.{MessageState, texts_of_parcels};

    ghost Value = { MessageState };

    ghost coded = { Prim.hlevel (codes, held.the_row.coded) };

    ghost view = { λ m. record { parcels = m.waiting.parcels; room = m.waiting.room; text_room = deque_capacity m.texts - deque_len m.texts } };

    ghost invariant = { λ m. m.texts.items ≡ texts_of_parcels m.waiting.parcels };
}

impl Messages {
    /// No messages. It takes no memory.
    pub fn new(alloc: Global) -> Messages
        ensures parcels { result.parcels ≡ [] }
    {
        Messages {
            waiting: Parcels::new(alloc),
            texts: VecDeque::new(alloc),
        }
    }

    /// Makes room for one message with its further text.
    pub fn reserve(&mut self) -> Result<(), AllocError>
        ensures parcels { self.new.parcels ≡ self.old.parcels }
        ensures room { OnOk result (1 ≤ self.new.room) }
        ensures text_room { OnOk result (1 ≤ self.new.text_room) }
        ensures more_room { self.old.room ≤ self.new.room }
        ensures more_text_room { self.old.text_room ≤ self.new.text_room }
    {
        self.waiting.reserve()?;
        self.texts.reserve(1)?;
        Ok(())
    }

    /// Puts a message behind the others, for which there is room.
    pub fn put(&mut self, parcel: Parcel, text: Trace)
        requires room { 1 ≤ self.old.room }
        requires text_room { 1 ≤ self.old.text_room }
        requires parcel { IsParcel parcel }
        requires text { text ≡ value_text parcel.value }
        ensures placed { self.new ≡ record { parcels = self.old.parcels ++ parcel ∷ []; room = self.old.room - 1; text_room = self.old.text_room - 1 } }
    {
        self.waiting.push(parcel);
        self.texts.push_back_reserved(text);
    }

    /// Takes the first message out, if there is one, with its further text.
    pub fn take(&mut self) -> Option<(Parcel, Trace)>
        ensures first { IfSome result (λ r. self.old.parcels ≡ r.0 ∷ self.new.parcels) }
        ensures parcel { IfSome result (λ r. IsParcel r.0) }
        ensures text { IfSome result (λ r. r.1 ≡ value_text r.0.value) }
        ensures more_room { self.old.room ≤ self.new.room }
        ensures more_text_room { self.old.text_room ≤ self.new.text_room }
        ensures empty { IfNone result (self.old.parcels ≡ []) }
        ensures unchanged { IfNone result (self.new ≡ self.old) }
    {
        match self.texts.pop_front() {
            Some(text) => match self.waiting.take() {
                Some(parcel) => Some((parcel, text)),
                None => None,
            },
            None => None,
        }
    }

    /// Hands over all messages, and their further texts.
    pub fn hand_over(&mut self) -> (Parcels, Traces)
        ensures parcels { result.0.parcels ≡ self.old.parcels }
        ensures texts { result.1 ≡ texts_of_parcels self.old.parcels }
        ensures empty { self.new.parcels ≡ [] }
    {
        let alloc = *self.texts.allocator();
        let left = mem::replace(self, Messages::new(alloc));
        (left.waiting, Traces::from_vec(left.texts.into_vec()))
    }

    /// How many messages there are.
    pub fn len(&self) -> usize
        ensures number { result ≡ length self.now.parcels }
    {
        self.waiting.len()
    }
}
