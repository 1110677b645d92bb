//! A value that is to be put, with its texts.
ghost use Rattle.std.specs.Prelude.{◌≡◌, IfOk, IfErr};
ghost use Rattle.herm_model.specs.ValueTexts.{text_of};
ghost use Rattle.herm_values.specs.View.{value_view};
ghost use Rattle.herm_values.specs.Whole.{IsWhole};
ghost use Rattle.herm_letters.specs.Letters.{IsLetter};

use crate::text::trace_of;
use herm_events::Trace;
use herm_values::Value;
use std::alloc::{AllocError, Global};
use std::marker::Model;

/// A whole value with four copies of its text: one each for the diary of the process that puts it, for the port's history
/// of the put, for the queue, and for the history again, where the message is taken or its port closed. So a put takes no
/// more memory for texts.
#[derive(Drop)]
pub struct Letter {
    value: Value,
    diary: Trace,
    put: Trace,
    parcel: Trace,
    taken: Trace,
}

impl Model for Letter {
    ghost use Rattle.std.specs.Coded.{codes};
    ghost use Rattle.herm_values.specs.contracts.value.Value as held;
    ghost use Rattle.herm_values.specs.declared.value.Value as declared;
    ghost use Rattle.herm_letters.specs.Letters.{IsLetter};

    ghost Value = { declared.Value };

    ghost coded = { Prim.hlevel (codes, held.the_row.coded) };

    ghost view = { λ l. l.value };

    ghost invariant = { λ l. IsLetter l.value l.diary l.put l.parcel l.taken };
}

/// Four copies of the text of a value.
#[derive(Drop)]
struct FourTexts {
    diary: Trace,
    put: Trace,
    parcel: Trace,
    taken: Trace,
}

/// Four copies of the text of a value. The bytes of a long one are shared.
fn four_texts(alloc: Global, v: &Value) -> Result<FourTexts, AllocError>
    ensures diary { IfOk result (λ t. t.diary ≡ text_of (value_view v.now)) }
    ensures put { IfOk result (λ t. t.put ≡ text_of (value_view v.now)) }
    ensures parcel { IfOk result (λ t. t.parcel ≡ text_of (value_view v.now)) }
    ensures taken { IfOk result (λ t. t.taken ≡ text_of (value_view v.now)) }
{
    let diary = trace_of(alloc, v)?;
    let put = diary.again()?;
    let parcel = diary.again()?;
    let taken = diary.again()?;
    Ok(FourTexts {
        diary,
        put,
        parcel,
        taken,
    })
}

impl Letter {
    /// The letter of a value. Where memory is wanted the value is handed back.
    pub fn of(alloc: Global, value: Value) -> Result<Letter, (Value, AllocError)>
        requires whole { IsWhole value }
        ensures letter { IfOk result (λ l. l ≡ value) }
        ensures handed_back { IfErr result (λ e. e.0 ≡ value) }
    {
        match four_texts(alloc, &value) {
            Ok(texts) => Ok(Letter {
                value,
                diary: texts.diary,
                put: texts.put,
                parcel: texts.parcel,
                taken: texts.taken,
            }),
            Err(error) => Err((value, error)),
        }
    }

    /// The value.
    pub fn into_value(self) -> Value
        ensures value { result ≡ self }
        ensures whole { IsWhole result }
    {
        self.value
    }

    /// The value, and its text for the diary, for the history of the put, for the queue, and for the history of the take.
    pub fn into_parts(self) -> (Value, Trace, Trace, Trace, Trace)
        ensures value { result.0 ≡ self }
        ensures texts { IsLetter self result.1 result.2 result.3 result.4 }
    {
        (self.value, self.diary, self.put, self.parcel, self.taken)
    }
}
