//! How many cells wait at a place.
ghost use Rattle.std.specs.Prelude.{◌≡◌, ◌+◌, map};
ghost use Rattle.herm_model.specs.Lists.{total};
ghost use Rattle.herm_journal.specs.Weights.{weigh, weigh_all, weigh_reply};
ghost use Rattle.herm_system.specs.Summary.{cut};
ghost use Rattle.herm_values.specs.View.{value_view};
ghost use Rattle.herm_letters.specs.View.{reply_view};
ghost use Rattle.herm_queue.specs.AnsweredReplies.{waiting_of};
ghost use Rattle.herm_queue.specs.MessageStates.{values_of};

use crate::answers::Answered;
use herm_letters::{Parcels, Reply};
use herm_values::{Value, cells};

/// As many cells as are counted.
const MOST_CELLS: u64 = 1 << 63;

/// The sum of two numbers of cells, cut.
pub fn sum(a: u64, b: u64) -> u64
    ensures sum { result ≡ cut (a + b) }
{
    a.saturating_add(b).min(MOST_CELLS)
}

/// How many cells a value has.
#[tactic(auto, using(crate::proofs::Weighed::weighed_count))]
fn cells_of_value(value: &Value) -> u64
    ensures cells { result ≡ cut (weigh (λ n. 1) (value_view value.now)) }
{
    cells(value)
}

/// How many cells these values have.
#[tactic(auto, using(crate::proofs::Weighed::cut_on))]
fn cells_of_values(values: &[Value]) -> u64
    ensures cells { result ≡ cut (weigh_all (λ n. 1) (map value_view values.now)) }
{
    let mut cells = 0;
    for value in values {
        cells = sum(cells, cells_of_value(value));
    }
    cells
}

/// How many cells the values of a reply have.
fn cells_of_reply(reply: &Reply) -> u64
    ensures cells { result ≡ cut (weigh_reply (λ n. 1) (reply_view reply.now)) }
{
    match reply {
        Reply::Values(values) => cells_of_values(values.as_slice()),
        Reply::Raised(_, kept) => cells_of_values(kept.as_slice()),
        Reply::Gone => 0,
    }
}

/// How many cells these replies have.
#[tactic(auto, using(crate::proofs::Weighed::cut_on))]
pub fn cells_of_replies(answered: &[Answered]) -> u64
    ensures cells { result ≡ cut (total (λ r. weigh_reply (λ n. 1) (reply_view r.1)) (waiting_of answered.now)) }
{
    let mut cells = 0;
    for answer in answered {
        cells = sum(cells, cells_of_reply(&answer.reply));
    }
    cells
}

/// How many cells these messages have.
#[tactic(auto, using(crate::proofs::Weighed::cut_on))]
pub fn cells_of_parcels(parcels: Parcels) -> u64
    ensures cells { result ≡ cut (weigh_all (λ n. 1) (map value_view (values_of parcels.parcels))) }
{
    let mut parcels = parcels;
    let mut cells = 0;
    'parcels: while let Some(parcel) = parcels.take() {
        cells = sum(cells, cells_of_value(&parcel.value));
    }
    cells
}
