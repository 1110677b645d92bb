//! The texts of values.
ghost use Rattle.std.specs.Prelude.{◌≡◌, ◌++◌, ◌≤◌, [], ◌∷◌, ◌↔◌, take, IfOk, IsOk, OnOk, OnErr, IsTrue, length, ℕ, List, bytes_eq};
ghost use Rattle.std.specs.Cmp.{partial_equiv_from_equiv};
ghost use Rattle.std.specs.Cmp.Lexicographic.{nat_list_eq_equiv};

use std::alloc::{AllocError, Global};
use std::marker::Model;
use std::sync::ArcSlice;

/// The most bytes that a text holds in itself. It has room for every number.
const INLINE: usize = 22;

/// The bytes of a short text, and how many they are.
#[derive(Clone, Copy, Debug)]
struct ShortText {
    bytes: [u8; 22],
    count: u8,
    ghost within: { count ≤ 22 },
}

/// A short text holds its bytes. A longer one shares them with the texts that were made of it.
#[derive(Debug, Drop)]
enum Text {
    Short(ShortText),
    Long(ArcSlice<u8, Global>),
}

/// The text of a value, seen as the list of its bytes. One of at most 22 bytes takes no memory of its own.
#[derive(Debug, Drop)]
pub struct Trace {
    text: Text,
}

impl Model for Trace {
    ghost use Rattle.std.specs.Prelude.{List, ℕ};
    ghost use Rattle.herm_events.specs.TraceBytes.{bytes_of};

    ghost Value = { List ℕ };

    ghost view = { λ t. bytes_of t.text };
}

/// The short text with these bytes.
fn short_text(bytes: &[u8]) -> ShortText
    requires short { length bytes.now ≤ 22 }
    ensures bytes { take result.count result.bytes ≡ bytes.now }
{
    let mut kept = [0; INLINE];
    kept[..bytes.len()].copy_from_slice(bytes);
    ShortText {
        bytes: kept,
        count: bytes.len() as u8,
    }
}

impl Trace {
    /// The text with these bytes.
    pub fn of(alloc: Global, bytes: &[u8]) -> Result<Trace, AllocError>
        ensures bytes { IfOk result (λ t. t ≡ bytes.now) }
        ensures short { length bytes.now ≤ 22 → IsOk result }
    {
        if bytes.len() <= INLINE {
            return Ok(Trace {
                text: Text::Short(short_text(bytes)),
            });
        }
        let shared = ArcSlice::from_slice(alloc, bytes)?;
        Ok(Trace {
            text: Text::Long(shared),
        })
    }

    /// The text with the bytes of a `Vec`, which are not copied where they are more than 22.
    pub fn from_vec(bytes: Vec<u8>) -> Result<Trace, AllocError>
        ensures bytes { IfOk result (λ t. t ≡ bytes.items) }
        ensures short { length bytes.items ≤ 22 → IsOk result }
    {
        if bytes.len() <= INLINE {
            return Ok(Trace {
                text: Text::Short(short_text(&bytes)),
            });
        }
        let shared = ArcSlice::from_vec(bytes)?;
        Ok(Trace {
            text: Text::Long(shared),
        })
    }

    /// The bytes of the text.
    pub fn bytes(&self) -> &[u8]
        ensures bytes { result.now ≡ self.now }
    {
        match &self.text {
            Text::Short(short) => &short.bytes[..short.count as usize],
            Text::Long(shared) => shared.as_slice(),
        }
    }

    /// An equal text. The bytes of a long one are shared, not copied; one of at most 22 bytes takes no memory.
    pub fn again(&self) -> Result<Trace, AllocError>
        ensures same { IfOk result (λ t. t ≡ self.now) }
        ensures short { length self.now ≤ 22 → IsOk result }
    {
        match &self.text {
            Text::Short(short) => Ok(Trace {
                text: Text::Short(*short),
            }),
            Text::Long(shared) => {
                let bytes = shared.as_slice();
                if bytes.len() <= INLINE {
                    return Ok(Trace {
                        text: Text::Short(short_text(bytes)),
                    });
                }
                let shared = shared.clone()?;
                Ok(Trace {
                    text: Text::Long(shared),
                })
            }
        }
    }
}

impl PartialEq for Trace {
    ghost eq = { bytes_eq };

    ghost laws = { partial_equiv_from_equiv nat_list_eq_equiv };

    fn eq(&self, other: &Trace) -> bool {
        self.bytes() == other.bytes()
    }
}

impl Eq for Trace {
    ghost laws = { nat_list_eq_equiv };
}

/// The texts of several values, seen as the list of them.
#[derive(Debug, Drop)]
pub struct Traces {
    texts: Vec<Trace>,
}

impl Model for Traces {
    ghost Value = { List (List ℕ) };

    ghost view = { λ t. t.texts.items };
}

impl Traces {
    /// No texts.
    pub fn new(alloc: Global) -> Traces
        ensures { result ≡ [] }
    {
        Traces {
            texts: Vec::new(alloc),
        }
    }

    /// The texts of a `Vec`. It takes no memory.
    pub fn from_vec(texts: Vec<Trace>) -> Traces
        ensures { result ≡ texts.items }
    {
        Traces { texts }
    }

    /// Puts a text behind the others.
    pub fn push(&mut self, text: Trace) -> Result<(), AllocError>
        ensures ok { OnOk result (self.new ≡ self.old ++ text ∷ []) }
        ensures err { OnErr result (self.new ≡ self.old) }
    {
        self.texts.push(text)?;
        Ok(())
    }

    /// How many texts there are.
    pub fn len(&self) -> usize
        ensures { result ≡ length self.now }
    {
        self.texts.len()
    }

    /// Whether there is no text.
    pub fn is_empty(&self) -> bool
        ensures { IsTrue result ↔ (self.now ≡ []) }
    {
        self.texts.is_empty()
    }

    /// The texts in order.
    pub fn as_slice(&self) -> &[Trace]
        ensures { result.now ≡ self.now }
    {
        self.texts.as_slice()
    }
}
