//! A polymorph: a value with its type.
ghost use Rattle.std.specs.Prelude.{◌≡◌, ◌≤◌, ◌<◌, ◌↔◌, IfOk, IfErr, IsErr};
ghost use Rattle.herm_parcels.specs.Faults.{IsDeep, handed_back};

use herm_base::TypeNo;
use std::alloc::Global;

/// As deep polymorphs may nest.
const GREATEST_DEPTH: u32 = 16;

/// A polymorph: the type of its content, how deep polymorphs nest in it, itself counted, and the content.
#[derive(Drop)]
pub struct Poly<V> {
    pub(crate) tag: TypeNo,
    pub(crate) depth: u32,
    pub(crate) value: Box<V>,
}

/// Why a polymorph was not made, with its content: it would be too deep, or memory is wanted.
#[derive(Drop)]
pub enum PolyFault<V> {
    Deep(V),
    Memory(V),
}

impl<V> Poly<V> {
    /// The polymorph with this content, where its depth is at most 16.
    pub fn new(alloc: Global, tag: TypeNo, depth: u32, value: V) -> Result<Poly<V>, PolyFault<V>>
        requires nests { 1 ≤ depth }
        ensures tag { IfOk result (λ p. p.tag ≡ tag) }
        ensures depth { IfOk result (λ p. p.depth ≡ depth) }
        ensures value { IfOk result (λ p. p.value.value ≡ value) }
        ensures deep { IfErr result (λ e. IsDeep e ↔ (16 < depth)) }
        ensures shallow { IfOk result (λ p. depth ≤ 16) }
        ensures handed_back { IfErr result (λ e. handed_back e ≡ value) }
    {
        if depth > GREATEST_DEPTH {
            return Err(PolyFault::Deep(value));
        }
        match Box::new(alloc, value) {
            Ok(value) => Ok(Poly { tag, depth, value }),
            Err(e) => Err(PolyFault::Memory(e.value)),
        }
    }

    /// The type of the content.
    pub fn tag(&self) -> TypeNo
        ensures tag { result ≡ self.now.tag }
    {
        self.tag
    }

    /// How deep polymorphs nest, this one counted. `new` makes none above 16.
    pub fn depth(&self) -> u32
        ensures depth { result ≡ self.now.depth }
    {
        self.depth
    }

    pub fn content(&self) -> &V
        ensures content { result.now ≡ self.now.value.value }
    {
        &self.value
    }

    /// The content.
    pub fn into_content(self) -> V
        ensures content { result ≡ self.value.value }
    {
        Box::into_inner(self.value)
    }

    /// The content, where it is of the wanted type. Otherwise the polymorph is handed back.
    pub fn unwrap_as(self, wanted: TypeNo) -> Result<V, Poly<V>>
        ensures content { IfOk result (λ v. v ≡ self.value.value) }
        ensures mismatch { IsErr result ↔ (self.tag ≡ wanted → ⊥) }
        ensures handed_back { IfErr result (λ p. p ≡ self) }
    {
        if self.tag == wanted {
            Ok(Box::into_inner(self.value))
        } else {
            Err(self)
        }
    }
}
