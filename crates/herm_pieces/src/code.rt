//! A code module of an image, made ready to run.
ghost use Rattle.std.specs.Prelude.{ℕ, ◌≡◌, map, option_map, option_and_then, slice_get, find, nat_eq};
ghost use Rattle.herm_instructions.specs.Images as images;
ghost use Rattle.herm_code.specs.View.{const_view, image_view, instr_view};
ghost use Rattle.herm_code_machine.specs.ReadyCode.{labelled_image};
ghost use Rattle.herm_pieces.specs.View.{landing_view, ready_view};

use herm_base::ExcNo;
use herm_code::{CodeModule, Const, Image, Instr};
use herm_types::TypeTable;

/// A code module of an image, with the image's constants and types. Contracts see it as code made ready (`ready_view`).
#[derive(Clone, Copy)]
pub struct Code<'i> {
    pub code: &'i CodeModule,
    pub constants: &'i [Const],
    pub types: &'i TypeTable,
}

impl<'i> Code<'i> {
    /// The code of the process module with this number, if there is one.
    pub fn of(image: &'i Image, number: u32) -> Option<Code<'i>>
        ensures code { (main : ℕ) → option_map ready_view result ≡ slice_get (labelled_image (image_view image.now) main).codes number }
    {
        let constants = image.constants();
        let types = image.types();
        match module_at(image, number) {
            Some(code) => Some(Code {
                code,
                constants,
                types,
            }),
            None => None,
        }
    }

    /// The instruction at an index.
    pub fn instruction_at(&self, index: usize) -> Option<&'i Instr>
        ensures instruction { option_map (λ i. instr_view i.now) result ≡ images.instruction_at (ready_view self.now).code index }
    {
        self.code.code.get(index)
    }

    /// The constant with this number.
    pub fn constant(&self, number: u32) -> Option<&'i Const>
        ensures constant { option_map (λ k. const_view k.now) result ≡ slice_get (ready_view self.now).constants number }
    {
        self.constants.get(number as usize)
    }

    /// Where an exception leads that the instruction at an index raises.
    pub fn landing_of(&self, index: usize, e: ExcNo) -> Option<usize>
        ensures landing { result ≡ images.landing_of (ready_view self.now).code index e.0 }
    {
        match self.code.landings.get(index) {
            Some(landings) => landing_among(landings.as_slice(), e),
            None => None,
        }
    }
}

/// The code module with this number.
fn module_at(image: &Image, number: u32) -> Option<&CodeModule>
    ensures found { option_map (λ m. m.now) result ≡ slice_get image.now.modules number }
{
    image.modules().get(number as usize)
}

/// The index of the first of these landings that is the exception's.
fn landing_among(landings: &[(ExcNo, u32)], e: ExcNo) -> Option<usize>
    ensures landing { result ≡ option_map (λ (l : images.Landing). l.index) (find (λ (l : images.Landing). nat_eq l.exception e.0) (map landing_view landings.now)) }
{
    'landings: for (raised, index) in landings {
        if raised.0 == e.0 {
            return Some(*index as usize);
        }
    }
    None
}
