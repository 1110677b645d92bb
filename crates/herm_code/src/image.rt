//! Images: what a compiler makes of a program.
ghost use Rattle.std.specs.Prelude.{◌≡◌, length};
ghost use Rattle.herm_instructions.specs.GoodCode.{IsGood};
ghost use Rattle.herm_code.specs.View.{code_image, image_view};

use crate::modules::{CodeModule, Const};
use herm_types::TypeTable;
use std::marker::Model;

/// The code modules of a program, by the numbers of its process modules, the constants of all, and its types. The code is good.
#[derive(Drop)]
pub struct Image {
    modules: Vec<CodeModule>,
    constants: Vec<Const>,
    types: TypeTable,
}

impl Model for Image {
    ghost use Rattle.herm_code.specs.View.{CodeImage, inside_view, IsKept};

    ghost Value = { CodeImage };

    ghost view = { inside_view };

    ghost invariant = { IsKept };
}

impl Image {
    /// The image of these parts, which are good. It takes no memory.
    pub fn new(modules: Vec<CodeModule>, constants: Vec<Const>, types: TypeTable) -> Image
        requires good { IsGood (length types.exceptions) (image_view (code_image modules.items constants.items types)) }
        ensures parts { result ≡ code_image modules.items constants.items types }
    {
        Image {
            modules,
            constants,
            types,
        }
    }

    /// What every image keeps: its code is good. Nothing is done.
    pub fn keeps(&self)
        ensures good { IsGood (length self.now.types.exceptions) (image_view self.now) }
    {
        let _count = self.modules.len();
    }

    /// The code modules, by number.
    pub fn modules(&self) -> &[CodeModule]
        ensures modules { result.now ≡ self.now.modules }
    {
        self.modules.as_slice()
    }

    /// The constants, by number.
    pub fn constants(&self) -> &[Const]
        ensures constants { result.now ≡ self.now.constants }
    {
        self.constants.as_slice()
    }

    /// The types.
    pub fn types(&self) -> &TypeTable
        ensures types { result.now ≡ self.now.types }
    {
        &self.types
    }
}
