//! Writing the instructions of leaves, from the last one to the first.
ghost use Rattle.std.specs.Prelude.{◌≡◌, ◌++◌, ◌∷◌, ℕ, List, [], OnOk, IfOk, chars};
ghost use Rattle.wax_match.specs.inner.Code.{leaf_instructions, literal_code, skip, slash_code};
ghost use Rattle.wax_match.specs.inner.Code.{wildcard_code};
ghost use Rattle.wax_token.specs.View.{leaf_of};

use crate::encode::tail::Tail;
use std::alloc::{AllocError, Global};
use unicode::case::simple_fold;
use wax_program::instruction::{BoxedClass, Instruction, Test};
use wax_token::token::{LeafKind, Sides, Wildcard};

impl Tail {
    /// Writes a leaf, by what is before and after it.
    pub fn put_leaf(&mut self, leaf: &LeafKind<'_>, sides: Sides) -> Result<(), AllocError>
        ensures { OnOk result
            (self.new ≡ leaf_instructions (leaf_of leaf.now) sides.before sides.after ++ self.old) }
    {
        match leaf {
            LeafKind::Class(class) => {
                let class = BoxedClass::copied(self.allocator(), class)?;
                self.put(Instruction::Check(Test::Class(class)))
            }
            LeafKind::Literal(literal) => {
                self.put_text(literal.text(), literal.is_case_insensitive())
            }
            LeafKind::Separator(_) => self.put_slash(),
            LeafKind::Wildcard(wildcard) => match wildcard {
                Wildcard::One => self.put(Instruction::Check(Test::NotSlash)),
                Wildcard::ZeroOrMore(_) => self.put(Instruction::Repeat(Test::NotSlash)),
                Wildcard::Tree { has_root } => self.put_wildcard(sides, *has_root),
            },
        }
    }

    /// Writes the characters of a text.
    pub fn put_text(&mut self, text: &str, is_case_insensitive: bool) -> Result<(), AllocError>
        ensures { OnOk result
            (self.new ≡ literal_code is_case_insensitive (chars text.now) ++ self.old) }
    {
        let characters = characters(self.allocator(), text)?;
        let mut index = characters.len();
        while index > 0 {
            index -= 1;
            let test = test_of(is_case_insensitive, characters[index]);
            self.put(Instruction::Check(test))?;
        }
        Ok(())
    }

    fn put_slash(&mut self) -> Result<(), AllocError>
        ensures { OnOk result (self.new ≡ slash_code ++ self.old) }
    {
        self.put(Instruction::Check(Test::Char('/')))
    }

    fn put_wildcard(&mut self, sides: Sides, has_root: bool) -> Result<(), AllocError>
        ensures { OnOk result
            (self.new ≡ wildcard_code sides.before sides.after has_root ++ self.old) }
    {
        if sides.after {
            self.put_components()?;
            if sides.before || has_root {
                self.put_slash()?;
            }
            return Ok(());
        }
        if sides.before {
            self.put_rest()?;
            self.put(Instruction::Fork(2))
        } else if has_root {
            self.put_rest()
        } else {
            self.put(Instruction::Repeat(Test::Any))
        }
    }

    /// Writes zero or more components, each with the `/` after it.
    pub fn put_components(&mut self) -> Result<(), AllocError>
        ensures { OnOk result (self.new ≡ skip (Instruction.Components ∷ []) ++ self.old) }
    {
        self.put(Instruction::Components)?;
        self.put(Instruction::Fork(1))
    }

    /// Writes a `/` and any text after it.
    pub fn put_rest(&mut self) -> Result<(), AllocError>
        ensures { OnOk result (self.new ≡ slash_code ++ Instruction.Repeat Test.Any ∷ self.old) }
    {
        self.put(Instruction::Repeat(Test::Any))?;
        self.put_slash()
    }
}

fn test_of(is_case_insensitive: bool, c: char) -> Test
    ensures { (t : List ℕ) → literal_code is_case_insensitive (c ∷ t)
        ≡ Instruction.Check result ∷ literal_code is_case_insensitive t }
{
    if is_case_insensitive {
        Test::Folded(simple_fold(c))
    } else {
        Test::Char(c)
    }
}

pub fn characters(alloc: Global, text: &str) -> Result<Vec<char>, AllocError>
    ensures { IfOk result (λ v. v.items ≡ chars text.now) }
{
    text.chars().collect(alloc)
}
