//! Writing the instructions of tokens, from the last one to the first.
ghost use Rattle.std.specs.Prelude.{◌≡◌, ◌≤◌, ◌-◌, ◌∷◌, ◌++◌, IfSome, OnOk, List, length};
ghost use Rattle.wax_program.specs.declared.instruction.Instruction.{Instruction};
ghost use Rattle.wax_match.specs.inner.Code.{branches_code, choose, copied_code, copies_code, counted_code};
ghost use Rattle.wax_match.specs.inner.Code.{loop, many_code, repeated_code, sequence_code, instructions_of};
ghost use Rattle.wax_match.specs.inner.Code.{up_to_code};
ghost use Rattle.wax_token.specs.Words.{trees};

use crate::encode::cost::weigh;
use crate::encode::tail::Tail;
use std::alloc::AllocError;
use wax_program::instruction::{Instruction, Test};
use wax_token::token::{BranchKind, Sides, Token, Topology};

impl Tail {
    /// Writes tokens one after another.
    #[cycle(put)]
    #[tactic(auto, using(wax_token::proofs::Sizes::element_size))]
    pub fn put_sequence<'t, A>(
        &mut self,
        tokens: &[Token<'t, A>],
        sides: Sides,
    ) -> Result<(), AllocError>
        ensures { OnOk result
            (self.new ≡ sequence_code (trees tokens.now) sides.before sides.after ++ self.old) }
    {
        let mut index = tokens.len();
        while index > 0 {
            let has_next = index < tokens.len();
            index -= 1;
            let neighbours = Sides {
                before: index > 0,
                after: has_next,
            };
            self.put_token(&tokens[index], sides.or(neighbours))?;
        }
        Ok(())
    }

    /// Writes a token.
    #[cycle(put)]
    pub fn put_token<'t, A>(&mut self, token: &Token<'t, A>, sides: Sides) -> Result<(), AllocError>
        ensures { OnOk result
            (self.new ≡ instructions_of token.now sides.before sides.after ++ self.old) }
    {
        match token.topology() {
            Topology::Branch(branch) => match branch {
                BranchKind::Alternation(a) => self.put_branches(a.tokens.as_slice(), sides),
                BranchKind::Concatenation(c) => self.put_sequence(c.tokens.as_slice(), sides),
                BranchKind::Repetition(r) => {
                    self.put_repetition(&r.token, r.lower, r.upper, sides)
                }
            },
            Topology::Leaf(leaf) => self.put_leaf(leaf, sides),
        }
    }

    /// Writes the branches of an alternation. Behind the last branch is a check that always fails.
    #[cycle(put)]
    #[tactic(auto, using(wax_token::proofs::Sizes::element_size))]
    fn put_branches<'t, A>(
        &mut self,
        tokens: &[Token<'t, A>],
        sides: Sides,
    ) -> Result<(), AllocError>
        ensures { OnOk result
            (self.new ≡ branches_code (trees tokens.now) sides.before sides.after ++ self.old) }
    {
        let start = self.len();
        self.put(Instruction::Check(Test::Never))?;
        let mut index = tokens.len();
        while index > 0 {
            index -= 1;
            let others = self.len() - start;
            self.put_choice(&tokens[index], others, sides)?;
        }
        Ok(())
    }

    /// Writes a token before the next `others` instructions, as an alternative to them.
    #[cycle(put)]
    fn put_choice<'t, A>(
        &mut self,
        token: &Token<'t, A>,
        others: usize,
        sides: Sides,
    ) -> Result<(), AllocError>
        ensures { (other rest : List Instruction) → self.old ≡ other ++ rest → length other ≡ others
            → OnOk result
            (self.new ≡ choose (instructions_of token.now sides.before sides.after) other ++ rest) }
    {
        let start = self.len();
        self.put(Instruction::Jump(others))?;
        self.put_token(token, sides)?;
        self.put_skip(start)
    }

    /// Writes from `lower` to `upper` copies of a body.
    #[cycle(put)]
    #[tactic(auto, using(crate::proofs::Sequences::no_copies, crate::proofs::Sequences::one_copy))]
    fn put_repetition<'t, A>(
        &mut self,
        body: &Token<'t, A>,
        lower: usize,
        upper: Option<usize>,
        sides: Sides,
    ) -> Result<(), AllocError>
        ensures { OnOk result
            (self.new ≡ repeated_code lower upper body.now sides.before sides.after ++ self.old) }
    {
        if matches!(upper, Some(0 | 1)) || !weigh(body).holds_tree {
            self.put_counted(body, lower, upper, sides)
        } else {
            self.put_copied(body, lower, upper, sides)
        }
    }

    /// Writes copies of a body with a `**` in it. What the body matches depends on what is around
    /// it, so the first copy, the last one and those between are written apart.
    #[cycle(put)]
    fn put_copied<'t, A>(
        &mut self,
        body: &Token<'t, A>,
        lower: usize,
        upper: Option<usize>,
        sides: Sides,
    ) -> Result<(), AllocError>
        requires { IfSome upper (λ upper. 2 ≤ upper) }
        ensures { OnOk result (self.new
            ≡ copied_code lower upper (instructions_of body.now) sides.before sides.after ++ self.old) }
    {
        let further = match upper {
            Some(upper) => Some(upper - 2),
            None => None,
        };
        let start = self.len();
        self.put_many(body, lower.saturating_sub(2), further, sides)?;
        if lower < 2 {
            let others = self.len() - start;
            self.put_choice(body, others, sides)?;
        }
        if lower == 0 {
            self.put_skip(start)?;
        }
        Ok(())
    }

    /// Writes a first copy, `lower` to `upper` between, and a last one.
    #[cycle(put)]
    fn put_many<'t, A>(
        &mut self,
        body: &Token<'t, A>,
        lower: usize,
        upper: Option<usize>,
        sides: Sides,
    ) -> Result<(), AllocError>
        ensures { OnOk result (self.new
            ≡ many_code lower upper (instructions_of body.now) sides.before sides.after ++ self.old) }
    {
        let first = Sides {
            after: true,
            ..sides
        };
        let between = Sides {
            before: true,
            after: true,
        };
        let last = Sides {
            before: true,
            ..sides
        };
        self.put_token(body, last)?;
        self.put_counted(body, lower, upper, between)?;
        self.put_token(body, first)
    }

    /// Writes from `lower` to `upper` copies that have the same surroundings.
    #[cycle(put)]
    fn put_counted<'t, A>(
        &mut self,
        body: &Token<'t, A>,
        lower: usize,
        upper: Option<usize>,
        sides: Sides,
    ) -> Result<(), AllocError>
        ensures { OnOk result (self.new
            ≡ counted_code lower upper (instructions_of body.now sides.before sides.after) ++ self.old) }
    {
        match upper {
            Some(upper) if upper < lower => return self.put(Instruction::Check(Test::Never)),
            Some(upper) => self.put_up_to(body, upper - lower, sides)?,
            None => self.put_loop_of(body, sides)?,
        }
        self.put_copies(body, lower, sides)
    }

    #[cycle(put)]
    fn put_copies<'t, A>(
        &mut self,
        body: &Token<'t, A>,
        count: usize,
        sides: Sides,
    ) -> Result<(), AllocError>
        ensures { OnOk result (self.new
            ≡ copies_code count (instructions_of body.now sides.before sides.after) ++ self.old) }
    {
        for _copy in 0..count {
            self.put_token(body, sides)?;
        }
        Ok(())
    }

    /// Writes at most `count` copies.
    #[cycle(put)]
    fn put_up_to<'t, A>(
        &mut self,
        body: &Token<'t, A>,
        count: usize,
        sides: Sides,
    ) -> Result<(), AllocError>
        ensures { OnOk result (self.new
            ≡ up_to_code count (instructions_of body.now sides.before sides.after) ++ self.old) }
    {
        let start = self.len();
        for _copy in 0..count {
            self.put_token(body, sides)?;
            self.put_skip(start)?;
        }
        Ok(())
    }

    /// Writes zero or more copies.
    #[cycle(put)]
    fn put_loop_of<'t, A>(&mut self, body: &Token<'t, A>, sides: Sides) -> Result<(), AllocError>
        ensures { OnOk result
            (self.new ≡ loop (instructions_of body.now sides.before sides.after) ++ self.old) }
    {
        let start = self.len();
        self.put(Instruction::Back(0))?;
        self.put_token(body, sides)?;
        let by = self.len() - start;
        self.replace(by - 1, Instruction::Back(by));
        self.put(Instruction::Fork(by))
    }

    /// Makes optional what was written since there were `start` instructions.
    pub fn put_skip(&mut self, start: usize) -> Result<(), AllocError>
        requires { start ≤ length self.old }
        ensures { OnOk result (self.new ≡ Instruction.Fork (length self.old - start) ∷ self.old) }
    {
        let by = self.len() - start;
        self.put(Instruction::Fork(by))
    }
}
