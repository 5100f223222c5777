//! Forms of letters, found by their first letters.
ghost use Rattle.std.specs.Prelude.{◌≡◌, ◌<◌, ◌≤◌, IfOk, length, drop};
ghost use Rattle.wax_capture.specs.{Pieces.forms_of, inner.Letters.{ArePassed, NoneBegins}};

use crate::piece::Ways;
use std::alloc::{AllocError, Global};
use std::marker::Model;
use wax_lengths::letters::{GROUPS, begins_in, first_letter, group_of, is_folded, letter_of};
use wax_lengths::{Form, Text, may_spell};

/// Fewer forms than these are looked through in their order.
const LEAST: usize = 8;

/// Forms of letters, all of them in one case, or all in any case. Those that begin with a letter of
/// the same group are linked in their order.
#[derive(Drop)]
pub struct ByLetter {
    forms: Vec<Form>,
    /// True if the letters are simple case foldings, and match in any case.
    is_folded: bool,
    /// For each group, the first form that begins with a letter of it.
    firsts: Vec<usize>,
    /// For each form, the next one that begins with a letter of the same group.
    nexts: Vec<usize>,
}

impl Model for ByLetter {
    ghost use Rattle.std.specs.{Prelude.List, Coded.coded_list};
    ghost use Rattle.wax_lengths.specs.declared.form.Form.{Form};
    ghost use Rattle.wax_capture.specs.inner.Letters.{AreLinked};
    ghost use Rattle.wax_lengths.specs.contracts.form.Form as form;

    ghost Value = { List Form };

    ghost coded = { coded_list form.the_row.coded };

    ghost view = { λ b. b.forms.items };

    ghost invariant = { λ b. AreLinked b.forms.items b.is_folded b.firsts.items b.nexts.items 0 };
}

impl ByLetter {
    pub fn forms(&self) -> &[Form]
        ensures { result.now ≡ self.now }
    {
        self.forms.as_slice()
    }

    /// Returns the index of the first form, from `from` on, that may take a part of the text from
    /// `at` on, or at least the number of forms.
    #[inline(never)]
    pub fn next_form(&self, from: usize, text: &Text<'_>, at: usize) -> usize
        requires { at ≤ length text.now }
        ensures further { from ≤ result }
        ensures passed { ArePassed self.now from result (drop at text.now) }
    {
        if at == text.len() {
            return self.forms.len().max(from);
        }
        let group = group_of(letter_of(self.is_folded, text.char_at(at)));
        let mut index = self.next_in(from, group);
        while index < self.forms.len() && !may_spell(&self.forms[index], text, at) {
            index = self.next_in(index + 1, group);
        }
        index
    }

    /// Returns the index of the first form, from `from` on, that begins with a letter of the group.
    /// If the form before doesn't begin with one, `from` is returned.
    #[inline]
    fn next_in(&self, from: usize, group: usize) -> usize
        requires { group < 128 }
        ensures further { from ≤ result }
        ensures none { NoneBegins self.now from result group }
    {
        if from == 0 {
            return self.firsts[group];
        }
        if from <= self.forms.len() && begins_in(&self.forms[from - 1], group) {
            return self.nexts[from - 1].max(from);
        }
        from
    }
}

/// Links the forms if there are many, each with a letter at its beginning, and all of them in one
/// case, or all in any case.
pub fn linked(alloc: Global, forms: Vec<Form>) -> Result<Ways, AllocError>
    ensures { IfOk result (λ ways. forms_of ways ≡ forms.items) }
{
    if forms.len() < LEAST {
        return Ok(Ways::Each(forms));
    }
    let is_any_case = is_folded(&forms[0]);
    let mut firsts = vec![in alloc; forms.len(); GROUPS]?;
    let mut nexts = vec![in alloc; 0usize; forms.len()]?;
    let mut index = forms.len();
    while index > 0 {
        index -= 1;
        let form = &forms[index];
        let Some(letter) = first_letter(form) else {
            return Ok(Ways::Each(forms));
        };
        if is_folded(form) != is_any_case {
            return Ok(Ways::Each(forms));
        }
        let group = group_of(letter);
        nexts[index] = firsts[group];
        firsts[group] = index;
    }
    let by_letter = ByLetter {
        forms,
        is_folded: is_any_case,
        firsts,
        nexts,
    };
    Ok(Ways::Linked(Box::new(alloc, by_letter)?))
}
