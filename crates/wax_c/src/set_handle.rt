//! Handles of sets of globs.
ghost use Rattle.std.specs.{Prelude.{◌≡◌, None, Option, Some}, Coded.coded_option};
ghost use Rattle.wax.specs.{Language.{Span, Tree}, Matching.{MeansText, any_code}};
ghost use denote.RawPtr.{null_ptr};

use crate::loose::Loose;
use std::alloc::Global;
use std::marker::Model;
use wax::{Compared, OwnedAnyMatcher, Selector};

/// What a handle points to: a set with what calls learned from paths.
#[derive(Drop)]
pub struct HeldSet {
    pub matcher: OwnedAnyMatcher<'static>,
}

impl Compared for HeldSet {
    ghost selects = { λ held. MeansText held.matcher };

    fn selector(&self) -> Selector<'_> {
        self.matcher.any().selector()
    }
}

/// A handle: a pointer to a set that it owns, or a pointer that owns nothing.
#[repr(C)]
#[derive(Drop)]
pub struct SetHandle {
    pub at: *mut u8,
    pub alloc: Global,
    pub ghost held: { Option (Tree Span) } by { coded_option any_code },
}

impl Model for SetHandle {
    ghost use Rattle.wax_c.specs.SetOwned.{owned_set_at};

    ghost also_owns = { λ handle. owned_set_at handle.alloc handle.at handle.held };
}

impl SetHandle {
    /// Converts what a box held into a handle.
    pub(crate) fn of(loose: Loose<HeldSet, Global>) -> SetHandle
        ensures { result.held ≡ Some loose.value.matcher }
    {
        let Loose { at, alloc } = loose;
        SetHandle {
            at: at as *mut u8,
            alloc,
        }
    }

    /// Returns a handle that owns nothing.
    pub(crate) fn null(alloc: Global) -> SetHandle
        ensures { (result.held ≡ None) × (result.at ≡ null_ptr) }
    {
        SetHandle {
            at: std::ptr::null_mut(),
            alloc,
        }
    }
}
