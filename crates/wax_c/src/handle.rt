//! Handles of globs.
ghost use Rattle.std.specs.{Prelude.{◌≡◌, None, Option, Some}, Coded.coded_option};
ghost use Rattle.wax.specs.GlobView.{GlobView, IsMeant, glob_code};
ghost use denote.RawPtr.{null_ptr};

use crate::loose::Loose;
use std::alloc::Global;
use std::marker::Model;
use wax::{Compared, OwnedGlobMatcher, Selector};

/// What a handle points to: a glob with what calls learned from paths.
#[derive(Drop)]
pub struct HeldGlob {
    pub matcher: OwnedGlobMatcher<'static>,
}

impl Compared for HeldGlob {
    ghost selects = { λ held. IsMeant held.matcher };

    fn selector(&self) -> Selector<'_> {
        self.matcher.glob().selector()
    }
}

/// A handle: a pointer to a glob that it owns, or a pointer that owns nothing.
#[repr(C)]
#[derive(Drop)]
pub struct GlobHandle {
    pub at: *mut u8,
    pub alloc: Global,
    pub ghost held: { Option GlobView } by { coded_option glob_code },
}

impl Model for GlobHandle {
    ghost use Rattle.wax_c.specs.GlobOwned.{owned_glob_at};

    ghost also_owns = { λ handle. owned_glob_at handle.alloc handle.at handle.held };
}

impl GlobHandle {
    /// Converts what a box held into a handle.
    pub(crate) fn of(loose: Loose<HeldGlob, Global>) -> GlobHandle
        ensures { result.held ≡ Some loose.value.matcher }
    {
        let Loose { at, alloc } = loose;
        GlobHandle {
            at: at as *mut u8,
            alloc,
        }
    }

    /// Returns a handle that owns nothing.
    pub(crate) fn null(alloc: Global) -> GlobHandle
        ensures { (result.held ≡ None) × (result.at ≡ null_ptr) }
    {
        GlobHandle {
            at: std::ptr::null_mut(),
            alloc,
        }
    }
}
