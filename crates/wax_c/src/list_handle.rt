//! Handles of ignore lists.
ghost use Rattle.std.specs.{Coded.coded_option, Prelude.{◌≡◌, None, Option, Some}};
ghost use Rattle.wax.specs.{contracts.ignoring.IgnoreList.the_row, declared.ignoring.IgnoreList.IgnoreList};
ghost use denote.RawPtr.{null_ptr};

use crate::loose::Loose;
use std::alloc::Global;
use std::marker::Model;
use wax::walk::IgnoreList;

/// A handle: a pointer to an ignore list that it owns, or a pointer that owns nothing.
#[repr(C)]
#[derive(Drop)]
pub struct ListHandle {
    pub at: *mut u8,
    pub alloc: Global,
    pub ghost held: { Option IgnoreList } by { coded_option the_row.coded },
}

impl Model for ListHandle {
    ghost use Rattle.wax_c.specs.ListOwned.{owned_list_at};

    ghost also_owns = { λ handle. owned_list_at handle.alloc handle.at handle.held };
}

impl ListHandle {
    /// Converts what a box held into a handle.
    pub(crate) fn of(loose: Loose<IgnoreList, Global>) -> ListHandle
        ensures { result.held ≡ Some loose.value }
    {
        let Loose { at, alloc } = loose;
        ListHandle {
            at: at as *mut u8,
            alloc,
        }
    }

    /// Returns a handle that owns nothing.
    pub(crate) fn null(alloc: Global) -> ListHandle
        ensures { (result.held ≡ None) × (result.at ≡ null_ptr) }
    {
        ListHandle {
            at: std::ptr::null_mut(),
            alloc,
        }
    }
}
