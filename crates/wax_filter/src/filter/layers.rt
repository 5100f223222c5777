//! Filters as iterators, and iterators as filters.

ghost use Rattle.std.specs.{Prelude.{◌≡◌, Option}, Iterator.{MakesProgress, IsFinite}};
ghost use Rattle.wax_filter.specs.Feeding.{NextFiltrate};

use crate::filter::cancel::SeparatingFilter;
use crate::filter::product::Product;
use crate::filter::separation::{Feed, Separation};

/// Returns the next item that is kept, or `None` at the end. Excluded items before it are skipped.
pub fn filtrate<I>(filter: &mut I) -> Option<<I::Feed as Feed>::Filtrate>
where
    I: SeparatingFilter,
    <I::Feed as Feed>::Residue: Drop,
    requires can { I.can_feed filter.old }
    requires ends { IsFinite (I.left filter.old) }
    ensures steps { NextFiltrate I.feeds filter.old result filter.new }
    ensures goes { MakesProgress I.can_feed I.left filter.old result filter.new }
{
    while let Some(separation) = filter.feed() {
        match separation {
            Separation::Filtrate(filtrate) => return Some(filtrate.into_inner()),
            Separation::Residue(_) => {}
        }
    }
    None
}

/// An iterator that excludes nothing, as the input of filters.
pub trait SeparatingFilterInput: Iterator {
    type Feed: Feed<Filtrate = Self::Item>;
}

impl<I> SeparatingFilter for I
where
    I: SeparatingFilterInput,
{
    ghost use Rattle.wax_filter.specs.Feeding.{KeepsAll};

    type Feed = <I as SeparatingFilterInput>::Feed;

    ghost can_feed = { λ s. I.can_next s };

    ghost feeds = { λ s r t. KeepsAll I.next_gives s r t };

    ghost left = { λ s. I.remaining s };

    fn feed(&mut self) -> Option<Separation<Self::Feed>> {
        match self.next() {
            None => None,
            Some(item) => Some(Separation::Filtrate(Product::new(item))),
        }
    }
}
