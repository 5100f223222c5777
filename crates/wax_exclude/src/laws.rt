//! Laws of walks that globs and filters select from, and of ignore lists, as contracts of functions that do
//! nothing.

ghost use Rattle.std.specs.Prelude.{List, ℕ};
ghost use Rattle.wax_token.specs.Reads.{Span};
ghost use Rattle.wax_tree.specs.Begins.{Begins};
ghost use Rattle.wax_exclude.specs.Deciding.{DecidingLineDecides, LastMatchDecides};
ghost use Rattle.wax_exclude.specs.Feeds.{FeedsByRequest, FeedsByRules, FeedsByWalk};
ghost use Rattle.wax_exclude.specs.Idle.{AllIdleLinesCanGo, IdleLinesCanGo, IdleLinesCanGoTogether};
ghost use Rattle.wax_exclude.specs.{Law.WalkLaw, NamesBelow.CancelsByNames, RootedLeading.LeadsFromRoot};
ghost use Rattle.wax_exclude.specs.TreeRequests.{tree_request, WantsUnfiltered};
ghost use Rattle.wax_exclude.specs.GlobRequests.{ComesWanted, CanBegin, request_excluding};
ghost use Rattle.wax_exclude.specs.Unignored.{GivesUnignored, LosesIgnored};
ghost use Rattle.wax_exclude.specs.{RuledWalks.{ComesRuled, RuledWalk, with_rule}, Told.OpensListed};
ghost use Rattle.wax_exclude.specs.{Wanted.Filter, WantedEntries.SelectsWanted};
ghost use Rattle.wax_walk.specs.{declared.filter_entry.FilterEntry.FilterEntry, Given.{Facts, Mark}};
ghost use Rattle.wax_walk.specs.{Says.{SaysByRule, closure_view}, View.IsSeenAs};

use wax_directory::directory::Directory;
use wax_tree::{DepthRange, WalkTree};
use wax_walk::{EntryResidue, FileIterator, FilterEntry, TreeEntry};

/// States that a glob's walk keeps exactly the wanted entries of the plain walk, in order, and
/// lists only folders that may hold one. If nothing is wanted, it may yield nothing and list
/// nothing. A walk that opens only folders below which something is matched keeps exactly these
/// entries, too, and lists exactly the folders that it may open.
pub fn law_of_walks()
    ensures { WalkLaw }
{}

/// States that the feed of a walk with any filters, as a list, is what they leave of the list of the
/// whole walk, errors included: all items but those below an earlier entry that they exclude with
/// everything below it. States also that by its calls the walk opens exactly the folders that its
/// forest lists, in order, where those that can't be listed count.
pub fn law_of_feeds()
    ensures rules { FeedsByRules }
    ensures walks { FeedsByWalk }
    ensures requests { FeedsByRequest }
    ensures opens { OpensListed }
{}

/// States that a closure whose results depend only on the entry filters a walk by one more rule. So
/// what is to come after `filter_entry` is known, as a list and by what the directory answers.
pub fn law_of_closures<I, F>(walk: &I, f: &F)
where
    I: FileIterator,
    F: FnMut(&TreeEntry) -> Option<EntryResidue>,
    ensures { (d : I.Directory) (ruled : RuledWalk) (rule : Facts → Mark) (kept : FilterEntry I F)
        → SaysByRule F.step rule f.now
        → IsSeenAs (closure_view F.step (I.view walk.now) f.now)
        (⟦<FilterEntry<I, F> as FileIterator>⟧.view kept)
        → ComesRuled I.Directory.law d ruled (I.view walk.now)
        → ComesRuled I.Directory.law d (with_rule ruled rule)
        (⟦<FilterEntry<I, F> as FileIterator>⟧.view kept) }
{
    let _walk = walk;
    let _f = f;
}

/// States that a plain walk filtered by an ignore list keeps exactly the entries that the list
/// doesn't ignore, in order, and that everything below a folder that it doesn't list is ignored.
pub fn law_of_ignoring()
    ensures gives { GivesUnignored }
    ensures lists { LosesIgnored }
{}

/// States that a plain walk is the walk of `**`, so that filters over it exclude from it what they
/// exclude from a glob's walk. Without what filters exclude, its entries are those in range that no
/// filter excludes, in order.
pub fn law_of_plain_walks<D: Directory>(walk: &WalkTree<D>)
    ensures comes { (d : D) (range : DepthRange) (start : List ℕ)
        → Begins D.law d start range (⟦<WalkTree<D> as FileIterator>⟧.view walk.now)
        → ComesWanted D.law d (tree_request range start) (⟦<WalkTree<D> as FileIterator>⟧.view walk.now) }
    ensures goes { (range : DepthRange) (start : List ℕ) (filters : List (Filter Span))
        → CanBegin (request_excluding (tree_request range start) filters) }
    ensures wanted { WantsUnfiltered }
{
    let _walk = walk;
}

/// States which entries are wanted of a walk: of the whole walk, exactly those in range that the glob
/// matches, that no pattern matches, and of which no ignore list has a last matching line that
/// ignores, in order.
pub fn law_of_wanted()
    ensures { SelectsWanted }
{}

/// States that a glob whose matches all begin with `/` has the same leading components in a walk
/// from the root as in any other.
pub fn law_of_rooted_leading()
    ensures { LeadsFromRoot }
{}

/// States that an entry is cancelled exactly if an earlier entry that is excluded with everything
/// below it has a candidate whose names are the first ones of its own.
pub fn law_of_cancelling()
    ensures { CancelsByNames }
{}

/// States that an ignore list ignores a text exactly if its last line that matches the text has no
/// `!`, whichever way that line is named.
pub fn law_of_last_match()
    ensures last { LastMatchDecides }
    ensures index { DecidingLineDecides }
{}

/// States that without a line that decides nothing, an ignore list ignores the same plain paths; and
/// so without some of these lines, or without all of them at once.
pub fn law_of_idle_lines()
    ensures one { IdleLinesCanGo }
    ensures some { IdleLinesCanGoTogether }
    ensures all { AllIdleLinesCanGo }
{}
