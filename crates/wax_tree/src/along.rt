//! The law of walks along names.
ghost use Rattle.wax_tree.specs.Follows.{FollowsNames, StopsAtFault};

/// States that a walk along names is the plain walk from where they lead, and one error if some of
/// them lead to something that has no names or can't be listed.
pub fn law_of_names()
    ensures follows { FollowsNames }
    ensures stops { StopsAtFault }
{}
