// The laws of opening the groups of fragments: no group remains, and other trees are unchanged. The
// functions are empty: each contract states a law.
ghost use Rattle.mbe_rewriter.specs.WholeFragments.GroupLaws.{ChangesGroupsAlone, LeavesNoGroup};

/// The trees that `open_all_fragments` makes have no group of a fragment, if at most 1,000 groups
/// are around each tree.
pub fn leaves_no_group()
    ensures { LeavesNoGroup }
{}

/// Neither `open_fragments` nor `open_all_fragments` changes trees without a group of a fragment.
pub fn changes_groups_alone()
    ensures { ChangesGroupsAlone }
{}
