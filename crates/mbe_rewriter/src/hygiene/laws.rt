// The laws of renaming: what renaming leaves unchanged, and which names it keeps apart. The
// functions are empty: each contract states a law.
ghost use Rattle.mbe_rewriter.specs.Hygiene.Laws.{KeepsShapes, RenamesEach, OneNameEach};
ghost use Rattle.mbe_rewriter.specs.Hygiene.Laws.{NoNameAround, EachIsSettled};

/// Renaming changes nothing but the texts of words.
pub fn keeps_shapes()
    ensures { KeepsShapes }
{}

/// Each word has its own new name after renaming. A word that is no local and no label keeps its
/// name.
pub fn renames_each()
    ensures { RenamesEach }
{}

/// Two words that may be locals have one name after renaming exactly if they had one name and one
/// context before. A step binds one of the two, and that local is decided.
pub fn one_name_each()
    ensures { OneNameEach }
{}

/// A local that a step binds, and that is decided, has no name after renaming that is around the
/// trees.
pub fn no_name_around()
    ensures { NoNameAround }
{}

/// For each local that a step binds, one of three holds. It is decided, one of its uses is listed
/// as undecided, or no token in its scope has its name in another context.
pub fn each_is_settled()
    ensures { EachIsSettled }
{}
