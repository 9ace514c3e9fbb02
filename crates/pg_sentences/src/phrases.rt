//! Words that are the same wherever they are said.

/// Where something is said, before the first move.
pub const AT_THE_START: &str = "at the start";

/// Where something is said, up to the moves that lead there.
pub const AFTER: &str = "after ";

/// What is said of a reference, up to where its node stands.
pub const AS: &str = "as ";

/// What is said behind a node that has no game below.
pub const BARREN: &str = ", below which no game ends on the diagram";

/// What is said of a cut, up to why it excludes.
pub const EXCLUDED: &str = "excluded: ";

/// What is said of a cut that is not seen to exclude, up to the code of the bound.
pub const CUT_BY: &str = "cut by bound ";

/// The rest of that.
pub const UNSEEN: &str = ", which is not seen to exclude";

/// What is said of a leaf on the diagram.
pub const SOLUTION: &str = "a solution";

/// What is said of another leaf.
pub const ELSEWHERE: &str = "does not end on the diagram";
