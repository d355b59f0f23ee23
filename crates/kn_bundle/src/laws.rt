//! What is said of a bundle in the words of one account is said in those of another.
ghost use Rattle.kn_bundle.specs.Following.{FollowsSame};

/// Two accounts that write the same of each journal write the same of a bundle.
pub fn accounts_are_same()
    ensures same { FollowsSame }
{}
