// Laws of the definitions: each function's contract is one law, and calling it does nothing.

ghost use Rattle.area_headlines.specs.Rows.{ClearKept, FollowKept, ReleaseKept};

use block_headlines::laws::headlines_kept;

/// A worked row: an area that is assigned to another and emptied, so that a pointer into it is told when it is read.
pub fn clear_kept()
    ensures { ClearKept }
{
    headlines_kept();
}

/// A worked row: what is allocated in an area is freed twice, which is told.
pub fn release_kept()
    ensures { ReleaseKept }
{
    headlines_kept();
}

/// A worked row: what one pointer held is followed by another one, and the two are compared.
pub fn follow_kept()
    ensures { FollowKept }
{
    headlines_kept();
}
